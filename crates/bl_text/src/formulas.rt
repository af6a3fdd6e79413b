//! Formulas are read by recursive descent: a function for each level of the grammar. It goes no
//! deeper than there are nodes left and parentheses may be open. Each token is read once: the one
//! after a formula's first token tells how it goes on, and is handed down as `ahead`: one place for
//! all levels. Functions that call themselves hold boxes and places alone, and drop no formula
//! themselves, so that the deepest text takes little of the stack.

ghost use Rattle.std.specs.Prelude.{◌≡◌, ℕ, ◌+◌, ◌-◌, ◌≤◌, List, length, true, false, Err, IfOk, IfErr};
ghost use Rattle.bl_syntax.specs.declared.limits.TheConstants.{MOST_FORMULA_NODES};
ghost use Rattle.bl_syntax.specs.Formula.{formula_view};
ghost use Rattle.bl_tokens.specs.declared.faults.TextFault.{TextFault};
ghost use Rattle.bl_text.specs.Scope.{variables};
ghost use Rattle.bl_tokens.specs.Tokens.{cursor_after_node, is_sign, is_word};
ghost use Rattle.bl_text.specs.Grammar.{is_quantifier, is_saying, is_call};
ghost use Rattle.bl_text.specs.Grammar as grammar;
ghost use Rattle.bl_text.specs.FirstFaults.{HasFirstFault, ArgumentsHaveFirstFault, CallHasFirstFault};
ghost use Rattle.bl_text.specs.Read.{ReadsFormula, ReadsArguments, ReadsCall, PutsOn, IntervalHasFirstFault};

use crate::pieces::{
    argument, binder, count, expect_sign, go_behind, interval, look_ahead, next_argument,
    simple_formula, speaker, step_into, step_node,
};
use crate::predicates::{apply_predicate, is_atom};
use crate::scope::Scope;
use bl_syntax::boxes::{both_of, either_of, every_of, implies_of, on_of, says_of, some_of};
use bl_syntax::limits::MOST_FORMULA_NODES;
use bl_syntax::{Formula, Principal, Sequence, Terms};
use bl_tokens::{
    Cursor, Keyword, Sign, TextFault, Token, cursor_after, cursor_after_node, is_sign, is_word,
};
use std::alloc::Global;

/// Drops what was read so far. No caller has room for a formula.
#[inline(never)]
fn discard(_read: Box<Formula>) {}

/// The formula on the interval after the sign `@` at that place. It goes past the interval.
#[inline(never)]
fn on_interval(
    alloc: Global,
    text: &[u8],
    in_statement: bool,
    scope: &Scope<'_>,
    a: Box<Formula>,
    here: &mut Cursor,
) -> Result<Box<Formula>, TextFault>
    requires scope { length (variables scope.now) ≤ MOST_FORMULA_NODES }
    requires within { here.old.end ≤ length text.now }
    ensures read { IfOk result (λ f. PutsOn text.now in_statement (variables scope.now) here.old here.new (formula_view a.value) (formula_view f.value)) }
    ensures fault { IfErr result (λ e. IntervalHasFirstFault text.now in_statement (variables scope.now) here.old e) }
{
    let (from, to) = interval(text, in_statement, scope, here)?;
    Ok(on_of(alloc, a, &from, &to)?)
}

/// Whether a principal or a variable stands there, before `says`.
#[tactic(auto, unfolding(crate::specs::Grammar::is_saying))]
fn is_saying(here: &Cursor, ahead: &Cursor) -> bool
    ensures { (text : List ℕ) → ahead.now ≡ cursor_after_node text here.now →
        result ≡ is_saying text here.now }
{
    match &here.token {
        Token::Name(_) | Token::Variable(_) => is_word(Keyword::Says, &ahead.token),
        _ => false,
    }
}

/// Whether a name stands there, before `(`.
#[tactic(auto, unfolding(crate::specs::Grammar::is_call))]
fn is_call(here: &Cursor, ahead: &Cursor) -> bool
    ensures { (text : List ℕ) → ahead.now ≡ cursor_after_node text here.now →
        result ≡ is_call text here.now }
{
    match &here.token {
        Token::Name(_) => is_sign(Sign::Open, &ahead.token),
        _ => false,
    }
}

/// The terms between commas from that place on, and what follows them.
fn arguments(
    alloc: Global,
    text: &[u8],
    in_statement: bool,
    scope: &Scope<'_>,
    is_atom: bool,
    here: &Cursor,
) -> Result<(Terms, Cursor), TextFault>
    requires scope { length (variables scope.now) ≤ MOST_FORMULA_NODES }
    requires within { here.now.end ≤ length text.now }
    ensures read { IfOk result (λ r. ReadsArguments text.now in_statement (variables scope.now) is_atom here.now r.1 r.0) }
    ensures fault { IfErr result (λ e. ArgumentsHaveFirstFault text.now in_statement (variables scope.now) is_atom here.now e) }
{
    let first = argument(in_statement, scope, here)?;
    let mut terms = Sequence::new(alloc);
    terms.extend(&[first])?;
    let mut there = cursor_after_node(text, here);
    'further: while is_sign(Sign::Comma, &there.token) {
        let place = cursor_after(text, &there);
        let next = next_argument(in_statement, scope, is_atom, terms.len(), &place)?;
        terms.extend(&[next])?;
        there = cursor_after_node(text, &place);
    }
    Ok((terms, there))
}

/// The predicate of that name at that place, before `(`, with its arguments, and what follows it.
fn named_call(
    alloc: Global,
    text: &[u8],
    in_statement: bool,
    scope: &Scope<'_>,
    name: &Principal,
    here: &Cursor,
    ahead: &Cursor,
) -> Result<(Box<Formula>, Cursor), TextFault>
    requires scope { length (variables scope.now) ≤ MOST_FORMULA_NODES }
    requires within { here.now.end ≤ length text.now }
    requires ahead { ahead.now ≡ cursor_after_node text.now here.now }
    requires ahead_within { ahead.now.end ≤ length text.now }
    requires ahead_left { ahead.now.left ≡ here.now.left - 1 }
    requires name { here.now.token ≡ Token.Name name.now }
    ensures read { IfOk result (λ r. ReadsCall text.now in_statement (variables scope.now) here.now r.1 (formula_view r.0.value)) }
    ensures fault { IfErr result (λ e. CallHasFirstFault text.now in_statement (variables scope.now) here.now e) }
{
    count(here)?;
    let (terms, mid) = arguments(
        alloc,
        text,
        in_statement,
        scope,
        is_atom(name),
        &cursor_after(text, ahead),
    )?;
    let there = expect_sign(text, Sign::Close, &mid)?;
    let f = apply_predicate(alloc, scope, here.at, name, terms)?;
    Ok((f, there))
}

/// The predicate of a name at that place, before `(`, with its arguments, and what follows it.
fn call(
    alloc: Global,
    text: &[u8],
    in_statement: bool,
    scope: &Scope<'_>,
    here: &Cursor,
    ahead: &Cursor,
) -> Result<(Box<Formula>, Cursor), TextFault>
    requires scope { length (variables scope.now) ≤ MOST_FORMULA_NODES }
    requires within { here.now.end ≤ length text.now }
    requires ahead { ahead.now ≡ cursor_after_node text.now here.now }
    requires ahead_within { ahead.now.end ≤ length text.now }
    requires ahead_left { ahead.now.left ≡ here.now.left - 1 }
    requires call { is_call text.now here.now ≡ true }
    ensures read { IfOk result (λ r. ReadsCall text.now in_statement (variables scope.now) here.now r.1 (formula_view r.0.value)) }
    ensures fault { IfErr result (λ e. CallHasFirstFault text.now in_statement (variables scope.now) here.now e) }
{
    match &here.token {
        Token::Name(name) => named_call(alloc, text, in_statement, scope, name, here, ahead),
        _ => unreachable!(),
    }
}

/// A formula without parentheses at that place, and goes past it.
#[inline(never)]
fn simple_here(
    alloc: Global,
    text: &[u8],
    in_statement: bool,
    scope: &Scope<'_>,
    here: &mut Cursor,
    ahead: &Cursor,
) -> Result<Box<Formula>, TextFault>
    requires scope { length (variables scope.now) ≤ MOST_FORMULA_NODES }
    requires within { here.old.end ≤ length text.now }
    requires ahead { ahead.now ≡ cursor_after_node text.now here.old }
    requires ahead_within { ahead.now.end ≤ length text.now }
    requires ahead_left { ahead.now.left ≡ here.old.left - 1 }
    requires not_open { is_sign Sign.Open here.old.token ≡ false }
    requires no_call { is_call text.now here.old ≡ false }
    ensures read { IfOk result (λ f. (depth : ℕ) → ReadsFormula text.now in_statement
        grammar.primary (variables scope.now) depth here.old here.new (formula_view f.value)) }
    ensures fault { IfErr result (λ e. (depth : ℕ) → HasFirstFault text.now in_statement grammar.primary (variables scope.now) depth here.old e) }
{
    let (f, there) = simple_formula(alloc, text, in_statement, scope, here, ahead)?;
    *here = there;
    Ok(f)
}

/// A predicate with arguments at that place, and goes past it.
#[inline(never)]
fn call_here(
    alloc: Global,
    text: &[u8],
    in_statement: bool,
    scope: &Scope<'_>,
    here: &mut Cursor,
    ahead: &Cursor,
) -> Result<Box<Formula>, TextFault>
    requires scope { length (variables scope.now) ≤ MOST_FORMULA_NODES }
    requires within { here.old.end ≤ length text.now }
    requires ahead { ahead.now ≡ cursor_after_node text.now here.old }
    requires ahead_within { ahead.now.end ≤ length text.now }
    requires ahead_left { ahead.now.left ≡ here.old.left - 1 }
    requires not_open { is_sign Sign.Open here.old.token ≡ false }
    requires call { is_call text.now here.old ≡ true }
    ensures read { IfOk result (λ f. (depth : ℕ) → ReadsFormula text.now in_statement
        grammar.primary (variables scope.now) depth here.old here.new (formula_view f.value)) }
    ensures fault { IfErr result (λ e. (depth : ℕ) → HasFirstFault text.now in_statement grammar.primary (variables scope.now) depth here.old e) }
{
    let (f, there) = call(alloc, text, in_statement, scope, here, ahead)?;
    *here = there;
    Ok(f)
}

/// Reads a formula without signs.
fn primary(
    alloc: Global,
    text: &[u8],
    in_statement: bool,
    scope: &Scope<'_>,
    here: &mut Cursor,
    ahead: &Cursor,
) -> Result<Box<Formula>, TextFault>
    requires scope { length (variables scope.now) ≤ MOST_FORMULA_NODES }
    requires within { here.old.end ≤ length text.now }
    requires ahead { ahead.now ≡ cursor_after_node text.now here.old }
    requires ahead_within { ahead.now.end ≤ length text.now }
    requires ahead_left { ahead.now.left ≡ here.old.left - 1 }
    requires not_open { is_sign Sign.Open here.old.token ≡ false }
    ensures read { IfOk result (λ f. (depth : ℕ) → ReadsFormula text.now in_statement
        grammar.primary (variables scope.now) depth here.old here.new (formula_view f.value)) }
    ensures fault { IfErr result (λ e. (depth : ℕ) → HasFirstFault text.now in_statement grammar.primary (variables scope.now) depth here.old e) }
{
    if is_call(here, ahead) {
        call_here(alloc, text, in_statement, scope, here, ahead)
    } else {
        simple_here(alloc, text, in_statement, scope, here, ahead)
    }
}

/// Reads a formula without parentheses round it, on intervals.
#[inline(never)]
fn postfix(
    alloc: Global,
    text: &[u8],
    in_statement: bool,
    scope: &Scope<'_>,
    here: &mut Cursor,
    ahead: &Cursor,
) -> Result<Box<Formula>, TextFault>
    requires scope { length (variables scope.now) ≤ MOST_FORMULA_NODES }
    requires within { here.old.end ≤ length text.now }
    requires ahead { ahead.now ≡ cursor_after_node text.now here.old }
    requires ahead_within { ahead.now.end ≤ length text.now }
    requires ahead_left { ahead.now.left ≡ here.old.left - 1 }
    requires not_open { is_sign Sign.Open here.old.token ≡ false }
    ensures read { IfOk result (λ f. (depth : ℕ) → ReadsFormula text.now in_statement
        grammar.postfix (variables scope.now) depth here.old here.new (formula_view f.value)) }
    ensures fault { IfErr result (λ e. (depth : ℕ) → HasFirstFault text.now in_statement grammar.postfix (variables scope.now) depth here.old e) }
{
    let first = primary(alloc, text, in_statement, scope, here, ahead)?;
    let mut a = first;
    'at: while is_sign(Sign::At, &here.token) {
        a = on_interval(alloc, text, in_statement, scope, a, here)?;
    }
    Ok(a)
}

/// Reads the formula at that place, and goes past it. It only chooses the function that does, so it takes no frame.
#[inline(always)]
#[cycle(descent)]
pub fn formula_at(
    alloc: Global,
    text: &[u8],
    in_statement: bool,
    scope: &Scope<'_>,
    depth: u16,
    here: &mut Cursor,
    ahead: &mut Cursor,
) -> Result<Box<Formula>, TextFault>
    requires scope { length (variables scope.now) + here.old.left ≤ MOST_FORMULA_NODES }
    requires within { here.old.end ≤ length text.now }
    ensures read { IfOk result (λ f. ReadsFormula text.now in_statement grammar.formula (variables scope.now) depth here.old here.new (formula_view f.value)) }
    ensures fault { IfErr result (λ e. HasFirstFault text.now in_statement grammar.formula (variables scope.now) depth here.old e) }
{
    if is_word(Keyword::Forall, &here.token) {
        for_every(alloc, text, in_statement, scope, depth, here, ahead)
    } else if is_word(Keyword::Exists, &here.token) {
        for_some(alloc, text, in_statement, scope, depth, here, ahead)
    } else {
        implication(alloc, text, in_statement, scope, depth, here, ahead)
    }
}

/// Reads the formula at that place, which begins with `forall`.
#[inline(never)]
#[cycle(descent)]
fn for_every(
    alloc: Global,
    text: &[u8],
    in_statement: bool,
    scope: &Scope<'_>,
    depth: u16,
    here: &mut Cursor,
    ahead: &mut Cursor,
) -> Result<Box<Formula>, TextFault>
    requires scope { length (variables scope.now) + here.old.left ≤ MOST_FORMULA_NODES }
    requires within { here.old.end ≤ length text.now }
    requires word { is_word Keyword.Forall here.old.token ≡ true }
    ensures read { IfOk result (λ f. ReadsFormula text.now in_statement grammar.formula (variables scope.now) depth here.old here.new (formula_view f.value)) }
    ensures fault { IfErr result (λ e. HasFirstFault text.now in_statement grammar.formula (variables scope.now) depth here.old e) }
{
    let (name, sort) = binder(text, here)?;
    let inner = Scope::Inside(name, sort, &*scope);
    let a = formula_at(alloc, text, in_statement, &inner, depth, here, ahead)?;
    Ok(every_of(alloc, sort, a)?)
}

/// Reads the formula at that place, which begins with `exists`.
#[inline(never)]
#[cycle(descent)]
fn for_some(
    alloc: Global,
    text: &[u8],
    in_statement: bool,
    scope: &Scope<'_>,
    depth: u16,
    here: &mut Cursor,
    ahead: &mut Cursor,
) -> Result<Box<Formula>, TextFault>
    requires scope { length (variables scope.now) + here.old.left ≤ MOST_FORMULA_NODES }
    requires within { here.old.end ≤ length text.now }
    requires word { is_word Keyword.Exists here.old.token ≡ true }
    ensures read { IfOk result (λ f. ReadsFormula text.now in_statement grammar.formula (variables scope.now) depth here.old here.new (formula_view f.value)) }
    ensures fault { IfErr result (λ e. HasFirstFault text.now in_statement grammar.formula (variables scope.now) depth here.old e) }
{
    let (name, sort) = binder(text, here)?;
    let inner = Scope::Inside(name, sort, &*scope);
    let a = formula_at(alloc, text, in_statement, &inner, depth, here, ahead)?;
    Ok(some_of(alloc, sort, a)?)
}

/// Reads the formula at that place, which begins with no quantifier.
#[inline(never)]
#[cycle(descent)]
fn implication(
    alloc: Global,
    text: &[u8],
    in_statement: bool,
    scope: &Scope<'_>,
    depth: u16,
    here: &mut Cursor,
    ahead: &mut Cursor,
) -> Result<Box<Formula>, TextFault>
    requires scope { length (variables scope.now) + here.old.left ≤ MOST_FORMULA_NODES }
    requires within { here.old.end ≤ length text.now }
    requires no_quantifier { is_quantifier here.old.token ≡ false }
    ensures read { IfOk result (λ f. ReadsFormula text.now in_statement grammar.formula (variables scope.now) depth here.old here.new (formula_view f.value)) }
    ensures fault { IfErr result (λ e. HasFirstFault text.now in_statement grammar.formula (variables scope.now) depth here.old e) }
{
    let a = disjunction(alloc, text, in_statement, scope, depth, here, ahead)?;
    if !is_sign(Sign::Implies, &here.token) {
        return Ok(a);
    }
    match count(here) {
        Ok(()) => {
            step_node(text, here);
            match formula_at(alloc, text, in_statement, scope, depth, here, ahead) {
                Ok(b) => Ok(implies_of(alloc, a, b)?),
                Err(fault) => {
                    discard(a);
                    Err(fault)
                }
            }
        }
        Err(fault) => {
            discard(a);
            Err(fault)
        }
    }
}

/// Reads formulas between `|`.
#[cycle(descent)]
fn disjunction(
    alloc: Global,
    text: &[u8],
    in_statement: bool,
    scope: &Scope<'_>,
    depth: u16,
    here: &mut Cursor,
    ahead: &mut Cursor,
) -> Result<Box<Formula>, TextFault>
    requires scope { length (variables scope.now) + here.old.left ≤ MOST_FORMULA_NODES }
    requires within { here.old.end ≤ length text.now }
    ensures read { IfOk result (λ f. ReadsFormula text.now in_statement grammar.disjunction
        (variables scope.now) depth here.old here.new (formula_view f.value)) }
    ensures fault { IfErr result (λ e. HasFirstFault text.now in_statement grammar.disjunction (variables scope.now) depth here.old e) }
{
    let first = conjunction(alloc, text, in_statement, scope, depth, here, ahead)?;
    let mut a = first;
    'or: while is_sign(Sign::Or, &here.token) {
        match count(here) {
            Ok(()) => {
                step_node(text, here);
                match conjunction(alloc, text, in_statement, scope, depth, here, ahead) {
                    Ok(b) => a = either_of(alloc, a, b)?,
                    Err(fault) => {
                        discard(a);
                        return Err(fault);
                    }
                }
            }
            Err(fault) => {
                discard(a);
                return Err(fault);
            }
        }
    }
    Ok(a)
}

/// Reads formulas between `&`.
#[cycle(descent)]
fn conjunction(
    alloc: Global,
    text: &[u8],
    in_statement: bool,
    scope: &Scope<'_>,
    depth: u16,
    here: &mut Cursor,
    ahead: &mut Cursor,
) -> Result<Box<Formula>, TextFault>
    requires scope { length (variables scope.now) + here.old.left ≤ MOST_FORMULA_NODES }
    requires within { here.old.end ≤ length text.now }
    ensures read { IfOk result (λ f. ReadsFormula text.now in_statement grammar.conjunction
        (variables scope.now) depth here.old here.new (formula_view f.value)) }
    ensures fault { IfErr result (λ e. HasFirstFault text.now in_statement grammar.conjunction (variables scope.now) depth here.old e) }
{
    let first = unary(alloc, text, in_statement, scope, depth, here, ahead)?;
    let mut a = first;
    'and: while is_sign(Sign::And, &here.token) {
        match count(here) {
            Ok(()) => {
                step_node(text, here);
                match unary(alloc, text, in_statement, scope, depth, here, ahead) {
                    Ok(b) => a = both_of(alloc, a, b)?,
                    Err(fault) => {
                        discard(a);
                        return Err(fault);
                    }
                }
            }
            Err(fault) => {
                discard(a);
                return Err(fault);
            }
        }
    }
    Ok(a)
}

/// Reads a formula that a principal says, or one without `says`. It only chooses the function that does, so that what
/// reads a formula without parentheses takes no room while one in parentheses is read.
#[inline(always)]
#[cycle(descent)]
fn unary(
    alloc: Global,
    text: &[u8],
    in_statement: bool,
    scope: &Scope<'_>,
    depth: u16,
    here: &mut Cursor,
    ahead: &mut Cursor,
) -> Result<Box<Formula>, TextFault>
    requires scope { length (variables scope.now) + here.old.left ≤ MOST_FORMULA_NODES }
    requires within { here.old.end ≤ length text.now }
    ensures read { IfOk result (λ f. ReadsFormula text.now in_statement grammar.unary (variables scope.now) depth here.old here.new (formula_view f.value)) }
    ensures fault { IfErr result (λ e. HasFirstFault text.now in_statement grammar.unary (variables scope.now) depth here.old e) }
{
    look_ahead(text, here, ahead);
    if is_saying(here, ahead) {
        says_formula(alloc, text, in_statement, scope, depth, here, ahead)
    } else if is_sign(Sign::Open, &here.token) {
        grouped(alloc, text, in_statement, scope, depth, here, ahead)
    } else {
        postfix(alloc, text, in_statement, scope, here, ahead)
    }
}

/// Reads a formula that the principal at that place says.
#[inline(never)]
#[cycle(descent)]
fn says_formula(
    alloc: Global,
    text: &[u8],
    in_statement: bool,
    scope: &Scope<'_>,
    depth: u16,
    here: &mut Cursor,
    ahead: &mut Cursor,
) -> Result<Box<Formula>, TextFault>
    requires scope { length (variables scope.now) + here.old.left ≤ MOST_FORMULA_NODES }
    requires within { here.old.end ≤ length text.now }
    requires ahead { ahead.old ≡ cursor_after_node text.now here.old }
    requires ahead_within { ahead.old.end ≤ length text.now }
    requires ahead_left { ahead.old.left ≡ here.old.left - 1 }
    requires saying { is_saying text.now here.old ≡ true }
    ensures read { IfOk result (λ f. ReadsFormula text.now in_statement grammar.unary (variables scope.now) depth here.old here.new (formula_view f.value)) }
    ensures fault { IfErr result (λ e. HasFirstFault text.now in_statement grammar.unary (variables scope.now) depth here.old e) }
{
    let who = speaker(text, scope, here, ahead)?;
    let a = unary(alloc, text, in_statement, scope, depth, here, ahead)?;
    Ok(says_of(alloc, &who, a)?)
}

/// Reads the formula in the parentheses that open at that place, on intervals.
#[inline(never)]
#[cycle(descent)]
fn grouped(
    alloc: Global,
    text: &[u8],
    in_statement: bool,
    scope: &Scope<'_>,
    depth: u16,
    here: &mut Cursor,
    ahead: &mut Cursor,
) -> Result<Box<Formula>, TextFault>
    requires scope { length (variables scope.now) + here.old.left ≤ MOST_FORMULA_NODES }
    requires within { here.old.end ≤ length text.now }
    requires ahead { ahead.old ≡ cursor_after_node text.now here.old }
    requires ahead_within { ahead.old.end ≤ length text.now }
    requires ahead_left { ahead.old.left ≡ here.old.left - 1 }
    requires open { is_sign Sign.Open here.old.token ≡ true }
    ensures read { IfOk result (λ f. ReadsFormula text.now in_statement grammar.postfix (variables scope.now) depth here.old here.new (formula_view f.value)) }
    ensures fault { IfErr result (λ e. HasFirstFault text.now in_statement grammar.postfix (variables scope.now) depth here.old e) }
{
    let first = group(alloc, text, in_statement, scope, depth, here, ahead)?;
    let mut a = first;
    'at: while is_sign(Sign::At, &here.token) {
        a = on_interval(alloc, text, in_statement, scope, a, here)?;
    }
    Ok(a)
}

/// Reads the formula in the parentheses that open at that place.
#[cycle(descent)]
fn group(
    alloc: Global,
    text: &[u8],
    in_statement: bool,
    scope: &Scope<'_>,
    depth: u16,
    here: &mut Cursor,
    ahead: &mut Cursor,
) -> Result<Box<Formula>, TextFault>
    requires scope { length (variables scope.now) + here.old.left ≤ MOST_FORMULA_NODES }
    requires within { here.old.end ≤ length text.now }
    requires ahead { ahead.old ≡ cursor_after_node text.now here.old }
    requires ahead_within { ahead.old.end ≤ length text.now }
    requires ahead_left { ahead.old.left ≡ here.old.left - 1 }
    requires open { is_sign Sign.Open here.old.token ≡ true }
    ensures read { IfOk result (λ f. ReadsFormula text.now in_statement grammar.primary (variables scope.now) depth here.old here.new (formula_view f.value)) }
    ensures fault { IfErr result (λ e. HasFirstFault text.now in_statement grammar.primary (variables scope.now) depth here.old e) }
{
    if depth >= MOST_FORMULA_NODES {
        return Err(TextFault::TooLarge(here.at));
    }
    step_into(text, here, ahead);
    let a = formula_at(alloc, text, in_statement, scope, depth + 1, here, ahead)?;
    match go_behind(text, Sign::Close, here) {
        Ok(()) => Ok(a),
        Err(fault) => {
            discard(a);
            Err(fault)
        }
    }
}
