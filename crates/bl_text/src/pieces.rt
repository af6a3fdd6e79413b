//! The pieces of a formula's text that hold no formula themselves. Each is read in one way, and
//! has one first fault.

ghost use Rattle.std.specs.Prelude.{◌≡◌, ◌+◌, ◌-◌, ◌≤◌, ℕ, List, length, Ok, Err, OnOk, IfOk, MatchResult, if◌then◌else◌};
ghost use Rattle.bl_syntax.specs.declared.limits.TheConstants.{MOST_FORMULA_NODES};
ghost use Rattle.bl_syntax.specs.Formula.{truth, falsity};
ghost use Rattle.bl_text.specs.Scope.{variables};
ghost use Rattle.bl_tokens.specs.Tokens.{cursor_after, cursor_after_node};
ghost use Rattle.bl_text.specs.Pieces.{count, expect_sign, term_of, require_sayable, require_sort, argument, next_argument, time_argument, interval, variable_name, sort_at, binder, speaker, less_sign, comparison, bare_predicate, named_time, name_alone, constant_formula, simple_formula, GivesPieceWith};

use crate::predicates::apply_predicate;
use crate::scope::Scope;
use bl_syntax::boxes::{constraint_of, falsity_of, truth_of};
use bl_syntax::{Constraint, Formula, Principal, Sequence, Short, Sort, Term};
use bl_tokens::{
    Cursor, Keyword, Sign, TextFault, Token, cursor_after, cursor_after_node, is_sign,
};
use std::alloc::Global;

/// Takes a node for the token, where one is left.
#[tactic(auto, unfolding(crate::specs::Pieces::count))]
pub fn count(here: &Cursor) -> Result<(), TextFault>
    ensures value { result ≡ count here.now }
    ensures some { OnOk result (1 ≤ here.now.left) }
{
    if 1 <= here.left {
        Ok(())
    } else {
        Err(TextFault::TooLarge(here.at))
    }
}

/// What stands after the sign, where it is there.
#[tactic(auto, unfolding(crate::specs::Pieces::expect_sign))]
pub fn expect_sign(text: &[u8], sign: Sign, here: &Cursor) -> Result<Cursor, TextFault>
    requires { here.now.end ≤ length text.now }
    ensures value { result ≡ expect_sign text.now sign here.now }
    ensures within { IfOk result (λ there. there.end ≤ length text.now) }
    ensures left { IfOk result (λ there. there.left ≡ here.now.left) }
{
    if is_sign(sign, &here.token) {
        Ok(cursor_after(text, here))
    } else {
        Err(TextFault::Unexpected(here.at))
    }
}

/// Goes to the place after a token that is no node of the formula.
pub fn step(text: &[u8], here: &mut Cursor)
    requires { here.old.end ≤ length text.now }
    ensures same { here.new ≡ cursor_after text.now here.old }
    ensures within { here.new.end ≤ length text.now }
    ensures left { here.new.left ≡ here.old.left }
{
    *here = cursor_after(text, here);
}

/// Goes to the place after a token that is no node of the formula, by what was read ahead.
#[tactic(auto, unfolding(bl_tokens::specs::Tokens::cursor_after, bl_tokens::specs::Tokens::cursor_after_node, bl_tokens::specs::Tokens::token_from))]
#[inline(never)]
pub fn step_into(text: &[u8], here: &mut Cursor, ahead: &Cursor)
    requires ahead { ahead.now ≡ cursor_after_node text.now here.old }
    requires ahead_within { ahead.now.end ≤ length text.now }
    requires ahead_left { ahead.now.left ≡ here.old.left - 1 }
    ensures same { here.new ≡ cursor_after text.now here.old }
    ensures within { here.new.end ≤ length text.now }
    ensures left { here.new.left ≡ here.old.left }
{
    *here = Cursor {
        left: here.left,
        ..*ahead
    };
}

/// Reads the token after one that is a node of the formula, into `ahead`.
#[inline(never)]
pub fn look_ahead(text: &[u8], here: &Cursor, ahead: &mut Cursor)
    requires { here.now.end ≤ length text.now }
    ensures same { ahead.new ≡ cursor_after_node text.now here.now }
    ensures within { ahead.new.end ≤ length text.now }
    ensures left { ahead.new.left ≡ here.now.left - 1 }
{
    *ahead = cursor_after_node(text, here);
}

/// Goes to the place after a token that is a node of the formula.
#[inline(never)]
pub fn step_node(text: &[u8], here: &mut Cursor)
    requires { here.old.end ≤ length text.now }
    ensures same { here.new ≡ cursor_after_node text.now here.old }
    ensures within { here.new.end ≤ length text.now }
    ensures left { here.new.left ≡ here.old.left - 1 }
{
    *here = cursor_after_node(text, here);
}

/// Goes to the place after the sign, where it is there.
#[tactic(auto, unfolding(crate::specs::Pieces::expect_sign))]
#[inline(never)]
pub fn go_behind(text: &[u8], sign: Sign, here: &mut Cursor) -> Result<(), TextFault>
    requires { here.old.end ≤ length text.now }
    ensures value { MatchResult result (λ _. expect_sign text.now sign here.old ≡ Ok here.new) (λ e. expect_sign text.now sign here.old ≡ Err e) }
    ensures within { OnOk result (here.new.end ≤ length text.now) }
    ensures left { OnOk result (here.new.left ≡ here.old.left) }
{
    if is_sign(sign, &here.token) {
        step(text, here);
        Ok(())
    } else {
        Err(TextFault::Unexpected(here.at))
    }
}

/// The term that the token is.
#[tactic(auto, unfolding(crate::specs::Pieces::term_of))]
pub fn term_of(scope: &Scope<'_>, here: &Cursor) -> Result<Term, TextFault>
    requires { length (variables scope.now) ≤ MOST_FORMULA_NODES }
    ensures { result ≡ term_of (variables scope.now) here.now }
{
    match &here.token {
        Token::Name(name) => Ok(Term::Prin(*name)),
        Token::Constant(term) => Ok(*term),
        Token::Variable(name) => match scope.place_of(name) {
            Some(inner) => Ok(Term::Bound(inner)),
            None => Err(TextFault::UnknownName(here.at)),
        },
        Token::BadDate => Err(TextFault::BadDate(here.at)),
        _ => Err(TextFault::Unexpected(here.at)),
    }
}

/// A statement may not speak of the current time, nor of a parameter.
#[tactic(auto, unfolding(crate::specs::Pieces::require_sayable))]
fn require_sayable(in_statement: bool, at: usize, term: &Term) -> Result<(), TextFault>
    ensures { result ≡ require_sayable in_statement at term.now }
{
    match term {
        Term::Ctime | Term::Param(_) => {
            if in_statement {
                Err(TextFault::Sort(at))
            } else {
                Ok(())
            }
        }
        _ => Ok(()),
    }
}

/// The term may stand where that sort is wanted.
#[tactic(auto, unfolding(crate::specs::Pieces::require_sort))]
pub fn require_sort(
    scope: &Scope<'_>,
    wanted: Sort,
    at: usize,
    term: &Term,
) -> Result<(), TextFault>
    ensures { result ≡ require_sort (variables scope.now) wanted at term.now }
{
    if scope.is_of_wanted_sort(wanted, term) {
        Ok(())
    } else {
        Err(TextFault::Sort(at))
    }
}

/// A term as an argument of a predicate.
#[tactic(auto, unfolding(crate::specs::Pieces::argument))]
pub fn argument(in_statement: bool, scope: &Scope<'_>, here: &Cursor) -> Result<Term, TextFault>
    requires { length (variables scope.now) ≤ MOST_FORMULA_NODES }
    ensures value { result ≡ argument in_statement (variables scope.now) here.now }
    ensures some { OnOk result (1 ≤ here.now.left) }
{
    let term = term_of(scope, here)?;
    require_sayable(in_statement, here.at, &term)?;
    count(here)?;
    Ok(term)
}

/// A further argument after so many others. An atom takes no ninth one.
#[tactic(auto, unfolding(crate::specs::Pieces::next_argument))]
pub fn next_argument(
    in_statement: bool,
    scope: &Scope<'_>,
    is_atom: bool,
    others: usize,
    here: &Cursor,
) -> Result<Term, TextFault>
    requires { length (variables scope.now) ≤ MOST_FORMULA_NODES }
    ensures value { result ≡ next_argument in_statement (variables scope.now) is_atom others here.now }
    ensures some { OnOk result (1 ≤ here.now.left) }
{
    let term = argument(in_statement, scope, here)?;
    if is_atom && 8 <= others {
        Err(TextFault::TooLarge(here.at))
    } else {
        Ok(term)
    }
}

/// A term as a time.
#[tactic(auto, unfolding(crate::specs::Pieces::time_argument))]
fn time_argument(in_statement: bool, scope: &Scope<'_>, here: &Cursor) -> Result<Term, TextFault>
    requires { length (variables scope.now) ≤ MOST_FORMULA_NODES }
    ensures value { result ≡ time_argument in_statement (variables scope.now) here.now }
    ensures some { OnOk result (1 ≤ here.now.left) }
{
    let term = term_of(scope, here)?;
    require_sayable(in_statement, here.at, &term)?;
    require_sort(scope, Sort::Time, here.at, &term)?;
    count(here)?;
    Ok(term)
}

/// The times of the interval after the sign `@` at that place. It goes past the interval.
#[tactic(auto, unfolding(crate::specs::Pieces::interval))]
#[inline(never)]
pub fn interval(
    text: &[u8],
    in_statement: bool,
    scope: &Scope<'_>,
    here: &mut Cursor,
) -> Result<(Term, Term), TextFault>
    requires scope { length (variables scope.now) ≤ MOST_FORMULA_NODES }
    requires within { here.old.end ≤ length text.now }
    ensures value { MatchResult result (λ r. interval text.now in_statement (variables scope.now)
        here.old ≡ Ok (r.0, r.1, here.new)) (λ e. interval text.now in_statement
        (variables scope.now) here.old ≡ Err e) }
    ensures within { OnOk result (here.new.end ≤ length text.now) }
    ensures left { OnOk result (here.new.left + 1 ≤ here.old.left) }
{
    count(here)?;
    step_node(text, here);
    go_behind(text, Sign::OpenInterval, here)?;
    let from = time_argument(in_statement, scope, here)?;
    step_node(text, here);
    go_behind(text, Sign::Comma, here)?;
    let to = time_argument(in_statement, scope, here)?;
    step_node(text, here);
    go_behind(text, Sign::CloseInterval, here)?;
    Ok((from, to))
}

#[tactic(auto, unfolding(crate::specs::Pieces::variable_name))]
fn variable_name(here: &Cursor) -> Result<Short<32>, TextFault>
    ensures { result ≡ variable_name here.now }
{
    match &here.token {
        Token::Variable(name) => Ok(*name),
        _ => Err(TextFault::Unexpected(here.at)),
    }
}

#[tactic(auto, unfolding(crate::specs::Pieces::sort_at))]
fn sort_at(here: &Cursor) -> Result<Sort, TextFault>
    ensures { result ≡ sort_at here.now }
{
    match &here.token {
        Token::SortName(sort) => Ok(*sort),
        Token::Name(_)
        | Token::LongWord
        | Token::Keyword(_)
        | Token::Constant(Term::Ctime)
        | Token::Constant(Term::Perm(_)) => Err(TextFault::UnknownName(here.at)),
        _ => Err(TextFault::Unexpected(here.at)),
    }
}

/// The variable and the sort of a binder whose word stands at that place. It goes past the dot.
#[tactic(auto, unfolding(crate::specs::Pieces::binder))]
#[inline(never)]
pub fn binder(text: &[u8], here: &mut Cursor) -> Result<(Short<32>, Sort), TextFault>
    requires { here.old.end ≤ length text.now }
    ensures value { MatchResult result (λ r. binder text.now here.old ≡ Ok (r.0, r.1, here.new)) (λ e. binder text.now here.old ≡ Err e) }
    ensures within { OnOk result (here.new.end ≤ length text.now) }
    ensures left { OnOk result (here.new.left + 1 ≤ here.old.left) }
{
    count(here)?;
    step_node(text, here);
    let name = variable_name(here)?;
    step(text, here);
    go_behind(text, Sign::Colon, here)?;
    let sort = sort_at(here)?;
    step(text, here);
    go_behind(text, Sign::Dot, here)?;
    Ok((name, sort))
}

/// The principal at that place, before `says`. It goes past that word.
#[tactic(auto, unfolding(crate::specs::Pieces::speaker))]
#[inline(never)]
pub fn speaker(
    text: &[u8],
    scope: &Scope<'_>,
    here: &mut Cursor,
    ahead: &Cursor,
) -> Result<Term, TextFault>
    requires scope { length (variables scope.now) ≤ MOST_FORMULA_NODES }
    requires ahead { ahead.now ≡ cursor_after_node text.now here.old }
    requires ahead_within { ahead.now.end ≤ length text.now }
    requires ahead_left { ahead.now.left ≡ here.old.left - 1 }
    ensures value { MatchResult result (λ who. speaker text.now (variables scope.now) here.old
        ≡ Ok (who, here.new)) (λ e. speaker text.now (variables scope.now) here.old ≡ Err e) }
    ensures within { OnOk result (here.new.end ≤ length text.now) }
    ensures left { OnOk result (here.new.left + 1 ≤ here.old.left) }
{
    let at = here.at;
    let who = term_of(scope, here)?;
    count(here)?;
    *here = *ahead;
    require_sort(scope, Sort::Principal, at, &who)?;
    count(here)?;
    step_node(text, here);
    Ok(who)
}

/// The sign `<=`.
#[tactic(auto, unfolding(crate::specs::Pieces::less_sign))]
fn less_sign(here: &Cursor) -> Result<(), TextFault>
    ensures { result ≡ less_sign here.now }
{
    if is_sign(Sign::UpTo, &here.token) {
        Ok(())
    } else {
        Err(TextFault::Unexpected(here.at))
    }
}

/// A comparison of times whose first term stands at that place, and what follows it.
#[tactic(auto, using(crate::proofs::ReportsFaultLemmas::hands_on, crate::proofs::ReportsFaultLemmas::stops), unfolding(crate::specs::Pieces::comparison))]
fn comparison(
    alloc: Global,
    text: &[u8],
    in_statement: bool,
    scope: &Scope<'_>,
    here: &Cursor,
    ahead: &Cursor,
) -> Result<(Box<Formula>, Cursor), TextFault>
    requires scope { length (variables scope.now) ≤ MOST_FORMULA_NODES }
    requires ahead { ahead.now ≡ cursor_after_node text.now here.now }
    requires ahead_within { ahead.now.end ≤ length text.now }
    requires ahead_left { ahead.now.left ≡ here.now.left - 1 }
    ensures value { GivesPieceWith result (comparison text.now in_statement (variables scope.now) here.now) }
    ensures within { IfOk result (λ r. r.1.end ≤ length text.now) }
    ensures left { IfOk result (λ r. r.1.left + 1 ≤ here.now.left) }
{
    let low = term_of(scope, here)?;
    count(here)?;
    less_sign(ahead)?;
    require_sayable(in_statement, here.at, &low)?;
    require_sort(scope, Sort::Time, here.at, &low)?;
    count(ahead)?;
    let place = cursor_after_node(text, ahead);
    let high = time_argument(in_statement, scope, &place)?;
    let f = constraint_of(alloc, &Constraint { low, high })?;
    Ok((f, cursor_after_node(text, &place)))
}

/// A predicate without arguments.
#[tactic(auto, using(crate::proofs::ReportsFaultLemmas::hands_on, crate::proofs::ReportsFaultLemmas::stops), unfolding(crate::specs::Pieces::bare_predicate))]
fn bare_predicate(
    alloc: Global,
    text: &[u8],
    scope: &Scope<'_>,
    name: &Principal,
    here: &Cursor,
    ahead: &Cursor,
) -> Result<(Box<Formula>, Cursor), TextFault>
    requires ahead { ahead.now ≡ cursor_after_node text.now here.now }
    requires ahead_within { ahead.now.end ≤ length text.now }
    requires ahead_left { ahead.now.left ≡ here.now.left - 1 }
    ensures value { GivesPieceWith result (bare_predicate text.now (variables scope.now) name.now here.now) }
    ensures within { IfOk result (λ r. r.1.end ≤ length text.now) }
    ensures left { IfOk result (λ r. r.1.left + 1 ≤ here.now.left) }
{
    let f = apply_predicate(alloc, scope, here.at, name, Sequence::new(alloc))?;
    count(here)?;
    Ok((f, *ahead))
}

/// A principal in the place of a time.
#[tactic(auto, unfolding(crate::specs::Pieces::named_time))]
fn named_time(here: &Cursor) -> TextFault
    ensures { named_time here.now ≡ Err result }
{
    match count(here) {
        Ok(()) => TextFault::Sort(here.at),
        Err(fault) => fault,
    }
}

/// A predicate's name without arguments; before `<=` it is a principal, which is no time.
#[tactic(auto, using(crate::proofs::ReportsFaultLemmas::hands_on, crate::proofs::ReportsFaultLemmas::stops), unfolding(crate::specs::Pieces::name_alone))]
fn name_alone(
    alloc: Global,
    text: &[u8],
    scope: &Scope<'_>,
    name: &Principal,
    here: &Cursor,
    ahead: &Cursor,
) -> Result<(Box<Formula>, Cursor), TextFault>
    requires ahead { ahead.now ≡ cursor_after_node text.now here.now }
    requires ahead_within { ahead.now.end ≤ length text.now }
    requires ahead_left { ahead.now.left ≡ here.now.left - 1 }
    ensures value { GivesPieceWith result (name_alone text.now (variables scope.now) name.now here.now) }
    ensures within { IfOk result (λ r. r.1.end ≤ length text.now) }
    ensures left { IfOk result (λ r. r.1.left + 1 ≤ here.now.left) }
{
    if is_sign(Sign::UpTo, &ahead.token) {
        Err(named_time(here))
    } else {
        bare_predicate(alloc, text, scope, name, here, ahead)
    }
}

/// `true` or `false`.
#[tactic(auto, using(crate::proofs::ReportsFaultLemmas::hands_on, crate::proofs::ReportsFaultLemmas::stops), unfolding(crate::specs::Pieces::constant_formula))]
fn constant_formula(
    alloc: Global,
    holds: bool,
    here: &Cursor,
    ahead: &Cursor,
) -> Result<(Box<Formula>, Cursor), TextFault>
    requires ahead_left { ahead.now.left ≡ here.now.left - 1 }
    ensures value { (text : List ℕ) → ahead.now ≡ cursor_after_node text here.now →
        GivesPieceWith result (constant_formula text (if holds then truth else falsity) here.now) }
    ensures ahead { IfOk result (λ r. r.1 ≡ ahead.now) }
    ensures left { IfOk result (λ r. r.1.left + 1 ≤ here.now.left) }
{
    count(here)?;
    if holds {
        Ok((truth_of(alloc)?, *ahead))
    } else {
        Ok((falsity_of(alloc)?, *ahead))
    }
}

/// A formula without parentheses at that place, and what follows it.
#[tactic(auto, using(crate::proofs::ReportsFaultLemmas::hands_on, crate::proofs::ReportsFaultLemmas::stops), unfolding(crate::specs::Pieces::simple_formula))]
pub fn simple_formula(
    alloc: Global,
    text: &[u8],
    in_statement: bool,
    scope: &Scope<'_>,
    here: &Cursor,
    ahead: &Cursor,
) -> Result<(Box<Formula>, Cursor), TextFault>
    requires scope { length (variables scope.now) ≤ MOST_FORMULA_NODES }
    requires ahead { ahead.now ≡ cursor_after_node text.now here.now }
    requires ahead_within { ahead.now.end ≤ length text.now }
    requires ahead_left { ahead.now.left ≡ here.now.left - 1 }
    ensures value { GivesPieceWith result (simple_formula text.now in_statement (variables scope.now) here.now) }
    ensures within { IfOk result (λ r. r.1.end ≤ length text.now) }
    ensures left { IfOk result (λ r. r.1.left + 1 ≤ here.now.left) }
{
    match &here.token {
        Token::Keyword(Keyword::True) => constant_formula(alloc, true, here, ahead),
        Token::Keyword(Keyword::False) => constant_formula(alloc, false, here, ahead),
        Token::Name(name) => name_alone(alloc, text, scope, name, here, ahead),
        _ => comparison(alloc, text, in_statement, scope, here, ahead),
    }
}
