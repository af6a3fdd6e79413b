//! The texts of formulas and of statements.

ghost use Rattle.std.specs.Prelude.{◌≡◌, ◌≤◌, length, Ok, Err, IfOk, IfErr, OnOk, MatchResult};
ghost use Rattle.bl_syntax.specs.Formula.{FormulaView, formula_view};
ghost use Rattle.bl_syntax.specs.Statement.{StatementView};
ghost use Rattle.bl_tokens.specs.declared.faults.TextFault.{TextFault};
ghost use Rattle.bl_text.specs.Texts.{IsFormulaText, FormulaFault, IsStatementText, StatementFault, AreOneFault, beginning, is_end, expect_word, time_constant, principal_name, opening, at_end, span};

use crate::formulas::formula_at;
use crate::pieces::step;
use crate::scope::Scope;
use bl_syntax::limits::MOST_FORMULA_NODES;
use bl_syntax::{Formula, Principal, Statement, Term, TimePoint};
use bl_tokens::{Cursor, Keyword, TextFault, Token, is_word, token_from};
use std::alloc::Global;

/// The formula that the text writes, or the first fault of the text; or `NoMemory`.
pub fn parse_formula(alloc: Global, text: &[u8]) -> Result<Formula, TextFault>
    ensures read { IfOk result (λ f. IsFormulaText text.now (formula_view f)) }
    ensures fault { IfErr result (FormulaFault text.now) }
    ensures every_formula { (f : FormulaView) → IsFormulaText text.now f
        → MatchResult result (λ g. formula_view g ≡ f) (λ e. e ≡ TextFault.NoMemory) }
    ensures every_fault { (e : TextFault) → FormulaFault text.now e
        → MatchResult result (λ _. e ≡ TextFault.NoMemory) (λ d. AreOneFault d e) }
{
    read_formula(alloc, text)
}

fn read_formula(alloc: Global, text: &[u8]) -> Result<Formula, TextFault>
    ensures read { IfOk result (λ f. IsFormulaText text.now (formula_view f)) }
    ensures fault { IfErr result (FormulaFault text.now) }
{
    let mut here = beginning(text);
    let mut ahead = here;
    let f = formula_at(
        alloc,
        text,
        false,
        &Scope::Outermost,
        0,
        &mut here,
        &mut ahead,
    )?;
    if is_end(&here.token) {
        Ok(Box::into_inner(f))
    } else {
        Err(TextFault::Unexpected(here.at))
    }
}

/// The place of the first token.
fn beginning(text: &[u8]) -> Cursor
    ensures same { result ≡ beginning text.now }
    ensures within { result.end ≤ length text.now }
    ensures left { result.left ≡ MOST_FORMULA_NODES }
{
    token_from(text, 0, MOST_FORMULA_NODES)
}

fn is_end(token: &Token) -> bool
    ensures { result ≡ is_end token.now }
{
    match token {
        Token::End => true,
        _ => false,
    }
}

/// Goes to the place after the word, where it is there.
#[tactic(auto, unfolding(crate::specs::Texts::expect_word))]
fn go_behind_word(text: &[u8], word: Keyword, here: &mut Cursor) -> Result<(), TextFault>
    requires { here.old.end ≤ length text.now }
    ensures value { MatchResult result (λ _. expect_word text.now word here.old ≡ Ok here.new) (λ e. expect_word text.now word here.old ≡ Err e) }
    ensures within { OnOk result (here.new.end ≤ length text.now) }
    ensures left { OnOk result (here.new.left ≡ here.old.left) }
{
    if is_word(word, &here.token) {
        step(text, here);
        Ok(())
    } else {
        Err(TextFault::Unexpected(here.at))
    }
}

#[tactic(auto, unfolding(crate::specs::Texts::time_constant))]
fn time_constant(here: &Cursor) -> Result<TimePoint, TextFault>
    ensures { result ≡ time_constant here.now }
{
    match &here.token {
        Token::Constant(Term::Time(point)) => Ok(*point),
        Token::BadDate => Err(TextFault::BadDate(here.at)),
        _ => Err(TextFault::Unexpected(here.at)),
    }
}

#[tactic(auto, unfolding(crate::specs::Texts::principal_name))]
fn principal_name(here: &Cursor) -> Result<Principal, TextFault>
    ensures { result ≡ principal_name here.now }
{
    match &here.token {
        Token::Name(name) => Ok(*name),
        _ => Err(TextFault::Unexpected(here.at)),
    }
}

/// The principal before the first `says`. It goes past that word.
#[tactic(auto, unfolding(crate::specs::Texts::opening))]
fn opening(text: &[u8], here: &mut Cursor) -> Result<Principal, TextFault>
    requires { here.old.end ≤ length text.now }
    ensures value { MatchResult result (λ who. opening text.now here.old ≡ Ok (who, here.new)) (λ e. opening text.now here.old ≡ Err e) }
    ensures within { OnOk result (here.new.end ≤ length text.now) }
    ensures left { OnOk result (here.new.left ≡ here.old.left) }
{
    let who = principal_name(here)?;
    step(text, here);
    go_behind_word(text, Keyword::Says, here)?;
    Ok(who)
}

#[tactic(auto, unfolding(crate::specs::Texts::at_end))]
fn at_end(here: &Cursor) -> Result<(), TextFault>
    ensures { result ≡ at_end here.now }
{
    if is_end(&here.token) {
        Ok(())
    } else {
        Err(TextFault::Unexpected(here.at))
    }
}

/// The times after `from` and `to`, with nothing after them.
#[tactic(auto, unfolding(crate::specs::Texts::span))]
fn span(text: &[u8], here: &mut Cursor) -> Result<(TimePoint, TimePoint), TextFault>
    requires { here.old.end ≤ length text.now }
    ensures { result ≡ span text.now here.old }
{
    go_behind_word(text, Keyword::From, here)?;
    let from = time_constant(here)?;
    step(text, here);
    go_behind_word(text, Keyword::To, here)?;
    let to = time_constant(here)?;
    step(text, here);
    at_end(here)?;
    Ok((from, to))
}

/// The statement that the text writes, or the first fault of the text; or `NoMemory`.
pub fn parse_statement(alloc: Global, text: &[u8]) -> Result<Statement, TextFault>
    ensures read { IfOk result (IsStatementText text.now) }
    ensures fault { IfErr result (StatementFault text.now) }
    ensures every_statement { (s : StatementView) → IsStatementText text.now s
        → MatchResult result (λ t. t ≡ s) (λ e. e ≡ TextFault.NoMemory) }
    ensures every_fault { (e : TextFault) → StatementFault text.now e
        → MatchResult result (λ _. e ≡ TextFault.NoMemory) (λ d. AreOneFault d e) }
{
    read_statement(alloc, text)
}

/// What was read may be said, so that the last answer never comes.
fn read_statement(alloc: Global, text: &[u8]) -> Result<Statement, TextFault>
    ensures read { IfOk result (IsStatementText text.now) }
    ensures fault { IfErr result (StatementFault text.now) }
{
    let mut here = beginning(text);
    let who = opening(text, &mut here)?;
    let mut ahead = here;
    let body = formula_at(
        alloc,
        text,
        true,
        &Scope::Outermost,
        0,
        &mut here,
        &mut ahead,
    )?;
    let (from, to) = span(text, &mut here)?;
    match Statement::new(who, Box::into_inner(body), from, to) {
        Some(statement) => Ok(statement),
        None => Err(TextFault::Sort(0)),
    }
}
