//! Statements by their numbers.

ghost use Rattle.std.specs.Prelude.{◌≡◌, ◌↔◌, IsTrue, IfOk, MatchOption, Some};
ghost use Rattle.std.specs.List.{AllByRecursion};
ghost use Rattle.access_history.specs.Books.{live_book};
ghost use Rattle.access_history.specs.Citing.{HoldsNone, StandsUnderNumber, IsMoved, numbers_of};
ghost use Rattle.access_history.specs.Numbered.{IsNumbered};
ghost use Rattle.op_gate.specs.Citations.{GivesCitation as AreStatements, book_among};

use bl_syntax::{NoMemory, Numbers, Statement};
use policy_statement::Registered;
use proof_verifier::{Cite, Cites};
use std::alloc::Global;

/// Among which statements numbers are looked up.
#[derive(Clone, Copy, Debug, PartialEq, Eq)]
pub enum Among {
    /// All that are registered, withdrawn ones too.
    Registered,
    /// Those that stand.
    Live,
}

/// What the statements of some numbers are.
#[derive(Debug, Drop)]
pub enum Citation {
    /// Each number with its statement.
    Cited(Cites),
    /// The first number under which no statement stands.
    Absent(u32),
}

// The statement of the number; none exactly if the number holds none.
fn statement_at(entries: &[Registered], among: Among, number: u32) -> Option<&Statement>
    ensures { let book = book_among among entries.now in MatchOption result (HoldsNone book number) (λ s. IsNumbered book number (Some s.now)) }
{
    if number == 0 || entries.len() < number as usize {
        return None;
    }
    let entry = &entries[number as usize - 1];
    match among {
        Among::Registered => Some(entry.statement()),
        Among::Live => entry.live(),
    }
}

/// The statements of these numbers.
pub fn cite(
    alloc: Global,
    entries: &[Registered],
    among: Among,
    numbers: &[u32],
) -> Result<Citation, NoMemory>
    ensures { IfOk result (λ citation. AreStatements (book_among among entries.now) numbers.now citation) }
{
    let mut cites = Vec::new(alloc);
    for number in numbers {
        match statement_at(entries, among, *number) {
            Some(statement) => cites.push(Cite {
                number: *number,
                statement: statement.copy(alloc)?,
            })?,
            None => return Ok(Citation::Absent(*number)),
        }
    }
    Ok(Citation::Cited(Cites::new(cites)))
}

// Whether its statement stands under its number.
fn is_in_place(entries: &[Registered], cite: &Cite) -> bool
    ensures { IsTrue result ↔ StandsUnderNumber (live_book entries.now) cite.now }
{
    match statement_at(entries, Among::Live, cite.number) {
        Some(statement) => statement.is_same(&cite.statement),
        None => false,
    }
}

/// The first number under which the cited statement does not stand.
pub fn first_moved(entries: &[Registered], cites: &[Cite]) -> Option<u32>
    ensures { let book = live_book entries.now in MatchOption result (AllByRecursion (StandsUnderNumber book) cites.now) (IsMoved book cites.now) }
{
    for cite in cites {
        if !is_in_place(entries, cite) {
            return Some(cite.number);
        }
    }
    None
}

/// The numbers of these.
pub fn cited_numbers(alloc: Global, cites: &[Cite]) -> Result<Numbers, NoMemory>
    ensures { IfOk result (λ numbers. numbers ≡ numbers_of cites.now) }
{
    let mut numbers = Numbers::new(alloc);
    for cite in cites {
        numbers.push(cite.number)?;
    }
    Ok(numbers)
}
