//! The lines of an inquiry.

ghost use Rattle.std.specs.Prelude.{◌≡◌, ◌↔◌, ℕ, List, IsTrue, MatchResult};
ghost use Rattle.line_text.specs.Lines.{lines_of};
ghost use Rattle.pcfs_inquiry.specs.Inquiry.{IsOutOfPlace};
ghost use Rattle.pcfs_inquiry.specs.Reading.{IsAskedAfter, IsEnding, IsRead, IsUnread, IsUnreadAfter, fault_at};
ghost use Rattle.pcfs_inquiry.specs.declared.reading.InquiryFault.TheVariants.{NoMemory as OutOfMemory};

use bl_syntax::limits::MOST_CITED;
use bl_syntax::{Goal, NoMemory};
use line_forms::{Line, LineFault, Mode, read_line_in};
use line_text::first_line;
use line_words::first_word;
use proof_term::ProofTree;
use proof_verifier::{Cite, Cites};
use std::alloc::{AllocFailed, Global};
use thiserror::Error;

/// An inquiry: statements by their numbers from 1, a goal, and a proof of it from all of them.
#[derive(Debug, Drop)]
pub struct Inquiry {
    pub cites: Cites,
    pub goal: Goal,
    pub proof: ProofTree,
}

/// Why there is no inquiry.
#[derive(Clone, Copy, Debug, PartialEq, Eq, Error)]
pub enum InquiryFault {
    /// The line of this number, from 1, is the first that is wrong, and has this fault.
    #[error("line {0}: {1}")]
    Bad(usize, LineFault),
    /// A growth was refused.
    #[error("out of memory")]
    NoMemory,
}

impl<T: Drop> From<AllocFailed<T>> for InquiryFault {
    ghost from_gives = { λ _ fault. fault ≡ OutOfMemory };

    fn from(_refused: AllocFailed<T>) -> InquiryFault {
        InquiryFault::NoMemory
    }
}

// Whether the line may not come after so many statements.
fn is_out_of_place(count: usize, line: &[u8]) -> bool
    ensures { IsTrue result ↔ IsOutOfPlace count line.now }
{
    let (word, _) = first_word(line);
    if MOST_CITED <= count && word == b"statement".as_slice() {
        return true;
    }
    count == 0 && word == b"goal".as_slice()
}

// What a line asks for after so many statements, or what is wrong with it there.
fn read_after(alloc: Global, count: usize, line: &[u8]) -> Result<Line, LineFault>
    ensures { MatchResult result (IsAskedAfter count line.now) (IsUnreadAfter count line.now) }
{
    if is_out_of_place(count, line) {
        return Err(LineFault::BadCount);
    }
    read_line_in(alloc, &Mode::Inquiry, line)
}

// The fault of the line of that number.
fn fault_at(number: usize, fault: LineFault) -> InquiryFault
    ensures { result ≡ fault_at number fault }
{
    match fault {
        LineFault::NoMemory => InquiryFault::NoMemory,
        _ => InquiryFault::Bad(number, fault),
    }
}

// The inquiry with this goal, which is in the last line.
fn with_goal(
    cites: Vec<Cite>,
    goal: Goal,
    proof: ProofTree,
    others: &[u8],
) -> Result<Inquiry, InquiryFault>
    ensures { (lines : List (List ℕ)) →
        IsEnding lines cites.items goal proof (lines_of others.now) →
        MatchResult result (IsRead lines) (IsUnread lines) }
{
    match first_line(others) {
        Some(_) => Err(InquiryFault::Bad(cites.as_slice().len() + 2, LineFault::BadWord(0))),
        None => {
            let cites = Cites::new(cites);
            Ok(Inquiry { cites, goal, proof })
        }
    }
}

/// The inquiry in the input, or the first of its lines that is wrong.
pub fn read_inquiry(alloc: Global, input: &[u8]) -> Result<Inquiry, InquiryFault>
    ensures { MatchResult result (IsRead (lines_of input.now)) (IsUnread (lines_of input.now)) }
{
    let mut cites = Vec::new(alloc);
    let mut rest = input;
    while let Some((line, others)) = first_line(rest) {
        let count = cites.as_slice().len();
        match read_after(alloc, count, line) {
            Ok(Line::Statement(statement)) => cites.push(Cite {
                number: count as u32 + 1,
                statement,
            })?,
            Ok(Line::Goal(goal, proof)) => return with_goal(cites, goal, proof, others),
            Ok(Line::Command(_)) => unreachable!(),
            Ok(Line::Login(_, _)) => unreachable!(),
            Err(fault) => return Err(fault_at(count + 1, fault)),
        }
        rest = others;
    }
    Err(InquiryFault::Bad(cites.as_slice().len() + 1, LineFault::BadWord(0)))
}
