//! The files: statements with their numbers, and facts.

ghost use Rattle.std.specs.Prelude.{◌≤◌, length, IfSome};

use bl_syntax::{Formula, NoMemory, StatePred, StatePreds, is_state_condition};
use bl_text::{TextFault, parse_formula, parse_statement};
use line_text::first_line;
use line_words::numerals;
use proof_verifier::Cite;
use std::alloc::Global;
use thiserror::Error;

/// What is wrong with a line.
#[derive(Clone, Copy, Debug, Error)]
pub enum LineFault {
    /// It does not begin with a number that is greater than those before, and a space.
    #[error("wanted a number greater than the last, a space and a statement")]
    BadNumber,
    /// Its text has this fault, at its place in the line.
    #[error("{0}")]
    BadText(TextFault),
    /// It is no predicate on the state without variables.
    #[error("wanted a predicate on the state, as owner(#1,admin)")]
    NoFact,
}

/// Why a file is not taken: the line of this number is wrong; or there was no memory.
#[derive(Clone, Copy, Debug, Error)]
pub enum FileFault {
    #[error("line {0}: {1}")]
    Bad(usize, LineFault),
    #[error("out of memory")]
    NoMemory,
}

impl From<NoMemory> for FileFault {
    fn from(_refused: NoMemory) -> FileFault {
        FileFault::NoMemory
    }
}

// The word without the zeros in front.
fn without_zeros(word: &[u8]) -> &[u8] {
    for (place, byte) in word.iter().enumerate() {
        if *byte != b'0' {
            return &word[place..];
        }
    }
    &word[word.len()..]
}

// The number that a line begins with, and the number of bytes before its text; none if there is none, or it is 0.
fn leading_number(line: &[u8]) -> Option<(u32, usize)>
    ensures { IfSome result (λ found. found.1 ≤ length line.now) }
{
    for (place, byte) in line.iter().enumerate() {
        if *byte == b' ' {
            let number = numerals::number(without_zeros(&line[..place]))?;
            return Some((number, place + 1));
        }
    }
    None
}

// The fault at its place in the line, if so many bytes come before its text.
fn placed(fault: TextFault, before: usize) -> TextFault {
    match fault {
        TextFault::Unexpected(at) => TextFault::Unexpected(at.saturating_add(before)),
        TextFault::UnknownName(at) => TextFault::UnknownName(at.saturating_add(before)),
        TextFault::BadDate(at) => TextFault::BadDate(at.saturating_add(before)),
        TextFault::Sort(at) => TextFault::Sort(at.saturating_add(before)),
        TextFault::TooLarge(at) => TextFault::TooLarge(at.saturating_add(before)),
        TextFault::NoMemory => TextFault::NoMemory,
    }
}

fn text_fault(number: usize, fault: TextFault, before: usize) -> FileFault {
    match fault {
        TextFault::NoMemory => FileFault::NoMemory,
        _ => FileFault::Bad(number, LineFault::BadText(placed(fault, before))),
    }
}

// The statement of a line with its number, which has to be greater than the last.
fn cite_in(alloc: Global, number: usize, line: &[u8], last: u32) -> Result<Cite, FileFault> {
    let (under, before) = match leading_number(line) {
        Some(found) => found,
        None => return Err(FileFault::Bad(number, LineFault::BadNumber)),
    };
    if under <= last {
        return Err(FileFault::Bad(number, LineFault::BadNumber));
    }
    match parse_statement(alloc, &line[before..]) {
        Ok(statement) => Ok(Cite {
            number: under,
            statement,
        }),
        Err(fault) => Err(text_fault(number, fault, before)),
    }
}

/// The statements in a file, each with its number. Lines without a byte are passed over.
pub fn read_statements(alloc: Global, bytes: &[u8]) -> Result<Vec<Cite>, FileFault> {
    let mut statements = Vec::new(alloc);
    let mut rest = bytes;
    let mut number = 0usize;
    let mut last = 0;
    while let Some((line, others)) = first_line(rest) {
        number = number.saturating_add(1);
        rest = others;
        if line.is_empty() {
            continue;
        }
        let cite = cite_in(alloc, number, line, last)?;
        last = cite.number;
        match statements.push(cite) {
            Ok(()) => {}
            Err(_) => return Err(FileFault::NoMemory),
        }
    }
    Ok(statements)
}

fn fact_in(alloc: Global, number: usize, line: &[u8]) -> Result<StatePred, FileFault> {
    let formula = match parse_formula(alloc, line) {
        Ok(formula) => formula,
        Err(fault) => return Err(text_fault(number, fault, 0)),
    };
    match &formula {
        Formula::State(state) => {
            if is_state_condition(state) {
                Ok(**state)
            } else {
                Err(FileFault::Bad(number, LineFault::NoFact))
            }
        }
        _ => Err(FileFault::Bad(number, LineFault::NoFact)),
    }
}

/// The facts in a file. Lines without a byte are passed over.
pub fn read_facts(alloc: Global, bytes: &[u8]) -> Result<StatePreds, FileFault> {
    let mut facts = StatePreds::new(alloc);
    let mut rest = bytes;
    let mut number = 0usize;
    while let Some((line, others)) = first_line(rest) {
        number = number.saturating_add(1);
        rest = others;
        if line.is_empty() {
            continue;
        }
        let fact = fact_in(alloc, number, line)?;
        facts.extend(&[fact])?;
    }
    Ok(facts)
}
