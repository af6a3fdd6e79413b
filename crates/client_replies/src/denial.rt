//! That a procap was denied, and why.

use crate::moments::put_moment;
use crate::refusals::permission_name;
use crate::states::put_state;
use bl_syntax::{Formula, NoMemory, Perm, TimePoint};
use bl_text::{parse_formula, parse_time};
use client_words::{statement_number, whole_number};
use std::alloc::Global;

/// Why a procap was denied.
#[derive(Drop)]
pub enum Cause {
    /// It ended at this second.
    Ended(i64),
    /// It begins at this second.
    Begins(i64),
    /// It has this condition on time, which is never so.
    Never(String),
    /// It has a condition on the state that is not so, as these words say.
    State(String),
    /// It rests on the statement of this number, which was withdrawn.
    Withdrawn(u32),
    /// It has not the server's seal.
    Seal,
    /// It was won for another one of these.
    Another(&'static str),
    /// By a cause that this client does not know.
    Unknown(String),
}

/// That a procap was denied: for which need, counted from 1, and why.
#[derive(Drop)]
pub struct Denial {
    pub need: usize,
    pub cause: Cause,
}

fn copied(alloc: Global, text: &str) -> Result<String, NoMemory> {
    Ok(String::from_str(alloc, text)?)
}

fn second_of(word: &str) -> Option<i64> {
    match parse_time(word.as_bytes()) {
        Ok(TimePoint::At(second)) => Some(second),
        _ => None,
    }
}

// Why a condition on time does not hold.
fn time_cause(alloc: Global, condition: &str) -> Result<Cause, NoMemory> {
    match condition.split_once(" <= ") {
        Some((low, high)) => {
            if low == "ctime" {
                match second_of(high) {
                    Some(second) => return Ok(Cause::Ended(second)),
                    None => {}
                }
            }
            if high == "ctime" {
                match second_of(low) {
                    Some(second) => return Ok(Cause::Begins(second)),
                    None => {}
                }
            }
            Ok(Cause::Never(copied(alloc, condition)?))
        }
        None => Ok(Cause::Never(copied(alloc, condition)?)),
    }
}

// What a condition on the state says; the condition itself, if it is none that is known.
fn state_cause(alloc: Global, condition: &str) -> Result<Cause, NoMemory> {
    let formula = match parse_formula(alloc, condition.as_bytes()) {
        Ok(formula) => formula,
        Err(_) => return Ok(Cause::State(copied(alloc, condition)?)),
    };
    match &formula {
        Formula::State(state) => {
            let mut words = String::new(alloc);
            put_state(alloc, &mut words, state)?;
            Ok(Cause::State(words))
        }
        _ => Ok(Cause::State(copied(alloc, condition)?)),
    }
}

// The condition after its number.
fn after_number(rest: &str) -> &str {
    match rest.split_once(' ') {
        Some((_, condition)) => condition,
        None => "",
    }
}

fn cause_of(alloc: Global, cause: &str) -> Result<Cause, NoMemory> {
    let (kind, rest) = match cause.split_once(' ') {
        Some(parts) => parts,
        None => (cause, ""),
    };
    if kind == "time" {
        return time_cause(alloc, after_number(rest));
    }
    if kind == "state" {
        return state_cause(alloc, after_number(rest));
    }
    if kind == "withdrawn" {
        match statement_number(rest.as_bytes()) {
            Some(statement) => return Ok(Cause::Withdrawn(statement)),
            None => {}
        }
    }
    if kind == "seal" {
        return Ok(Cause::Seal);
    }
    for another in ["principal", "file", "permission"] {
        if kind == another {
            return Ok(Cause::Another(another));
        }
    }
    Ok(Cause::Unknown(copied(alloc, cause)?))
}

impl Cause {
    /// An equal cause in memory of its own.
    pub fn copy(&self, alloc: Global) -> Result<Cause, NoMemory> {
        match self {
            Cause::Ended(second) => Ok(Cause::Ended(*second)),
            Cause::Begins(second) => Ok(Cause::Begins(*second)),
            Cause::Never(condition) => Ok(Cause::Never(copied(alloc, condition.as_str())?)),
            Cause::State(words) => Ok(Cause::State(copied(alloc, words.as_str())?)),
            Cause::Withdrawn(number) => Ok(Cause::Withdrawn(*number)),
            Cause::Seal => Ok(Cause::Seal),
            Cause::Another(kind) => Ok(Cause::Another(*kind)),
            Cause::Unknown(cause) => Ok(Cause::Unknown(copied(alloc, cause.as_str())?)),
        }
    }

    /// Whether a procap that was denied so may be good again later.
    pub fn may_pass(&self) -> bool {
        matches!(self, Cause::State(_))
    }

    /// Whether another proof, which does not cite the same statements, may serve.
    pub fn is_of_proof(&self) -> bool {
        matches!(self, Cause::State(_) | Cause::Withdrawn(_))
    }

    /// What this says of the right to do that with a file.
    pub fn words(&self, alloc: Global, permission: Perm, what: &str) -> Result<String, NoMemory> {
        let mut out = String::from_str(alloc, "your right to ")?;
        out.push_str(permission_name(permission))?;
        out.push(' ')?;
        out.push_str(what)?;
        self.put(&mut out)?;
        Ok(out)
    }

    fn put(&self, out: &mut String) -> Result<(), NoMemory> {
        match self {
            Cause::Ended(second) => put_dated(out, " ended ", *second, "; ask for a new proof"),
            Cause::Begins(second) => put_dated(
                out,
                " begins ",
                *second,
                "; wait until then, or ask for another proof",
            ),
            Cause::Never(condition) => put_three(
                out,
                " holds only if ",
                condition.as_str(),
                ", which is never so; ask for another proof",
            ),
            Cause::State(words) => put_three(
                out,
                " holds only while ",
                words.as_str(),
                ", which is not so now; ask for another proof, or for that to be changed",
            ),
            _ => self.put_other(out),
        }
    }

    fn put_other(&self, out: &mut String) -> Result<(), NoMemory> {
        match self {
            Cause::Withdrawn(number) => {
                let number = *number;
                write!(
                    out,
                    " rests on statement {number}, which was withdrawn; ask who said it for another"
                )?;
                Ok(())
            }
            Cause::Another(kind) => put_three(
                out,
                " was won for another ",
                *kind,
                "; ask for a new proof",
            ),
            Cause::Unknown(cause) => put_three(
                out,
                " is denied by the server, by a cause that this client does not know: ",
                cause.as_str(),
                "",
            ),
            _ => put_three(
                out,
                " has not the seal of this server, whose key was changed or which is another",
                "",
                "; ask for a new proof",
            ),
        }
    }
}

fn put_three(out: &mut String, first: &str, second: &str, third: &str) -> Result<(), NoMemory> {
    out.push_str(first)?;
    out.push_str(second)?;
    out.push_str(third)?;
    Ok(())
}

fn put_dated(out: &mut String, before: &str, second: i64, after: &str) -> Result<(), NoMemory> {
    out.push_str(before)?;
    put_moment(out, second)?;
    out.push_str(after)?;
    Ok(())
}

impl Denial {
    /// The denial that stands after `denied`: `J CAUSE at N`; none if it is none.
    pub fn of(alloc: Global, rest: &[u8]) -> Result<Option<Denial>, NoMemory> {
        match std::str::from_utf8(rest) {
            Ok(rest) => Denial::of_text(alloc, rest),
            Err(_) => Ok(None),
        }
    }

    fn of_text(alloc: Global, rest: &str) -> Result<Option<Denial>, NoMemory> {
        let (front, place) = match rest.rsplit_once(" at ") {
            Some(parts) => parts,
            None => return Ok(None),
        };
        let (need, cause) = match front.split_once(' ') {
            Some(parts) => parts,
            None => return Ok(None),
        };
        match (
            whole_number(need.as_bytes()),
            whole_number(place.as_bytes()),
        ) {
            (Some(need), Some(_)) => match usize::try_from(need) {
                Ok(need) => Ok(Some(Denial {
                    need,
                    cause: cause_of(alloc, cause)?,
                })),
                Err(_) => Ok(None),
            },
            _ => Ok(None),
        }
    }
}
