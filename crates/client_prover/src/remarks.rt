//! Remarks: when a procap is good, why there is no proof, and what is missing. Moments are dates.

use bl_syntax::{Bytes, Grant, NoMemory, Statement};
use bl_text::print_formula;
use client_replies::{put_state, put_time};
use condition_set::window;
use proof_search::{Cause, Near, Suggestion};
use std::alloc::Global;

fn put_bytes(out: &mut String, bytes: &[u8]) -> Result<(), NoMemory> {
    match std::str::from_utf8(bytes) {
        Ok(text) => out.push_str(text)?,
        Err(_) => {}
    }
    Ok(())
}

/// Writes when a grant is good, and under which conditions on the state.
pub fn put_grant(alloc: Global, out: &mut String, grant: &Grant) -> Result<(), NoMemory> {
    match window(grant) {
        Some((from, to)) => {
            out.push_str("good from ")?;
            put_time(out, from)?;
            out.push_str(" to ")?;
            put_time(out, to)?;
        }
        None => out.push_str("good at no moment")?,
    }
    let mut before = ", while ";
    for state in grant.states() {
        out.push_str(before)?;
        put_state(alloc, out, state)?;
        before = " and ";
    }
    Ok(())
}

/// Writes why there is no proof.
pub fn put_cause(out: &mut String, cause: Cause) -> Result<(), NoMemory> {
    let words = match cause {
        Cause::Exhausted => "no proof",
        Cause::TooDeep => "no proof of at most 100 nested uses of statements",
        Cause::NoSteps => "no proof within the steps",
        Cause::Refused => "no proof within the limits of rules and conditions",
    };
    out.push_str(words)?;
    Ok(())
}

// Writes a statement with its moments as dates.
fn put_statement(alloc: Global, out: &mut String, statement: &Statement) -> Result<(), NoMemory> {
    put_bytes(out, statement.who().bytes())?;
    out.push_str(" says ")?;
    let mut body = Bytes::new(alloc);
    print_formula(statement.body(), &mut body)?;
    put_bytes(out, body.as_slice())?;
    out.push_str(" from ")?;
    put_time(out, statement.from())?;
    out.push_str(" to ")?;
    put_time(out, statement.to())
}

fn put_near(out: &mut String, near: Near) -> Result<(), NoMemory> {
    match near {
        Near::AtAnotherTime(number) => write!(out, ": said for another time by {number}")?,
        Near::Otherwise(number) => write!(out, ": no such statement; nearest {number}")?,
        Near::Never => out.push_str(": no such statement, nor one like it")?,
    }
    Ok(())
}

/// Writes what is missing, after a semicolon for each statement.
pub fn put_suggestion(
    alloc: Global,
    out: &mut String,
    suggestion: &Suggestion,
) -> Result<(), NoMemory> {
    let all = suggestion.all.as_slice();
    let mut place = all.len().saturating_sub(suggestion.near.len());
    for near in &suggestion.near {
        match all.get(place) {
            Some(cite) => {
                out.push_str("; needs ")?;
                put_statement(alloc, out, &cite.statement)?;
                put_near(out, *near)?;
            }
            None => {}
        }
        place = place.saturating_add(1);
    }
    Ok(())
}
