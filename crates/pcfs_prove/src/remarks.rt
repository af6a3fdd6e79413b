//! Remarks: what a grant is worth, why there is no proof, and what is missing.

use bl_syntax::decimal::{put_counted, put_text};
use bl_syntax::{Bytes, Grant, NoMemory, Term};
use bl_text::{print_state, print_statement, print_term};
use condition_set::window;
use proof_search::{Cause, Near, Suggestion};

/// Writes when a grant is good, and under which conditions on the state.
pub fn put_grant(out: &mut Bytes, grant: &Grant) -> Result<(), NoMemory> {
    match window(grant) {
        Some((from, to)) => {
            put_text(out, "good from ")?;
            print_term(&Term::Time(from), out)?;
            put_text(out, " to ")?;
            print_term(&Term::Time(to), out)?;
        }
        None => put_text(out, "good at no moment")?,
    }
    let mut before = ", while ";
    for state in grant.states() {
        put_text(out, before)?;
        print_state(state, out)?;
        before = " and ";
    }
    Ok(())
}

/// Writes why there is no proof.
pub fn put_cause(out: &mut Bytes, cause: Cause) -> Result<(), NoMemory> {
    match cause {
        Cause::Exhausted => put_text(out, "no proof"),
        Cause::TooDeep => put_text(out, "no proof of at most 100 nested uses of statements"),
        Cause::NoSteps => put_text(out, "no proof within the steps"),
        Cause::Refused => put_text(out, "no proof within the limits of rules and conditions"),
    }
}

fn put_near(out: &mut Bytes, near: Near) -> Result<(), NoMemory> {
    match near {
        Near::AtAnotherTime(number) => {
            put_counted(out, ": said for another time by ", u64::from(number))
        }
        Near::Otherwise(number) => {
            put_counted(out, ": no such statement; nearest ", u64::from(number))
        }
        Near::Never => put_text(out, ": no such statement, nor one like it"),
    }
}

/// Writes what is missing, a line for each statement.
pub fn put_suggestion(out: &mut Bytes, suggestion: &Suggestion) -> Result<(), NoMemory> {
    let all = suggestion.all.as_slice();
    let mut place = all.len().saturating_sub(suggestion.near.len());
    for near in &suggestion.near {
        if let Some(cite) = all.get(place) {
            put_text(out, "\nneeds ")?;
            print_statement(&cite.statement, out)?;
            put_near(out, *near)?;
        }
        place = place.saturating_add(1);
    }
    Ok(())
}
