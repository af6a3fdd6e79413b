//! Times that nothing has fixed: which values are tried for them.

use crate::tasks::Way;
use proof_draft::{Draft, NOTHING, Term};
use std::alloc::AllocError;

// Adds a value to the ways, unless it is one of those from `start` on.
fn put_value(
    ways: &mut Vec<Way>,
    start: usize,
    number: usize,
    value: Term,
) -> Result<(), AllocError> {
    for way in start..ways.len() {
        match ways.get(way) {
            Some(Way::Value(_, known)) => {
                if *known == value {
                    return Ok(());
                }
            }
            _ => {}
        }
    }
    ways.push(Way::Value(number, value))?;
    Ok(())
}

fn put_parameter(
    draft: &Draft,
    ways: &mut Vec<Way>,
    start: usize,
    number: usize,
    term: Term,
) -> Result<(), AllocError> {
    match draft.reduced(term) {
        Term::Parameter(parameter) => put_value(ways, start, number, Term::Parameter(parameter)),
        _ => Ok(()),
    }
}

// Of two constants the one that comes first after `last`, where times rise or fall.
fn nearer(
    draft: &Draft,
    rising: bool,
    last: Option<Term>,
    best: Option<Term>,
    term: Term,
) -> Option<Term> {
    let constant = match draft.reduced(term) {
        Term::Constant(number) => number,
        _ => return best,
    };
    let second = draft.policy.second_of(constant);
    if let Some(Term::Constant(number)) = last {
        let passed = draft.policy.second_of(number);
        if (rising && second <= passed) || (!rising && passed <= second) {
            return best;
        }
    }
    match best {
        Some(Term::Constant(number)) => {
            let kept = draft.policy.second_of(number);
            if (rising && second < kept) || (!rising && kept < second) {
                Some(Term::Constant(constant))
            } else {
                best
            }
        }
        _ => Some(Term::Constant(constant)),
    }
}

// The constant of the waiting conditions that comes first after `last`.
fn next_constant(draft: &Draft, rising: bool, last: Option<Term>) -> Option<Term> {
    let mut best = None;
    for kept in 0..draft.waiting.len() {
        let waiting = draft.waiting_at(kept);
        best = nearer(draft, rising, last, best, waiting.low);
        best = nearer(draft, rising, last, best, waiting.high);
    }
    best
}

// Adds the constants of the waiting conditions in order.
fn put_constants(
    draft: &Draft,
    ways: &mut Vec<Way>,
    start: usize,
    number: usize,
    rising: bool,
) -> Result<(), AllocError> {
    let mut last = None;
    for _ in 0..draft.waiting.len().saturating_mul(2) {
        match next_constant(draft, rising, last) {
            Some(constant) => {
                put_value(ways, start, number, constant)?;
                last = Some(constant);
            }
            None => break,
        }
    }
    Ok(())
}

fn put_parameters(
    draft: &Draft,
    ways: &mut Vec<Way>,
    start: usize,
    number: usize,
) -> Result<(), AllocError> {
    for kept in 0..draft.waiting.len() {
        let waiting = draft.waiting_at(kept);
        put_parameter(draft, ways, start, number, waiting.low)?;
        put_parameter(draft, ways, start, number, waiting.high)?;
    }
    Ok(())
}

/// Adds all values to be tried for a time: the first one that was meant, and what the conditions name.
pub fn put_values(
    draft: &Draft,
    ways: &mut Vec<Way>,
    number: usize,
    rising: bool,
) -> Result<(), AllocError> {
    let start = ways.len();
    let hint = draft.variable(number).hint;
    if let Some(meant) = hint {
        let value = draft.reduced(meant);
        if !draft.is_open(value) {
            put_value(ways, start, number, value)?;
        }
    }
    let last = draft.policy.last_moment;
    let first = if rising {
        draft.policy.first_moment
    } else {
        last
    };
    put_value(ways, start, number, first)?;
    if hint.is_none() {
        put_value(ways, start, number, last)?;
        put_value(ways, start, number, Term::Ctime)?;
    }
    put_constants(draft, ways, start, number, rising)?;
    put_parameters(draft, ways, start, number)?;
    put_value(ways, start, number, Term::Ctime)
}

/// A variable without a value on which a waiting condition hangs.
pub fn open_term(draft: &Draft, kept: usize) -> Option<usize> {
    let waiting = draft.waiting_at(kept);
    match draft.reduced(waiting.low) {
        Term::Variable(number) => return Some(number),
        _ => {}
    }
    match draft.reduced(waiting.high) {
        Term::Variable(number) => return Some(number),
        _ => {}
    }
    open_order(draft, waiting.place)
}

// A variable without a value in an order of times that is known at a place or above it.
fn open_order(draft: &Draft, place: usize) -> Option<usize> {
    let mut here = place;
    for _ in 0..draft.places.len() {
        let at = draft.place(here);
        match open_bound(draft, at.bounds) {
            Some(number) => return Some(number),
            None => {}
        }
        if at.height == 0 {
            break;
        }
        here = at.parent;
    }
    None
}

// A variable without a value in an order of times from this one on.
fn open_bound(draft: &Draft, bounds: usize) -> Option<usize> {
    let mut cell = bounds;
    for _ in 0..draft.bounds.len() {
        if cell == NOTHING {
            break;
        }
        let bound = draft.bound(cell);
        cell = bound.next;
        match (draft.reduced(bound.low), draft.reduced(bound.high)) {
            (Term::Variable(number), _) => return Some(number),
            (_, Term::Variable(number)) => return Some(number),
            _ => {}
        }
    }
    None
}
