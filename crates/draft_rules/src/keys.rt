//! The key of a goal, under which it is kept that it was tried in vain.

use proof_draft::{Draft, NOTHING, Shape, Term};
use std::alloc::AllocError;

// The number of a term in a key: a variable without a value is the number of the first place where it stands.
fn put_term(
    draft: &Draft,
    term: Term,
    seen: &mut Vec<usize>,
    key: &mut Vec<usize>,
) -> Result<(), AllocError> {
    let code = match draft.reduced(term) {
        Term::Ctime => 0,
        Term::Constant(number) => number.saturating_mul(4).saturating_add(1),
        Term::Parameter(number) => number.saturating_mul(4).saturating_add(2),
        Term::Bound(number) => number.saturating_mul(4).saturating_add(4),
        Term::Variable(number) => {
            let known = seen.as_slice().iter().position(|other| *other == number);
            let place = match known {
                Some(place) => place,
                None => {
                    let place = seen.len();
                    seen.push(number)?;
                    place
                }
            };
            place.saturating_mul(4).saturating_add(3)
        }
    };
    key.push(code)?;
    Ok(())
}

fn put_frames(
    draft: &Draft,
    frame: usize,
    seen: &mut Vec<usize>,
    key: &mut Vec<usize>,
) -> Result<(), AllocError> {
    let mut here = frame;
    for _ in 0..draft.frames.len() {
        if here == NOTHING {
            break;
        }
        let view = draft.frame(here);
        put_term(draft, view.who, seen, key)?;
        put_term(draft, view.begins, seen, key)?;
        put_term(draft, view.ends, seen, key)?;
        if !draft.policy.has_says {
            break;
        }
        here = view.outer;
    }
    Ok(())
}

/// The key of the goal of a place, and whether it has no variable without a value.
pub fn key_at(draft: &Draft, number: usize) -> Result<(Vec<usize>, bool), AllocError> {
    let place = draft.place(number);
    let mut seen = Vec::new(draft.alloc);
    let mut key = Vec::new(draft.alloc);
    match draft.policy.node(place.goal.node).shape {
        Shape::Atom(predicate, first, count) => {
            key.push(predicate)?;
            for argument in 0..count {
                let term = draft.policy.argument(first.saturating_add(argument));
                let value = draft.in_cell(term, place.goal.cell);
                put_term(draft, value, &mut seen, &mut key)?;
            }
        }
        _ => {}
    }
    put_term(draft, place.from, &mut seen, &mut key)?;
    put_term(draft, place.to, &mut seen, &mut key)?;
    put_frames(draft, place.frame, &mut seen, &mut key)?;
    let is_ground = seen.is_empty();
    Ok((key, is_ground))
}
