//! Goals on the state and on times: by a fact, or left over as a condition.

use crate::goals::close_goal;
use proof_draft::{Draft, NOTHING, Predicate, Rule, Shape, Sort, Term};
use std::alloc::AllocError;

/// Whether all arguments of an atom are constants.
pub fn has_constants(draft: &Draft, first: usize, count: usize, cell: usize) -> bool {
    for place in 0..count {
        let term = draft.policy.argument(first.saturating_add(place));
        match draft.in_cell(term, cell) {
            Term::Constant(_) => {}
            _ => return false,
        }
    }
    true
}

/// Proves a goal on the state by the fact of that number.
pub fn close_by_fact(draft: &mut Draft, number: usize, known: usize) -> Result<bool, AllocError> {
    let goal = draft.place(number).goal;
    let fact = match draft.policy.facts.get(known) {
        Some(fact) => *fact,
        None => return Ok(false),
    };
    match draft.policy.node(goal.node).shape {
        Shape::State(_, first, count) => {
            if !draft.unify_arguments(first, goal.cell, fact.first, NOTHING, count)? {
                return Ok(false);
            }
            close_goal(draft, number, Rule::InterR)?;
            Ok(true)
        }
        _ => Ok(false),
    }
}

/// Proves a goal on the state that is left over as a condition.
pub fn close_by_state(draft: &mut Draft, number: usize) -> Result<bool, AllocError> {
    let goal = draft.place(number).goal;
    match draft.policy.node(goal.node).shape {
        Shape::State(predicate, first, count) => {
            let wanted = Predicate {
                predicate,
                first,
                count,
                cell: goal.cell,
            };
            if !draft.leave_state(wanted)? {
                return Ok(false);
            }
            close_goal(draft, number, Rule::InterR)?;
            Ok(true)
        }
        _ => Ok(false),
    }
}

// Takes the principal or file that is asked for in the place of a variable. A text or a time is not guessed.
fn guess(draft: &mut Draft, term: Term) -> Result<bool, AllocError> {
    match draft.reduced(term) {
        Term::Variable(variable) => {
            let sort = draft.variable(variable).sort;
            match sort {
                Sort::Principal | Sort::File => {
                    let value = draft.policy.any_of(sort);
                    draft.unify(term, value)
                }
                _ => Ok(false),
            }
        }
        Term::Constant(_) => Ok(true),
        _ => Ok(false),
    }
}

/// Proves a goal on the state that is left over as a condition on the principal or file that is asked for.
pub fn close_by_guess(draft: &mut Draft, number: usize) -> Result<bool, AllocError> {
    let goal = draft.place(number).goal;
    match draft.policy.node(goal.node).shape {
        Shape::State(_, first, count) => {
            for place in 0..count {
                let term = draft.policy.argument(first.saturating_add(place));
                let value = draft.in_cell(term, goal.cell);
                if !guess(draft, value)? {
                    return Ok(false);
                }
            }
            close_by_state(draft, number)
        }
        _ => Ok(false),
    }
}

/// Proves a goal on times that holds, is left over as a condition, or waits for a variable.
pub fn close_by_order(draft: &mut Draft, number: usize) -> Result<bool, AllocError> {
    let goal = draft.place(number).goal;
    match draft.policy.node(goal.node).shape {
        Shape::Order(low, high) => {
            let low = draft.in_cell(low, goal.cell);
            let high = draft.in_cell(high, goal.cell);
            if !draft.require(number, low, high)? {
                return Ok(false);
            }
            close_goal(draft, number, Rule::ConsR)?;
            Ok(true)
        }
        _ => Ok(false),
    }
}
