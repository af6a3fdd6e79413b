//! Statements that are missing: a goal that no hypothesis can give may be stated by who is heard.

use proof_draft::{Draft, Hypothesis, Missing, NOTHING, Part, Rule, Shape, Term, Use};
use std::alloc::AllocError;

// The parameters of an atom, each once, in order. None, if it names the current time.
fn parameters_of(
    draft: &Draft,
    first: usize,
    count: usize,
    cell: usize,
) -> Result<Option<Vec<usize>>, AllocError> {
    let mut parameters = Vec::new(draft.alloc);
    for place in 0..count {
        let term = draft.policy.argument(first.saturating_add(place));
        match draft.in_cell(term, cell) {
            Term::Parameter(number) => {
                if !parameters.as_slice().contains(&number) {
                    parameters.push(number)?;
                }
            }
            Term::Ctime => return Ok(None),
            _ => {}
        }
    }
    Ok(Some(parameters))
}

// The interval for which the goal of a place has to be stated: that of the view, or always, if the goal has another one.
fn stated_interval(draft: &Draft, number: usize) -> (Term, Term) {
    let place = draft.place(number);
    let view = draft.frame(place.frame);
    let begins = draft.reduced(view.begins);
    let ends = draft.reduced(view.ends);
    if begins == draft.reduced(place.from) && ends == draft.reduced(place.to) {
        match (begins, ends) {
            (Term::Parameter(_), _) | (_, Term::Parameter(_)) => {}
            _ => return (begins, ends),
        }
    }
    (draft.policy.first_moment, draft.policy.last_moment)
}

// Proves a place by a claim of its goal, or of all that have these parameters in the place of others.
fn close_by_claim(
    draft: &mut Draft,
    number: usize,
    claim: usize,
    parameters: &Vec<usize>,
) -> Result<(), AllocError> {
    let place = draft.place(number);
    let mut truth = draft.new_truth(place.goal, place.from, place.to, number)?;
    let mut made = Use::new(Rule::Claim, claim);
    made.brings = truth;
    let mut last = draft.new_use(made)?;
    draft.set_top(number, last)?;
    for parameter in parameters {
        let held = truth;
        truth = draft.new_truth(place.goal, place.from, place.to, number)?;
        let mut made = Use::new(Rule::ForallL, held);
        made.one = Term::Parameter(*parameter);
        made.brings = truth;
        let next = draft.new_use(made)?;
        draft.set_next(last, Part::Use(next))?;
        last = next;
    }
    let end = draft.new_use(Use::new(Rule::Init, truth))?;
    draft.set_next(last, Part::Use(end))
}

/// Proves the goal of a place by a statement of who is heard there. `is_only` tells whether nothing else could give it.
pub fn assume(draft: &mut Draft, number: usize, is_only: bool) -> Result<bool, AllocError> {
    let place = draft.place(number);
    let (first, count) = match draft.policy.node(place.goal.node).shape {
        Shape::Atom(_, first, count) => (first, count),
        _ => return Ok(false),
    };
    let view = draft.frame(place.frame);
    match draft.reduced(view.who) {
        Term::Constant(_) => {}
        _ => return Ok(false),
    }
    let parameters = match parameters_of(draft, first, count, place.goal.cell)? {
        Some(parameters) => parameters,
        None => return Ok(false),
    };
    let (from, to) = stated_interval(draft, number);
    let claim = draft.new_hypothesis(Hypothesis {
        claim: true,
        who: view.who,
        body: place.goal,
        from,
        to,
        place: 0,
    })?;
    draft.assumed.push(Missing {
        hypothesis: claim,
        stated: NOTHING,
        is_only,
    })?;
    close_by_claim(draft, number, claim, &parameters)?;
    Ok(true)
}
