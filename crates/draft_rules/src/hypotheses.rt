//! Which hypotheses can give a goal.

use crate::tasks::Way;
use proof_draft::{Draft, Entry, NOTHING, Place, Shape, Term};
use std::alloc::AllocError;

/// What asks for more than its own place is tried so many places further out.
const MOST_OUTWARDS: usize = 8;

// Whether an atom may become the goal of a place.
fn fits(draft: &Draft, atom: usize, place: &Place) -> bool {
    match draft.policy.node(atom).shape {
        Shape::Atom(predicate, first, count) => match draft.policy.node(place.goal.node).shape {
            Shape::Atom(wanted, goal_first, goal_count) => {
                predicate == wanted
                    && count == goal_count
                    && draft.may_match(first, goal_first, place.goal.cell, count)
            }
            _ => false,
        },
        Shape::State(predicate, first, count) => match draft.policy.node(place.goal.node).shape {
            Shape::State(wanted, goal_first, goal_count) => {
                predicate == wanted
                    && count == goal_count
                    && draft.may_match(first, goal_first, place.goal.cell, count)
            }
            _ => false,
        },
        Shape::Order(_, _) | Shape::False => true,
        _ => false,
    }
}

/// Whether a principal's claims may count in a view. Of one that is not known yet they may.
pub fn may_be_heard(draft: &Draft, who: Term, frame: usize) -> bool {
    let heard = draft.reduced(draft.frame(frame).who);
    match draft.reduced(who) {
        Term::Constant(number) => {
            let speaker = Term::Constant(number);
            speaker == draft.policy.loc || speaker == heard || draft.is_open(heard)
        }
        _ => true,
    }
}

// How many places of the same view are above a place, itself among them.
fn places_outwards(draft: &Draft, number: usize) -> usize {
    let frame = draft.place(number).frame;
    let mut here = number;
    let mut count = 0usize;
    for _ in 0..MOST_OUTWARDS {
        let place = draft.place(here);
        if place.frame != frame {
            break;
        }
        count = count.saturating_add(1);
        if place.height == 0 || !place.sees_all {
            break;
        }
        here = place.parent;
    }
    count
}

fn put_use(
    draft: &Draft,
    number: usize,
    hypothesis: usize,
    atom: usize,
    cases: bool,
    ways: &mut Vec<Way>,
) -> Result<(), AllocError> {
    if !cases {
        ways.push(Way::Apply(hypothesis, atom, 0))?;
        return Ok(());
    }
    for up in 0..places_outwards(draft, number) {
        ways.push(Way::Apply(hypothesis, atom, up))?;
    }
    Ok(())
}

// Adds the uses of a hypothesis that is known at a place above, in this view or in one further out.
fn put_local(
    draft: &Draft,
    number: usize,
    key: usize,
    known: usize,
    same_view: bool,
    ways: &mut Vec<Way>,
) -> Result<(), AllocError> {
    let hypothesis = draft.hypothesis(known);
    let mut atoms = Vec::new(draft.alloc);
    draft.policy.put_atoms(hypothesis.body.node, &mut atoms)?;
    let place = draft.place(number);
    for atom in &atoms {
        if draft.policy.key_of(*atom) == key && fits(draft, *atom, &place) {
            let (says, cases) = draft.policy.kinds_between(hypothesis.body.node, *atom);
            if same_view || says {
                put_use(draft, number, known, *atom, cases, ways)?;
            }
        }
    }
    Ok(())
}

fn put_known(
    draft: &Draft,
    number: usize,
    key: usize,
    from: usize,
    same_view: bool,
    ways: &mut Vec<Way>,
) -> Result<(), AllocError> {
    let mut link = from;
    for _ in 0..draft.links.len() {
        if link == NOTHING {
            break;
        }
        let cell = draft.link(link);
        put_local(draft, number, key, cell.item, same_view, ways)?;
        link = cell.next;
    }
    Ok(())
}

fn put_all_known(
    draft: &Draft,
    number: usize,
    key: usize,
    ways: &mut Vec<Way>,
) -> Result<(), AllocError> {
    let frame = draft.place(number).frame;
    let mut here = number;
    let mut from = draft.place(number).known;
    for _ in 0..draft.places.len() {
        let place = draft.place(here);
        put_known(draft, number, key, from, place.frame == frame, ways)?;
        if place.height == 0 {
            break;
        }
        from = if place.sees_all {
            draft.place(place.parent).known
        } else {
            place.seen
        };
        here = place.parent;
    }
    Ok(())
}

// Whether the statement of an entry may give the goal of a place.
fn may_give(draft: &Draft, entry: &Entry, place: &Place) -> bool {
    if !fits(draft, entry.node, place) {
        return false;
    }
    may_be_heard(draft, draft.policy.speaker_of(entry), place.frame)
}

/// Adds the ways by which hypotheses can give the goal of a place, by the number under which it is found.
pub fn put_uses(
    draft: &Draft,
    number: usize,
    key: usize,
    ways: &mut Vec<Way>,
) -> Result<(), AllocError> {
    let place = draft.place(number);
    if place.local || draft.policy.has_cases {
        put_all_known(draft, number, key, ways)?;
    }
    let mut here = draft.policy.chain(key).first;
    for _ in 0..draft.policy.entries.len() {
        if here == NOTHING {
            break;
        }
        let entry = draft.policy.entry(here);
        if may_give(draft, &entry, &place) {
            put_use(
                draft,
                number,
                entry.statement,
                entry.node,
                entry.cases,
                ways,
            )?;
        }
        here = entry.next;
    }
    Ok(())
}
