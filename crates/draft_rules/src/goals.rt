//! The right rules: what a goal asks for by its form.

use crate::tasks::Task;
use proof_draft::{Draft, Frame, Instance, NOTHING, Part, Rule, Shape, Sort, Term, Use};
use std::alloc::AllocError;

/// The places that are left to be proved after a rule: the premises that are goals of their own.
#[derive(Clone, Copy)]
pub enum Premises {
    Closed,
    One(usize),
    Two(usize, usize),
}

/// How many of the arguments of an atom are variables without a value.
pub fn open_arguments(draft: &Draft, first: usize, count: usize, cell: usize) -> usize {
    let mut open = 0usize;
    for place in 0..count {
        let term = draft.policy.argument(first.saturating_add(place));
        match draft.in_cell(term, cell) {
            Term::Variable(_) => open = open.saturating_add(1),
            _ => {}
        }
    }
    open
}

/// How much choice a task leaves: 0, none.
pub fn weight_of(draft: &Draft, task: Task) -> usize {
    let number = match task {
        Task::Prove(number) => number,
        _ => return 0,
    };
    let goal = draft.place(number).goal;
    match draft.policy.node(goal.node).shape {
        Shape::Atom(_, first, count) => {
            1usize.saturating_add(open_arguments(draft, first, count, goal.cell))
        }
        Shape::State(_, first, count) => match open_arguments(draft, first, count, goal.cell) {
            0 => 1,
            open => open.saturating_add(20),
        },
        Shape::Order(low, high) => {
            let low = draft.in_cell(low, goal.cell);
            let high = draft.in_cell(high, goal.cell);
            if draft.is_open(low) || draft.is_open(high) {
                40
            } else {
                0
            }
        }
        Shape::Says(who, _) => {
            if draft.is_open(draft.in_cell(who, goal.cell)) {
                12
            } else {
                0
            }
        }
        Shape::Or(_, _) => 10,
        _ => 0,
    }
}

// A premise of the rule that proves a place, with this formula on the interval of the goal.
fn new_premise(draft: &mut Draft, number: usize, node: usize) -> Result<usize, AllocError> {
    let place = draft.place(number);
    let goal = Instance {
        node,
        cell: place.goal.cell,
    };
    draft.new_place(number, goal, place.from, place.to)
}

// Proves a place by this use.
fn put_top(draft: &mut Draft, number: usize, made: Use) -> Result<(), AllocError> {
    let made = draft.new_use(made)?;
    draft.set_top(number, made)
}

// Proves a place by a rule with one premise, which names a term.
fn by_one(
    draft: &mut Draft,
    number: usize,
    rule: Rule,
    term: Term,
    premise: usize,
) -> Result<Premises, AllocError> {
    let mut made = Use::new(rule, NOTHING);
    made.one = term;
    made.left = Part::Whole(premise);
    put_top(draft, number, made)?;
    Ok(Premises::One(premise))
}

/// Proves a place by a rule without premises.
pub fn close_goal(draft: &mut Draft, number: usize, rule: Rule) -> Result<(), AllocError> {
    put_top(draft, number, Use::new(rule, NOTHING))
}

fn prove_both(
    draft: &mut Draft,
    number: usize,
    a: usize,
    b: usize,
) -> Result<Premises, AllocError> {
    let one = new_premise(draft, number, a)?;
    let two = new_premise(draft, number, b)?;
    let mut made = Use::new(Rule::AndR, NOTHING);
    made.left = Part::Whole(one);
    made.right = Part::Whole(two);
    put_top(draft, number, made)?;
    Ok(Premises::Two(one, two))
}

// A place for what an implication gives, on an interval within that of the goal.
fn inner_place(
    draft: &mut Draft,
    number: usize,
    node: usize,
    from: Term,
    to: Term,
) -> Result<usize, AllocError> {
    let place = draft.place(number);
    let goal = Instance {
        node,
        cell: place.goal.cell,
    };
    let below = draft.new_place(number, goal, from, to)?;
    draft.limit_times(below, place.from, from)?;
    draft.limit_times(below, to, place.to)?;
    Ok(below)
}

fn prove_implication(
    draft: &mut Draft,
    number: usize,
    a: usize,
    b: usize,
) -> Result<Premises, AllocError> {
    let below = draft.places.len();
    let from = draft.new_parameter(Sort::Time, below)?;
    let to = draft.new_parameter(Sort::Time, below)?;
    let premise = inner_place(draft, number, b, from, to)?;
    let assumed = Instance {
        node: a,
        cell: draft.place(number).goal.cell,
    };
    let truth = draft.new_truth(assumed, from, to, premise)?;
    draft.show(premise, truth)?;
    let mut made = Use::new(Rule::ImpR, NOTHING);
    made.one = from;
    made.two = to;
    made.brings = truth;
    made.left = Part::Whole(premise);
    put_top(draft, number, made)?;
    Ok(Premises::One(premise))
}

// Proves a place by a rule that has this term for the variable of the goal's binder.
fn by_term(
    draft: &mut Draft,
    number: usize,
    rule: Rule,
    term: Term,
    a: usize,
) -> Result<Premises, AllocError> {
    let place = draft.place(number);
    let cell = draft.bind_to_cell(term, place.goal.cell)?;
    let goal = Instance { node: a, cell };
    let premise = draft.new_place(number, goal, place.from, place.to)?;
    by_one(draft, number, rule, term, premise)
}

fn prove_all(
    draft: &mut Draft,
    number: usize,
    sort: Sort,
    a: usize,
) -> Result<Premises, AllocError> {
    let below = draft.places.len();
    let parameter = draft.new_parameter(sort, below)?;
    by_term(draft, number, Rule::ForallR, parameter, a)
}

fn prove_some(
    draft: &mut Draft,
    number: usize,
    sort: Sort,
    a: usize,
) -> Result<Premises, AllocError> {
    let term = draft.new_variable(sort, number, None)?;
    by_term(draft, number, Rule::ExistsR, term, a)
}

fn prove_says(
    draft: &mut Draft,
    number: usize,
    who: Term,
    a: usize,
) -> Result<Premises, AllocError> {
    let place = draft.place(number);
    let who = draft.in_cell(who, place.goal.cell);
    let frame = draft.new_frame(Frame {
        outer: place.frame,
        who,
        begins: place.from,
        ends: place.to,
        opened: number,
    })?;
    let premise = new_premise(draft, number, a)?;
    draft.set_frame(premise, frame);
    by_one(draft, number, Rule::SaysR, Term::Ctime, premise)
}

fn prove_on(
    draft: &mut Draft,
    number: usize,
    a: usize,
    from: Term,
    to: Term,
) -> Result<Premises, AllocError> {
    let place = draft.place(number);
    let from = draft.in_cell(from, place.goal.cell);
    let to = draft.in_cell(to, place.goal.cell);
    let goal = Instance {
        node: a,
        cell: place.goal.cell,
    };
    let premise = draft.new_place(number, goal, from, to)?;
    by_one(draft, number, Rule::AtR, Term::Ctime, premise)
}

/// Proves a place by the rule that the form of its goal asks for; none, if the form leaves a choice.
pub fn open_goal(draft: &mut Draft, number: usize) -> Result<Option<Premises>, AllocError> {
    let goal = draft.place(number).goal;
    let premises = match draft.policy.node(goal.node).shape {
        Shape::And(a, b) => prove_both(draft, number, a, b)?,
        Shape::Imp(a, b) => prove_implication(draft, number, a, b)?,
        Shape::True => {
            close_goal(draft, number, Rule::TrueR)?;
            Premises::Closed
        }
        Shape::Forall(sort, a) => prove_all(draft, number, sort, a)?,
        Shape::Exists(sort, a) => prove_some(draft, number, sort, a)?,
        Shape::Says(who, a) => prove_says(draft, number, who, a)?,
        Shape::On(a, from, to) => prove_on(draft, number, a, from, to)?,
        _ => return Ok(None),
    };
    Ok(Some(premises))
}

/// Proves a disjunction by its first part, or by its second one; none, if the goal is no disjunction.
pub fn prove_either(
    draft: &mut Draft,
    number: usize,
    first: bool,
) -> Result<Option<Premises>, AllocError> {
    let (node, rule) = match draft.policy.node(draft.place(number).goal.node).shape {
        Shape::Or(a, b) => {
            if first {
                (a, Rule::OrR1)
            } else {
                (b, Rule::OrR2)
            }
        }
        _ => return Ok(None),
    };
    let premise = new_premise(draft, number, node)?;
    let premises = by_one(draft, number, rule, Term::Ctime, premise)?;
    Ok(Some(premises))
}
