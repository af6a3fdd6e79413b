//! The way from a hypothesis to an atom in it, and where the rule of each formula on it stands: what brings a claim of
//! somebody else is inserted in a view further out, and what brings a parameter or several cases at a place of the same view.

use crate::hypotheses::may_be_heard;
use crate::tasks::Task;
use proof_draft::{Draft, Instance, NOTHING, Shape, Term};
use std::alloc::AllocError;

/// A formula on the way, the terms for its variables, the place where its rule stands, and whether that is inserted there.
#[derive(Clone, Copy)]
pub struct Step {
    pub node: usize,
    pub cell: usize,
    pub place: usize,
    pub inserted: bool,
}

/// How far the use of a hypothesis for the goal of the place `number` has come: the hypothesis that stands for the formula,
/// the last rule at its own place, what is to be done, and the whole way.
#[derive(Drop)]
pub struct Walk {
    pub number: usize,
    pub hypothesis: usize,
    pub tail: usize,
    pub tasks: Vec<Task>,
    pub path: Vec<Step>,
}

// The way from a formula to an atom in it.
fn trace(draft: &Draft, root: usize, atom: usize, number: usize) -> Result<Vec<Step>, AllocError> {
    let mut upwards = Vec::new(draft.alloc);
    let mut here = atom;
    for _ in 0..draft.policy.nodes.len() {
        upwards.push(here)?;
        if here == root {
            break;
        }
        here = draft.policy.node(here).parent;
    }
    let mut path = Vec::new(draft.alloc);
    for _ in 0..upwards.len() {
        if let Some(node) = upwards.pop() {
            path.push(Step {
                node,
                cell: NOTHING,
                place: number,
                inserted: false,
            })?;
        }
    }
    Ok(path)
}

// The place so many places further out.
fn upwards(draft: &Draft, number: usize, up: usize) -> usize {
    let mut here = number;
    for _ in 0..up {
        here = draft.place(here).parent;
    }
    here
}

// Whether what is inserted at the upper place is seen at the lower one.
fn may_insert(draft: &Draft, lower: usize, upper: usize) -> bool {
    let mut here = lower;
    for _ in 0..draft.places.len() {
        if here == upper {
            return true;
        }
        let place = draft.place(here);
        if place.parent == upper {
            return place.sees_all;
        }
        here = place.parent;
    }
    false
}

impl Walk {
    /// The use of a hypothesis, to an atom in it, for the goal of a place, before its first rule.
    pub fn new(
        draft: &Draft,
        number: usize,
        hypothesis: usize,
        atom: usize,
    ) -> Result<Walk, AllocError> {
        let root = draft.hypothesis(hypothesis).body.node;
        let path = trace(draft, root, atom, number)?;
        Ok(Walk {
            number,
            hypothesis,
            tail: NOTHING,
            tasks: Vec::new(draft.alloc),
            path,
        })
    }

    pub fn step_at(&self, index: usize) -> Step {
        match self.path.get(index) {
            Some(step) => *step,
            None => Step {
                node: NOTHING,
                cell: NOTHING,
                place: 0,
                inserted: false,
            },
        }
    }

    /// The number of the last step.
    pub fn last(&self) -> usize {
        self.path.len().saturating_sub(1)
    }

    // Who claims what stands before that step; none, if it is a truth.
    fn speaker_before(&self, draft: &Draft, index: usize) -> Option<Term> {
        let mut here = index;
        for _ in 0..index {
            here = here.saturating_sub(1);
            match draft.policy.node(self.step_at(here).node).shape {
                Shape::Says(who, _) => return Some(who),
                _ => {}
            }
        }
        let claim = draft.hypothesis(self.hypothesis);
        if claim.claim { Some(claim.who) } else { None }
    }

    // The lowest place above, in a view further out, in which what stands before that step may be used.
    fn place_outwards(&self, draft: &Draft, index: usize, from: usize) -> Option<usize> {
        let speaker = self.speaker_before(draft, index);
        let own = draft.place(draft.hypothesis(self.hypothesis).place).frame;
        let mut here = from;
        for _ in 0..draft.frames.len() {
            let opened = draft.frame(draft.place(here).frame).opened;
            if opened == NOTHING {
                return None;
            }
            here = opened;
            let frame = draft.place(here).frame;
            let fits = match speaker {
                Some(who) => may_be_heard(draft, who, frame),
                None => frame == own,
            };
            if fits {
                return Some(here);
            }
        }
        None
    }

    fn set_step(&mut self, index: usize, place: usize, inserted: bool) {
        if let Some(step) = self.path.get_mut(index) {
            step.place = place;
            step.inserted = inserted;
        }
    }

    /// Sets where each rule on the way stands. False, if there is no such place.
    pub fn lay(&mut self, draft: &Draft, up: usize) -> bool {
        let mut place = self.number;
        let mut inserted = false;
        let mut moved = false;
        let mut index = self.path.len();
        for _ in 0..self.path.len() {
            index = index.saturating_sub(1);
            match draft.policy.node(self.step_at(index).node).shape {
                Shape::Exists(_, _) | Shape::Or(_, _) => {
                    inserted = true;
                    if !moved {
                        place = upwards(draft, self.number, up);
                        moved = true;
                    }
                }
                Shape::Says(_, _) => {
                    inserted = true;
                    moved = true;
                    match self.place_outwards(draft, index, place) {
                        Some(outer) => place = outer,
                        None => return false,
                    }
                }
                _ => {}
            }
            self.set_step(index, place, inserted);
        }
        may_insert(draft, self.number, place)
            && draft.is_above(draft.hypothesis(self.hypothesis).place, place)
    }

    fn set_cell(&mut self, index: usize, cell: usize) {
        if let Some(step) = self.path.get_mut(index) {
            step.cell = cell;
        }
    }

    /// Gives the variables on the way terms, and makes the atom at its end the goal. False, if it cannot be.
    pub fn fill(&mut self, draft: &mut Draft) -> Result<bool, AllocError> {
        let mut cell = draft.hypothesis(self.hypothesis).body.cell;
        for index in 0..self.path.len() {
            self.set_cell(index, cell);
            let step = self.step_at(index);
            match draft.policy.node(step.node).shape {
                Shape::Forall(sort, _) => {
                    let term = draft.new_variable(sort, step.place, None)?;
                    cell = draft.bind_to_cell(term, cell)?;
                }
                Shape::Exists(sort, _) => {
                    let term = draft.new_parameter(sort, step.place)?;
                    cell = draft.bind_to_cell(term, cell)?;
                }
                _ => {}
            }
        }
        meets(draft, self.step_at(self.last()), self.number)
    }

    /// The interval that the conclusion of an implication on the way is wanted for: that of the goal or of the view in which
    /// it is claimed; none, if nothing depends on it.
    pub fn wanted_interval(&self, draft: &Draft, index: usize) -> Option<(Term, Term)> {
        let mut here = index;
        for _ in index..self.path.len() {
            here = here.saturating_add(1);
            let step = self.step_at(here);
            match draft.policy.node(step.node).shape {
                Shape::On(_, _, _) | Shape::False | Shape::State(_, _, _) | Shape::Order(_, _) => {
                    return None;
                }
                Shape::Says(_, _) => {
                    let inner = self.step_at(here.saturating_add(1));
                    let view = draft.frame(draft.place(inner.place).frame);
                    return Some((view.begins, view.ends));
                }
                Shape::Atom(_, _, _) => break,
                _ => {}
            }
        }
        let place = draft.place(self.number);
        Some((place.from, place.to))
    }
}

// Makes the atom at the end of a way the goal of a place.
fn meets(draft: &mut Draft, last: Step, number: usize) -> Result<bool, AllocError> {
    let goal = draft.place(number).goal;
    let (first, count) = match draft.policy.node(last.node).shape {
        Shape::Atom(_, first, count) | Shape::State(_, first, count) => (first, count),
        _ => return Ok(true),
    };
    match draft.policy.node(goal.node).shape {
        Shape::Atom(_, goal_first, _) | Shape::State(_, goal_first, _) => {
            draft.unify_arguments(first, last.cell, goal_first, goal.cell, count)
        }
        _ => Ok(false),
    }
}

/// The formula of a step, with the terms for its variables.
pub fn instance_of(step: Step, node: usize) -> Instance {
    Instance {
        node,
        cell: step.cell,
    }
}
