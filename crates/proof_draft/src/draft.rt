//! An unfinished proof: its lists, how it begins, and the way back to what it was.

use crate::formulas::{NOTHING, Stated, Term};
use crate::parts::{
    Binding, Bound, Frame, Hypothesis, Instance, Lengths, Link, Missing, Order, Parameter, Part,
    Place, Predicate, Undo, Use, Variable, Waiting,
};
use crate::policy::Policy;
use std::alloc::{AllocError, Global};

/// When the conditions have to hold, and what may be left over.
#[derive(Clone, Copy)]
pub struct Asked {
    /// The conditions on time have to hold from `at` to `until`; else they may be any.
    pub timed: bool,
    pub at: i64,
    pub until: i64,
    /// What is no fact may be left over as a condition on the state.
    pub leaves: bool,
    /// So many statements may be missing.
    pub budget: usize,
    /// The greatest nesting of uses of statements.
    pub deepest: usize,
}

/// An unfinished proof.
#[derive(Drop)]
pub struct Draft {
    pub alloc: Global,
    pub policy: Policy,
    pub asked: Asked,
    pub bindings: Vec<Binding>,
    pub variables: Vec<Variable>,
    pub parameters: Vec<Parameter>,
    pub places: Vec<Place>,
    pub frames: Vec<Frame>,
    pub hypotheses: Vec<Hypothesis>,
    pub links: Vec<Link>,
    pub bounds: Vec<Bound>,
    pub waiting: Vec<Waiting>,
    pub uses: Vec<Use>,
    pub trail: Vec<Undo>,
    /// The hypotheses that stand for missing statements.
    pub assumed: Vec<Missing>,
    /// The conditions that are left over, each once.
    pub left: Vec<Order>,
    pub left_states: Vec<Predicate>,
    /// So many conditions may be left over.
    pub most_left: usize,
    /// Implications are used between constants, so that fewer conditions name the current time.
    pub is_few: bool,
}

impl Draft {
    /// A draft without a goal.
    pub fn new(alloc: Global, policy: Policy, asked: Asked) -> Draft {
        Draft {
            alloc,
            policy,
            asked,
            bindings: Vec::new(alloc),
            variables: Vec::new(alloc),
            parameters: Vec::new(alloc),
            places: Vec::new(alloc),
            frames: Vec::new(alloc),
            hypotheses: Vec::new(alloc),
            links: Vec::new(alloc),
            bounds: Vec::new(alloc),
            waiting: Vec::new(alloc),
            uses: Vec::new(alloc),
            trail: Vec::new(alloc),
            assumed: Vec::new(alloc),
            left: Vec::new(alloc),
            left_states: Vec::new(alloc),
            most_left: NOTHING,
            is_few: false,
        }
    }

    fn clear(&mut self) {
        self.bindings.clear();
        self.variables.clear();
        self.parameters.clear();
        self.places.clear();
        self.frames.clear();
        self.hypotheses.clear();
        self.links.clear();
        self.bounds.clear();
        self.waiting.clear();
        self.uses.clear();
        self.trail.clear();
        self.assumed.clear();
        self.left.clear();
        self.left_states.clear();
    }

    fn claim_statement(&mut self, stated: Stated) -> Result<(), AllocError> {
        self.hypotheses.push(Hypothesis {
            claim: true,
            who: stated.who,
            body: Instance {
                node: stated.body,
                cell: NOTHING,
            },
            from: stated.from,
            to: stated.to,
            place: 0,
        })?;
        Ok(())
    }

    /// Begins anew, with the statements as claims, and a goal that `loc` hears at the current time.
    pub fn begin(&mut self, goal: usize) -> Result<(), AllocError> {
        self.clear();
        for number in 0..self.policy.statements.len() {
            let stated = match self.policy.statements.get(number) {
                Some(stated) => *stated,
                None => break,
            };
            self.claim_statement(stated)?;
        }
        self.frames.push(Frame {
            outer: NOTHING,
            who: self.policy.loc,
            begins: Term::Ctime,
            ends: Term::Ctime,
            opened: NOTHING,
        })?;
        self.begin_place(goal)
    }

    fn begin_place(&mut self, goal: usize) -> Result<(), AllocError> {
        let goal = Instance {
            node: goal,
            cell: NOTHING,
        };
        self.places.push(Place {
            parent: 0,
            height: 0,
            frame: 0,
            goal,
            from: Term::Ctime,
            to: Term::Ctime,
            depth: 0,
            first: NOTHING,
            last: NOTHING,
            top: NOTHING,
            known: NOTHING,
            bounds: NOTHING,
            sees_all: true,
            seen: NOTHING,
            local: false,
            bounded: false,
        })?;
        Ok(())
    }

    /// How long the lists are.
    pub fn lengths(&self) -> Lengths {
        Lengths {
            bindings: self.bindings.len(),
            variables: self.variables.len(),
            parameters: self.parameters.len(),
            places: self.places.len(),
            frames: self.frames.len(),
            hypotheses: self.hypotheses.len(),
            links: self.links.len(),
            bounds: self.bounds.len(),
            waiting: self.waiting.len(),
            uses: self.uses.len(),
            trail: self.trail.len(),
            assumed: self.assumed.len(),
            left: self.left.len(),
            left_states: self.left_states.len(),
        }
    }

    /// Takes back what was changed since the lists had these lengths.
    pub fn return_to(&mut self, lengths: Lengths) {
        self.undo(lengths.trail);
        self.shorten(lengths);
    }

    fn undo(&mut self, length: usize) {
        for _ in 0..self.trail.len().saturating_sub(length) {
            if let Some(change) = self.trail.pop() {
                self.take_back(change);
            }
        }
    }

    fn take_back(&mut self, change: Undo) {
        match change {
            Undo::Value(number) => {
                if let Some(variable) = self.variables.get_mut(number) {
                    variable.value = None;
                }
            }
            Undo::Reach(number, place) => {
                if let Some(variable) = self.variables.get_mut(number) {
                    variable.place = place;
                }
            }
            Undo::Next(number, part) => self.take_next_back(number, part),
            Undo::Chain(number, first, last) => {
                if let Some(place) = self.places.get_mut(number) {
                    place.first = first;
                    place.last = last;
                }
            }
            Undo::Top(number, top) => {
                if let Some(place) = self.places.get_mut(number) {
                    place.top = top;
                }
            }
            Undo::Known(number, known) => {
                if let Some(place) = self.places.get_mut(number) {
                    place.known = known;
                }
            }
        }
    }

    fn take_next_back(&mut self, number: usize, part: Part) {
        if let Some(made) = self.uses.get_mut(number) {
            if made.main {
                made.right = part;
            } else {
                made.left = part;
            }
        }
    }

    fn shorten(&mut self, lengths: Lengths) {
        self.bindings.truncate(lengths.bindings);
        self.variables.truncate(lengths.variables);
        self.parameters.truncate(lengths.parameters);
        self.places.truncate(lengths.places);
        self.frames.truncate(lengths.frames);
        self.hypotheses.truncate(lengths.hypotheses);
        self.links.truncate(lengths.links);
        self.bounds.truncate(lengths.bounds);
        self.waiting.truncate(lengths.waiting);
        self.uses.truncate(lengths.uses);
        self.assumed.truncate(lengths.assumed);
        self.left.truncate(lengths.left);
        self.left_states.truncate(lengths.left_states);
    }

    /// How many conditions are left over.
    pub fn conditions(&self) -> usize {
        self.left.len().saturating_add(self.left_states.len())
    }
}
