//! Terms of a search, and what makes two of them one.

use crate::draft::Draft;
use crate::formulas::{NOTHING, Sort, Term};
use crate::parts::{Binding, Parameter, Undo, Variable};
use std::alloc::AllocError;

impl Draft {
    pub fn variable(&self, number: usize) -> Variable {
        match self.variables.get(number) {
            Some(variable) => *variable,
            None => Variable {
                value: None,
                sort: Sort::Text,
                place: 0,
                hint: None,
            },
        }
    }

    pub fn parameter(&self, number: usize) -> Parameter {
        match self.parameters.get(number) {
            Some(parameter) => *parameter,
            None => Parameter {
                sort: Sort::Text,
                place: 0,
            },
        }
    }

    pub fn binding(&self, cell: usize) -> Binding {
        match self.bindings.get(cell) {
            Some(binding) => *binding,
            None => Binding {
                term: Term::Ctime,
                outer: NOTHING,
            },
        }
    }

    /// The value of a variable, or the term itself.
    pub fn reduced(&self, term: Term) -> Term {
        let mut reached = term;
        for _ in 0..self.variables.len() {
            match reached {
                Term::Variable(number) => match self.variable(number).value {
                    Some(value) => reached = value,
                    None => return reached,
                },
                _ => return reached,
            }
        }
        reached
    }

    /// The term with the terms of these bindings for its variable.
    pub fn in_cell(&self, term: Term, cell: usize) -> Term {
        match term {
            Term::Bound(number) => {
                let mut here = cell;
                for _ in 0..number {
                    here = self.binding(here).outer;
                }
                self.reduced(self.binding(here).term)
            }
            _ => self.reduced(term),
        }
    }

    pub fn sort_of(&self, term: Term) -> Sort {
        match term {
            Term::Constant(number) => self.policy.sort_of_constant(number),
            Term::Ctime => Sort::Time,
            Term::Bound(_) => Sort::Text,
            Term::Variable(number) => self.variable(number).sort,
            Term::Parameter(number) => self.parameter(number).sort,
        }
    }

    pub fn is_open(&self, term: Term) -> bool {
        match self.reduced(term) {
            Term::Variable(_) => true,
            _ => false,
        }
    }

    /// A new variable, for which what is known at the place may be taken.
    pub fn new_variable(
        &mut self,
        sort: Sort,
        place: usize,
        hint: Option<Term>,
    ) -> Result<Term, AllocError> {
        let number = self.variables.len();
        self.variables.push(Variable {
            value: None,
            sort,
            place,
            hint,
        })?;
        Ok(Term::Variable(number))
    }

    pub fn new_parameter(&mut self, sort: Sort, place: usize) -> Result<Term, AllocError> {
        let number = self.parameters.len();
        self.parameters.push(Parameter { sort, place })?;
        Ok(Term::Parameter(number))
    }

    pub fn bind_to_cell(&mut self, term: Term, outer: usize) -> Result<usize, AllocError> {
        let number = self.bindings.len();
        self.bindings.push(Binding { term, outer })?;
        Ok(number)
    }

    fn set_value(&mut self, number: usize, value: Term) -> Result<(), AllocError> {
        if let Some(variable) = self.variables.get_mut(number) {
            variable.value = Some(value);
        }
        self.trail.push(Undo::Value(number))?;
        Ok(())
    }

    fn set_reach(&mut self, number: usize, place: usize) -> Result<(), AllocError> {
        let mut old = place;
        if let Some(variable) = self.variables.get_mut(number) {
            old = variable.place;
            variable.place = place;
        }
        self.trail.push(Undo::Reach(number, old))?;
        Ok(())
    }

    // Gives a variable without a value another such variable for its value, which then may be nothing that the first may not.
    fn join(&mut self, number: usize, other: usize) -> Result<bool, AllocError> {
        let place = self.variable(number).place;
        let other_place = self.variable(other).place;
        let both = self.meeting(place, other_place);
        if both != other_place {
            self.set_reach(other, both)?;
        }
        self.set_value(number, Term::Variable(other))?;
        Ok(true)
    }

    /// Gives a variable without a value this one, if it may be that.
    pub fn give(&mut self, number: usize, value: Term) -> Result<bool, AllocError> {
        if self.variable(number).sort != self.sort_of(value) {
            return Ok(false);
        }
        match value {
            Term::Variable(other) => {
                if other == number {
                    return Ok(true);
                }
                self.join(number, other)
            }
            Term::Parameter(parameter) => {
                let made = self.parameter(parameter).place;
                if !self.is_above(made, self.variable(number).place) {
                    return Ok(false);
                }
                self.set_value(number, value)?;
                Ok(true)
            }
            _ => {
                self.set_value(number, value)?;
                Ok(true)
            }
        }
    }

    /// Makes two terms one, if they can be.
    pub fn unify(&mut self, term: Term, other: Term) -> Result<bool, AllocError> {
        let term = self.reduced(term);
        let other = self.reduced(other);
        if term == other {
            return Ok(true);
        }
        match (term, other) {
            (Term::Variable(number), _) => self.give(number, other),
            (_, Term::Variable(number)) => self.give(number, term),
            _ => Ok(false),
        }
    }

    /// Makes the arguments of two atoms one, if they can be.
    pub fn unify_arguments(
        &mut self,
        first: usize,
        cell: usize,
        other: usize,
        other_cell: usize,
        count: usize,
    ) -> Result<bool, AllocError> {
        for place in 0..count {
            let term = self.policy.argument(first.saturating_add(place));
            let other_term = self.policy.argument(other.saturating_add(place));
            let value = self.in_cell(term, cell);
            let other_value = self.in_cell(other_term, other_cell);
            if !self.unify(value, other_value)? {
                return Ok(false);
            }
        }
        Ok(true)
    }

    /// Whether the arguments of an atom may become these: constants that differ may not.
    pub fn may_match(
        &self,
        first: usize,
        goal_first: usize,
        goal_cell: usize,
        count: usize,
    ) -> bool {
        for place in 0..count {
            match self.policy.argument(first.saturating_add(place)) {
                Term::Constant(number) => {
                    let goal_term = self.policy.argument(goal_first.saturating_add(place));
                    match self.in_cell(goal_term, goal_cell) {
                        Term::Constant(other) => {
                            if other != number {
                                return false;
                            }
                        }
                        Term::Ctime | Term::Parameter(_) => return false,
                        _ => {}
                    }
                }
                _ => {}
            }
        }
        true
    }
}
