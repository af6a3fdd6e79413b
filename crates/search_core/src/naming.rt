//! The numbers of hypotheses and parameters in a proof's text.

use proof_draft::{Missing, Term};
use std::alloc::{AllocError, Global};

/// The numbers of hypotheses and parameters. Those of hypotheses that are not cited come after those that are.
#[derive(Drop)]
pub struct Names {
    hypotheses: Vec<usize>,
    parameters: Vec<usize>,
    marked: Vec<bool>,
    is_cited: Vec<bool>,
    before: usize,
}

impl Names {
    /// Numbers for so many hypotheses and parameters.
    pub fn new(alloc: Global, hypotheses: usize, parameters: usize) -> Result<Names, AllocError> {
        let mut names = Names {
            hypotheses: Vec::new(alloc),
            parameters: Vec::new(alloc),
            marked: Vec::new(alloc),
            is_cited: Vec::new(alloc),
            before: 0,
        };
        for _ in 0..hypotheses {
            names.hypotheses.push(0)?;
            names.marked.push(false)?;
            names.is_cited.push(false)?;
        }
        for _ in 0..parameters {
            names.parameters.push(0)?;
        }
        Ok(names)
    }

    pub fn set_hypothesis(&mut self, hypothesis: usize, number: usize) {
        if let Some(name) = self.hypotheses.get_mut(hypothesis) {
            *name = number;
        }
    }

    pub fn set_parameter(&mut self, parameter: Term, number: usize) {
        match parameter {
            Term::Parameter(index) => {
                if let Some(name) = self.parameters.get_mut(index) {
                    *name = number;
                }
            }
            _ => {}
        }
    }

    pub fn mark(&mut self, hypothesis: usize) {
        if let Some(mark) = self.marked.get_mut(hypothesis) {
            *mark = true;
        }
    }

    pub fn is_marked(&self, hypothesis: usize) -> bool {
        match self.marked.get(hypothesis) {
            Some(mark) => *mark,
            None => false,
        }
    }

    fn set_cited(&mut self, hypothesis: usize, number: usize) {
        self.set_hypothesis(hypothesis, number);
        if let Some(mark) = self.is_cited.get_mut(hypothesis) {
            *mark = true;
        }
    }

    /// Numbers the cited statements, and then those that are missing; all others come after them.
    pub fn begin_after(&mut self, cited: &Vec<usize>, missing: &Vec<Missing>) {
        let mut number = 0usize;
        for statement in cited {
            self.set_cited(*statement, number);
            number = number.saturating_add(1);
        }
        for wanted in missing {
            self.set_cited(wanted.hypothesis, number);
            number = number.saturating_add(1);
        }
        self.before = number;
    }

    pub fn hypothesis(&self, hypothesis: usize) -> usize {
        let number = match self.hypotheses.get(hypothesis) {
            Some(number) => *number,
            None => 0,
        };
        match self.is_cited.get(hypothesis) {
            Some(true) => number,
            _ => number.saturating_add(self.before),
        }
    }

    pub fn parameter(&self, parameter: usize) -> usize {
        match self.parameters.get(parameter) {
            Some(number) => *number,
            None => 0,
        }
    }
}
