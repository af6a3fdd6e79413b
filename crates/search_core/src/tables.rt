//! Which goals were tried in vain, and how deep.

use crate::machine::Machine;
use proof_draft::NOTHING;
use std::alloc::AllocError;

impl Machine {
    /// Whether failures at a place are kept: nothing but the statements is known there.
    pub fn is_kept(&self, number: usize) -> bool {
        !self.draft.place(number).local
            && !self.draft.policy.has_cases
            && self.draft.asked.budget == 0
            && !self.is_strict
    }

    /// Whether the goal of that key was tried in vain with so many levels left.
    pub fn has_failed(&mut self, key: &Vec<usize>, left: usize) -> bool {
        let known = match self.table.get(key.as_slice()) {
            Some(known) => *known,
            None => return false,
        };
        if known == NOTHING {
            return true;
        }
        if left <= known {
            self.hits = self.hits.saturating_add(1);
            return true;
        }
        false
    }

    /// Keeps that the goal of a place was tried in vain.
    pub fn keep_failure(
        &mut self,
        key: Vec<usize>,
        number: usize,
        hits: usize,
    ) -> Result<(), AllocError> {
        let left = if self.hits == hits {
            NOTHING
        } else {
            self.limit.saturating_sub(self.draft.place(number).depth)
        };
        let _ = self.table.insert(key, left)?;
        Ok(())
    }
}
