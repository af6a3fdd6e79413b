//! The steps of a search, the times that it finds at its end, and how it ends.

use crate::machine::{End, Machine, Outcome};
use draft_rules::{Task, open_term, put_values};
use proof_draft::{NOTHING, Sort, Term};
use std::alloc::AllocError;

impl Machine {
    // Chooses a value for a variable of sort time, before the tasks that are left.
    fn settle_one(&mut self, number: usize, rising: bool) -> Result<bool, AllocError> {
        if self.draft.variable(number).sort != Sort::Time {
            return Ok(false);
        }
        let start = self.ways.len();
        put_values(&self.draft, &mut self.ways, number, rising)?;
        self.choose(NOTHING, start, false)
    }

    // Finds two times.
    fn settle(&mut self, low: Term, high: Term) -> Result<bool, AllocError> {
        match self.draft.reduced(low) {
            Term::Variable(number) => {
                self.add_task(Task::Settle(low, high))?;
                return self.settle_one(number, true);
            }
            _ => {}
        }
        match self.draft.reduced(high) {
            Term::Variable(number) => {
                self.add_task(Task::Settle(low, high))?;
                self.settle_one(number, false)
            }
            _ => Ok(true),
        }
    }

    // Nothing is left to be proved: the times that still wait are found, or this is the end.
    fn finish(&mut self) -> Result<Outcome, AllocError> {
        if self.draft.still_holds()? {
            match self.draft.first_waiting()? {
                Some(kept) => {
                    if let Some(number) = open_term(&self.draft, kept) {
                        let _ = self.settle_one(number, true)?;
                    }
                }
                None => {
                    if self.draft.leave_waiting()? {
                        return Ok(Outcome::Proved);
                    }
                }
            }
        }
        self.failed = true;
        Ok(Outcome::Goes)
    }

    // One step: the next way of the last choice, if what was tried failed, or else the next task.
    fn step(&mut self) -> Result<Outcome, AllocError> {
        if self.failed {
            let way = match self.next_way()? {
                Some(way) => way,
                None => return Ok(Outcome::Tried),
            };
            let went = self.go(way)?;
            self.failed = !went;
            return Ok(Outcome::Goes);
        }
        if self.todo == NOTHING {
            return self.finish();
        }
        let task = self.take_task()?;
        let went = self.do_task(task)?;
        self.failed = !went;
        Ok(Outcome::Goes)
    }

    fn do_task(&mut self, task: Task) -> Result<bool, AllocError> {
        match task {
            Task::Prove(place) => self.prove(place),
            Task::Cut(choices) => self.cut(choices),
            Task::Won(choice) => {
                self.win(choice);
                Ok(true)
            }
            Task::Settle(low, high) => self.settle(low, high),
        }
    }

    // Steps until this nesting was tried, with at most so many steps.
    fn search_nesting(&mut self, most: u64) -> Result<Outcome, AllocError> {
        for _ in 0..most {
            self.steps = self.steps.saturating_add(1);
            match self.step()? {
                Outcome::Goes => {}
                outcome => return Ok(outcome),
            }
        }
        Ok(Outcome::Goes)
    }

    // Tries one nesting after another, with at most so many steps.
    fn search_deeper(&mut self, most: u64) -> Result<End, AllocError> {
        for _ in 0..=self.draft.asked.deepest {
            match self.search_nesting(most.saturating_sub(self.steps))? {
                Outcome::Proved => return Ok(End::Found),
                Outcome::Goes => return Ok(End::NoSteps),
                Outcome::Tried => {}
            }
            if self.hits == 0 || self.is_closed() {
                return Ok(End::Exhausted);
            }
            self.deepen();
            if self.draft.asked.deepest < self.limit {
                return Ok(End::TooDeep);
            }
            self.begin()?;
        }
        Ok(End::TooDeep)
    }

    /// Searches with at most so many steps.
    pub fn search(&mut self, most: u64) -> Result<End, AllocError> {
        self.limit = 1;
        self.steps = 0;
        self.begin()?;
        self.search_deeper(most)
    }

    /// Goes on after a proof that was refused, with at most so many steps.
    pub fn search_on(&mut self, most: u64) -> Result<End, AllocError> {
        self.failed = true;
        self.steps = 0;
        self.search_deeper(most)
    }

    /// Searches anew for a proof with fewer conditions than this, with at most so many steps. No choice is given up on the way.
    pub fn search_fewer(
        &mut self,
        conditions: usize,
        between_constants: bool,
        most: u64,
    ) -> Result<End, AllocError> {
        self.is_strict = true;
        self.draft.is_few = between_constants;
        self.draft.most_left = conditions.saturating_sub(1);
        self.search(most)
    }

    fn deepen(&mut self) {
        let more = if self.limit < 8 { 1 } else { self.limit / 4 };
        self.limit = self.limit.saturating_add(more);
    }

    // Whether the nesting is greater than the number of goals that were tried, and no new one came.
    fn is_closed(&self) -> bool {
        self.news == 0 && self.table.len() == self.known && self.known < self.limit
    }
}
