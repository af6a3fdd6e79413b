//! Towards the proof of a place: the rule that its goal asks for, or a choice of ways.

use crate::machine::Machine;
use draft_rules::{
    Premises, Task, Way, apply, assume, close_by_fact, close_by_guess, close_by_order,
    close_by_state, close_goal, has_constants, key_at, open_arguments, open_goal, prove_either,
    put_uses,
};
use proof_draft::{FALSITY, NOTHING, ORDER, Rule, Shape};
use std::alloc::AllocError;

impl Machine {
    // The premises of a rule are to be proved, the first one first.
    fn add_premises(&mut self, premises: Premises) -> Result<bool, AllocError> {
        match premises {
            Premises::Closed => {}
            Premises::One(premise) => self.add_task(Task::Prove(premise))?,
            Premises::Two(one, two) => {
                self.add_task(Task::Prove(two))?;
                self.add_task(Task::Prove(one))?;
            }
        }
        Ok(true)
    }

    fn add_uses(&mut self, number: usize, key: usize) -> Result<(), AllocError> {
        put_uses(&self.draft, number, key, &mut self.ways)
    }

    // The choice between the ways from `start` on, if there are any.
    fn choose_some(&mut self, number: usize, start: usize) -> Result<bool, AllocError> {
        if self.ways.len() <= start {
            return Ok(false);
        }
        self.choose(number, start, false)
    }

    fn choose_part(&mut self, number: usize) -> Result<bool, AllocError> {
        let start = self.ways.len();
        self.add_way(Way::Left)?;
        self.add_way(Way::Right)?;
        self.choose(number, start, false)
    }

    // Whether a place is nested too deep. That this was so is kept.
    fn is_too_deep(&mut self, number: usize) -> bool {
        if self.draft.place(number).depth <= self.limit {
            return false;
        }
        self.hits = self.hits.saturating_add(1);
        if !self.is_kept(number) {
            self.news = self.news.saturating_add(1);
        }
        true
    }

    // Adds the way by a statement that is missing, if one more may be.
    fn add_assumption(&mut self) -> Result<(), AllocError> {
        if self.draft.assumed.len() < self.draft.asked.budget {
            self.add_way(Way::Assume)?;
        }
        Ok(())
    }

    // The ways to prove an atom, whose key has no variable without a value or has one.
    fn add_atom_ways(
        &mut self,
        number: usize,
        predicate: usize,
        is_ground: bool,
    ) -> Result<(), AllocError> {
        let start = self.ways.len();
        self.add_uses(number, predicate)?;
        self.add_uses(number, FALSITY)?;
        self.add_uses(number, ORDER)?;
        if is_ground || self.ways.len() == start {
            self.add_assumption()?;
        }
        Ok(())
    }

    fn prove_atom(&mut self, number: usize, predicate: usize) -> Result<bool, AllocError> {
        if self.is_too_deep(number) {
            return Ok(false);
        }
        let (key, is_ground) = key_at(&self.draft, number)?;
        let kept = self.is_kept(number);
        let left = self.limit.saturating_sub(self.draft.place(number).depth);
        if kept && self.has_failed(&key, left) {
            return Ok(false);
        }
        let start = self.ways.len();
        self.add_atom_ways(number, predicate, is_ground)?;
        let choice = self.choices.len();
        self.add_task(if is_ground {
            Task::Cut(choice)
        } else {
            Task::Won(choice)
        })?;
        if kept {
            self.keys.push(key)?;
        }
        self.choose(number, start, kept)
    }

    fn prove_state(
        &mut self,
        number: usize,
        predicate: usize,
        first: usize,
        count: usize,
    ) -> Result<bool, AllocError> {
        if self.is_too_deep(number) {
            return Ok(false);
        }
        let cell = self.draft.place(number).goal.cell;
        let is_ground = open_arguments(&self.draft, first, count, cell) == 0;
        if is_ground && self.draft.is_fact(predicate, first, count, cell) {
            close_goal(&mut self.draft, number, Rule::InterR)?;
            return Ok(true);
        }
        let start = self.ways.len();
        self.add_uses(number, predicate)?;
        self.add_uses(number, FALSITY)?;
        if is_ground {
            if self.draft.asked.leaves && has_constants(&self.draft, first, count, cell) {
                self.add_way(Way::Leave)?;
            }
        } else {
            self.add_facts(predicate)?;
        }
        self.choose_some(number, start)
    }

    // The ways by the facts of a predicate, or by what is asked for.
    fn add_facts(&mut self, predicate: usize) -> Result<(), AllocError> {
        for number in 0..self.draft.policy.facts.len() {
            let is_one = match self.draft.policy.facts.get(number) {
                Some(fact) => fact.predicate == predicate,
                None => false,
            };
            if is_one {
                self.add_way(Way::Known(number))?;
            }
        }
        if self.draft.asked.leaves {
            self.add_way(Way::Guess)?;
        }
        Ok(())
    }

    fn prove_order(&mut self, number: usize) -> Result<bool, AllocError> {
        if self.is_too_deep(number) {
            return Ok(false);
        }
        let start = self.ways.len();
        self.add_way(Way::Hold)?;
        self.add_uses(number, ORDER)?;
        self.add_uses(number, FALSITY)?;
        self.choose(number, start, false)
    }

    fn prove_false(&mut self, number: usize) -> Result<bool, AllocError> {
        if self.is_too_deep(number) {
            return Ok(false);
        }
        let start = self.ways.len();
        self.add_uses(number, FALSITY)?;
        self.choose_some(number, start)
    }

    /// Goes one rule on towards the proof of a place.
    pub fn prove(&mut self, number: usize) -> Result<bool, AllocError> {
        if let Some(premises) = open_goal(&mut self.draft, number)? {
            return self.add_premises(premises);
        }
        let goal = self.draft.place(number).goal;
        match self.draft.policy.node(goal.node).shape {
            Shape::Atom(predicate, _, _) => self.prove_atom(number, predicate),
            Shape::State(predicate, first, count) => {
                self.prove_state(number, predicate, first, count)
            }
            Shape::Order(_, _) => self.prove_order(number),
            Shape::Or(_, _) => self.choose_part(number),
            _ => self.prove_false(number),
        }
    }

    // The place of the last choice, for which a way is taken.
    fn chosen(&self) -> usize {
        match self.choices.last() {
            Some(choice) => choice.place,
            None => NOTHING,
        }
    }

    // Whether the last choice has one way alone.
    fn is_only_way(&self) -> bool {
        match self.choices.last() {
            Some(choice) => choice.end <= choice.start.saturating_add(1),
            None => true,
        }
    }

    fn go_to_part(&mut self, number: usize, first: bool) -> Result<bool, AllocError> {
        match prove_either(&mut self.draft, number, first)? {
            Some(premises) => self.add_premises(premises),
            None => Ok(false),
        }
    }

    fn go_by_use(
        &mut self,
        number: usize,
        hypothesis: usize,
        atom: usize,
        up: usize,
    ) -> Result<bool, AllocError> {
        let mut tasks = match apply(&mut self.draft, number, hypothesis, atom, up)? {
            Some(tasks) => tasks,
            None => return Ok(false),
        };
        for _ in 0..tasks.len() {
            if let Some(task) = tasks.pop() {
                self.add_task(task)?;
            }
        }
        Ok(true)
    }

    /// Takes a way of the last choice.
    pub fn go(&mut self, way: Way) -> Result<bool, AllocError> {
        let number = self.chosen();
        match way {
            Way::Apply(hypothesis, atom, up) => self.go_by_use(number, hypothesis, atom, up),
            Way::Leave => close_by_state(&mut self.draft, number),
            Way::Guess => close_by_guess(&mut self.draft, number),
            Way::Known(fact) => close_by_fact(&mut self.draft, number, fact),
            Way::Hold => close_by_order(&mut self.draft, number),
            Way::Left => self.go_to_part(number, true),
            Way::Right => self.go_to_part(number, false),
            Way::Value(variable, value) => self.draft.take_value(variable, value),
            Way::Assume => {
                let is_only = self.is_only_way();
                assume(&mut self.draft, number, is_only)
            }
        }
    }
}
