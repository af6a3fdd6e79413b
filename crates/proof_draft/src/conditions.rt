//! Conditions on times and on the state: which hold, which are left over, and which wait for a variable.

use crate::draft::Draft;
use crate::formulas::{NOTHING, Term};
use crate::parts::{Order, Predicate, Waiting};
use std::alloc::AllocError;

/// What becomes of a condition.
#[derive(Clone, Copy, PartialEq, Eq)]
pub enum Weight {
    Holds,
    Left,
    Fails,
    Waits,
}

impl Draft {
    // Whether the one time is not after the other, whatever else is known.
    fn is_linked(&self, low: Term, high: Term) -> bool {
        if low == high || low == self.policy.first_moment || high == self.policy.last_moment {
            return true;
        }
        match (low, high) {
            (Term::Constant(one), Term::Constant(two)) => {
                self.policy.second_of(one) <= self.policy.second_of(two)
            }
            _ => false,
        }
    }

    /// Whether the one time is after the other.
    pub fn is_against(&self, low: Term, high: Term) -> bool {
        match (low, high) {
            (Term::Constant(one), Term::Constant(two)) => {
                self.policy.second_of(two) < self.policy.second_of(one)
            }
            _ => false,
        }
    }

    // The orders of times that are known at a place, those with a variable without a value left out; and whether there are any of these.
    fn known_orders(
        &self,
        place: usize,
        orders: &mut Vec<(Term, Term)>,
    ) -> Result<bool, AllocError> {
        let mut waits = false;
        let mut here = place;
        for _ in 0..self.places.len() {
            let at = self.place(here);
            if !at.bounded {
                break;
            }
            let mut cell = at.bounds;
            for _ in 0..self.bounds.len() {
                if cell == NOTHING {
                    break;
                }
                let bound = self.bound(cell);
                cell = bound.next;
                if self.is_open(bound.low) || self.is_open(bound.high) {
                    waits = true;
                } else {
                    orders.push((self.reduced(bound.low), self.reduced(bound.high)))?;
                }
            }
            if at.height == 0 {
                break;
            }
            here = at.parent;
        }
        Ok(waits)
    }

    fn is_reached(&self, reached: &Vec<Term>, term: Term) -> bool {
        reached.iter().any(|from| self.is_linked(*from, term))
    }

    // Whether these orders lead from the one time to the other. From a false one all follows.
    fn leads(&self, orders: &Vec<(Term, Term)>, low: Term, high: Term) -> Result<bool, AllocError> {
        if orders.iter().any(|order| self.is_against(order.0, order.1)) {
            return Ok(true);
        }
        let mut reached = Vec::new(self.alloc);
        reached.push(low)?;
        for _ in 0..orders.len() {
            let before = reached.len();
            for order in orders {
                if self.is_reached(&reached, order.0) && !reached.as_slice().contains(&order.1) {
                    reached.push(order.1)?;
                }
            }
            if reached.len() == before {
                break;
            }
        }
        Ok(self.is_reached(&reached, high))
    }

    // Whether a condition on times may be left over: it holds at the moments that are asked for.
    fn is_left_over(&self, low: Term, high: Term) -> bool {
        match (low, high) {
            (Term::Ctime, Term::Constant(number)) => {
                !self.asked.timed || self.asked.until <= self.policy.second_of(number)
            }
            (Term::Constant(number), Term::Ctime) => {
                !self.asked.timed || self.policy.second_of(number) <= self.asked.at
            }
            _ => false,
        }
    }

    /// What becomes of the condition that the one time is not after the other.
    pub fn weigh(&self, place: usize, low: Term, high: Term) -> Result<Weight, AllocError> {
        let low = self.reduced(low);
        let high = self.reduced(high);
        if self.is_linked(low, high) {
            return Ok(Weight::Holds);
        }
        if self.is_open(low) || self.is_open(high) {
            return Ok(Weight::Waits);
        }
        let mut waits = false;
        if self.place(place).bounded {
            let mut orders = Vec::new(self.alloc);
            waits = self.known_orders(place, &mut orders)?;
            if self.leads(&orders, low, high)? {
                return Ok(Weight::Holds);
            }
        }
        if self.is_left_over(low, high) {
            return Ok(Weight::Left);
        }
        if waits {
            Ok(Weight::Waits)
        } else {
            Ok(Weight::Fails)
        }
    }

    /// Asks that the one time is not after the other. What cannot be told yet is kept.
    pub fn require(&mut self, place: usize, low: Term, high: Term) -> Result<bool, AllocError> {
        match self.weigh(place, low, high)? {
            Weight::Holds => Ok(true),
            Weight::Left => self.leave_time(low, high),
            Weight::Fails => Ok(false),
            Weight::Waits => {
                self.waiting.push(Waiting { place, low, high })?;
                Ok(true)
            }
        }
    }

    // Leaves a condition on time over, if there is room for one more.
    fn leave_time(&mut self, low: Term, high: Term) -> Result<bool, AllocError> {
        let order = Order {
            low: self.reduced(low),
            high: self.reduced(high),
        };
        if self.left.as_slice().contains(&order) {
            return Ok(true);
        }
        if self.most_left <= self.conditions() {
            return Ok(false);
        }
        self.left.push(order)?;
        Ok(true)
    }

    /// Leaves over those conditions of the ones that waited that do not hold by themselves. False, if there is no room for them.
    pub fn leave_waiting(&mut self) -> Result<bool, AllocError> {
        for number in 0..self.waiting.len() {
            let kept = self.waiting_at(number);
            match self.weigh(kept.place, kept.low, kept.high)? {
                Weight::Left => {
                    if !self.leave_time(kept.low, kept.high)? {
                        return Ok(false);
                    }
                }
                _ => {}
            }
        }
        Ok(true)
    }

    fn is_left_state(&self, wanted: &Predicate) -> bool {
        for number in 0..self.left_states.len() {
            if let Some(known) = self.left_states.get(number) {
                if known.predicate == wanted.predicate && self.are_one(known, wanted) {
                    return true;
                }
            }
        }
        false
    }

    fn are_one(&self, known: &Predicate, wanted: &Predicate) -> bool {
        for place in 0..known.count {
            let one = self.policy.argument(known.first.saturating_add(place));
            let two = self.policy.argument(wanted.first.saturating_add(place));
            if self.in_cell(one, known.cell) != self.in_cell(two, wanted.cell) {
                return false;
            }
        }
        true
    }

    /// Leaves a condition on the state over, if there is room for one more.
    pub fn leave_state(&mut self, wanted: Predicate) -> Result<bool, AllocError> {
        if self.is_left_state(&wanted) {
            return Ok(true);
        }
        if self.most_left <= self.conditions() {
            return Ok(false);
        }
        self.left_states.push(wanted)?;
        Ok(true)
    }

    pub fn waiting_at(&self, number: usize) -> Waiting {
        match self.waiting.get(number) {
            Some(waiting) => *waiting,
            None => Waiting {
                place: 0,
                low: Term::Ctime,
                high: Term::Ctime,
            },
        }
    }

    /// The first condition that still waits.
    pub fn first_waiting(&self) -> Result<Option<usize>, AllocError> {
        for number in 0..self.waiting.len() {
            let kept = self.waiting_at(number);
            match self.weigh(kept.place, kept.low, kept.high)? {
                Weight::Waits => return Ok(Some(number)),
                _ => {}
            }
        }
        Ok(None)
    }

    pub fn has_waiting(&self) -> Result<bool, AllocError> {
        let found = self.first_waiting()?;
        Ok(found.is_some())
    }

    /// Whether none of the conditions that waited fails by now.
    pub fn still_holds(&self) -> Result<bool, AllocError> {
        for number in 0..self.waiting.len() {
            let kept = self.waiting_at(number);
            match self.weigh(kept.place, kept.low, kept.high)? {
                Weight::Fails => return Ok(false),
                _ => {}
            }
        }
        Ok(true)
    }

    /// Whether a predicate on the state is a fact.
    pub fn is_fact(&self, predicate: usize, first: usize, count: usize, cell: usize) -> bool {
        for number in 0..self.policy.facts.len() {
            if let Some(fact) = self.policy.facts.get(number) {
                if fact.predicate == predicate && self.are_equal(fact.first, first, count, cell) {
                    return true;
                }
            }
        }
        false
    }

    fn are_equal(&self, fact: usize, first: usize, count: usize, cell: usize) -> bool {
        for place in 0..count {
            let known = self.policy.argument(fact.saturating_add(place));
            let term = self.policy.argument(first.saturating_add(place));
            if known != self.in_cell(term, cell) {
                return false;
            }
        }
        true
    }

    /// Gives a variable this value, if no condition fails then.
    pub fn take_value(&mut self, number: usize, value: Term) -> Result<bool, AllocError> {
        if !self.give(number, value)? {
            return Ok(false);
        }
        self.still_holds()
    }
}
