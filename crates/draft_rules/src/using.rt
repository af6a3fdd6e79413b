//! The use of a hypothesis: the left rules on the way from it to an atom in it.

use crate::tasks::Task;
use crate::walk::{Step, Walk, instance_of};
use proof_draft::{
    Draft, Hypothesis, Instance, Missing, NOTHING, Part, Rule, Shape, Sort, Term, Use,
};
use std::alloc::AllocError;

fn is_order(draft: &Draft, node: usize) -> bool {
    match draft.policy.node(node).shape {
        Shape::Order(_, _) => true,
        _ => false,
    }
}

// Whether an order of times is false, where its variables have the values that make it so. From it all follows.
fn is_false_order(
    draft: &mut Draft,
    step: Step,
    low: Term,
    high: Term,
) -> Result<bool, AllocError> {
    let low = draft.in_cell(low, step.cell);
    let high = draft.in_cell(high, step.cell);
    let earliest = draft.policy.first_moment;
    let latest = draft.policy.last_moment;
    if draft.is_open(low) && !draft.unify(low, latest)? {
        return Ok(false);
    }
    if draft.is_open(high) && !draft.unify(high, earliest)? {
        return Ok(false);
    }
    Ok(draft.is_against(draft.reduced(low), draft.reduced(high)))
}

// Whether a term may be named at a place.
fn is_in_scope(draft: &Draft, term: Term, number: usize) -> bool {
    match draft.reduced(term) {
        Term::Parameter(parameter) => draft.is_above(draft.parameter(parameter).place, number),
        Term::Variable(variable) => draft.is_above(draft.variable(variable).place, number),
        _ => true,
    }
}

// Times that are to be found, for which these are tried first.
fn times_to_find(
    draft: &mut Draft,
    place: usize,
    from: Term,
    to: Term,
) -> Result<(Term, Term, bool), AllocError> {
    let one = draft.new_variable(Sort::Time, place, Some(from))?;
    let two = draft.new_variable(Sort::Time, place, Some(to))?;
    Ok((one, two, true))
}

impl Walk {
    // Puts a use where its step stands.
    fn attach(&mut self, draft: &mut Draft, step: Step, made: Use) -> Result<(), AllocError> {
        let made = draft.new_use(made)?;
        if step.inserted {
            return draft.insert(step.place, made);
        }
        if self.tail == NOTHING {
            draft.set_top(self.number, made)?;
        } else {
            draft.set_next(self.tail, Part::Use(made))?;
        }
        self.tail = made;
        Ok(())
    }

    // Puts a use that brings this truth or claim, with which the way goes on.
    fn go_on(
        &mut self,
        draft: &mut Draft,
        step: Step,
        made: Use,
        brings: usize,
    ) -> Result<(), AllocError> {
        let mut made = made;
        made.brings = brings;
        self.attach(draft, step, made)?;
        self.hypothesis = brings;
        Ok(())
    }

    // Makes a claim a truth on its interval.
    fn take_claim(
        &mut self,
        draft: &mut Draft,
        step: Step,
        number: usize,
    ) -> Result<bool, AllocError> {
        let claim = draft.hypothesis(number);
        let truth = draft.new_truth(claim.body, claim.from, claim.to, step.place)?;
        self.go_on(draft, step, Use::new(Rule::Claim, number), truth)?;
        Ok(true)
    }

    // Makes a claim a truth, if it counts in the view and on its interval.
    fn open_claim(&mut self, draft: &mut Draft, step: Step) -> Result<bool, AllocError> {
        let claim = draft.hypothesis(self.hypothesis);
        if !claim.claim {
            return Ok(true);
        }
        let view = draft.frame(draft.place(step.place).frame);
        if draft.reduced(claim.who) != draft.policy.loc && !draft.unify(claim.who, view.who)? {
            return Ok(false);
        }
        if !draft.require(step.place, claim.from, view.begins)? {
            return self.widen(draft, step);
        }
        if !draft.require(step.place, view.ends, claim.to)? {
            return self.widen(draft, step);
        }
        let claimed = self.hypothesis;
        self.take_claim(draft, step, claimed)
    }

    // The statement may be missing for the interval of the view.
    fn widen(&mut self, draft: &mut Draft, step: Step) -> Result<bool, AllocError> {
        let stated = self.hypothesis;
        if draft.policy.statements.len() <= stated || draft.asked.budget <= draft.assumed.len() {
            return Ok(false);
        }
        let mut claim = draft.hypothesis(stated);
        let view = draft.frame(draft.place(step.place).frame);
        claim.from = view.begins;
        claim.to = view.ends;
        let wider = draft.new_hypothesis(claim)?;
        draft.assumed.push(Missing {
            hypothesis: wider,
            stated,
            is_only: true,
        })?;
        self.take_claim(draft, step, wider)
    }

    // A rule that gives a part of a truth on the same interval, with this term.
    fn open_part(
        &mut self,
        draft: &mut Draft,
        step: Step,
        rule: Rule,
        body: Instance,
    ) -> Result<usize, AllocError> {
        let held = draft.hypothesis(self.hypothesis);
        let truth = draft.new_truth(body, held.from, held.to, step.place)?;
        let mut made = Use::new(rule, self.hypothesis);
        made.one = draft.binding(body.cell).term;
        self.go_on(draft, step, made, truth)?;
        Ok(truth)
    }

    fn open_both(
        &mut self,
        draft: &mut Draft,
        step: Step,
        a: usize,
        b: usize,
        wanted: usize,
    ) -> Result<bool, AllocError> {
        let held = draft.hypothesis(self.hypothesis);
        let one = draft.new_truth(instance_of(step, a), held.from, held.to, step.place)?;
        let two = draft.new_truth(instance_of(step, b), held.from, held.to, step.place)?;
        let mut made = Use::new(Rule::AndL, self.hypothesis);
        made.brings = one;
        made.also = two;
        self.attach(draft, step, made)?;
        self.hypothesis = if wanted == a { one } else { two };
        Ok(true)
    }

    fn open_says(
        &mut self,
        draft: &mut Draft,
        step: Step,
        who: Term,
        a: usize,
    ) -> Result<bool, AllocError> {
        let held = draft.hypothesis(self.hypothesis);
        let who = draft.in_cell(who, step.cell);
        let claim = draft.new_hypothesis(Hypothesis {
            claim: true,
            who,
            body: instance_of(step, a),
            from: held.from,
            to: held.to,
            place: step.place,
        })?;
        let made = Use::new(Rule::SaysL, self.hypothesis);
        self.go_on(draft, step, made, claim)?;
        Ok(true)
    }

    fn open_interval(
        &mut self,
        draft: &mut Draft,
        step: Step,
        a: usize,
        from: Term,
        to: Term,
    ) -> Result<bool, AllocError> {
        let from = draft.in_cell(from, step.cell);
        let to = draft.in_cell(to, step.cell);
        let truth = draft.new_truth(instance_of(step, a), from, to, step.place)?;
        let made = Use::new(Rule::AtL, self.hypothesis);
        self.go_on(draft, step, made, truth)?;
        Ok(true)
    }

    // A place for the goal of another one, if the other case of a disjunction holds.
    fn other_case(
        &mut self,
        draft: &mut Draft,
        step: Step,
        node: usize,
    ) -> Result<(usize, usize), AllocError> {
        let held = draft.hypothesis(self.hypothesis);
        let at = draft.place(step.place);
        let depth = draft.place(self.number).depth.saturating_add(1);
        let other = draft.new_place(step.place, at.goal, at.from, at.to)?;
        draft.set_apart(other, depth);
        let truth = draft.new_truth(instance_of(step, node), held.from, held.to, other)?;
        draft.show(other, truth)?;
        Ok((other, truth))
    }

    // One of two holds: the goal of the place is proved for the other one too.
    fn open_cases(
        &mut self,
        draft: &mut Draft,
        step: Step,
        a: usize,
        b: usize,
        wanted: usize,
    ) -> Result<bool, AllocError> {
        let held = draft.hypothesis(self.hypothesis);
        let second = wanted != a;
        let truth = draft.new_truth(instance_of(step, wanted), held.from, held.to, step.place)?;
        let (other, other_truth) = self.other_case(draft, step, if second { a } else { b })?;
        draft.show(step.place, truth)?;
        let mut made = Use::new(Rule::OrL, self.hypothesis);
        made.main = second;
        if second {
            made.left = Part::Whole(other);
            made.brings = other_truth;
            made.also = truth;
        } else {
            made.right = Part::Whole(other);
            made.brings = truth;
            made.also = other_truth;
        }
        self.attach(draft, step, made)?;
        self.hypothesis = truth;
        self.tasks.push(Task::Prove(other))?;
        Ok(true)
    }

    // The interval on which an implication on the way is used, and whether it is still to be found.
    fn interval_of(
        &self,
        draft: &mut Draft,
        index: usize,
        premise: usize,
    ) -> Result<(Term, Term, bool), AllocError> {
        let place = self.step_at(index).place;
        let earliest = draft.policy.first_moment;
        let latest = draft.policy.last_moment;
        let (from, to) = match self.wanted_interval(draft, index) {
            Some(interval) => interval,
            None => return Ok((latest, earliest, false)),
        };
        let from = draft.reduced(from);
        let to = draft.reduced(to);
        if draft.is_few && from == Term::Ctime && to == Term::Ctime {
            return times_to_find(draft, place, earliest, latest);
        }
        let named = is_in_scope(draft, from, place) && is_in_scope(draft, to, place);
        if named && !draft.policy.node(premise).implies {
            return Ok((from, to, false));
        }
        times_to_find(draft, place, from, to)
    }

    // A place for the premise of an implication.
    fn premise_of(
        &self,
        draft: &mut Draft,
        step: Step,
        a: usize,
        from: Term,
        to: Term,
    ) -> Result<usize, AllocError> {
        let premise = draft.new_place(step.place, instance_of(step, a), from, to)?;
        let depth = draft.place(self.number).depth.saturating_add(1);
        if step.inserted {
            draft.set_apart(premise, depth);
        } else {
            draft.set_depth(premise, depth);
        }
        Ok(premise)
    }

    fn open_implication(
        &mut self,
        draft: &mut Draft,
        index: usize,
        a: usize,
        b: usize,
    ) -> Result<bool, AllocError> {
        let step = self.step_at(index);
        let held = draft.hypothesis(self.hypothesis);
        let (from, to, open) = self.interval_of(draft, index, a)?;
        if !draft.require(step.place, held.from, from)? {
            return Ok(false);
        }
        if !draft.require(step.place, to, held.to)? {
            return Ok(false);
        }
        let premise = self.premise_of(draft, step, a, from, to)?;
        let truth = draft.new_truth(instance_of(step, b), from, to, step.place)?;
        let mut made = Use::new(Rule::ImpL, self.hypothesis);
        made.one = from;
        made.two = to;
        made.main = true;
        made.left = Part::Whole(premise);
        self.go_on(draft, step, made, truth)?;
        self.tasks.push(Task::Prove(premise))?;
        if open {
            self.tasks.push(Task::Settle(from, to))?;
        }
        Ok(true)
    }

    // The rule for the formula at that step of the way.
    fn open_step(&mut self, draft: &mut Draft, index: usize) -> Result<bool, AllocError> {
        let step = self.step_at(index);
        let next = self.step_at(index.saturating_add(1));
        if !self.open_claim(draft, step)? {
            return Ok(false);
        }
        let body = Instance {
            node: next.node,
            cell: next.cell,
        };
        match draft.policy.node(step.node).shape {
            Shape::Forall(_, _) => {
                let _ = self.open_part(draft, step, Rule::ForallL, body)?;
                Ok(true)
            }
            Shape::Exists(_, _) => {
                let truth = self.open_part(draft, step, Rule::ExistsL, body)?;
                draft.show(step.place, truth)?;
                Ok(true)
            }
            Shape::And(a, b) => self.open_both(draft, step, a, b, next.node),
            Shape::Or(a, b) => self.open_cases(draft, step, a, b, next.node),
            Shape::Imp(a, b) => self.open_implication(draft, index, a, b),
            Shape::Says(who, a) => self.open_says(draft, step, who, a),
            Shape::On(a, from, to) => self.open_interval(draft, step, a, from, to),
            _ => Ok(false),
        }
    }

    // Puts a last use, without a premise in which the way goes on.
    fn end(&mut self, draft: &mut Draft, step: Step, rule: Rule) -> Result<bool, AllocError> {
        self.attach(draft, step, Use::new(rule, self.hypothesis))?;
        Ok(true)
    }

    // The goal is the atom that was reached.
    fn close(&mut self, draft: &mut Draft, step: Step) -> Result<bool, AllocError> {
        if !self.open_claim(draft, step)? {
            return Ok(false);
        }
        match draft.policy.node(step.node).shape {
            Shape::Atom(_, _, _) => self.close_atom(draft, step),
            Shape::State(_, _, _) => {
                self.attach(draft, step, Use::new(Rule::InterL, self.hypothesis))?;
                self.attach(draft, step, Use::new(Rule::InterR, NOTHING))?;
                Ok(true)
            }
            Shape::Order(low, high) => self.close_order(draft, step, low, high),
            _ => self.end(draft, step, Rule::FalseL),
        }
    }

    // The atom is known on an interval that has the goal's in it.
    fn close_atom(&mut self, draft: &mut Draft, step: Step) -> Result<bool, AllocError> {
        let held = draft.hypothesis(self.hypothesis);
        let place = draft.place(self.number);
        if !draft.require(self.number, held.from, place.from)? {
            return Ok(false);
        }
        if !draft.require(self.number, place.to, held.to)? {
            return Ok(false);
        }
        self.end(draft, step, Rule::Init)
    }

    // An order of times is known from here on, and the goal is asked again.
    fn close_order(
        &mut self,
        draft: &mut Draft,
        step: Step,
        low: Term,
        high: Term,
    ) -> Result<bool, AllocError> {
        let place = draft.place(self.number);
        if !is_order(draft, place.goal.node) && !is_false_order(draft, step, low, high)? {
            return Ok(false);
        }
        let below = draft.new_place(self.number, place.goal, place.from, place.to)?;
        draft.set_depth(below, place.depth.saturating_add(1));
        let low = draft.in_cell(low, step.cell);
        let high = draft.in_cell(high, step.cell);
        draft.limit_times(below, low, high)?;
        let mut made = Use::new(Rule::ConsL, self.hypothesis);
        made.left = Part::Whole(below);
        self.attach(draft, step, made)?;
        self.tasks.push(Task::Prove(below))?;
        Ok(true)
    }

    fn follow(&mut self, draft: &mut Draft) -> Result<bool, AllocError> {
        let last = self.last();
        for index in 0..last {
            if !self.open_step(draft, index)? {
                return Ok(false);
            }
        }
        let step = self.step_at(last);
        self.close(draft, step)
    }
}

/// Uses a hypothesis, to an atom in it, for the goal of a place, with what has to be inserted so many places further out.
/// The tasks that this leaves, the last one to be done first; none, if it cannot be used so.
pub fn apply(
    draft: &mut Draft,
    number: usize,
    hypothesis: usize,
    atom: usize,
    up: usize,
) -> Result<Option<Vec<Task>>, AllocError> {
    let mut walk = Walk::new(draft, number, hypothesis, atom)?;
    if !walk.lay(draft, up) {
        return Ok(None);
    }
    if !walk.fill(draft)? {
        return Ok(None);
    }
    if !walk.follow(draft)? {
        return Ok(None);
    }
    let Walk { tasks, .. } = walk;
    Ok(Some(tasks))
}
