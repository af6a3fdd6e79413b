//! Right rules: they prove the goal from its form.

ghost use Rattle.std.specs.Prelude.{◌+◌};
ghost use Rattle.proof_term.specs.Proof.{proof_view, cons_r, inter_r, and_r, or_r1, or_r2, true_r, imp_r, forall_r, exists_r, says_r, at_r};
ghost use Rattle.proof_term.specs.Limits.{size, depth};
ghost use Rattle.proof_verifier.specs.Rules.{by_cons_r, by_inter_r, by_and_r, by_or_r1, by_or_r2, by_true_r, by_imp_r, by_forall_r, by_exists_r, by_says_r, by_at_r};
ghost use Rattle.proof_verifier.specs.LeftOver.{by_grant};
ghost use Rattle.proof_verifier.specs.Verdict.{answer};
ghost use Rattle.proof_verifier.specs.Run.{sequent, HasProofRoom, GivesFollowed};

use crate::checker::Checker;
use crate::fault::CheckFault;
use crate::hypotheses::{Hypotheses, HypothesisRef};
use crate::instance::{Instance, TermList};
use crate::position::Position;
use crate::terms::test_term;
use bl_syntax::{Sort, Term};
use proof_term::Proof;
use std::alloc::Global;

impl Checker {
    /// The goal is a constraint.
    #[inline(never)]
    pub fn cons_r(&mut self, place: &Position<'_>) -> Result<usize, CheckFault>
        requires { HasProofRoom self.old place.now (size (cons_r)) (depth (cons_r)) }
        ensures { GivesFollowed self.old self.new (place.now.node + size (cons_r)) result
            (by_cons_r by_grant place.now.node (sequent self.old place.now) self.old.grant) }
    {
        let (low, high) = place.goal.as_constraint(place.node)?;
        self.time_condition(low, high, place.node)?;
        Ok(place.node + 1)
    }

    /// The goal is a predicate on the server's state.
    #[inline(never)]
    pub fn inter_r(&mut self, place: &Position<'_>) -> Result<usize, CheckFault>
        requires { HasProofRoom self.old place.now (size (inter_r)) (depth (inter_r)) }
        ensures { GivesFollowed self.old self.new (place.now.node + size (inter_r)) result
            (by_inter_r by_grant place.now.node (sequent self.old place.now) self.old.grant) }
    {
        let fact = place.goal.as_state(place.node)?;
        self.state_condition(&fact.with_terms(), place.facts, place.node)?;
        Ok(place.node + 1)
    }

    /// The goal is a conjunction: p proves the first part, and q the second.
    #[cycle(follow)]
    #[inline(never)]
    pub fn and_r(
        &mut self,
        alloc: Global,
        place: &Position<'_>,
        p: &Proof,
        q: &Proof,
    ) -> Result<usize, CheckFault>
        requires { HasProofRoom self.old place.now (size (and_r (proof_view p.now) (proof_view q.now))) (depth (and_r (proof_view p.now) (proof_view q.now))) }
        ensures { GivesFollowed self.old self.new (place.now.node + size (and_r (proof_view p.now) (proof_view q.now))) result
            (by_and_r (answer by_grant (proof_view p.now)) (size (proof_view p.now))
            (answer by_grant (proof_view q.now)) place.now.node (sequent self.old place.now)
            self.old.grant) }
    {
        let (a, b) = place.goal.as_both(place.node)?;
        let first = Position {
            node: place.node + 1,
            goal: a,
            ..*place
        };
        let node = self.follow(alloc, &first, p)?;
        let second = Position {
            node,
            goal: b,
            ..*place
        };
        self.follow(alloc, &second, q)
    }

    /// The goal is a disjunction: p proves its first part.
    #[cycle(follow)]
    #[inline(never)]
    pub fn or_r1(
        &mut self,
        alloc: Global,
        place: &Position<'_>,
        p: &Proof,
    ) -> Result<usize, CheckFault>
        requires { HasProofRoom self.old place.now (size (or_r1 (proof_view p.now))) (depth (or_r1 (proof_view p.now))) }
        ensures { GivesFollowed self.old self.new (place.now.node + size (or_r1 (proof_view p.now))) result
            (by_or_r1 (answer by_grant (proof_view p.now)) place.now.node (sequent self.old place.now) self.old.grant) }
    {
        let (a, _) = place.goal.as_either(place.node)?;
        let premise = Position {
            node: place.node + 1,
            goal: a,
            ..*place
        };
        self.follow(alloc, &premise, p)
    }

    /// The goal is a disjunction: p proves its second part.
    #[cycle(follow)]
    #[inline(never)]
    pub fn or_r2(
        &mut self,
        alloc: Global,
        place: &Position<'_>,
        p: &Proof,
    ) -> Result<usize, CheckFault>
        requires { HasProofRoom self.old place.now (size (or_r2 (proof_view p.now))) (depth (or_r2 (proof_view p.now))) }
        ensures { GivesFollowed self.old self.new (place.now.node + size (or_r2 (proof_view p.now))) result
            (by_or_r2 (answer by_grant (proof_view p.now)) place.now.node (sequent self.old place.now) self.old.grant) }
    {
        let (_, b) = place.goal.as_either(place.node)?;
        let premise = Position {
            node: place.node + 1,
            goal: b,
            ..*place
        };
        self.follow(alloc, &premise, p)
    }

    /// The goal is true.
    #[inline(never)]
    pub fn true_r(&mut self, place: &Position<'_>) -> Result<usize, CheckFault>
        requires { HasProofRoom self.old place.now (size (true_r)) (depth (true_r)) }
        ensures { GivesFollowed self.old self.new (place.now.node + size (true_r)) result
            (by_true_r place.now.node (sequent self.old place.now) self.old.grant) }
    {
        place.goal.as_true(place.node)?;
        Ok(place.node + 1)
    }

    /// The goal is an implication: p proves what follows, on a new interval within the goal's, from the assumption there.
    #[cycle(follow)]
    #[inline(never)]
    pub fn imp_r(
        &mut self,
        alloc: Global,
        place: &Position<'_>,
        p: &Proof,
    ) -> Result<usize, CheckFault>
        requires { HasProofRoom self.old place.now (size (imp_r (proof_view p.now))) (depth (imp_r (proof_view p.now))) }
        ensures { GivesFollowed self.old self.new (place.now.node + size (imp_r (proof_view p.now))) result
            (by_imp_r (answer by_grant (proof_view p.now)) place.now.node (sequent self.old place.now) self.old.grant) }
    {
        let (a, b) = place.goal.as_implies(place.node)?;
        let sorts = self.sorts.len();
        let constraints = self.constraints.len();
        let start = self.declare(Sort::Time)?;
        let end = self.declare(Sort::Time)?;
        self.bound(place.from, &start)?;
        self.bound(&end, place.to)?;
        let hypotheses = Hypotheses::More(place.hypotheses, HypothesisRef::Truth(a, &start, &end));
        let premise = Position {
            node: place.node + 1,
            hypotheses: &hypotheses,
            count: place.count + 1,
            goal: b,
            from: &start,
            to: &end,
            ..*place
        };
        let node = self.follow(alloc, &premise, p)?;
        self.sorts.truncate(sorts);
        self.constraints.truncate(constraints);
        Ok(node)
    }

    /// The goal is about all: p proves the instance at a new parameter.
    #[cycle(follow)]
    #[inline(never)]
    pub fn forall_r(
        &mut self,
        alloc: Global,
        place: &Position<'_>,
        p: &Proof,
    ) -> Result<usize, CheckFault>
        requires { HasProofRoom self.old place.now (size (forall_r (proof_view p.now))) (depth (forall_r (proof_view p.now))) }
        ensures { GivesFollowed self.old self.new (place.now.node + size (forall_r (proof_view p.now))) result
            (by_forall_r (answer by_grant (proof_view p.now)) place.now.node (sequent self.old place.now) self.old.grant) }
    {
        let (sort, a) = place.goal.as_forall(place.node)?;
        let sorts = self.sorts.len();
        let parameter = self.declare(sort)?;
        let terms = TermList::More(a.terms, &parameter);
        let instance = Instance {
            formula: a.formula,
            terms: &terms,
        };
        let premise = Position {
            node: place.node + 1,
            goal: instance,
            ..*place
        };
        let node = self.follow(alloc, &premise, p)?;
        self.sorts.truncate(sorts);
        Ok(node)
    }

    /// The goal is about one: p proves the instance at t.
    #[cycle(follow)]
    #[inline(never)]
    pub fn exists_r(
        &mut self,
        alloc: Global,
        place: &Position<'_>,
        t: &Term,
        p: &Proof,
    ) -> Result<usize, CheckFault>
        requires { HasProofRoom self.old place.now (size (exists_r t.now (proof_view p.now))) (depth (exists_r t.now (proof_view p.now))) }
        ensures { GivesFollowed self.old self.new (place.now.node + size (exists_r t.now (proof_view p.now))) result
            (by_exists_r t.now (answer by_grant (proof_view p.now)) place.now.node (sequent self.old place.now) self.old.grant) }
    {
        let (sort, a) = place.goal.as_exists(place.node)?;
        test_term(t, sort, self.sorts.as_slice(), place.node)?;
        let terms = TermList::More(a.terms, t);
        let instance = Instance {
            formula: a.formula,
            terms: &terms,
        };
        let premise = Position {
            node: place.node + 1,
            goal: instance,
            ..*place
        };
        self.follow(alloc, &premise, p)
    }

    /// The goal is what a principal says: p proves it from the claims alone, in the view of that principal.
    #[cycle(follow)]
    #[inline(never)]
    pub fn says_r(
        &mut self,
        alloc: Global,
        place: &Position<'_>,
        p: &Proof,
    ) -> Result<usize, CheckFault>
        requires { HasProofRoom self.old place.now (size (says_r (proof_view p.now))) (depth (says_r (proof_view p.now))) }
        ensures { GivesFollowed self.old self.new (place.now.node + size (says_r (proof_view p.now))) result
            (by_says_r (answer by_grant (proof_view p.now)) place.now.node (sequent self.old place.now) self.old.grant) }
    {
        let (who, a) = place.goal.as_says(place.node)?;
        let hypotheses = Hypotheses::Struck(place.hypotheses);
        let premise = Position {
            node: place.node + 1,
            hypotheses: &hypotheses,
            who,
            begins: place.from,
            ends: place.to,
            goal: a,
            ..*place
        };
        self.follow(alloc, &premise, p)
    }

    /// The goal is a formula on its own interval: p proves it there.
    #[cycle(follow)]
    #[inline(never)]
    pub fn at_r(
        &mut self,
        alloc: Global,
        place: &Position<'_>,
        p: &Proof,
    ) -> Result<usize, CheckFault>
        requires { HasProofRoom self.old place.now (size (at_r (proof_view p.now))) (depth (at_r (proof_view p.now))) }
        ensures { GivesFollowed self.old self.new (place.now.node + size (at_r (proof_view p.now))) result
            (by_at_r (answer by_grant (proof_view p.now)) place.now.node (sequent self.old place.now) self.old.grant) }
    {
        let (a, from, to) = place.goal.as_on(place.node)?;
        let premise = Position {
            node: place.node + 1,
            goal: a,
            from,
            to,
            ..*place
        };
        self.follow(alloc, &premise, p)
    }
}
