//! The initial rule, and left rules: they use a hypothesis, by its number.

ghost use Rattle.std.specs.Prelude.{◌+◌};
ghost use Rattle.proof_term.specs.Proof.{proof_view, init, cons_l, inter_l, and_l, or_l, false_l, imp_l, forall_l, exists_l, says_l, claim, at_l};
ghost use Rattle.proof_term.specs.Limits.{size, depth};
ghost use Rattle.proof_verifier.specs.Rules.{by_init, by_cons_l, by_inter_l, by_and_l, by_or_l, by_false_l, by_imp_l, by_forall_l, by_exists_l, by_says_l, by_claim, by_at_l};
ghost use Rattle.proof_verifier.specs.LeftOver.{by_grant};
ghost use Rattle.proof_verifier.specs.Verdict.{answer};
ghost use Rattle.proof_verifier.specs.Run.{sequent, HasProofRoom, GivesFollowed};

use crate::checker::Checker;
use crate::facts::FactList;
use crate::fault::CheckFault;
use crate::hypotheses::{Hypotheses, HypothesisRef};
use crate::instance::{Instance, TermList};
use crate::parts::test_same;
use crate::position::Position;
use crate::terms::{test_strength, test_term};
use bl_syntax::{Sort, Term};
use proof_term::Proof;
use std::alloc::Global;

impl Checker {
    /// The goal is the atom of a truth whose interval holds the goal's.
    #[inline(never)]
    pub fn init(&mut self, place: &Position<'_>, h: u16) -> Result<usize, CheckFault>
        requires { HasProofRoom self.old place.now (size (init h)) (depth (init h)) }
        ensures { GivesFollowed self.old self.new (place.now.node + size (init h)) result
            (by_init by_grant h place.now.node (sequent self.old place.now) self.old.grant) }
    {
        let (a, from, to) = place.truth_at(h)?;
        test_same(&a, &place.goal, place.node)?;
        self.time_condition(from, place.from, place.node)?;
        self.time_condition(place.to, to, place.node)?;
        Ok(place.node + 1)
    }

    /// A truth is a constraint: it is one of the constraints in p.
    #[cycle(follow)]
    #[inline(never)]
    pub fn cons_l(
        &mut self,
        alloc: Global,
        place: &Position<'_>,
        h: u16,
        p: &Proof,
    ) -> Result<usize, CheckFault>
        requires { HasProofRoom self.old place.now (size (cons_l h (proof_view p.now))) (depth (cons_l h (proof_view p.now))) }
        ensures { GivesFollowed self.old self.new (place.now.node + size (cons_l h (proof_view p.now))) result
            (by_cons_l h (answer by_grant (proof_view p.now)) place.now.node (sequent self.old place.now) self.old.grant) }
    {
        let (a, _, _) = place.truth_at(h)?;
        let (low, high) = a.as_constraint(place.node)?;
        let constraints = self.constraints.len();
        self.bound(low, high)?;
        let premise = Position {
            node: place.node + 1,
            ..*place
        };
        let node = self.follow(alloc, &premise, p)?;
        self.constraints.truncate(constraints);
        Ok(node)
    }

    /// A truth is a predicate on the server's state: it is a fact in p.
    #[cycle(follow)]
    #[inline(never)]
    pub fn inter_l(
        &mut self,
        alloc: Global,
        place: &Position<'_>,
        h: u16,
        p: &Proof,
    ) -> Result<usize, CheckFault>
        requires { HasProofRoom self.old place.now (size (inter_l h (proof_view p.now))) (depth (inter_l h (proof_view p.now))) }
        ensures { GivesFollowed self.old self.new (place.now.node + size (inter_l h (proof_view p.now))) result
            (by_inter_l h (answer by_grant (proof_view p.now)) place.now.node (sequent self.old place.now) self.old.grant) }
    {
        let (a, _, _) = place.truth_at(h)?;
        let fact = a.as_state(place.node)?;
        let facts = FactList::More(place.facts, fact);
        let premise = Position {
            node: place.node + 1,
            facts: &facts,
            ..*place
        };
        self.follow(alloc, &premise, p)
    }

    /// A truth is a conjunction: p has its first part, and then its second.
    #[cycle(follow)]
    #[inline(never)]
    pub fn and_l(
        &mut self,
        alloc: Global,
        place: &Position<'_>,
        h: u16,
        p: &Proof,
    ) -> Result<usize, CheckFault>
        requires { HasProofRoom self.old place.now (size (and_l h (proof_view p.now))) (depth (and_l h (proof_view p.now))) }
        ensures { GivesFollowed self.old self.new (place.now.node + size (and_l h (proof_view p.now))) result
            (by_and_l h (answer by_grant (proof_view p.now)) place.now.node (sequent self.old place.now) self.old.grant) }
    {
        let (ab, from, to) = place.truth_at(h)?;
        let (a, b) = ab.as_both(place.node)?;
        let first = Hypotheses::More(place.hypotheses, HypothesisRef::Truth(a, from, to));
        let hypotheses = Hypotheses::More(&first, HypothesisRef::Truth(b, from, to));
        let premise = Position {
            node: place.node + 1,
            hypotheses: &hypotheses,
            count: place.count + 2,
            ..*place
        };
        self.follow(alloc, &premise, p)
    }

    /// A truth is a disjunction: p has its first part, and q its second.
    #[cycle(follow)]
    #[inline(never)]
    pub fn or_l(
        &mut self,
        alloc: Global,
        place: &Position<'_>,
        h: u16,
        p: &Proof,
        q: &Proof,
    ) -> Result<usize, CheckFault>
        requires { HasProofRoom self.old place.now
            (size (or_l h (proof_view p.now) (proof_view q.now)))
            (depth (or_l h (proof_view p.now) (proof_view q.now))) }
        ensures { GivesFollowed self.old self.new (place.now.node + size (or_l h (proof_view p.now) (proof_view q.now))) result
            (by_or_l h (answer by_grant (proof_view p.now)) (size (proof_view p.now))
            (answer by_grant (proof_view q.now)) place.now.node (sequent self.old place.now)
            self.old.grant) }
    {
        let (ab, from, to) = place.truth_at(h)?;
        let (a, b) = ab.as_either(place.node)?;
        let with_first = Hypotheses::More(place.hypotheses, HypothesisRef::Truth(a, from, to));
        let first = Position {
            node: place.node + 1,
            hypotheses: &with_first,
            count: place.count + 1,
            ..*place
        };
        let node = self.follow(alloc, &first, p)?;
        let with_second = Hypotheses::More(place.hypotheses, HypothesisRef::Truth(b, from, to));
        let second = Position {
            node,
            hypotheses: &with_second,
            count: place.count + 1,
            ..*place
        };
        self.follow(alloc, &second, q)
    }

    /// A truth is false.
    #[inline(never)]
    pub fn false_l(&mut self, place: &Position<'_>, h: u16) -> Result<usize, CheckFault>
        requires { HasProofRoom self.old place.now (size (false_l h)) (depth (false_l h)) }
        ensures { GivesFollowed self.old self.new (place.now.node + size (false_l h)) result
            (by_false_l h place.now.node (sequent self.old place.now) self.old.grant) }
    {
        let (a, _, _) = place.truth_at(h)?;
        a.as_false(place.node)?;
        Ok(place.node + 1)
    }

    /// A truth is an implication: on an interval within its own, p proves the assumption, and q has what follows.
    #[cycle(follow)]
    #[inline(never)]
    pub fn imp_l(
        &mut self,
        alloc: Global,
        place: &Position<'_>,
        h: u16,
        t1: &Term,
        t2: &Term,
        p: &Proof,
        q: &Proof,
    ) -> Result<usize, CheckFault>
        requires { HasProofRoom self.old place.now
            (size (imp_l h t1.now t2.now (proof_view p.now) (proof_view q.now)))
            (depth (imp_l h t1.now t2.now (proof_view p.now) (proof_view q.now))) }
        ensures { GivesFollowed self.old self.new (place.now.node + size (imp_l h t1.now t2.now (proof_view p.now) (proof_view q.now))) result
            (by_imp_l by_grant h t1.now t2.now (answer by_grant (proof_view p.now))
            (size (proof_view p.now)) (answer by_grant (proof_view q.now)) place.now.node
            (sequent self.old place.now) self.old.grant) }
    {
        let (ab, from, to) = place.truth_at(h)?;
        let (a, b) = ab.as_implies(place.node)?;
        test_term(t1, Sort::Time, self.sorts.as_slice(), place.node)?;
        test_term(t2, Sort::Time, self.sorts.as_slice(), place.node)?;
        self.time_condition(from, t1, place.node)?;
        self.time_condition(t2, to, place.node)?;
        let assumed = Position {
            node: place.node + 1,
            goal: a,
            from: t1,
            to: t2,
            ..*place
        };
        let node = self.follow(alloc, &assumed, p)?;
        let hypotheses = Hypotheses::More(place.hypotheses, HypothesisRef::Truth(b, t1, t2));
        let followed = Position {
            node,
            hypotheses: &hypotheses,
            count: place.count + 1,
            ..*place
        };
        self.follow(alloc, &followed, q)
    }

    /// A truth is about all: p has the instance at t.
    #[cycle(follow)]
    #[inline(never)]
    pub fn forall_l(
        &mut self,
        alloc: Global,
        place: &Position<'_>,
        h: u16,
        t: &Term,
        p: &Proof,
    ) -> Result<usize, CheckFault>
        requires { HasProofRoom self.old place.now (size (forall_l h t.now (proof_view p.now))) (depth (forall_l h t.now (proof_view p.now))) }
        ensures { GivesFollowed self.old self.new (place.now.node + size (forall_l h t.now (proof_view p.now))) result
            (by_forall_l h t.now (answer by_grant (proof_view p.now)) place.now.node (sequent self.old place.now) self.old.grant) }
    {
        let (every, from, to) = place.truth_at(h)?;
        let (sort, a) = every.as_forall(place.node)?;
        test_term(t, sort, self.sorts.as_slice(), place.node)?;
        let terms = TermList::More(a.terms, t);
        let instance = Instance {
            formula: a.formula,
            terms: &terms,
        };
        let hypotheses = Hypotheses::More(
            place.hypotheses,
            HypothesisRef::Truth(instance, from, to),
        );
        let premise = Position {
            node: place.node + 1,
            hypotheses: &hypotheses,
            count: place.count + 1,
            ..*place
        };
        self.follow(alloc, &premise, p)
    }

    /// A truth is about one: p has the instance at a new parameter.
    #[cycle(follow)]
    #[inline(never)]
    pub fn exists_l(
        &mut self,
        alloc: Global,
        place: &Position<'_>,
        h: u16,
        p: &Proof,
    ) -> Result<usize, CheckFault>
        requires { HasProofRoom self.old place.now (size (exists_l h (proof_view p.now))) (depth (exists_l h (proof_view p.now))) }
        ensures { GivesFollowed self.old self.new (place.now.node + size (exists_l h (proof_view p.now))) result
            (by_exists_l h (answer by_grant (proof_view p.now)) place.now.node (sequent self.old place.now) self.old.grant) }
    {
        let (some, from, to) = place.truth_at(h)?;
        let (sort, a) = some.as_exists(place.node)?;
        let sorts = self.sorts.len();
        let parameter = self.declare(sort)?;
        let terms = TermList::More(a.terms, &parameter);
        let instance = Instance {
            formula: a.formula,
            terms: &terms,
        };
        let hypotheses = Hypotheses::More(
            place.hypotheses,
            HypothesisRef::Truth(instance, from, to),
        );
        let premise = Position {
            node: place.node + 1,
            hypotheses: &hypotheses,
            count: place.count + 1,
            ..*place
        };
        let node = self.follow(alloc, &premise, p)?;
        self.sorts.truncate(sorts);
        Ok(node)
    }

    /// A truth is what a principal says: p has its claim.
    #[cycle(follow)]
    #[inline(never)]
    pub fn says_l(
        &mut self,
        alloc: Global,
        place: &Position<'_>,
        h: u16,
        p: &Proof,
    ) -> Result<usize, CheckFault>
        requires { HasProofRoom self.old place.now (size (says_l h (proof_view p.now))) (depth (says_l h (proof_view p.now))) }
        ensures { GivesFollowed self.old self.new (place.now.node + size (says_l h (proof_view p.now))) result
            (by_says_l h (answer by_grant (proof_view p.now)) place.now.node (sequent self.old place.now) self.old.grant) }
    {
        let (said, from, to) = place.truth_at(h)?;
        let (who, a) = said.as_says(place.node)?;
        let hypotheses = Hypotheses::More(place.hypotheses, HypothesisRef::Claim(who, a, from, to));
        let premise = Position {
            node: place.node + 1,
            hypotheses: &hypotheses,
            count: place.count + 1,
            ..*place
        };
        self.follow(alloc, &premise, p)
    }

    /// A claim of a principal that is strong enough for the view, on an interval that holds the view's: p has the truth.
    #[cycle(follow)]
    #[inline(never)]
    pub fn claim(
        &mut self,
        alloc: Global,
        place: &Position<'_>,
        h: u16,
        p: &Proof,
    ) -> Result<usize, CheckFault>
        requires { HasProofRoom self.old place.now (size (claim h (proof_view p.now))) (depth (claim h (proof_view p.now))) }
        ensures { GivesFollowed self.old self.new (place.now.node + size (claim h (proof_view p.now))) result
            (by_claim by_grant h (answer by_grant (proof_view p.now)) place.now.node (sequent self.old place.now) self.old.grant) }
    {
        let (who, a, from, to) = place.claim_at(h)?;
        test_strength(who, place.who, place.node)?;
        self.time_condition(from, place.begins, place.node)?;
        self.time_condition(place.ends, to, place.node)?;
        let hypotheses = Hypotheses::More(place.hypotheses, HypothesisRef::Truth(a, from, to));
        let premise = Position {
            node: place.node + 1,
            hypotheses: &hypotheses,
            count: place.count + 1,
            ..*place
        };
        self.follow(alloc, &premise, p)
    }

    /// A truth is a formula on its own interval: p has it there.
    #[cycle(follow)]
    #[inline(never)]
    pub fn at_l(
        &mut self,
        alloc: Global,
        place: &Position<'_>,
        h: u16,
        p: &Proof,
    ) -> Result<usize, CheckFault>
        requires { HasProofRoom self.old place.now (size (at_l h (proof_view p.now))) (depth (at_l h (proof_view p.now))) }
        ensures { GivesFollowed self.old self.new (place.now.node + size (at_l h (proof_view p.now))) result
            (by_at_l h (answer by_grant (proof_view p.now)) place.now.node (sequent self.old place.now) self.old.grant) }
    {
        let (placed, _, _) = place.truth_at(h)?;
        let (a, from, to) = placed.as_on(place.node)?;
        let hypotheses = Hypotheses::More(place.hypotheses, HypothesisRef::Truth(a, from, to));
        let premise = Position {
            node: place.node + 1,
            hypotheses: &hypotheses,
            count: place.count + 1,
            ..*place
        };
        self.follow(alloc, &premise, p)
    }
}
