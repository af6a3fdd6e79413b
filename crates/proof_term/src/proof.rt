//! Proofs, one variant a rule.

use crate::boxes::{by_axiom, by_instance, by_interval, by_one, by_two, by_witness};
use crate::kinds::{PlainOne, PlainTwo};
use crate::rule::Axiom;
use bl_syntax::{NoMemory, Term};
use std::alloc::Global;

/// A proof: the rule at its root, the hypothesis and the terms that the rule names, and the proofs of
/// its premises. Hypotheses are numbered from 0 in the order in which they come up.
#[derive(Debug, Drop)]
pub enum Proof {
    /// The hypothesis is the goal.
    Init(u16),
    /// The goal is a constraint that stands.
    ConsR,
    /// The goal is a predicate on the server's state that stands.
    InterR,
    /// Both parts of a conjunction.
    AndR(Box<Proof>, Box<Proof>),
    /// The first part of a disjunction.
    OrR1(Box<Proof>),
    /// The second part of a disjunction.
    OrR2(Box<Proof>),
    TrueR,
    /// What follows, from the assumption.
    ImpR(Box<Proof>),
    /// The instance at a new parameter.
    ForallR(Box<Proof>),
    /// The instance at the term.
    ExistsR(Term, Box<Proof>),
    /// What is said, in the view of the principal that says it.
    SaysR(Box<Proof>),
    /// The formula on its own interval.
    AtR(Box<Proof>),
    /// The hypothesis is a constraint.
    ConsL(u16, Box<Proof>),
    /// The hypothesis is a predicate on the server's state.
    InterL(u16, Box<Proof>),
    /// The hypothesis gives both parts of a conjunction.
    AndL(u16, Box<Proof>),
    /// The hypothesis is a disjunction: the goal from its first part, and from its second.
    OrL(u16, Box<Proof>, Box<Proof>),
    /// The hypothesis is false.
    FalseL(u16),
    /// The hypothesis is an implication: what it assumes, between the two times, and the goal from what follows there.
    ImpL(u16, Term, Term, Box<Proof>, Box<Proof>),
    /// The hypothesis gives its instance at the term.
    ForallL(u16, Term, Box<Proof>),
    /// The hypothesis gives its instance at a new parameter.
    ExistsL(u16, Box<Proof>),
    /// The hypothesis that a principal says something gives its claim.
    SaysL(u16, Box<Proof>),
    /// The claim of a principal that is strong enough is a truth.
    Claim(u16, Box<Proof>),
    /// The hypothesis gives the formula on its own interval.
    AtL(u16, Box<Proof>),
}

impl Proof {
    ghost use Rattle.std.specs.Prelude.{◌≡◌, IfOk};
    ghost use Rattle.proof_term.specs.Proof.{proof_view};

    /// An equal proof in memory of its own.
    pub fn copy(&self, alloc: Global) -> Result<Proof, NoMemory>
        ensures { IfOk result (λ copied. proof_view copied ≡ proof_view self.now) }
    {
        Ok(Box::into_inner(self.boxed_copy(alloc)?))
    }

    /// The same in a box. It calls itself as deep as the proof is, and holds neither proofs nor terms on the stack.
    pub(crate) fn boxed_copy(&self, alloc: Global) -> Result<Box<Proof>, NoMemory>
        ensures { IfOk result (λ copied. proof_view copied.value ≡ proof_view self.now) }
    {
        match self {
            Proof::Init(h) => by_axiom(alloc, Axiom::Init(*h)),
            Proof::ConsR => by_axiom(alloc, Axiom::ConsR),
            Proof::InterR => by_axiom(alloc, Axiom::InterR),
            Proof::AndR(p, q) => {
                by_two(
                    alloc,
                    PlainTwo::AndR,
                    p.boxed_copy(alloc)?,
                    q.boxed_copy(alloc)?,
                )
            }
            Proof::OrR1(p) => by_one(alloc, PlainOne::OrR1, p.boxed_copy(alloc)?),
            Proof::OrR2(p) => by_one(alloc, PlainOne::OrR2, p.boxed_copy(alloc)?),
            Proof::TrueR => by_axiom(alloc, Axiom::TrueR),
            Proof::ImpR(p) => by_one(alloc, PlainOne::ImpR, p.boxed_copy(alloc)?),
            Proof::ForallR(p) => by_one(alloc, PlainOne::ForallR, p.boxed_copy(alloc)?),
            Proof::ExistsR(t, p) => by_witness(alloc, t, p.boxed_copy(alloc)?),
            Proof::SaysR(p) => by_one(alloc, PlainOne::SaysR, p.boxed_copy(alloc)?),
            Proof::AtR(p) => by_one(alloc, PlainOne::AtR, p.boxed_copy(alloc)?),
            Proof::ConsL(h, p) => by_one(alloc, PlainOne::ConsL(*h), p.boxed_copy(alloc)?),
            Proof::InterL(h, p) => by_one(alloc, PlainOne::InterL(*h), p.boxed_copy(alloc)?),
            Proof::AndL(h, p) => by_one(alloc, PlainOne::AndL(*h), p.boxed_copy(alloc)?),
            Proof::OrL(h, p, q) => {
                by_two(
                    alloc,
                    PlainTwo::OrL(*h),
                    p.boxed_copy(alloc)?,
                    q.boxed_copy(alloc)?,
                )
            }
            Proof::FalseL(h) => by_axiom(alloc, Axiom::FalseL(*h)),
            Proof::ImpL(h, t1, t2, p, q) => {
                by_interval(
                    alloc,
                    *h,
                    t1,
                    t2,
                    p.boxed_copy(alloc)?,
                    q.boxed_copy(alloc)?,
                )
            }
            Proof::ForallL(h, t, p) => by_instance(alloc, *h, t, p.boxed_copy(alloc)?),
            Proof::ExistsL(h, p) => by_one(alloc, PlainOne::ExistsL(*h), p.boxed_copy(alloc)?),
            Proof::SaysL(h, p) => by_one(alloc, PlainOne::SaysL(*h), p.boxed_copy(alloc)?),
            Proof::Claim(h, p) => by_one(alloc, PlainOne::Claim(*h), p.boxed_copy(alloc)?),
            Proof::AtL(h, p) => by_one(alloc, PlainOne::AtL(*h), p.boxed_copy(alloc)?),
        }
    }
}
