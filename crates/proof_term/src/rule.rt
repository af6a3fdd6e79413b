//! Rules with what they name, apart from the proofs of their premises.

ghost use Rattle.std.specs.Prelude.{◌≡◌};
ghost use Rattle.proof_term.specs.Proof.{proof_view};
ghost use Rattle.proof_term.specs.Rules.{by_axiom, by_one, by_two};

use crate::proof::Proof;
use bl_syntax::Term;

/// A rule, by the number of its premises.
#[derive(Clone, Copy)]
pub enum Rule {
    Axiom(Axiom),
    One(OnePremise),
    Two(TwoPremises),
}

/// A rule without premises.
#[derive(Clone, Copy)]
pub enum Axiom {
    Init(u16),
    ConsR,
    InterR,
    TrueR,
    FalseL(u16),
}

/// A rule with one premise.
#[derive(Clone, Copy)]
pub enum OnePremise {
    OrR1,
    OrR2,
    ImpR,
    ForallR,
    ExistsR(Term),
    SaysR,
    AtR,
    ConsL(u16),
    InterL(u16),
    AndL(u16),
    ForallL(u16, Term),
    ExistsL(u16),
    SaysL(u16),
    Claim(u16),
    AtL(u16),
}

/// A rule with two premises.
#[derive(Clone, Copy)]
pub enum TwoPremises {
    AndR,
    OrL(u16),
    ImpL(u16, Term, Term),
}

impl Axiom {
    /// The proof by the rule alone.
    pub fn proof(self) -> Proof
        ensures { proof_view result ≡ by_axiom self }
    {
        match self {
            Axiom::Init(h) => Proof::Init(h),
            Axiom::ConsR => Proof::ConsR,
            Axiom::InterR => Proof::InterR,
            Axiom::TrueR => Proof::TrueR,
            Axiom::FalseL(h) => Proof::FalseL(h),
        }
    }
}

impl OnePremise {
    /// The proof by the rule from the proof of its premise.
    pub fn proof(self, p: Box<Proof>) -> Proof
        ensures { proof_view result ≡ by_one self (proof_view p.value) }
    {
        match self {
            OnePremise::OrR1 => Proof::OrR1(p),
            OnePremise::OrR2 => Proof::OrR2(p),
            OnePremise::ImpR => Proof::ImpR(p),
            OnePremise::ForallR => Proof::ForallR(p),
            OnePremise::ExistsR(t) => Proof::ExistsR(t, p),
            OnePremise::SaysR => Proof::SaysR(p),
            OnePremise::AtR => Proof::AtR(p),
            OnePremise::ConsL(h) => Proof::ConsL(h, p),
            OnePremise::InterL(h) => Proof::InterL(h, p),
            OnePremise::AndL(h) => Proof::AndL(h, p),
            OnePremise::ForallL(h, t) => Proof::ForallL(h, t, p),
            OnePremise::ExistsL(h) => Proof::ExistsL(h, p),
            OnePremise::SaysL(h) => Proof::SaysL(h, p),
            OnePremise::Claim(h) => Proof::Claim(h, p),
            OnePremise::AtL(h) => Proof::AtL(h, p),
        }
    }
}

impl TwoPremises {
    /// The proof by the rule from the proofs of its premises.
    pub fn proof(self, p: Box<Proof>, q: Box<Proof>) -> Proof
        ensures { proof_view result ≡ by_two self (proof_view p.value) (proof_view q.value) }
    {
        match self {
            TwoPremises::AndR => Proof::AndR(p, q),
            TwoPremises::OrL(h) => Proof::OrL(h, p, q),
            TwoPremises::ImpL(h, t1, t2) => Proof::ImpL(h, t1, t2, p, q),
        }
    }
}

/// The rule at the root of a proof, and the proofs of its premises.
#[derive(Clone, Copy)]
pub enum Parts<'a> {
    Axiom(Axiom),
    One(OnePremise, &'a Proof),
    Two(TwoPremises, &'a Proof, &'a Proof),
}

impl<'a> Parts<'a> {
    ghost use Rattle.std.specs.Prelude.{◌≡◌};
    ghost use Rattle.proof_term.specs.Proof.{proof_view};
    ghost use Rattle.proof_term.specs.Parts.{join_parts};

    /// The parts of a proof.
    pub fn of(p: &'a Proof) -> Parts<'a>
        ensures { join_parts result ≡ proof_view p.now }
    {
        match p {
            Proof::Init(h) => Parts::Axiom(Axiom::Init(*h)),
            Proof::ConsR => Parts::Axiom(Axiom::ConsR),
            Proof::InterR => Parts::Axiom(Axiom::InterR),
            Proof::AndR(p, q) => Parts::Two(TwoPremises::AndR, p, q),
            Proof::OrR1(p) => Parts::One(OnePremise::OrR1, p),
            Proof::OrR2(p) => Parts::One(OnePremise::OrR2, p),
            Proof::TrueR => Parts::Axiom(Axiom::TrueR),
            Proof::ImpR(p) => Parts::One(OnePremise::ImpR, p),
            Proof::ForallR(p) => Parts::One(OnePremise::ForallR, p),
            Proof::ExistsR(t, p) => Parts::One(OnePremise::ExistsR(*t), p),
            Proof::SaysR(p) => Parts::One(OnePremise::SaysR, p),
            Proof::AtR(p) => Parts::One(OnePremise::AtR, p),
            Proof::ConsL(h, p) => Parts::One(OnePremise::ConsL(*h), p),
            Proof::InterL(h, p) => Parts::One(OnePremise::InterL(*h), p),
            Proof::AndL(h, p) => Parts::One(OnePremise::AndL(*h), p),
            Proof::OrL(h, p, q) => Parts::Two(TwoPremises::OrL(*h), p, q),
            Proof::FalseL(h) => Parts::Axiom(Axiom::FalseL(*h)),
            Proof::ImpL(h, t1, t2, p, q) => Parts::Two(TwoPremises::ImpL(*h, *t1, *t2), p, q),
            Proof::ForallL(h, t, p) => Parts::One(OnePremise::ForallL(*h, *t), p),
            Proof::ExistsL(h, p) => Parts::One(OnePremise::ExistsL(*h), p),
            Proof::SaysL(h, p) => Parts::One(OnePremise::SaysL(*h), p),
            Proof::Claim(h, p) => Parts::One(OnePremise::Claim(*h), p),
            Proof::AtL(h, p) => Parts::One(OnePremise::AtL(*h), p),
        }
    }
}
