//! Rules by whether they name terms. Those that name none are small, and so are the calls that read them.

ghost use Rattle.std.specs.Prelude.{◌≡◌};
ghost use Rattle.proof_term.specs.Proof.{proof_view};
ghost use Rattle.proof_term.specs.Rules.{by_one, by_two};
ghost use Rattle.proof_term.specs.RuleKinds.{one_rule, two_rule};

use crate::proof::Proof;
use crate::rule::Axiom;
use bl_syntax::Term;

/// A rule that names no term, by the number of its premises.
#[derive(Clone, Copy)]
pub enum Plain {
    Axiom(Axiom),
    One(PlainOne),
    Two(PlainTwo),
}

/// A rule with one premise that names no term.
#[derive(Clone, Copy)]
pub enum PlainOne {
    OrR1,
    OrR2,
    ImpR,
    ForallR,
    SaysR,
    AtR,
    ConsL(u16),
    InterL(u16),
    AndL(u16),
    ExistsL(u16),
    SaysL(u16),
    Claim(u16),
    AtL(u16),
}

/// A rule with two premises that names no term.
#[derive(Clone, Copy)]
pub enum PlainTwo {
    AndR,
    OrL(u16),
}

/// A rule that names terms.
#[derive(Clone, Copy)]
pub enum Termed {
    ExistsR(Term),
    ForallL(u16, Term),
    ImpL(u16, Term, Term),
}

impl PlainOne {
    /// The proof by the rule from the proof of its premise.
    pub fn proof(self, p: Box<Proof>) -> Proof
        ensures { proof_view result ≡ by_one (one_rule self) (proof_view p.value) }
    {
        match self {
            PlainOne::OrR1 => Proof::OrR1(p),
            PlainOne::OrR2 => Proof::OrR2(p),
            PlainOne::ImpR => Proof::ImpR(p),
            PlainOne::ForallR => Proof::ForallR(p),
            PlainOne::SaysR => Proof::SaysR(p),
            PlainOne::AtR => Proof::AtR(p),
            PlainOne::ConsL(h) => Proof::ConsL(h, p),
            PlainOne::InterL(h) => Proof::InterL(h, p),
            PlainOne::AndL(h) => Proof::AndL(h, p),
            PlainOne::ExistsL(h) => Proof::ExistsL(h, p),
            PlainOne::SaysL(h) => Proof::SaysL(h, p),
            PlainOne::Claim(h) => Proof::Claim(h, p),
            PlainOne::AtL(h) => Proof::AtL(h, p),
        }
    }
}

impl PlainTwo {
    /// The proof by the rule from the proofs of its premises.
    pub fn proof(self, p: Box<Proof>, q: Box<Proof>) -> Proof
        ensures { proof_view result ≡ by_two (two_rule self) (proof_view p.value) (proof_view q.value) }
    {
        match self {
            PlainTwo::AndR => Proof::AndR(p, q),
            PlainTwo::OrL(h) => Proof::OrL(h, p, q),
        }
    }
}
