//! The premises of a rule.

use crate::proof::Proof;

/// The proofs of a rule's premises, in order.
#[derive(Clone, Copy)]
pub enum Premises<'a> {
    Nothing,
    One(&'a Proof),
    Two(&'a Proof, &'a Proof),
}

impl<'a> Premises<'a> {
    ghost use Rattle.std.specs.Prelude.{◌≡◌, ◌+◌};
    ghost use Rattle.proof_term.specs.Proof.{proof_view};
    ghost use Rattle.proof_term.specs.Limits.{size, depth};
    ghost use Rattle.proof_term.specs.Premises.{premises_found, sizes, greatest_depth};

    /// The proofs of the premises of the rule at the root.
    pub fn of(p: &'a Proof) -> Premises<'a>
        ensures nodes { size (proof_view p.now) ≡ 1 + sizes (premises_found result) }
        ensures levels { depth (proof_view p.now) ≡ 1 + greatest_depth (premises_found result) }
    {
        match p {
            Proof::Init(_) | Proof::ConsR | Proof::InterR | Proof::TrueR | Proof::FalseL(_) => {
                Premises::Nothing
            }
            Proof::AndR(p, q) | Proof::OrL(_, p, q) | Proof::ImpL(_, _, _, p, q) => {
                Premises::Two(p, q)
            }
            Proof::OrR1(p)
            | Proof::OrR2(p)
            | Proof::ImpR(p)
            | Proof::ForallR(p)
            | Proof::ExistsR(_, p)
            | Proof::SaysR(p)
            | Proof::AtR(p)
            | Proof::ConsL(_, p)
            | Proof::InterL(_, p)
            | Proof::AndL(_, p)
            | Proof::ForallL(_, _, p)
            | Proof::ExistsL(_, p)
            | Proof::SaysL(_, p)
            | Proof::Claim(_, p)
            | Proof::AtL(_, p) => Premises::One(p),
        }
    }
}
