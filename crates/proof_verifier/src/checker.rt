//! The run over a proof.

ghost use Rattle.std.specs.Prelude.{◌≡◌, ◌+◌, ◌<◌, ◌^◌, [], ◌∷◌, ◌++◌, length, IfOk};
ghost use Rattle.proof_term.specs.Proof.{proof_view};
ghost use Rattle.proof_term.specs.Limits.{size, depth};
ghost use Rattle.proof_verifier.specs.LeftOver.{by_grant};
ghost use Rattle.proof_verifier.specs.Verdict.{answer};
ghost use Rattle.proof_verifier.specs.Run.{sequent, HasProofRoom, GivesFollowed, DeclaresParameter};

use crate::fault::CheckFault;
use crate::position::Position;
use bl_constraints::ConstraintStack;
use bl_syntax::{Constraint, Grant, NoMemory, Sequence, Sort, Term};
use proof_term::Proof;
use std::alloc::Global;

/// What grows on the way through a proof: the sorts of parameters and the constraints, which are cut
/// back after each premise, and the grant.
#[derive(Drop)]
pub struct Checker {
    pub sorts: Sequence<Sort>,
    pub constraints: ConstraintStack,
    pub grant: Grant,
}

impl Checker {
    /// Declares the next parameter.
    pub fn declare(&mut self, sort: Sort) -> Result<Term, NoMemory>
        requires { length self.old.sorts < 2 ^ 32 }
        ensures { IfOk result (λ parameter. DeclaresParameter self.old self.new sort parameter) }
    {
        let parameter = Term::Param(self.sorts.len() as u32);
        self.sorts.push(sort)?;
        Ok(parameter)
    }

    /// Adds the constraint that the first time is not after the second.
    pub fn bound(&mut self, low: &Term, high: &Term) -> Result<(), NoMemory>
        requires { length self.old.constraints < 512 }
        ensures { IfOk result (λ _. self.new ≡ record self.old { constraints = self.old.constraints ++ record { low = low.now; high = high.now } ∷ [] }) }
    {
        self.constraints.push(&Constraint {
            low: *low,
            high: *high,
        })
    }

    /// Follows a proof on its place, and returns the number of the node after it.
    #[cycle(follow)]
    #[tactic(auto, unfolding(crate::specs::Verdict::answer))]
    pub fn follow(
        &mut self,
        alloc: Global,
        place: &Position<'_>,
        proof: &Proof,
    ) -> Result<usize, CheckFault>
        requires { HasProofRoom self.old place.now (size (proof_view proof.now)) (depth (proof_view proof.now)) }
        ensures { GivesFollowed self.old self.new (place.now.node + size (proof_view proof.now)) result
            (answer by_grant (proof_view proof.now) place.now.node (sequent self.old place.now) self.old.grant) }
    {
        match proof {
            Proof::Init(h) => self.init(place, *h),
            Proof::ConsR => self.cons_r(place),
            Proof::InterR => self.inter_r(place),
            Proof::AndR(p, q) => self.and_r(alloc, place, p, q),
            Proof::OrR1(p) => self.or_r1(alloc, place, p),
            Proof::OrR2(p) => self.or_r2(alloc, place, p),
            Proof::TrueR => self.true_r(place),
            Proof::ImpR(p) => self.imp_r(alloc, place, p),
            Proof::ForallR(p) => self.forall_r(alloc, place, p),
            Proof::ExistsR(t, p) => self.exists_r(alloc, place, t, p),
            Proof::SaysR(p) => self.says_r(alloc, place, p),
            Proof::AtR(p) => self.at_r(alloc, place, p),
            Proof::ConsL(h, p) => self.cons_l(alloc, place, *h, p),
            Proof::InterL(h, p) => self.inter_l(alloc, place, *h, p),
            Proof::AndL(h, p) => self.and_l(alloc, place, *h, p),
            Proof::OrL(h, p, q) => self.or_l(alloc, place, *h, p, q),
            Proof::FalseL(h) => self.false_l(place, *h),
            Proof::ImpL(h, t1, t2, p, q) => self.imp_l(alloc, place, *h, t1, t2, p, q),
            Proof::ForallL(h, t, p) => self.forall_l(alloc, place, *h, t, p),
            Proof::ExistsL(h, p) => self.exists_l(alloc, place, *h, p),
            Proof::SaysL(h, p) => self.says_l(alloc, place, *h, p),
            Proof::Claim(h, p) => self.claim(alloc, place, *h, p),
            Proof::AtL(h, p) => self.at_l(alloc, place, *h, p),
        }
    }
}
