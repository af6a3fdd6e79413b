//! Who checks proofs.

ghost use Rattle.std.specs.Prelude.{◌≡◌, IfOk, IfErr};
ghost use Rattle.proof_verifier.specs.CheckedView.{checked_view, IsChecked};
ghost use Rattle.proof_verifier.specs.Cited.{statements_of, AreCited};
ghost use Rattle.proof_verifier.specs.Run.{IsFault};
ghost use Rattle.proof_verifier.specs.Verdict.{verdict};

use bl_syntax::Goal;
use proof_term::ProofTree;
use proof_verifier::{CheckFault, Checked, Cites, check};
use std::alloc::Global;

/// Checks proofs. It gives the verdict, or runs out of memory.
pub trait Checker {
    /// Checks a proof of the goal from the cited statements, which are 1 to 64 by strictly rising numbers.
    fn check(
        &mut self,
        alloc: Global,
        cited: &Cites,
        goal: &Goal,
        proof: &ProofTree,
    ) -> Result<Checked, CheckFault>
        requires { AreCited cited.now }
        ensures ok { IfOk result (λ checked. checked ≡ checked_view cited.now goal.now proof.now checked.grant) }
        ensures granted { IfOk result (λ checked. IsChecked checked) }
        ensures are_cited { IfOk result (λ checked. AreCited checked.cited) }
        ensures fault { IfErr result (λ fault. IsFault fault (verdict (statements_of cited.now) goal.now proof.now)) };
}

/// Checks each proof when it is asked to.
#[derive(Clone, Copy, Debug, Drop)]
pub struct PlainChecker;

impl Checker for PlainChecker {
    fn check(
        &mut self,
        alloc: Global,
        cited: &Cites,
        goal: &Goal,
        proof: &ProofTree,
    ) -> Result<Checked, CheckFault> {
        check(alloc, cited, goal, proof)
    }
}
