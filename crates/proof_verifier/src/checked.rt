//! Proofs that were checked.

ghost use Rattle.std.specs.Prelude.{◌≡◌, IfOk, IfErr};
ghost use Rattle.proof_verifier.specs.CheckedView.{checked_view, IsChecked, IsGranted};
ghost use Rattle.proof_verifier.specs.Cited.{AreCited, statements_of};
ghost use Rattle.proof_verifier.specs.Run.{IsFault};
ghost use Rattle.proof_verifier.specs.Verdict.{verdict};

use crate::cites::Cites;
use crate::fault::CheckFault;
use crate::root::grant_of;
use bl_syntax::{Goal, Grant, NoMemory};
use proof_term::ProofTree;
use std::alloc::Global;
use std::marker::Model;

/// A checked proof: the cited statements, the goal, the proof, and the grant. The grant is the verdict
/// on the other three, and sound for the cited statements.
#[derive(Debug, Drop)]
pub struct Checked {
    cited: Cites,
    goal: Goal,
    proof: ProofTree,
    grant: Grant,
}

impl Model for Checked {
    ghost use Rattle.proof_verifier.specs.CheckedView.{CheckedView, checked_view, IsChecked};
    ghost use Rattle.proof_verifier.specs.CheckedCode.{checked_code};
    ghost use Rattle.proof_verifier.specs.Cited.{AreCited};

    ghost Value = { CheckedView };

    ghost coded = { checked_code };

    ghost view = { λ c. checked_view c.cited c.goal c.proof c.grant };

    ghost invariant = { λ c. IsChecked (checked_view c.cited c.goal c.proof c.grant) × AreCited c.cited };
}

impl Checked {
    ghost use Rattle.std.specs.Prelude.{◌≡◌, IfOk};
    ghost use Rattle.proof_verifier.specs.CheckedView.{IsChecked};
    ghost use Rattle.proof_verifier.specs.Cited.{AreCited};

    /// What the proof grants.
    pub fn grant(&self) -> &Grant
        ensures same { result.now ≡ self.now.grant }
        ensures kept { IsChecked self.now }
    {
        &self.grant
    }

    /// The cited statements.
    pub fn cited(&self) -> &Cites
        ensures same { result.now ≡ self.now.cited }
        ensures kept { IsChecked self.now }
        ensures are_cited { AreCited self.now.cited }
    {
        &self.cited
    }

    /// The proof.
    pub fn proof(&self) -> &ProofTree
        ensures same { result.now ≡ self.now.proof }
        ensures kept { IsChecked self.now }
    {
        &self.proof
    }

    /// The goal.
    pub fn goal(&self) -> Goal
        ensures same { result ≡ self.now.goal }
        ensures kept { IsChecked self.now }
    {
        self.goal
    }

    /// The cited statements, the proof and the grant.
    pub fn into_parts(self) -> (Cites, ProofTree, Grant)
        ensures cited { result.0 ≡ self.cited }
        ensures proof { result.1 ≡ self.proof }
        ensures grant { result.2 ≡ self.grant }
        ensures kept { IsChecked self }
        ensures are_cited { AreCited self.cited }
    {
        (self.cited, self.proof, self.grant)
    }

    /// An equal value in memory of its own.
    pub fn copy(&self, alloc: Global) -> Result<Checked, NoMemory>
        ensures { IfOk result (λ copied. copied ≡ self.now) }
    {
        Ok(Checked {
            cited: self.cited.copy(alloc)?,
            goal: self.goal,
            proof: self.proof.copy(alloc)?,
            grant: self.grant.copy(alloc)?,
        })
    }
}

/// The verdict on a proof of the goal from the cited statements: a grant, which is sound for them, or the first fault. Out
/// of memory is reported only if a growth was refused.
pub fn verdict(
    alloc: Global,
    cited: &Cites,
    goal: &Goal,
    proof: &ProofTree,
) -> Result<Grant, CheckFault>
    requires { AreCited cited.now }
    ensures granted { IfOk result (λ grant. IsGranted (statements_of cited.now) goal.now proof.now grant) }
    ensures fault { IfErr result (λ fault. IsFault fault (verdict (statements_of cited.now) goal.now proof.now)) }
{
    grant_of(alloc, cited.as_slice(), goal, proof)
}

/// Checks a proof of the goal from the cited statements, and keeps copies of them. The grant is the verdict, and so is a
/// fault; but out of memory is reported if a growth was refused.
pub fn check(
    alloc: Global,
    cited: &Cites,
    goal: &Goal,
    proof: &ProofTree,
) -> Result<Checked, CheckFault>
    requires { AreCited cited.now }
    ensures ok { IfOk result (λ checked. checked ≡ checked_view cited.now goal.now proof.now checked.grant) }
    ensures granted { IfOk result (λ checked. IsChecked checked) }
    ensures are_cited { IfOk result (λ checked. AreCited checked.cited) }
    ensures fault { IfErr result (λ fault. IsFault fault (verdict (statements_of cited.now) goal.now proof.now)) }
{
    let grant = verdict(alloc, cited, goal, proof)?;
    let cited = cited.copy(alloc)?;
    let proof = proof.copy(alloc)?;
    Ok(Checked {
        cited,
        goal: *goal,
        proof,
        grant,
    })
}

/// Checks a proof as `check` does, but keeps the statements and the proof themselves, and copies nothing.
pub fn verify(
    alloc: Global,
    cited: Cites,
    goal: Goal,
    proof: ProofTree,
) -> Result<Checked, CheckFault>
    requires { AreCited cited }
    ensures ok { IfOk result (λ checked. checked ≡ checked_view cited goal proof checked.grant) }
    ensures granted { IfOk result (λ checked. IsChecked checked) }
    ensures are_cited { IfOk result (λ checked. AreCited checked.cited) }
    ensures fault { IfErr result (λ fault. IsFault fault (verdict (statements_of cited) goal proof)) }
{
    let grant = verdict(alloc, &cited, &goal, &proof)?;
    Ok(Checked {
        cited,
        goal,
        proof,
        grant,
    })
}
