//! Issues that are good: the statements that they cite are there, and their grant is the verdict on their proof, in one of
//! its two forms.

ghost use Rattle.std.specs.Prelude.{◌≡◌, ◌↔◌, IfOk, IsTrue, MatchOption};
ghost use Rattle.proof_verifier.specs.Cited.{AreCited};
ghost use Rattle.access_history.specs.Citing.{IsGoodIssue, IsGrantedFrom, numbers_of};
ghost use Rattle.pcfs_audit.specs.Cites.{AreTheirs, HasNoIssue};
ghost use Rattle.pcfs_audit.specs.Papers.{shown};

use access_history::is_grant_of;
use bl_syntax::{Grant, NoMemory, Statement, are_citable};
use proof_term::ProofTree;
use proof_verifier::{CheckFault, Cite, Cites, verdict};
use std::alloc::Global;

// The statements of these numbers; none if no good issue cites them.
fn cite(
    alloc: Global,
    statements: &[&Statement],
    numbers: &[u32],
) -> Result<Option<Cites>, NoMemory>
    ensures { IfOk result (λ cited. MatchOption cited (HasNoIssue (shown statements.now) numbers.now) (AreTheirs (shown statements.now) numbers.now)) }
{
    if !are_citable(numbers) {
        return Ok(None);
    }
    let mut cites = Vec::new(alloc);
    for number in numbers {
        if *number == 0 || statements.len() < *number as usize {
            return Ok(None);
        }
        cites.push(Cite {
            number: *number,
            statement: statements[*number as usize - 1].copy(alloc)?,
        })?;
    }
    Ok(Some(Cites::new(cites)))
}

// Whether the proof was not checked for lack of memory.
fn is_without_memory(fault: CheckFault) -> bool
    ensures { IsTrue result ↔ (fault ≡ CheckFault.NoMemory) }
{
    match fault {
        CheckFault::NoMemory => true,
        _ => false,
    }
}

// Whether the grant is the verdict on the proof from what these numbers cite, naming them or not.
fn is_granted(
    alloc: Global,
    cites: &Cites,
    cited: &[u32],
    proof: &ProofTree,
    grant: &Grant,
) -> Result<bool, NoMemory>
    requires rising { AreCited cites.now }
    requires cited { numbers_of cites.now ≡ cited.now }
    ensures { IfOk result (λ granted. IsTrue granted ↔ IsGrantedFrom cites.now proof.now grant.now) }
{
    let goal = grant.goal();
    match verdict(alloc, cites, &goal, proof) {
        Ok(granted) => Ok(is_grant_of(&granted, cited, grant)),
        Err(fault) => {
            if is_without_memory(fault) {
                return Err(NoMemory);
            }
            Ok(false)
        }
    }
}

/// Whether an issue is good: it cites 1 to 64 of the statements by strictly rising numbers, and its grant is the verdict on
/// its proof from them, or that one naming them.
pub fn is_good_issue(
    alloc: Global,
    statements: &[&Statement],
    cited: &[u32],
    proof: &ProofTree,
    grant: &Grant,
) -> Result<bool, NoMemory>
    ensures { IfOk result (λ good. IsTrue good ↔ IsGoodIssue (shown statements.now) (record { cited = cited.now; proof = proof.now; grant = grant.now })) }
{
    match cite(alloc, statements, cited) {
        Ok(Some(cites)) => is_granted(alloc, &cites, cited, proof, grant),
        Ok(None) => Ok(false),
        Err(refused) => Err(refused),
    }
}
