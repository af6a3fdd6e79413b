//! A proof is checked, and so are its conditions.

ghost use Rattle.std.specs.Prelude.{◌≡◌, IfOk, IfSome};
ghost use Rattle.proof_verifier.specs.Cited.{AreCited};
ghost use Rattle.proof_verifier.specs.CheckedView.{IsChecked, checked_view};
ghost use Rattle.proof_search.specs.Proved.{AreAmong, IsProved};

use crate::answers::Proved;
use crate::asked::{Asked, are_left, are_met};
use crate::cited::cites_under;
use bl_syntax::{Goal, NoMemory, Numbers};
use proof_term::ProofTree;
use proof_verifier::{CheckFault, Checked, Cite, Cites, verify};
use std::alloc::Global;

// The verdict on a proof from these statements; none if it is refused.
fn checked_proof(
    alloc: Global,
    cites: Vec<Cite>,
    goal: Goal,
    proof: ProofTree,
) -> Result<Option<Checked>, NoMemory>
    ensures same { IfOk result (λ found. IfSome found (λ checked. checked ≡ checked_view cites.items goal proof checked.grant)) }
    ensures granted { IfOk result (λ found. IfSome found IsChecked) }
    ensures are_cited { IfOk result (λ found. IfSome found (λ checked. AreCited checked.cited)) }
{
    let cited = Cites::new(cites);
    if !cited.are_cited() {
        return Ok(None);
    }
    match verify(alloc, cited, goal, proof) {
        Ok(checked) => Ok(Some(checked)),
        Err(CheckFault::NoMemory) => Err(NoMemory),
        Err(_) => Ok(None),
    }
}

/// The proof with its verdict, if from the statements of these numbers it proves what is asked for.
pub fn confirm(
    alloc: Global,
    statements: &[Cite],
    asked: &Asked,
    numbers: Numbers,
    proof: ProofTree,
) -> Result<Option<Proved>, NoMemory>
    ensures proved { IfOk result (λ found. IfSome found (IsProved statements.now asked.now)) }
    ensures numbers { IfOk result (λ found. IfSome found (λ proved. proved.numbers ≡ numbers)) }
    ensures same { IfOk result (λ found. IfSome found (λ proved. proved.checked.proof ≡ proof)) }
{
    let cites = match cites_under(alloc, statements, numbers.as_slice())? {
        Some(cites) => cites,
        None => return Ok(None),
    };
    let checked = match checked_proof(alloc, cites, asked.goal, proof)? {
        Some(checked) => checked,
        None => return Ok(None),
    };
    if !are_met(checked.grant(), asked.moments) {
        return Ok(None);
    }
    if !are_left(checked.grant(), asked.facts.as_slice(), asked.leaves) {
        return Ok(None);
    }
    Ok(Some(Proved { numbers, checked }))
}
