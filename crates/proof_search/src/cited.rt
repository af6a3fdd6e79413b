//! Statements by their numbers.
#![tactic(auto, using(crate::proofs::CitedLemmas::one_more))]

ghost use Rattle.std.specs.Prelude.{◌≡◌, Contains, IfOk, IfSome};
ghost use Rattle.proof_search.specs.Proved.{AreAmong};

use bl_syntax::NoMemory;
use proof_verifier::Cite;
use std::alloc::Global;

// The first statement under that number; none if there is none.
fn cite_under(alloc: Global, statements: &[Cite], number: u32) -> Result<Option<Cite>, NoMemory>
    ensures among { IfOk result (λ found. IfSome found (λ cite. Contains statements.now cite)) }
    ensures numbered { IfOk result (λ found. IfSome found (λ cite. cite.number ≡ number)) }
{
    for cite in statements {
        if cite.number == number {
            return Ok(Some(Cite {
                number: cite.number,
                statement: cite.statement.copy(alloc)?,
            }));
        }
    }
    Ok(None)
}

/// The statements under these numbers; none if there is none under one of them.
pub fn cites_under(
    alloc: Global,
    statements: &[Cite],
    numbers: &[u32],
) -> Result<Option<Vec<Cite>>, NoMemory>
    ensures { IfOk result (λ found. IfSome found (λ cites. AreAmong statements.now numbers.now cites.items)) }
{
    let mut cites = Vec::new(alloc);
    for number in numbers {
        match cite_under(alloc, statements, *number)? {
            Some(cite) => cites.push(cite)?,
            None => return Ok(None),
        }
    }
    Ok(Some(cites))
}
