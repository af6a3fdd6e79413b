//! Tests on terms.

ghost use Rattle.std.specs.Prelude.{◌≡◌, Ok, Err, MatchResult, []};
ghost use Rattle.bl_syntax.specs.Terms.{sort_of};
ghost use Rattle.proof_verifier.specs.Conditions.{term_condition, strength_condition};

use crate::fault::CheckFault;
use bl_syntax::{Sort, Term, stronger};

/// The term is in scope and has the sort; it holds no bound variable.
pub fn test_term(t: &Term, sort: Sort, sorts: &[Sort], node: usize) -> Result<(), CheckFault>
    ensures { MatchResult result (λ _. term_condition node sorts.now sort t.now ≡ Ok tt)
        (λ fault. term_condition node sorts.now sort t.now ≡ Err fault) }
{
    match sort_of(t, sorts) {
        Some(found) if found == sort => Ok(()),
        _ => Err(CheckFault::BadTerm(node)),
    }
}

/// The sort of a term; none if it has a bound variable, or a parameter out of scope.
fn sort_of(t: &Term, sorts: &[Sort]) -> Option<Sort>
    ensures { result ≡ sort_of sorts.now [] t.now }
{
    match t {
        Term::Prin(_) => Some(Sort::Principal),
        Term::File(_) => Some(Sort::File),
        Term::Perm(_) => Some(Sort::Perm),
        Term::Time(_) | Term::Ctime => Some(Sort::Time),
        Term::Text(_) => Some(Sort::Text),
        Term::Param(n) => sorts.get(*n as usize).copied(),
        Term::Bound(_) => None,
    }
}

/// The first principal is at least as strong as the second.
pub fn test_strength(k: &Term, other: &Term, node: usize) -> Result<(), CheckFault>
    ensures { MatchResult result (λ _. strength_condition node k.now other.now ≡ Ok tt)
        (λ fault. strength_condition node k.now other.now ≡ Err fault) }
{
    if stronger(k, other) {
        Ok(())
    } else {
        Err(CheckFault::ViewTooWeak(node))
    }
}
