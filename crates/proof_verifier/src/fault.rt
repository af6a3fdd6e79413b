//! Why a proof is refused.

ghost use Rattle.std.specs.Prelude.{◌≡◌};
ghost use Rattle.proof_verifier.specs.declared.fault.CheckFault.TheVariants.{NoMemory as OutOfMemory};

use bl_syntax::NoMemory;
use thiserror::Error;

/// Why a proof is refused: the first test that fails, and the node at which it fails. Nodes are numbered from 0,
/// each before those of its premises.
#[derive(Clone, Copy, Debug, PartialEq, Eq, Error)]
pub enum CheckFault {
    /// No hypothesis has the number, or it was struck out.
    #[error("at node {0}, no hypothesis has the number, or it was struck out")]
    NoHypothesis(usize),
    /// The goal or the hypothesis has not the form that the rule takes.
    #[error("at node {0}, the goal or the hypothesis has not the form that the rule takes")]
    WrongShape(usize),
    /// A condition on time is neither entailed nor one that a grant can keep.
    #[error("at node {0}, a condition on time is neither entailed nor one that a grant can keep")]
    NotEntailed(usize),
    /// A condition on the server's state is neither a fact nor one that a grant can keep.
    #[error("at node {0}, a condition on the server's state is neither a fact nor one that a grant can keep")]
    NotInState(usize),
    /// Who claims it is weaker than the view's principal.
    #[error("at node {0}, who claims it is weaker than the view's principal")]
    ViewTooWeak(usize),
    /// A term is out of scope or of another sort.
    #[error("at node {0}, a term is out of scope or of another sort")]
    BadTerm(usize),
    /// The grant holds as many conditions as it may, and this one is new.
    #[error("at node {0}, the grant holds as many conditions as it may, and this one is new")]
    TooManyConditions(usize),
    /// A growth was refused.
    #[error("out of memory")]
    NoMemory,
}

impl From<NoMemory> for CheckFault {
    ghost from_gives = { λ _ fault. fault ≡ OutOfMemory };

    fn from(_refused: NoMemory) -> CheckFault {
        CheckFault::NoMemory
    }
}
