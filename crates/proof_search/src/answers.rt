//! What is answered.

use bl_syntax::Numbers;
use proof_verifier::{Checked, Cite};

/// A proof that was found: the numbers of the statements that it cites, and the proof with its verdict.
#[derive(Debug, Drop)]
pub struct Proved {
    pub numbers: Numbers,
    pub checked: Checked,
}

/// Why there is no proof.
#[derive(Clone, Copy, Debug, PartialEq, Eq)]
pub enum Cause {
    /// All was tried.
    Exhausted,
    /// Proofs in which more than a hundred uses of statements are nested were not tried.
    TooDeep,
    /// There were no steps left.
    NoSteps,
    /// What was found was refused, as it has too many rules, levels or conditions.
    Refused,
}

/// The answer to what is asked for.
#[derive(Debug, Drop)]
pub enum Answer {
    Found(Proved),
    NotFound(Cause),
}

/// How near a statement that is missing is to what is said, with the number of a statement.
#[derive(Clone, Copy, Debug, PartialEq, Eq)]
pub enum Near {
    /// It is said for another time.
    AtAnotherTime(u32),
    /// Such a thing is said of others, or by somebody else.
    Otherwise(u32),
    /// No such thing is said.
    Never,
}

/// Statements that are missing, and the proof that there is with them.
#[derive(Debug, Drop)]
pub struct Suggestion {
    /// All statements, the missing ones last.
    pub all: Vec<Cite>,
    /// How near each of the missing ones is to what is said.
    pub near: Vec<Near>,
    pub proved: Proved,
}
