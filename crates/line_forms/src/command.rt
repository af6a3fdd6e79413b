//! What a line of a script or a session asks for.

use bl_syntax::{Bytes, Goal, Numbers, Principal, Statement};
use file_world::Op;
use line_words::ProcapWords;
use proof_term::ProofTree;

/// What a line of a script or a session asks for. That of a session sets neither the clock nor the caller, checks no proof
/// without an issue, and has each signature and procap with it.
#[derive(Debug, Drop)]
pub enum Command {
    /// Sets the clock, in whole seconds from 1970-01-01T00:00:00Z.
    At(i64),
    /// Sets the caller.
    As(Principal),
    /// Registers a statement that has this signature, or one with the ring's key if there is none.
    Register(Option<Bytes>, Statement),
    /// Withdraws the statement of this number by this signature, or by one with the ring's key of its issuer if there is
    /// none.
    Withdraw(u32, Option<Bytes>),
    /// Shows the procap of the issue of this number.
    Procap(u64),
    /// Makes a checkpoint: the area that counts is then that of the present state, without records.
    Checkpoint,
    /// Verifies the proof of the goal from the statements of these numbers.
    Verify(Goal, Numbers, ProofTree),
    /// Checks the proof of the goal from the statements of these numbers, and keeps nothing.
    Check(Goal, Numbers, ProofTree),
    /// Does an operation under these procaps.
    Do(Op, ProcapWords),
}
