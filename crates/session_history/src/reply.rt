//! What a turn replies.

use access_history::StepReply;
use proof_verifier::Cites;

/// What a turn replies.
#[derive(Debug, Drop)]
pub enum TurnReply {
    /// The answer of a step, or why no statements are given or nobody is logged in.
    Step(StepReply),
    /// The statements.
    Cited(Cites),
    /// The principal is logged in.
    LoggedIn,
    /// A checkpoint was made.
    Checkpointed,
    /// The answer would keep an event, or make a checkpoint, that does not fit, and nothing was kept.
    Full,
    /// A disk failed, in this turn or in an earlier one, and nothing was kept.
    Stopped,
    /// There was no memory, and nothing was decided.
    NoMemory,
}
