//! How a line of a session is to be answered.

use crate::request::TurnRequest;
use bl_syntax::{Goal, Numbers};
use line_wire::LineReply;
use proof_term::ProofTree;

/// How a line of a session is to be answered.
#[derive(Debug, Drop)]
pub enum LineTask {
    /// At once, by this reply.
    Reply(LineReply),
    /// In a turn that asks this.
    Turn(TurnRequest),
    /// The proof of the goal from the statements of these numbers is verified: in a turn for the statements, and in one that
    /// issues what the proof grants.
    Proof(Goal, Numbers, ProofTree),
}
