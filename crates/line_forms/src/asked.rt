//! What a line of any mode asks for.

use crate::command::Command;
use bl_syntax::{Bytes, Goal, Principal, Statement};
use proof_term::ProofTree;

/// What a line of any mode asks for.
#[derive(Debug, Drop)]
pub enum Line {
    /// Asks for this, in a script or a session.
    Command(Command),
    /// Logs the principal in, in a session, by this signature over the login message.
    Login(Principal, Bytes),
    /// Says a statement of an inquiry.
    Statement(Statement),
    /// Asks, in an inquiry, whether this proves the goal from all its statements.
    Goal(Goal, ProofTree),
}
