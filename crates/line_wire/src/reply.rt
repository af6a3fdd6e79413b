//! What is returned for a line.

use access_history::StepReply;
use bl_syntax::Grant;
use line_forms::LineFault;
use proof_verifier::CheckFault;

/// What is returned for a line.
#[derive(Debug, Drop)]
pub enum LineReply {
    /// It was done, and there is nothing to say.
    Done,
    /// A checkpoint was made.
    Checkpointed,
    /// What the step returned.
    Step(StepReply),
    /// What the proof grants, which is not issued.
    Checked(Grant),
    /// The proof is refused. Out of memory is no fault of a proof: it is written as `NoMemory` is.
    Unproved(CheckFault),
    /// The line asks for nothing. Out of memory is no fault of a line: it is written as `NoMemory` is.
    Faulty(LineFault),
    /// The line is longer than a line may be, and no later one is read.
    TooLong,
    /// Nobody is logged in.
    NotLoggedIn,
    /// There is no room for the event.
    Full,
    /// A disk failed, and the store takes no more steps.
    Stopped,
    /// Out of memory, and nothing changed.
    NoMemory,
}
