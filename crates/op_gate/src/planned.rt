//! What is to be done on a request.

use access_history::{Addition, StepReply};
use journal_records::{Event, EventRecord};

/// An event that was decided, and what the state keeps beside it.
#[derive(Debug, Drop)]
pub struct Pending {
    pub event: Event,
    pub addition: Addition,
}

/// An event that was decided, with its record.
#[derive(Drop)]
pub struct Recorded {
    pub pending: Pending,
    pub kept: EventRecord,
}

/// What is to be done on a request.
#[derive(Debug, Drop)]
pub enum DecisionPlan {
    /// The answer, with nothing to keep.
    Answer(StepReply),
    /// The answer, and the event to keep.
    Keep(StepReply, Pending),
    /// Out of memory.
    NoMemory,
}
