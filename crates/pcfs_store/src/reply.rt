//! What is answered to a step, to an event that came from outside, and to a checkpoint.

use access_history::StepReply;
use op_gate::Damage;

/// The reply of a store to a request.
#[derive(Debug, Drop)]
pub enum StoreReply {
    /// The answer. If it keeps an event, this is on the disk and in the history.
    Step(StepReply),
    /// The answer would keep an event that does not fit, and nothing was kept.
    Full,
    /// A disk failed, now or in an earlier call. Nothing was added to the history; the event may be on the disk.
    Stopped,
    /// There was no memory, and nothing was decided.
    NoMemory,
}

/// What became of an event that came from outside.
#[derive(Clone, Copy, Debug, PartialEq, Eq)]
pub enum Admitted {
    /// It is on the disk and in the history.
    Kept,
    /// It may not come next: its first damage. Nothing was kept.
    Damaged(Damage),
    /// It may come next and does not fit. Nothing was kept.
    Full,
    /// A disk failed, now or in an earlier call. Nothing was added to the history; the event may be on the disk.
    Stopped,
    /// There was no memory, and nothing was kept.
    NoMemory,
}

/// What became of a checkpoint.
#[derive(Clone, Copy, Debug, PartialEq, Eq)]
pub enum CheckpointReply {
    /// The area that counts has the image of the state, and no records.
    Checkpointed,
    /// The image does not fit, or there is no next generation. Nothing was done.
    Full,
    /// A disk failed, now or in an earlier call.
    Stopped,
    /// There was no memory, and nothing was done.
    NoMemory,
}
