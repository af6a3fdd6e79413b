//! What a turn asks of a store.

use access_history::StepRequest;
use bl_syntax::{Bytes, Numbers, Principal};

/// What a turn asks of a store.
#[derive(Debug, Drop)]
pub enum TurnRequest {
    /// That this is decided, and kept if its answer keeps an event.
    Step(StepRequest),
    /// The statements of these numbers.
    Cite(Numbers),
    /// That a checkpoint is made.
    Checkpoint,
    /// Whether this principal may log in, to whom the server gave this nonce, by this signature over the login message.
    Login(Principal, [u8; 16], Bytes),
}
