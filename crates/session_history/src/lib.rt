//! What a session's replies mean in a history that others grow: definitions and their laws.
//!
//! A turn finds the entries of a store and adds some at their end. A line takes no turn, one, or two, at places that do not
//! go back, and its reply is the answer over what it found there. What is placed stays placed when the history grows. The
//! definitions are in `specs/`: `Passes`, `Turn`, `SessionState`, `Tasks`, `Placed`, `Output`, `Laws`.
#![tactic(auto)]

mod clock;
pub mod laws;
mod reply;
mod request;
mod task;

pub use clock::TurnClock;
pub use reply::TurnReply;
pub use request::TurnRequest;
pub use task::LineTask;
