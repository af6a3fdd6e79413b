//! The events of a history as messages, which carry them to a second store.
//!
//! What is written are the messages of the events from a number on, each once and in order, and nothing else; or, if
//! the event of that number is before the base, that it is gone. By the order of the code memory does not grow with
//! the number of messages.
#![tactic(auto)]

mod exporting;
mod outgoing;

pub use exporting::export_history;
