//! Messages that carry the events of one store to another, over a link that may lose, repeat and reorder them.
//!
//! A message has one spelling, and what is read is spelled so. However a stream of messages is cut into pieces, the same
//! messages are read; where no message stands, the place is reported exactly.
#![tactic(auto)]

pub mod laws;
mod reader;
mod reading;
mod writing;

pub use reader::{BadFrame, MessageReader};
pub use writing::write_message;
