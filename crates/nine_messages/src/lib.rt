//! The messages of 9P2000, without a copy of what they carry.
//!
//! Bytes that are a message are read as what they spell, and others begin no message: that is known where the message
//! begins, whatever the pieces in which bytes come. What is written is the one spelling of a request or a reply.
#![tactic(auto)]

mod fields;
mod fields_writing;
mod framing;
pub mod laws;
mod names;
mod reply;
mod reply_writing;
mod request;
mod request_reading;
mod request_writing;

pub use framing::{LEAST_SIZE, MOST_SIZE, Next, agreed_after, next_message};
pub use names::Names;
pub use reply::{Qid, Reply};
pub use reply_writing::write_reply;
pub use request::{Message, Request};
pub use request_reading::read_message;
pub use request_writing::write_message;
