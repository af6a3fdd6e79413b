//! The line that each reply is written as.
//!
//! A reply is written in one way, all of its line or nothing. The numbers of causes, refusals and faults stand here and
//! nowhere else: below, they have names. Laws say that a reply is one line, and which word it begins with. Beside it
//! stands what becomes of a line before a login.
#![tactic(auto)]

mod checked_text;
mod fault_text;
mod gate_text;
mod guest;
mod guest_line;
mod hex_text;
pub mod laws;
mod operation_text;
mod reply;
mod reply_text;

pub use guest::read_guest_line;
pub use guest_line::GuestLine;
pub use reply::LineReply;
pub use reply_text::write_reply;
