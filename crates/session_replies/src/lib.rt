//! Each reply that a session is given is one line: so the lines of what it writes are its greeting and its replies.
//!
//! The crate has laws over definitions below it; it runs nothing.
#![tactic(auto)]

pub mod laws;
