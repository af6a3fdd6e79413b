//! Each reply that a script is given is one line: so the lines of what it writes are its replies.
//!
//! The crate has laws over definitions below it; it runs nothing.
#![tactic(auto)]

pub mod laws;
