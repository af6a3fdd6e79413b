//! What the readers of canonical bytes say of bytes that are cut short, and of bytes that are left over.
//!
//! The crate has laws over definitions below it; it runs nothing.
#![tactic(auto)]

pub mod laws;
