//! What texts write can be written again: a statement that a text writes has a spelling, and a proof that a text says can
//! be printed.
//!
//! The crate has laws over definitions below it; it runs nothing.
#![tactic(auto)]

pub mod laws;
