//! The search for a proof, over numbers: steps of one loop, each a task or a way of the last choice, with the failures of
//! goals in a table; and what is found, as a list of rules in the order of the proof's text.
//!
//! It is believed by nobody: a proof is checked by `proof_verifier` before it is given out. What is proved here is that each
//! call is safe and ends.
#![tactic(auto)]

mod choices;
mod machine;
mod naming;
mod proving;
mod steps;
mod tables;
mod writing;

pub use machine::{End, Machine};
pub use writing::{Assumed, Found, Piece};
