//! The texts of proofs of the authorization logic, both ways.
//!
//! A text is read token by token. What is read is the proof that the text writes; a text that
//! writes none has one first fault, with its place.
#![tactic(auto)]

mod cursor;
mod heads;
pub mod laws;
mod names;
mod parse;
mod print;

pub use bl_tokens::TextFault;
pub use parse::parse_proof;
pub use print::print_proof;
