//! A script that is generated from a number of rounds and a seed, for large runs: the same numbers give the same script.
//!
//! Its text is a definition over the two numbers, and `generated_script` makes that text, if memory suffices.
#![tactic(auto)]

mod drawing;
mod groups;
mod lines;
mod script;

pub use script::{MOST_ROUNDS, generated_script};
