//! Statements in an input, signed by the leaves of a tree of hashes: the seed comes first, and what is written is the root of its
//! tree, and for each statement the line that registers it, by the next leaf.
//!
//! A text comes to one end, which its lines determine, if the first leaf is at most 2^height: each line is signed up to the
//! first that is wrong or finds no leaf, and that line decides the status. What was written before it stays written, and no
//! leaf signs two statements. A ring that has the root for a name accepts what the leaves sign as of that name.
#![tactic(auto)]

mod answering;
pub mod laws;
mod reading;
mod signing;

pub use answering::{SigningEnd, answer_signing};
