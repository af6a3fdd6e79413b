//! The line that asks for something.
//!
//! Of what a line asks for, one line is written, all of it or nothing. In the mode in which the line was read it is read
//! again, and asks for the same.
#![tactic(auto)]

pub mod laws;
mod lines;
mod operations;
mod words;

pub use lines::write_line;
