//! The words of a command, which `clap` reads: which command they ask for, and with which numbers.
//!
//! A task is returned exactly if the words ask for it, and none exactly if `clap` does not take them or a number in them is
//! not one, unless memory runs out.
#![tactic(auto)]

mod commands;
mod given;
pub mod laws;
mod words;

pub use given::MOST_CONNECTIONS;
pub use words::{Task, task_of};
