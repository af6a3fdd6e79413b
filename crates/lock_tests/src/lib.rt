//! A log under a lock, to which threads append numbers: what a caller of `tree_lock` proves.
//!
//! Passes that count in threads of their own leave, under each pass's number, the count from 0 on, in order and once.
#![tactic(auto)]

mod log;
mod threads;

pub use log::{Log, Note};
pub use threads::{count_in_threads, take_turns};

#[cfg(test)]
mod tests;
