//! A lock that hands a value to one pass after another, in the order of tickets drawn from an atomic word.
//!
//! The value's entries are one history. What a pass has seen begins it, and in it the entries under a pass's number are
//! exactly those that its own jobs appended, in their order. So a closed lock's history is a merge of its passes' lists.
#![tactic(auto)]

mod door;
mod laws;
mod parts;
mod recorded;
mod rule;
mod turn;
mod view;
mod waiting;

pub use laws::{closed_histories_are_merges, later_passes_have_seen_it};
pub use parts::{Doorman, Pass, TreeLock};
pub use recorded::{Job, Recorded};
