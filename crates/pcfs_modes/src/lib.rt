//! Tables of modes in an input, and what is written of one: a line for each of its statements, which registers it, or one line
//! that tells why there are none.
//!
//! A text comes to one end, which its lines determine: they are those of a table with at most 4,096 statements, or with more, or
//! the first that is wrong is reported with its number.
#![tactic(auto)]

mod answering;
pub mod laws;
mod writing;

pub use answering::{LAST_SECOND, ModesEnd, answer_table};
