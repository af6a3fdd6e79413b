//! A line of a session, answered over a shared store.
//!
//! By the order of the code what a line asks for is read outside the lock, and a proof is checked outside it. Whatever others
//! do, the reply is placed in each history that begins with what the pass has seen then.
#![tactic(auto)]

mod answering;
mod checker;
pub mod laws;
mod line_replies;
mod proving;
mod tasks;

pub use answering::answer_line;
pub use checker::{Checker, PlainChecker};
