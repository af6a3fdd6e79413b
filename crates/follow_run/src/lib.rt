//! A follower over an input: its messages are taken in order, and a line is written for each, by the order of the code before
//! the next one is taken. If the output tells what it holds, none is taken after a message whose line was not written whole.
//!
//! The messages are those of the input's bytes, in whatever pieces they come, up to the first place at which none stands. The
//! lines are the answers to them, in order. By the order of the code no more of the input is kept than a message and a piece.
#![tactic(auto)]

mod answers;
mod follow_end;
mod following;
mod taking;

pub use answers::number_of;
pub use following::follow_over;
