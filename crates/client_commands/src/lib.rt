//! What the words of the client's command line ask for.
//!
//! Words that are none of a command are reported in one line; out of memory is reported as that.
#![tactic(auto)]

mod fault_words;
mod given;
mod grammar;
mod reading;

pub use given::{Asked, Command, Options, Signing};
pub use reading::asked_of;
