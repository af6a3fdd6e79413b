//! The run of the program: each of so many connections has a session over the store on the disks, or speaks 9P2000 with it, or
//! a command of the top floor is run alone.
//!
//! `run` returns how it ended and why. Of the history at the end the headline holds, what was added under the number of a
//! connection's pass was added in the turns of the lines of its session, or of its messages, and the disks that come back
//! stand for it.
#![tactic(auto)]

mod commands;
pub mod laws;
pub mod nine_laws;
mod nine_serving;
mod serving;
mod status_lines;

pub use commands::run;
