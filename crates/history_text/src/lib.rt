//! The texts of a history's table: an event a line for people, with a line for each procap and each statement below it, and an
//! object of JSON a line for programs.
//!
//! What is written of a row is a definition over the state before the event, the event and its row.
#![tactic(auto)]

mod dates;
mod escape;
mod issue_basis;
mod lines;
mod objects;
mod words;

pub use issue_basis::{Basis, issue_numbered};
pub use lines::{put_admitting_lines, put_event_lines, put_resting_lines};
pub use objects::{put_admitting_object, put_event_object, put_resting_object};
