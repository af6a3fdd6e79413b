//! The forms of lines: what a line asks for in a script, in a session or in an inquiry, or its first fault with its
//! place.
//!
//! The first words are read by a function and those after them by a table of modes and kinds for each form, so a new form
//! is one row. In each mode a line asks for one thing or has one first fault, and never both.
#![tactic(auto)]

mod asked;
mod command;
mod fault;
mod forms;
mod head;
pub mod laws;
mod line;
mod making;
mod mode;

pub use asked::Line;
pub use command::Command;
pub use fault::LineFault;
pub use forms::{Form, Operation};
pub use line::{read_line, read_line_in};
pub use mode::Mode;
