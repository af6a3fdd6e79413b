//! How the first wrong line of an input is reported, and whether an input has a line that is too long.
//!
//! A report has the number of the line, its fault and the place of the fault.
#![tactic(auto)]

mod long_lines;
mod reports;

pub use long_lines::has_long_line;
pub use reports::bad_line;
