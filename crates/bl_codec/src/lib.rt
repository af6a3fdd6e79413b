//! Canonical bytes of formulas and statements, both ways.
//!
//! What is written is the one spelling of its value, and what is read is spelled so. Any other bytes give their first
//! fault from the left. A reader stops at the limit of nodes before the stack ends.
#![tactic(auto)]

mod formula_reading;
mod formula_writing;
pub mod laws;
mod statement;

pub use formula_reading::{read_formula, whole_formula_at};
pub use formula_writing::write_formula;
pub use statement::{read_statement, statement_at, write_statement};
