//! The texts of formulas and statements of the authorization logic, both ways.
//!
//! A text is read token by token. What is read is the value that the text writes; a text that
//! writes none has one first fault, with its place.
#![tactic(auto)]

mod formulas;
pub mod laws;
mod parse;
mod pieces;
mod predicates;
mod print;
mod scope;

pub use bl_tokens::{TextFault, parse_time};
pub use parse::{parse_formula, parse_statement};
pub use pieces::{require_sort, term_of};
pub use print::{print_constraint, print_formula, print_state, print_statement, print_term};
pub use scope::Scope;
