//! The syntax of the authorization logic: names, terms, formulas, statements and the conditions of a grant.
//!
//! Contracts see each of them as plain data, without where it lies in memory.
#![tactic(auto)]

mod binders;
pub mod boxes;
pub mod byte_classes;
mod check;
mod citable;
mod codec_fault;
mod conditions;
pub mod decimal;
pub mod fields;
mod formula;
mod grant;
pub mod laws;
pub mod limits;
mod lists;
mod names;
mod reading;
mod short;
mod statement;
mod substitution;
mod terms;
mod time;
mod writing;

pub use check::{SyntaxFault, check_formula};
pub use citable::are_citable;
pub use codec_fault::CodecFault;
pub use conditions::{holds_at, is_constant_in_range, is_state_condition, is_time_condition};
pub use formula::Formula;
pub use grant::{Goal, Grant};
pub use lists::{Bytes, NoMemory, Numbers, Sequence, copy_bytes, copy_numbers};
pub use names::{Principal, Text, Word};
pub use reading::{read_name, read_term, read_text, read_time};
pub use short::Short;
pub use statement::Statement;
pub use substitution::instantiate;
pub use terms::{
    Constraint, Constraints, NodeId, Perm, Sort, StatePred, StatePreds, Term, Terms, TimePoint,
    stronger,
};
pub use time::is_moment;
pub use writing::{write_name, write_term, write_text, write_time};
