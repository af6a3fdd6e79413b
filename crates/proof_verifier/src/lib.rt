//! Checks proofs of the authorization logic, and answers under which conditions a proof grants its goal.
//!
//! The verdict on a proof is a definition, in `specs/Verdict.antt` with the table of rules in `specs/Rules.antt`.
#![tactic(auto)]

mod checked;
mod checker;
mod cites;
mod conditions;
mod facts;
mod fault;
mod hypotheses;
mod instance;
pub mod laws;
mod left;
mod parts;
mod position;
mod right;
mod root;
mod shapes;
mod terms;

pub use checked::{Checked, check, verdict, verify};
pub use cites::{Cite, Cites};
pub use fault::CheckFault;
