//! The prover for a client: from the user's list of statements the line that asks the server for a procap, or what is missing, in
//! words.
#![tactic(auto)]

mod proving;
mod remarks;

pub use proving::{Answer, Listed, Wanted, cites_of, prove};
