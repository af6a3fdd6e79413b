//! Proofs of the authorization logic: one variant a rule, the proofs that are kept within their limits, and their canonical bytes.
//!
//! Contracts see a proof as plain data, without where it lies in memory. A proof has one spelling, and a reader gives
//! the one proof whose spelling begins the bytes, or the first fault.
#![tactic(auto)]

mod boxes;
mod fault;
mod kinds;
pub mod laws;
mod measure;
mod part;
mod premises;
mod proof;
mod reading;
mod rule;
mod tree;
mod writing;

pub use fault::ProofFault;
pub use part::proof_at;
pub use proof::Proof;
pub use reading::read_proof;
pub use rule::{Axiom, OnePremise, Parts, Rule, TwoPremises};
pub use tree::{LimitFault, ProofTree};
pub use writing::write_proof;
