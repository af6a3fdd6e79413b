//! Entailment between times: whether constraints have it that one term is not after another.
//!
//! `ConstraintStack` answers the definition exactly. The module `laws` says what the definition is worth. An answer takes
//! time about as the number of constraints, for few, and at worst as its square over 64; no contract says so.
#![tactic(auto)]

mod constants;
pub mod laws;
mod links;
mod places;
mod reaching;
mod stack;
mod tracked;

pub use stack::ConstraintStack;
