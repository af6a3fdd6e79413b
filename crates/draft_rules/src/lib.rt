//! The rules of the logic on an unfinished proof: which hypotheses can give a goal, how one is used for it, what a goal asks
//! for by its form, which values are tried for a time, and what is missing.
//!
//! A call says which tasks are left for the search, or that it cannot go this way; what it has changed by then the search
//! takes back. It is believed by nobody: a proof is checked by `proof_verifier` before it is given out. What is proved here
//! is that each call is safe and ends.
#![tactic(auto)]

mod asking;
mod goals;
mod hypotheses;
mod keys;
mod leaving;
mod tasks;
mod times;
mod using;
mod walk;

pub use asking::assume;
pub use goals::{Premises, close_goal, open_arguments, open_goal, prove_either, weight_of};
pub use hypotheses::put_uses;
pub use keys::key_at;
pub use leaving::{close_by_fact, close_by_guess, close_by_order, close_by_state, has_constants};
pub use tasks::{Task, Way};
pub use times::{open_term, put_values};
pub use using::apply;
