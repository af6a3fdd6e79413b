//! The opening of a store: over any bytes at all on two disks, the store of the newest area exactly if that area stands for
//! a lawful history, and otherwise what is wrong with it first.
//!
//! Nothing is trusted: each signature, proof, seal, condition and effect is tested again.
#![tactic(auto)]

mod fault;
pub mod laws;
mod newest;
mod open;
mod reading;

pub use fault::OpenFault;
pub use open::open_store;
