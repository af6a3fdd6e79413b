//! Signatures by leaves of a tree of SHA-256 hashes, whose root is the public key.
//! A root accepts exactly the signatures that lead to it: those of a leaf below 2^height of its tree, each of which
//! signs one message. A signer never gives a leaf twice: over all its calls they are the numbers from the first on.
#![tactic(auto)]

mod accepting;
mod hashes;
pub mod laws;
mod leaves;
mod signer;
mod tree;

pub use accepting::accepts_root;
pub use signer::{SignFault, Signer};
