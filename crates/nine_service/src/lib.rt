//! 9P2000 for each connection: the service that attends it under a pass of its own.
//!
//! What is added to a history under the number of a connection's pass was added in the turns of the connection's messages,
//! which are the first of what its input had left when it was accepted; and its nonce is that of its number.
#![tactic(auto)]

pub mod laws;
mod service;

pub use service::{NineDoor, NineService, NineToken};
