//! The lines of bytes that come in pieces.
//!
//! However a text is cut into pieces, its lines are those of the whole text, and none is copied before it is read. A line
//! that is too long is reported with the piece that makes it so; the lines before it can still be taken, and no piece is
//! taken after it.
#![tactic(auto)]

mod framer;
pub mod laws;
mod queue;
mod scanning;

pub use framer::{FeedFault, Framer};
pub use queue::Queue;
