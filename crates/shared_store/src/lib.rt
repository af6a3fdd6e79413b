//! A store that passes share, one turn after another.
//!
//! A turn reads the clock and asks the store one thing. Of whatever history begins with what a pass has seen, the turn has
//! its place there, and the pass was given exactly the entries that the turn added. The store remembers, for contracts
//! alone, how it was opened, and has gone on from there by steps and checkpoints.
#![tactic(auto)]

mod asking;
mod entry;
mod formed;
pub mod laws;
mod looking;
mod opened;
mod turn;

pub use asking::ask;
pub use entry::LockEntry;
pub use formed::FormedRequest;
pub use looking::{LookTurn, look};
pub use opened::OpenedStore;
pub use turn::StoreTurn;
