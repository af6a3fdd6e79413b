//! What an operation is ready to change.

use crate::name::Name;
use file_world::Kind;

/// A place in the tree: the number of a directory, and a name there.
#[derive(Clone, Copy, Debug)]
pub struct Spot {
    pub directory: u64,
    pub name: Name,
}

/// What an operation is ready to change, with the memory for it.
#[derive(Clone, Copy, Debug)]
pub enum Ready {
    /// Nothing.
    Nothing,
    /// The contents of the node of that number, to so many bytes.
    Contents(u64, u64),
    /// A new node of that kind at that place.
    Made(Kind, Spot),
    /// The node of that number, at that place, goes.
    Gone(u64, Spot),
    /// The node of that number goes from the first place to the second.
    Moved(u64, Spot, Spot),
}
