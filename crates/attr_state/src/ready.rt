//! What an operation is ready to change.

use bl_syntax::Principal;

/// What an operation is ready to change, with the memory for it.
#[derive(Clone, Copy, Debug)]
pub enum MetaReady {
    /// What takes no memory.
    Nothing,
    /// The attributes of the node of that number, to so many.
    Attributes(u64, u64),
    /// A new node of that number, with its owner and the number of its directory.
    Made(u64, Principal, u64),
}
