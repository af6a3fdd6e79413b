//! Why an operation is refused.

ghost use Rattle.std.specs.Prelude.{◌≡◌};
ghost use Rattle.file_world.specs.declared.refusal.OpFault.TheVariants.{NoMemory as OutOfMemory};

use crate::limits::{MOST_ATTRIBUTES, MOST_BYTES, MOST_BYTES_TOGETHER, MOST_NODES};
use bl_syntax::NoMemory;
use thiserror::Error;

/// Why an operation is refused.
#[derive(Clone, Copy, Debug, PartialEq, Eq, Error)]
pub enum Refusal {
    /// There is no node of that number.
    #[error("there is no node of that number")]
    NoNode,
    /// The node is no directory.
    #[error("the node is no directory")]
    NotDirectory,
    /// The node is a directory.
    #[error("the node is a directory")]
    IsDirectory,
    /// The directory has no node of that name.
    #[error("the directory has no node of that name")]
    NoEntry,
    /// The directory has a node of that name.
    #[error("the directory has a node of that name")]
    Exists,
    /// The directory has names.
    #[error("the directory has names")]
    NotEmpty,
    /// The bytes are no node's name.
    #[error("the bytes are no node's name")]
    BadName,
    /// The file would pass 1,048,576 bytes.
    #[error("the file would pass {most} bytes", most = MOST_BYTES)]
    TooBig,
    /// The tree has 16,384 nodes, or no number is left, or all contents would pass 33,554,432 bytes.
    #[error("the tree has {nodes} nodes, or no number is left, or all contents would pass {bytes} bytes", nodes = MOST_NODES, bytes = MOST_BYTES_TOGETHER)]
    TreeFull,
    /// The node would stand in itself or below itself.
    #[error("the node would stand in itself or below itself")]
    IntoItself,
    /// The node has no attribute of that name.
    #[error("the node has no attribute of that name")]
    NoAttribute,
    /// The node has 32 attributes, and this one is new.
    #[error("the node has {most} attributes, and this one is new", most = MOST_ATTRIBUTES)]
    AttrFull,
    /// The bytes are no attribute's name.
    #[error("the bytes are no attribute's name")]
    BadAttrName,
}

/// An operation without effect.
#[derive(Clone, Copy, Debug, PartialEq, Eq, Error)]
pub enum OpFault {
    /// It is refused.
    #[error("{0}")]
    Refused(Refusal),
    /// A growth was refused, and nothing was changed.
    #[error("out of memory")]
    NoMemory,
}

impl From<NoMemory> for OpFault {
    ghost from_gives = { λ _ fault. fault ≡ OutOfMemory };

    fn from(_refused: NoMemory) -> OpFault {
        OpFault::NoMemory
    }
}
