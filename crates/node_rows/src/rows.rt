//! The rows of nodes, and why a half of a world was not made of rows.

ghost use Rattle.std.specs.Prelude.{◌≡◌};
ghost use Rattle.node_rows.specs.declared.rows.RowsFault.TheVariants.{NoMemory as OutOfMemory};

use bl_syntax::{Bytes, NoMemory, NodeId, Principal, Sequence, Short, Text};
use file_world::Kind;
use std::alloc::{AllocError, AllocFailed};
use thiserror::Error;

/// What the tree keeps of a node.
#[derive(Debug, Drop)]
pub struct TreeRow {
    pub number: NodeId,
    pub kind: Kind,
    /// The number of its directory, or 0 for the root.
    pub parent: u64,
    /// Its name there, which is empty for the root.
    pub name: Short<64>,
    pub contents: Bytes,
}

/// Nodes by rising number.
pub type TreeRows = Sequence<TreeRow>;

/// The name of an attribute, and its value.
pub type RowAttribute = (Short<64>, Text);

/// Attributes in the byte order of their names.
pub type RowAttributes = Sequence<RowAttribute>;

/// The owner and the attributes of a node.
#[derive(Debug, Drop)]
pub struct MetaRow {
    pub number: NodeId,
    pub owner: Principal,
    /// The number of its directory, or 0 for the root.
    pub parent: u64,
    pub attributes: RowAttributes,
}

/// Owners and attributes by rising number.
pub type MetaRows = Sequence<MetaRow>;

/// Why a half of a world was not made of rows.
#[derive(Clone, Copy, Debug, PartialEq, Eq, Error)]
pub enum RowsFault {
    /// They are the rows of no tree within the limits, or of no owners and attributes.
    #[error("they are the rows of no tree within the limits, or of no owners and attributes")]
    NotTree,
    /// A growth was refused.
    #[error("out of memory")]
    NoMemory,
}

impl From<NoMemory> for RowsFault {
    ghost from_gives = { λ _ fault. fault ≡ OutOfMemory };

    fn from(_refused: NoMemory) -> RowsFault {
        RowsFault::NoMemory
    }
}

impl From<AllocError> for RowsFault {
    ghost from_gives = { λ _ fault. fault ≡ OutOfMemory };

    fn from(_refused: AllocError) -> RowsFault {
        RowsFault::NoMemory
    }
}

impl<T: Drop> From<AllocFailed<T>> for RowsFault {
    ghost from_gives = { λ _ fault. fault ≡ OutOfMemory };

    fn from(_refused: AllocFailed<T>) -> RowsFault {
        RowsFault::NoMemory
    }
}
