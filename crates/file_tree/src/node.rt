//! Nodes under their numbers, and the names in each directory.

use crate::name::Name;
use file_blocks::FileContents;
use file_world::Kind;
use std::alloc::AllocError;
use std::collections::BTreeMap;

/// A node. A file has no names, and a directory has no contents.
#[derive(Drop)]
pub struct KeptNode {
    pub kind: Kind,
    /// The number of its directory, or 0 for the root.
    pub parent: u64,
    pub name: Name,
    pub contents: FileContents,
    /// The number of the node that each name in the directory stands for, or 0 for a name that is only held.
    pub names: BTreeMap<Name, u64>,
}

/// Nodes under their numbers.
pub type KeptNodes = BTreeMap<u64, KeptNode>;

impl Clone for KeptNode {
    ghost use Rattle.file_tree.specs.Index.{IsCopy};

    ghost is_clone = { λ node copy. IsCopy node copy };

    fn clone(&self) -> Result<Self, AllocError> {
        Ok(KeptNode {
            kind: self.kind,
            parent: self.parent,
            name: self.name,
            contents: self.contents.clone()?,
            names: self.names.clone()?,
        })
    }
}
