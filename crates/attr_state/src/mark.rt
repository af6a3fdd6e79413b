//! What is kept of each node.

use bl_syntax::{Principal, Short, Text};
use std::alloc::AllocError;
use std::collections::BTreeMap;

/// The name of an attribute, and its value.
pub type Attribute = (Short<64>, Text);

/// Attributes in the byte order of their names.
pub type KeptAttributes = Vec<Attribute>;

/// What is kept of a node.
#[derive(Drop)]
pub struct KeptMark {
    pub owner: Principal,
    /// The number of its directory, or 0 for the root.
    pub parent: u64,
    pub attributes: KeptAttributes,
}

/// Marks under the numbers of their nodes.
pub type KeptMarks = BTreeMap<u64, KeptMark>;

impl Clone for KeptMark {
    ghost use Rattle.std.specs.Prelude.{◌≡◌};
    ghost use Rattle.attr_state.specs.Index.{shown};

    ghost is_clone = { λ mark copy. shown copy ≡ shown mark };

    fn clone(&self) -> Result<Self, AllocError> {
        Ok(KeptMark {
            owner: self.owner,
            parent: self.parent,
            attributes: self.attributes.clone()?,
        })
    }
}
