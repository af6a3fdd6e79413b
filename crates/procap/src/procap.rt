//! A grant with its tag.

ghost use Rattle.std.specs.Prelude.{◌≡◌, IfOk};

use bl_syntax::{Grant, NoMemory};
use std::alloc::Global;

/// A grant with its tag. Anybody can make one: whether its tag is the grant's under a key is what `genuine` tells.
#[derive(Debug, Drop)]
pub struct Procap {
    pub grant: Grant,
    pub tag: [u8; 32],
}

impl Procap {
    /// An equal procap in memory of its own.
    pub fn copy(&self, alloc: Global) -> Result<Procap, NoMemory>
        ensures { IfOk result (λ copied. copied ≡ self.now) }
    {
        Ok(Procap {
            grant: self.grant.copy(alloc)?,
            tag: self.tag,
        })
    }
}
