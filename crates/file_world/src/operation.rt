//! Operations on the file system, and what of them falls to the tree and to the attributes.

ghost use Rattle.std.specs.Prelude.{◌≡◌, IfOk};

use bl_syntax::{Bytes, NoMemory, NodeId, Principal, Text};
use std::alloc::Global;

/// What a node is.
#[derive(Clone, Copy, Debug, PartialEq, Eq)]
pub enum Kind {
    File,
    Directory,
}

/// An operation on the tree. Offsets and lengths are in bytes.
#[derive(Debug, Drop)]
pub enum TreeOp {
    /// The file, the offset, and the greatest number of bytes to be read.
    Read(NodeId, u64, u64),
    /// The file, the offset, and the bytes to be written.
    Write(NodeId, u64, Bytes),
    /// The file, and its new length.
    Truncate(NodeId, u64),
    /// The directory.
    List(NodeId),
    /// The directory, and a name in it.
    Lookup(NodeId, Bytes),
    /// The directory, and the new file's name.
    Create(NodeId, Bytes),
    /// The directory, and the new directory's name.
    Mkdir(NodeId, Bytes),
    /// The directory, and a name in it.
    Unlink(NodeId, Bytes),
    /// The directory, a name in it, the new directory, and the new name.
    Rename(NodeId, Bytes, NodeId, Bytes),
}

/// An operation on owners and attributes, and what keeps them in step with the tree.
#[derive(Debug, Drop)]
pub enum MetaOp {
    /// The node, and the attribute's name.
    Get(NodeId, Bytes),
    /// The node, the attribute's name, and its new value.
    Set(NodeId, Bytes, Text),
    /// The node, and the attribute's name.
    Remove(NodeId, Bytes),
    /// The node, and its new owner.
    Chown(NodeId, Principal),
    /// A new node, its owner, and the directory that holds it.
    Add(NodeId, Principal, NodeId),
    /// The node that goes.
    Drop(NodeId),
    /// The node, and its new directory.
    Move(NodeId, NodeId),
}

/// An operation on the file system. Offsets and lengths are in bytes.
#[derive(Debug, Drop)]
pub enum Op {
    /// The file, the offset, and the greatest number of bytes to be read.
    Read(NodeId, u64, u64),
    /// The file, the offset, and the bytes to be written.
    Write(NodeId, u64, Bytes),
    /// The file, and its new length.
    Truncate(NodeId, u64),
    /// The directory.
    List(NodeId),
    /// The directory, and a name in it.
    Lookup(NodeId, Bytes),
    /// The directory, and the new file's name.
    Create(NodeId, Bytes),
    /// The directory, and the new directory's name.
    Mkdir(NodeId, Bytes),
    /// The directory, and a name in it.
    Unlink(NodeId, Bytes),
    /// The directory, a name in it, the new directory, and the new name.
    Rename(NodeId, Bytes, NodeId, Bytes),
    /// The node, and the attribute's name.
    Getattr(NodeId, Bytes),
    /// The node, the attribute's name, and its new value.
    Setattr(NodeId, Bytes, Text),
    /// The node, and the attribute's name.
    Delattr(NodeId, Bytes),
    /// The node, and its new owner.
    Chown(NodeId, Principal),
}

impl Op {
    /// An equal operation in memory of its own.
    pub fn copy(&self, alloc: Global) -> Result<Op, NoMemory>
        ensures { IfOk result (λ copied. copied ≡ self.now) }
    {
        match self {
            Op::Read(file, offset, len) => Ok(Op::Read(*file, *offset, *len)),
            Op::Write(file, offset, bytes) => Ok(Op::Write(*file, *offset, bytes.copy(alloc)?)),
            Op::Truncate(file, len) => Ok(Op::Truncate(*file, *len)),
            Op::List(directory) => Ok(Op::List(*directory)),
            Op::Lookup(directory, name) => Ok(Op::Lookup(*directory, name.copy(alloc)?)),
            Op::Create(directory, name) => Ok(Op::Create(*directory, name.copy(alloc)?)),
            Op::Mkdir(directory, name) => Ok(Op::Mkdir(*directory, name.copy(alloc)?)),
            Op::Unlink(directory, name) => Ok(Op::Unlink(*directory, name.copy(alloc)?)),
            Op::Rename(directory, name, target, renamed) => {
                let name = name.copy(alloc)?;
                Ok(Op::Rename(*directory, name, *target, renamed.copy(alloc)?))
            }
            Op::Getattr(node, name) => Ok(Op::Getattr(*node, name.copy(alloc)?)),
            Op::Setattr(node, name, value) => Ok(Op::Setattr(*node, name.copy(alloc)?, *value)),
            Op::Delattr(node, name) => Ok(Op::Delattr(*node, name.copy(alloc)?)),
            Op::Chown(node, owner) => Ok(Op::Chown(*node, *owner)),
        }
    }
}
