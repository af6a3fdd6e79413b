//! A fid under its number, in few bytes: who adds one or takes one out moves all with greater numbers.

ghost use Rattle.std.specs.Prelude.{◌≡◌};
ghost use Rattle.nine_fids.specs.Entries.{file_of};

use crate::fid::{Fid, FidFile, OpenMode};
use bl_syntax::NodeId;
use std::marker::Model;

/// What a fid stands for.
#[derive(Clone, Copy, Debug, PartialEq, Eq)]
pub enum EntryKind {
    /// The control file.
    Control,
    /// A node that was no directory.
    File,
    /// A node that was a directory.
    Directory,
}

/// A fid and its number, in 16 bytes. Contracts see the number and the fid.
#[derive(Debug, Drop)]
pub struct Entry {
    number: u32,
    kind: EntryKind,
    mode: Option<OpenMode>,
    node: NodeId,
}

impl Model for Entry {
    ghost use Rattle.std.specs.Prelude.{ℕ};
    ghost use Rattle.nine_fids.specs.declared.fid.Fid.{Fid};
    ghost use Rattle.nine_fids.specs.Entries.{file_of};

    ghost Value = { ℕ × Fid };

    ghost view = { λ e. (e.number, record { file = file_of e.kind e.node; mode = e.mode }) };
}

// Of which kind a file is, and which node; the control file is none.
fn parts_of(file: FidFile) -> (EntryKind, NodeId)
    ensures { file_of result.0 result.1 ≡ file }
{
    match file {
        FidFile::Control => (EntryKind::Control, NodeId(0)),
        FidFile::Node(node, false) => (EntryKind::File, node),
        FidFile::Node(node, true) => (EntryKind::Directory, node),
    }
}

// The file of a kind, which is this node or the control file.
fn file_of(kind: EntryKind, node: NodeId) -> FidFile
    ensures { result ≡ file_of kind node }
{
    match kind {
        EntryKind::Control => FidFile::Control,
        EntryKind::File => FidFile::Node(node, false),
        EntryKind::Directory => FidFile::Node(node, true),
    }
}

impl Entry {
    /// The fid under the number.
    pub(crate) fn new(number: u32, fid: Fid) -> Entry
        ensures { result ≡ (number, fid) }
    {
        let (kind, node) = parts_of(fid.file);
        Entry {
            number,
            kind,
            mode: fid.mode,
            node,
        }
    }

    /// The number.
    pub(crate) fn number(&self) -> u32
        ensures { result ≡ self.now.0 }
    {
        self.number
    }

    /// The fid.
    pub(crate) fn fid(&self) -> Fid
        ensures { result ≡ self.now.1 }
    {
        Fid {
            file: file_of(self.kind, self.node),
            mode: self.mode,
        }
    }
}
