//! Files with their modes, each once.

ghost use Rattle.std.specs.Prelude.{◌≡◌, [], ◌∷◌, ◌++◌, map, Contains, OnOk, OnErr, MatchOption};
ghost use Rattle.mode_policy.specs.Places.{IsPlaceOf};
ghost use Rattle.mode_policy.specs.Rows.{number_of};

use crate::modes::Modes;
use crate::names::MOST_PLACES;
use bl_syntax::NoMemory;
use std::alloc::Global;
use std::collections::BTreeMap;
use std::marker::Model;

/// A file by its number, with the place of its owner among the principals, that of its group among the groups, and its modes.
#[derive(Clone, Copy, Debug, PartialEq, Eq)]
pub struct FileRow {
    pub number: u64,
    pub owner: u32,
    pub group: u32,
    pub modes: Modes,
}

/// Files in the order in which they were added, each once. Contracts see the list.
#[derive(Drop)]
pub struct FileList {
    files: Vec<FileRow>,
    places: BTreeMap<u64, u32>,
}

impl Model for FileList {
    ghost use Rattle.std.specs.Prelude.{List, map};
    ghost use Rattle.std.specs.Ordering.{nat_cmp};
    ghost use Rattle.mode_policy.specs.Places.{ArePlacesOf};
    ghost use Rattle.mode_policy.specs.Rows.{number_of};
    ghost use Rattle.mode_policy.specs.declared.files.FileRow.{FileRow};

    ghost Value = { List FileRow };

    ghost view = { λ l. l.files.items };

    ghost invariant = { λ l. ArePlacesOf nat_cmp l.places.entries (map number_of l.files.items) };
}

impl FileList {
    /// No files. It takes no memory.
    pub fn new(alloc: Global) -> FileList
        ensures { result ≡ [] }
    {
        FileList {
            files: Vec::new(alloc),
            places: BTreeMap::new(alloc),
        }
    }

    /// The files in order.
    pub fn as_slice(&self) -> &[FileRow]
        ensures { result.now ≡ self.now }
    {
        self.files.as_slice()
    }

    /// Where the file of that number stands, from 0.
    pub fn find(&self, number: u64) -> Option<u32>
        ensures { MatchOption result (Contains (map number_of self.now) number → ⊥) (IsPlaceOf (map number_of self.now) number) }
    {
        self.places.get(&number).copied()
    }

    /// Adds a file that is not there. More than 2^32 of them find no memory.
    pub fn add(&mut self, row: FileRow) -> Result<(), NoMemory>
        requires { Contains (map number_of self.old) row.number → ⊥ }
        ensures ok { OnOk result (self.new ≡ self.old ++ row ∷ []) }
        ensures err { OnErr result (self.new ≡ self.old) }
    {
        let len = self.files.len();
        if MOST_PLACES <= len {
            return Err(NoMemory);
        }
        self.files.push(row)?;
        match self.places.insert(row.number, len as u32) {
            Ok(_) => Ok(()),
            Err(_) => {
                self.files.truncate(len);
                Err(NoMemory)
            }
        }
    }
}
