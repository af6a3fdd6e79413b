//! The files that a walk found.

ghost use Rattle.std.specs.Prelude.{◌≡◌, ◌<◌, [], ◌∷◌, ◌++◌, length};

use nine_fids::FidFile;
use nine_fids::limits::MOST_NAMES;
use std::marker::Model;

/// At most as many files as a walk may have names. Contracts see them in their order. It takes no memory.
#[derive(Debug, Drop)]
pub struct Found {
    files: [FidFile; MOST_NAMES],
    count: usize,
}

impl Model for Found {
    ghost use Rattle.std.specs.Prelude.{◌≤◌, List, take};
    ghost use Rattle.nine_fids.specs.declared.fid.FidFile.{FidFile};
    ghost use Rattle.nine_fids.specs.declared.limits.TheConstants.{MOST_NAMES};

    ghost Value = { List FidFile };

    ghost view = { λ f. take f.count f.files };

    ghost invariant = { λ f. f.count ≤ MOST_NAMES };
}

impl Found {
    /// No files.
    pub(crate) fn new() -> Found
        ensures { result ≡ [] }
    {
        Found {
            files: [FidFile::Control; MOST_NAMES],
            count: 0,
        }
    }

    /// Adds a file after the others.
    pub(crate) fn push(&mut self, file: FidFile)
        requires { length self.old < MOST_NAMES }
        ensures { self.new ≡ self.old ++ file ∷ [] }
    {
        if self.count < MOST_NAMES {
            self.files[self.count] = file;
            self.count += 1;
        }
    }

    /// The files.
    pub fn as_slice(&self) -> &[FidFile]
        ensures { result.now ≡ self.now }
    {
        &self.files[..self.count]
    }
}
