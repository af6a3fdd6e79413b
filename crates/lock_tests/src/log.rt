//! The log, and the job that appends a number.
use std::alloc::Global;
use tree_lock::{Job, Recorded};

/// Numbers, each under the number of the pass that noted it.
#[derive(Drop)]
pub struct Log {
    pub notes: Vec<(u64, u64)>,
}

impl Log {
    ghost use Rattle.std.specs.Prelude.{◌≡◌, []};

    pub fn new(alloc: Global) -> Log
        ensures { result.notes.items ≡ [] }
    {
        Log {
            notes: Vec::new(alloc),
        }
    }
}

impl Recorded for Log {
    type Entry = u64;

    ghost entries = { λ log. log.notes.items };
}

/// Notes a number, and says whether there was memory for it.
pub struct Note {
    pub number: u64,
}

impl Job<Log> for Note {
    type Out = bool;

    ghost use Rattle.lock_tests.specs.Counting.{Noted};

    ghost done = { λ note before pass after result. Noted pass note.number before.notes.items after.notes.items result };

    fn work(self, value: &mut Log, pass: u64) -> bool {
        let Note { number } = self;
        value.notes.push((pass, number)).is_ok()
    }
}
