//! Events that are read from their records, in several threads.

ghost use Rattle.std.specs.Prelude.{◌≡◌, ◌<◌, ◌≤◌, IfOk, Some, length};
ghost use Rattle.std.specs.List.{slice_get};

use crate::auditing::least_of;
use crate::examining::{Examiner, examine_in_pieces};
use bl_syntax::NoMemory;
use journal_records::{Event, EventRecord};
use std::alloc::Global;
use std::thread::Threads;

// Records that are read, with what the threads that read them share.
#[derive(Drop)]
struct Decoding<'r> {
    alloc: Global,
    records: &'r [EventRecord],
}

impl<'r> Examiner for Decoding<'r> {
    type Found = Event;

    ghost has = { λ it place. place < length it.records.now };

    ghost finds = { λ it place event. slice_get it.records.now place ≡ Some event };

    fn examine(&self, place: usize) -> Result<Event, NoMemory> {
        self.records[place].event(self.alloc)
    }
}

/// The events of these records, in memory of their own, read in several threads, in about so many pieces.
pub fn events_in_pieces<R: Threads + Sync>(
    rt: &R,
    alloc: Global,
    records: &[EventRecord],
    pieces: usize,
) -> Result<Vec<Event>, NoMemory>
    requires { 1 ≤ pieces }
    ensures { IfOk result (λ events. events.items ≡ records.now) }
{
    let decoding = Decoding { alloc, records };
    examine_in_pieces(
        rt,
        alloc,
        &decoding,
        records.len(),
        least_of(records.len(), pieces),
    )
}
