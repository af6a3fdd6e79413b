//! Laws of shared stores. The functions do nothing: each contract is a law.

ghost use Rattle.shared_store.specs.Laws.{ClosedAreMerged, TurnsFindWhatWasTold, LaterPassesFindWhatWasTold};
ghost use Rattle.shared_store.specs.Growing.{StepsGrow, CheckpointsGrow};

use pcfs_ports::Disk;
use session_history::TurnClock;

/// When all passes were taken in, the entries of the store are those with which the lock was made, and then a merge of
/// the passes' own; and the store was opened as it was then.
pub fn closed_stores_are_merges<D: Disk>()
    ensures { ClosedAreMerged D }
{}

/// A turn finds all entries that a pass had seen when something was told under it, if the pass that takes the turn had seen
/// as much before.
pub fn turns_find_what_was_told<D: Disk, C: TurnClock>(clock: &C)
    ensures { TurnsFindWhatWasTold D (C.gives clock.now) }
{
    let _ = clock;
}

/// A turn of a pass that was made after another had left finds all entries that the other had seen when something was told
/// under it.
pub fn later_passes_find_what_was_told<D: Disk, C: TurnClock>(clock: &C)
    ensures { LaterPassesFindWhatWasTold D (C.gives clock.now) }
{
    let _ = clock;
}

/// The entries of a store grow at their end: by the event that a step keeps, by the mark of a disk that failed, and by a
/// checkpoint that was made, each with its pass.
pub fn entries_grow<D: Disk>()
    ensures steps { StepsGrow D D.faults }
    ensures checkpoints { CheckpointsGrow D D.faults }
{}
