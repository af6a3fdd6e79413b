//! Laws of the definitions. The functions do nothing: each contract is a law.

ghost use Rattle.pcfs_store.specs.Laws.{FreshHasImage, EntriesSayUse, EntriesSayGeneration, EntriesHaveEvents, FullIsExact, CheckpointFullIsExact, CurrentSurvives, ReadyIsCurrent, ReadySurvives};

use pcfs_ports::Disk;

/// The bytes that stand for a store before its first event are the image of that state.
pub fn fresh_has_its_image()
    ensures { FreshHasImage }
{}

/// The entries of a store say how many bytes its area has and which generation, and which events there are.
pub fn entries_say_what_is_stored<D: Disk>()
    ensures used { EntriesSayUse D }
    ensures generation { EntriesSayGeneration D }
    ensures events { EntriesHaveEvents D }
{}

/// A step is full if its event does not fit, unless memory runs out; and so is a checkpoint if its area does not.
pub fn full_is_exact<D: Disk>()
    ensures step { FullIsExact D D.faults }
    ensures checkpoint { CheckpointFullIsExact D D.faults }
{}

/// What a read of the disks of a store gives stands for its history, if it did so when the store was opened and no disk
/// failed.
pub fn a_current_store_survives<D: Disk>()
    ensures { CurrentSurvives D D.clock D.left_since D.image }
{}

/// A store that is ready is current, and a crash at this moment leaves its history.
pub fn a_ready_store_survives<D: Disk>()
    ensures current { ReadyIsCurrent D D.clock D.left_since D.image }
    ensures now { ReadySurvives D D.clock D.left_since D.image }
{}
