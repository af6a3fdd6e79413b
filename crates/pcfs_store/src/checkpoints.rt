//! The checkpoints of a store, and how an area moves for one.

ghost use Rattle.std.specs.Prelude.{◌≡◌, ◌++◌, ◌∷◌, [], OnOk, OnErr};
ghost use Rattle.journal_core.specs.Area.{IsGeneration};
ghost use Rattle.pcfs_store.specs.Moving.{MovesArea};

use journal_core::{Area, AreaFault};
use pcfs_ports::Disk;
use std::alloc::Global;

/// A checkpoint that was made: after how many of the store's events, and in which pass.
#[derive(Clone, Copy, Debug, PartialEq, Eq)]
pub struct Checkpoint {
    /// How many events there were.
    pub after: u64,
    /// The pass.
    pub pass: u64,
}

/// Moves an area to the other disk, with this image and no records, and adds the checkpoint; or leaves both as they are. By
/// the order of the code all memory is taken before the first write.
pub fn move_area<D: Disk>(
    alloc: Global,
    area: &mut Area<D>,
    other: &mut D,
    generation: u64,
    image: &[u8],
    checkpoints: &mut Vec<Checkpoint>,
    made: Checkpoint,
) -> Result<(), AreaFault>
    requires { IsGeneration generation }
    ensures moves { MovesArea D.clock D.left_since D.image D.faults area.old other.old generation image.now result area.new other.new }
    ensures added { OnOk result (checkpoints.new.items ≡ checkpoints.old.items ++ made ∷ []) }
    ensures not_added { OnErr result (checkpoints.new.items ≡ checkpoints.old.items) }
{
    checkpoints.reserve(1)?;
    area.move_to(alloc, other, generation, image)?;
    checkpoints.push(made).unwrap();
    Ok(())
}
