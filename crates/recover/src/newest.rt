//! Which of two disks has the area that counts.

ghost use Rattle.std.specs.Prelude.{◌≡◌, ◌≤◌, ◌⊎◌, IfOk, IfSome, OnErr, OnOk, is_some};
ghost use Rattle.pcfs_ports.specs.Faults.{HasRisen};
ghost use Rattle.pcfs_ports.specs.Disk.{IsPinned, Idles};
ghost use Rattle.journal_core.specs.Area.{generation_of};
ghost use Rattle.pcfs_store.specs.Newest.{newer};

use journal_core::peek;
use pcfs_ports::{Disk, Failed};
use pcfs_store::newer;

// The generation of a disk's area, after what was pending was made durable.
fn settled_generation<D: Disk>(disk: &mut D) -> Result<Option<u64>, Failed>
    ensures ok { IfOk result (λ generation. IfSome (D.image disk.old) (λ bytes. generation ≡ generation_of bytes)) }
    ensures same { OnOk result (D.image disk.new ≡ D.image disk.old) }
    ensures pinned { OnOk result (IsPinned D.clock D.left_since D.image disk.new) }
    ensures told { is_some (D.image disk.new) ≡ is_some (D.image disk.old) }
    ensures time { Idles D.clock D.left_since disk.old disk.new }
    ensures no_fault { OnOk result (D.faults disk.new ≡ D.faults disk.old) }
    ensures risen { OnErr result (HasRisen (D.faults disk.old) (D.faults disk.new)) }
    ensures never_falls { D.faults disk.old ≤ D.faults disk.new }
{
    disk.sync()?;
    peek(disk)
}

/// Whether the second of two disks has the area that counts; none exactly if neither area is open. It begins with a sync of
/// both, and then only reads.
pub fn find_newest<D: Disk>(a: &mut D, b: &mut D) -> Result<Option<bool>, Failed>
    ensures ok { IfOk result (λ which.
        IfSome (D.image a.old) (λ first. IfSome (D.image b.old) (λ second. which
        ≡ newer (generation_of first) (generation_of second)))) }
    ensures a_same { OnOk result (D.image a.new ≡ D.image a.old) }
    ensures a_pinned { OnOk result (IsPinned D.clock D.left_since D.image a.new) }
    ensures a_told { is_some (D.image a.new) ≡ is_some (D.image a.old) }
    ensures a_time { Idles D.clock D.left_since a.old a.new }
    ensures a_no_fault { OnOk result (D.faults a.new ≡ D.faults a.old) }
    ensures a_never_falls { D.faults a.old ≤ D.faults a.new }
    ensures b_same { OnOk result (D.image b.new ≡ D.image b.old) }
    ensures b_pinned { OnOk result (IsPinned D.clock D.left_since D.image b.new) }
    ensures b_told { is_some (D.image b.new) ≡ is_some (D.image b.old) }
    ensures b_time { Idles D.clock D.left_since b.old b.new }
    ensures b_no_fault { OnOk result (D.faults b.new ≡ D.faults b.old) }
    ensures b_never_falls { D.faults b.old ≤ D.faults b.new }
    ensures risen { OnErr result (HasRisen (D.faults a.old) (D.faults a.new) ⊎ HasRisen (D.faults b.old) (D.faults b.new)) }
{
    let first = settled_generation(a)?;
    let second = settled_generation(b)?;
    Ok(newer(first, second))
}
