//! Writes that are durable when they return.

ghost use Rattle.std.specs.Prelude.{◌≡◌, ℕ, ◌+◌, ◌<◌, ◌≤◌, ◌^◌, ◌⊎◌, List, [], ◌∷◌, Some, OnOk, OnErr, is_some};
ghost use Rattle.std.specs.Option.{option_map};
ghost use Rattle.pcfs_ports.specs.Faults.{HasRisen};
ghost use Rattle.pcfs_ports.specs.Disk.{written, Torn, IsPinned, LeavesOnly};

use pcfs_ports::{Disk, Failed};

/// Writes a piece and makes it durable.
pub fn write_through<D: Disk>(disk: &mut D, at: u64, piece: &[u8]) -> Result<(), Failed>
    ensures image { OnOk result (D.image disk.new ≡ option_map (written at piece.now) (D.image disk.old)) }
    ensures pinned { OnOk result (IsPinned D.clock D.left_since D.image disk.new) }
    ensures any_moment { (bytes : List ℕ) → D.image disk.old ≡ Some bytes →
        IsPinned D.clock D.left_since D.image disk.old →
        LeavesOnly D.clock D.left_since disk.old disk.new (Torn at piece.now bytes) }
    ensures told { is_some (D.image disk.new) ≡ is_some (D.image disk.old) }
    ensures no_fault { OnOk result (D.faults disk.new ≡ D.faults disk.old) }
    ensures risen { OnErr result (HasRisen (D.faults disk.old) (D.faults disk.new)) }
    ensures never_falls { D.faults disk.old ≤ D.faults disk.new }
{
    disk.write_at(at, piece)?;
    disk.sync()?;
    Ok(())
}

/// Writes a piece after a gate and makes it durable, and only then opens the gate, which is durable
/// too when it returns.
pub fn write_then_open<D: Disk>(disk: &mut D, gate: u64, piece: &[u8]) -> Result<(), Failed>
    requires { gate + 1 < 2 ^ 64 }
    ensures image { OnOk result (D.image disk.new ≡
        option_map (λ bytes. written gate (1 ∷ []) (written (gate + 1) piece.now bytes)) (D.image disk.old)) }
    ensures pinned { OnOk result (IsPinned D.clock D.left_since D.image disk.new) }
    ensures any_moment { (bytes : List ℕ) → D.image disk.old ≡ Some bytes →
        IsPinned D.clock D.left_since D.image disk.old →
        LeavesOnly D.clock D.left_since disk.old disk.new
        (λ left. Torn (gate + 1) piece.now bytes left ⊎ Torn gate (1 ∷ []) (written (gate + 1) piece.now bytes) left) }
    ensures told { is_some (D.image disk.new) ≡ is_some (D.image disk.old) }
    ensures no_fault { OnOk result (D.faults disk.new ≡ D.faults disk.old) }
    ensures risen { OnErr result (HasRisen (D.faults disk.old) (D.faults disk.new)) }
    ensures never_falls { D.faults disk.old ≤ D.faults disk.new }
{
    write_through(disk, gate + 1, piece)?;
    write_through(disk, gate, &[1])?;
    Ok(())
}
