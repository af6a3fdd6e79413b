//! Whether a disk has an open area, and of which generation.

ghost use Rattle.std.specs.Prelude.{◌≡◌, ◌+◌, ◌≤◌, IfOk, IfSome, OnOk, OnErr, IsTrue, ◌↔◌, length, take, drop, get_or, is_some};
ghost use Rattle.std.specs.Int.{w64, from_be_bytes};
ghost use Rattle.pcfs_ports.specs.Faults.{HasRisen};
ghost use Rattle.pcfs_ports.specs.Disk.{Idles};
ghost use Rattle.journal_core.specs.Area.{generation_of};

use pcfs_ports::{Disk, Failed};

/// The number of eight bytes from `at` on.
pub fn number_at(bytes: &[u8], at: usize) -> u64
    requires { at + 8 ≤ length bytes.now }
    ensures { result ≡ from_be_bytes w64 (take 8 (drop at bytes.now)) }
{
    let field = &bytes[at..at + 8];
    u64::from_be_bytes([
        field[0], field[1], field[2], field[3], field[4], field[5], field[6], field[7],
    ])
}

/// Whether an open gate stands at `at`.
pub fn is_open(bytes: &[u8], at: usize) -> bool
    ensures { IsTrue result ↔ (get_or bytes.now at 0 ≡ 1) }
{
    at < bytes.len() && bytes[at] == 1
}

// The generation that the front of an area shows.
fn generation_of(front: &[u8]) -> Option<u64>
    ensures { result ≡ generation_of front.now }
{
    if !is_open(front, 0) {
        return None;
    }
    if front.len() < 16 {
        return Some(0);
    }
    Some(number_at(front, 8))
}

/// The generation of a disk's area, whole or broken; `None` exactly if the area is not open. If the
/// bytes end before it, it is 0.
///
/// It only reads. `Failed` is returned only if the disk's count of faults rose.
pub fn peek<D: Disk>(disk: &mut D) -> Result<Option<u64>, Failed>
    ensures ok { IfOk result (λ generation. IfSome (D.image disk.old) (λ bytes. generation ≡ generation_of bytes)) }
    ensures same { OnOk result (D.image disk.new ≡ D.image disk.old) }
    ensures told { is_some (D.image disk.new) ≡ is_some (D.image disk.old) }
    ensures time { Idles D.clock D.left_since disk.old disk.new }
    ensures no_fault { OnOk result (D.faults disk.new ≡ D.faults disk.old) }
    ensures risen { OnErr result (HasRisen (D.faults disk.old) (D.faults disk.new)) }
    ensures never_falls { D.faults disk.old ≤ D.faults disk.new }
{
    let mut front = [0; 16];
    let count = disk.read(0, &mut front)?;
    Ok(generation_of(&front[..count]))
}
