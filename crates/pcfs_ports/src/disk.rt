//! Disks: bytes that outlive the program, and what a crash may leave of them.

ghost use Rattle.std.specs.Prelude.{◌≡◌, ℕ, ◌≤◌, List, Option, Some, IfOk, IfSome, OnOk, OnErr, length, is_some};
ghost use Rattle.std.specs.Option.{option_map};
ghost use Rattle.pcfs_ports.specs.Faults.{HasRisen};
ghost use Rattle.pcfs_ports.specs.Disk.{written, TornFrom, LeftNow, Elapses, Idles, IsPinned, ReadsAt};

use super::faults::Failed;

/// Bytes that outlive the program.
///
/// Its meaning is its image, which is what a read gives, and for each moment what a crash since then
/// may have left, or it tells neither; and a count of faults that never falls, and counts as risen
/// if it stands at `u64::MAX`. Whether it tells its image is the same after each call as before. It
/// has a clock of its own, which never falls, and moments are times of this clock. A call that succeeds
/// leaves the count of faults as it was, so what failed and was tried again cannot count as done at once.
///
/// Until the next sync a crash may leave any bytes in a written range, and past the old end; a range
/// of exactly one byte holds the old byte or the new one. The bytes outside stay as they were.
/// A call that failed leaves, for later reads too, what a crash within it may leave.
pub trait Disk {
    // What a read gives, if it tells this.
    ghost image: { Self → Option (List ℕ) };

    // The present moment.
    ghost clock: { Self → ℕ };

    // What a crash at some moment since then may have left.
    ghost left_since: { Self → ℕ → List ℕ → Type 0 };

    // How many faults it has had.
    ghost faults: { Self → ℕ };

    /// Reads into the front of `buf` as many bytes as it takes and the image has from `at`, and
    /// returns how many. What stands in `buf` after them is left open.
    fn read(&mut self, at: u64, buf: &mut [u8]) -> Result<usize, Failed>
        ensures bound { IfOk result (λ count. count ≤ length buf.new) }
        ensures ok { IfOk result (λ count. IfSome (image self.old) (λ bytes. ReadsAt at bytes count buf.new)) }
        ensures same { OnOk result (image self.new ≡ image self.old) }
        ensures told { is_some (image self.new) ≡ is_some (image self.old) }
        ensures time { Idles clock left_since self.old self.new }
        ensures no_fault { OnOk result (faults self.new ≡ faults self.old) }
        ensures risen { OnErr result (HasRisen (faults self.old) (faults self.new)) }
        ensures never_falls { faults self.old ≤ faults self.new };

    /// How many bytes the image has.
    fn len(&mut self) -> Result<u64, Failed>
        ensures ok { IfOk result (λ count. IfSome (image self.old) (λ bytes. count ≡ length bytes)) }
        ensures same { OnOk result (image self.new ≡ image self.old) }
        ensures told { is_some (image self.new) ≡ is_some (image self.old) }
        ensures time { Idles clock left_since self.old self.new }
        ensures no_fault { OnOk result (faults self.new ≡ faults self.old) }
        ensures risen { OnErr result (HasRisen (faults self.old) (faults self.new)) }
        ensures never_falls { faults self.old ≤ faults self.new };

    /// Writes `piece` at `at`. A gap between the old end and `at` is filled with zero bytes.
    fn write_at(&mut self, at: u64, piece: &[u8]) -> Result<(), Failed>
        ensures ok { OnOk result (image self.new ≡ option_map (written at piece.now) (image self.old)) }
        ensures told { is_some (image self.new) ≡ is_some (image self.old) }
        ensures time { Elapses clock left_since self.old self.new }
        ensures torn { (bytes : List ℕ) → LeftNow clock left_since self.new bytes →
            TornFrom at piece.now (LeftNow clock left_since self.old) bytes }
        ensures no_fault { OnOk result (faults self.new ≡ faults self.old) }
        ensures risen { OnErr result (HasRisen (faults self.old) (faults self.new)) }
        ensures never_falls { faults self.old ≤ faults self.new };

    /// After it a crash leaves what a read gives.
    fn sync(&mut self) -> Result<(), Failed>
        ensures ok { OnOk result (IsPinned clock left_since image self.new) }
        ensures same { OnOk result (image self.new ≡ image self.old) }
        ensures told { is_some (image self.new) ≡ is_some (image self.old) }
        ensures time { Idles clock left_since self.old self.new }
        ensures no_fault { OnOk result (faults self.new ≡ faults self.old) }
        ensures risen { OnErr result (HasRisen (faults self.old) (faults self.new)) }
        ensures never_falls { faults self.old ≤ faults self.new };

    // A moment is one of those since an earlier moment.
    ghost since_earlier: { (disk : Self) (t u : ℕ) (bytes : List ℕ) → t ≤ u → left_since disk u bytes → left_since disk t bytes };

    // A crash now may leave the image.
    ghost image_may_stay: { (disk : Self) (bytes : List ℕ) → image disk ≡ Some bytes → left_since disk (clock disk) bytes };
}
