//! Areas: a disk with an image, and with records that are added to it one by one.

ghost use Rattle.std.specs.Prelude.{◌≡◌, ◌≢◌, ◌↔◌, ◌+◌, ◌<◌, ◌≤◌, ℕ, List, [], ◌∷◌, ◌++◌, Some, IfOk, IfErr, OnOk, OnErr, IsErrOf, IsErrAnd, MatchResult, length, is_some};
ghost use Rattle.std.specs.Option.{option_map};
ghost use Rattle.pcfs_ports.specs.Faults.{HasRisen};
ghost use Rattle.pcfs_ports.specs.Disk.{written, IsPinned, LeavesOnly};
ghost use Rattle.journal_core.specs.Area.{area_limit, base_bytes, area_bytes, record_bytes, Begins, StandsForBody, IsGeneration};
ghost use Rattle.journal_core.specs.Rest.{Rests, IsWithOrWithout, IsOldOrShutOrNew};
ghost use Rattle.journal_core.specs.declared.area.AreaFault.TheVariants.{Disk as DiskFailed, NoMemory as OutOfMemory};

use crate::durable::{write_then_open, write_through};
use crate::frames::Framed;
use bl_syntax::NoMemory;
use bl_syntax::fields::u64_bytes;
use bl_syntax::limits::MOST_AREA_BYTES;
use pcfs_ports::{Disk, Failed};
use std::alloc::{AllocError, AllocFailed, Global};
use std::marker::Model;
use std::mem::swap;
use thiserror::Error;

/// What stands in front of the generation: the name and the version of the format.
pub const MAGIC: [u8; 7] = [80, 67, 70, 83, 0, 0, 1];

/// Why an area was not made, or a record not added.
#[derive(Clone, Copy, Debug, PartialEq, Eq, Error)]
pub enum AreaFault {
    /// The disk failed.
    #[error("the disk failed")]
    Disk,
    /// With it, and with a closed gate after it, the area would pass `MOST_AREA_BYTES`.
    #[error("the area would pass {most} bytes", most = MOST_AREA_BYTES)]
    AreaFull,
    /// A growth was refused.
    #[error("out of memory")]
    NoMemory,
}

impl From<Failed> for AreaFault {
    ghost from_gives = { λ _ e. e ≡ DiskFailed };

    fn from(_failed: Failed) -> AreaFault {
        AreaFault::Disk
    }
}

impl From<AllocError> for AreaFault {
    ghost from_gives = { λ _ e. e ≡ OutOfMemory };

    fn from(_refused: AllocError) -> AreaFault {
        AreaFault::NoMemory
    }
}

impl<T: Drop> From<AllocFailed<T>> for AreaFault {
    ghost from_gives = { λ _ e. e ≡ OutOfMemory };

    fn from(_refused: AllocFailed<T>) -> AreaFault {
        AreaFault::NoMemory
    }
}

/// A disk whose bytes are an area. Contracts see the disk, and where the closed gate of the area stands,
/// which is below `MOST_AREA_BYTES`.
#[derive(Debug, Drop)]
pub struct Area<D: Disk> {
    pub(crate) disk: D,
    pub(crate) end: u64,
}

impl<D: Disk> Model for Area<D> {
    ghost use Rattle.std.specs.Prelude.{◌<◌};
    ghost use Rattle.journal_core.specs.Area.{area_limit};
    ghost use Rattle.journal_core.specs.AreaView.{AreaView};

    ghost Value = { AreaView D };

    ghost view = { λ s. record { disk = s.disk; end = s.end } };

    ghost invariant = { λ s. s.end < area_limit };
}

// All of an area without records from offset 1 on, and its closed gate.
fn base(alloc: Global, generation: u64, image: &[u8]) -> Result<Vec<u8>, AreaFault>
    requires { length image.now < area_limit }
    ensures ok { IfOk result (λ bytes. bytes.items ≡ base_bytes generation image.now ++ 0 ∷ []) }
    ensures err { IfErr result (λ fault. fault ≡ AreaFault.NoMemory) }
{
    let mut bytes = Vec::with_capacity(alloc, image.len() + 24)?;
    bytes.extend_from_slice(&MAGIC)?;
    bytes.extend_from_slice(&u64_bytes(generation))?;
    bytes.extend_from_slice(&u64_bytes(image.len() as u64))?;
    bytes.extend_from_slice(image)?;
    bytes.push(0)?;
    Ok(bytes)
}

// Writes an area over what a disk has: it closes the gate first, and opens it last.
fn write_area<D: Disk>(disk: &mut D, base: &[u8]) -> Result<(), Failed>
    ensures image { OnOk result (D.image disk.new ≡ option_map (written 0 (1 ∷ base.now)) (D.image disk.old)) }
    ensures pinned { OnOk result (IsPinned D.clock D.left_since D.image disk.new) }
    ensures any_moment { (bytes tail : List ℕ) → base.now ≡ tail ++ 0 ∷ [] →
        D.image disk.old ≡ Some bytes →
        IsPinned D.clock D.left_since D.image disk.old →
        LeavesOnly D.clock D.left_since disk.old disk.new (IsOldOrShutOrNew bytes (1 ∷ tail)) }
    ensures told { is_some (D.image disk.new) ≡ is_some (D.image disk.old) }
    ensures no_fault { OnOk result (D.faults disk.new ≡ D.faults disk.old) }
    ensures risen { OnErr result (HasRisen (D.faults disk.old) (D.faults disk.new)) }
    ensures never_falls { D.faults disk.old ≤ D.faults disk.new }
{
    write_through(disk, 0, &[0])?;
    write_then_open(disk, 0, base)?;
    Ok(())
}

// Makes the disk an area without records, and returns where its closed gate stands.
fn format_disk<D: Disk>(
    alloc: Global,
    disk: &mut D,
    generation: u64,
    image: &[u8],
) -> Result<u64, AreaFault>
    ensures full { IsErrOf result AreaFault.AreaFull ↔ area_limit < length image.now + 25 }
    ensures unchanged { result ≡ Err AreaFault.AreaFull → disk.new ≡ disk.old }
    ensures memory { result ≡ Err AreaFault.NoMemory → disk.new ≡ disk.old }
    ensures end { IfOk result (λ end. end ≡ length image.now + 24) }
    ensures fits { IfOk result (λ end. end < area_limit) }
    ensures image { OnOk result (D.image disk.new ≡
        option_map (written 0 (area_bytes generation image.now [] ++ 0 ∷ [])) (D.image disk.old)) }
    ensures pinned { OnOk result (IsPinned D.clock D.left_since D.image disk.new) }
    ensures any_moment { (bytes : List ℕ) → D.image disk.old ≡ Some bytes →
        IsPinned D.clock D.left_since D.image disk.old →
        LeavesOnly D.clock D.left_since disk.old disk.new (IsOldOrShutOrNew bytes (area_bytes generation image.now [])) }
    ensures told { is_some (D.image disk.new) ≡ is_some (D.image disk.old) }
    ensures no_fault { OnOk result (D.faults disk.new ≡ D.faults disk.old) }
    ensures risen { IsErrOf result AreaFault.Disk →
        HasRisen (D.faults disk.old) (D.faults disk.new) }
    ensures never_falls { D.faults disk.old ≤ D.faults disk.new }
{
    let end = (image.len() as u64).saturating_add(24);
    if MOST_AREA_BYTES <= end {
        return Err(AreaFault::AreaFull);
    }
    let base = base(alloc, generation, image)?;
    write_area(disk, &base)?;
    Ok(end)
}

impl<D: Disk> Area<D> {
    /// Writes an area without records over what a disk has.
    ///
    /// `AreaFull` is returned by length, before anything else. After it and after `NoMemory` the disk
    /// is as it was. `Disk` is returned only if the disk's count of faults rose.
    pub fn format(
        alloc: Global,
        disk: D,
        generation: u64,
        image: &[u8],
    ) -> Result<Area<D>, (AreaFault, D)>
        requires { IsGeneration generation }

        ensures full { IsErrAnd result (λ e. e.0 ≡ AreaFault.AreaFull) ↔ area_limit < length image.now + 25 }
        ensures unchanged { IfErr result (λ e. e.0 ≢ AreaFault.Disk → e.1 ≡ disk) }
        ensures end { IfOk result (λ area. area.end ≡ length image.now + 24) }
        ensures fits { IfOk result (λ area. area.end < area_limit) }
        ensures image { IfOk result (λ area. D.image area.disk ≡
            option_map (written 0 (area_bytes generation image.now [] ++ 0 ∷ [])) (D.image disk)) }
        ensures pinned { IfOk result (λ area. IsPinned D.clock D.left_since D.image area.disk) }

        // A crash at any moment leaves the area as it was, or none that is open, or the new one.
        ensures any_moment { (bytes : List ℕ) → D.image disk ≡ Some bytes →
            IsPinned D.clock D.left_since D.image disk →
            MatchResult result
            (λ area. LeavesOnly D.clock D.left_since disk area.disk (IsOldOrShutOrNew bytes (area_bytes generation image.now [])))
            (λ e. LeavesOnly D.clock D.left_since disk e.1 (IsOldOrShutOrNew bytes (area_bytes generation image.now []))) }

        ensures told { MatchResult result
            (λ area. is_some (D.image area.disk) ≡ is_some (D.image disk))
            (λ e. is_some (D.image e.1) ≡ is_some (D.image disk)) }
        ensures no_fault { IfOk result (λ area. D.faults area.disk ≡ D.faults disk) }
        ensures risen { IfErr result (λ e. e.0 ≡ AreaFault.Disk → HasRisen (D.faults disk) (D.faults e.1)) }
        ensures never_falls { MatchResult result
            (λ area. D.faults disk ≤ D.faults area.disk)
            (λ e. D.faults disk ≤ D.faults e.1) }
    {
        let mut disk = disk;
        match format_disk(alloc, &mut disk, generation, image) {
            Ok(end) => Ok(Area { disk, end }),
            Err(fault) => Err((fault, disk)),
        }
    }

    /// Adds a record, or nothing.
    ///
    /// `AreaFull` is returned by length, before anything is written, and leaves the area as it was, for
    /// the next record too. `Disk` is returned only if the disk's count of faults rose. The record may be
    /// there or not then, and its gate may be open, so nothing may be appended to this value any more:
    /// another record would be written over one that may count. Its disk may be taken out and scanned,
    /// which finds the records of before, with the new one or without.
    pub fn append(&mut self, framed: &Framed) -> Result<(), AreaFault>
        ensures full { IsErrOf result AreaFault.AreaFull ↔ area_limit < self.old.end + length framed.now + 6 }
        ensures unchanged { IsErrOf result AreaFault.AreaFull → self.new ≡ self.old }
        ensures not_memory { result ≢ Err AreaFault.NoMemory }
        ensures end { OnOk result (self.new.end ≡ self.old.end + length framed.now + 5) }
        ensures end_stays { OnErr result (self.new.end ≡ self.old.end) }
        ensures fits { self.new.end < area_limit }
        ensures image { OnOk result (D.image self.new.disk ≡
            option_map (written self.old.end (record_bytes framed.now ++ 0 ∷ [])) (D.image self.old.disk)) }
        ensures pinned { OnOk result (IsPinned D.clock D.left_since D.image self.new.disk) }

        // Then the disk is at rest with the record, also if the closed gate was cut off before.
        ensures rests { OnOk result ((body bytes : List ℕ) → length body ≡ self.old.end →
            D.image self.old.disk ≡ Some bytes → StandsForBody body bytes →
            Rests D.clock D.left_since D.image self.new.disk (body ++ record_bytes framed.now)) }

        // A crash at any moment leaves the records of before, with the new one or without.
        ensures any_moment { (body : List ℕ) → length body ≡ self.old.end →
            Rests D.clock D.left_since D.image self.old.disk body →
            LeavesOnly D.clock D.left_since self.old.disk self.new.disk (IsWithOrWithout body framed.now) }

        // Also if the closed gate was cut off before, and nothing is pending, what a crash at any moment leaves begins with
        // the records of before.
        ensures front { (body bytes : List ℕ) → length body ≡ self.old.end →
            D.image self.old.disk ≡ Some bytes → Begins body bytes →
            IsPinned D.clock D.left_since D.image self.old.disk →
            LeavesOnly D.clock D.left_since self.old.disk self.new.disk (Begins body) }

        // After a fault the disk may be read: what it gives is the records of before, with the new one or without.
        ensures found { IsErrOf result AreaFault.Disk → (body bytes : List ℕ) →
            length body ≡ self.old.end →
            Rests D.clock D.left_since D.image self.old.disk body →
            D.image self.new.disk ≡ Some bytes → IsWithOrWithout body framed.now bytes }

        ensures told { is_some (D.image self.new.disk) ≡ is_some (D.image self.old.disk) }
        ensures no_fault { OnOk result (D.faults self.new.disk ≡ D.faults self.old.disk) }
        ensures risen { IsErrOf result AreaFault.Disk →
            HasRisen (D.faults self.old.disk) (D.faults self.new.disk) }
        ensures never_falls { D.faults self.old.disk ≤ D.faults self.new.disk }
    {
        let frame = framed.bytes();
        let end = self.end.saturating_add(frame.len() as u64);
        if MOST_AREA_BYTES <= end {
            return Err(AreaFault::AreaFull);
        }
        write_then_open(&mut self.disk, self.end, frame)?;
        self.end = end;
        Ok(())
    }

    /// Writes an area without records over what another disk has, and exchanges the two disks: then the
    /// area is the new one, and `other` the disk that it had.
    ///
    /// `AreaFull` is returned by length, before anything else. After it and after `NoMemory` the other
    /// disk is as it was. `Disk` is returned only if that disk's count of faults rose. After every fault
    /// the area is as it was, and its own disk is never written.
    pub fn move_to(
        &mut self,
        alloc: Global,
        other: &mut D,
        generation: u64,
        image: &[u8],
    ) -> Result<(), AreaFault>
        requires { IsGeneration generation }

        ensures full { IsErrOf result AreaFault.AreaFull ↔ area_limit < length image.now + 25 }
        ensures unchanged { IfErr result (λ fault. fault ≢ AreaFault.Disk → other.new ≡ other.old) }
        ensures stays { OnErr result (self.new ≡ self.old) }
        ensures moved { OnOk result (other.new ≡ self.old.disk) }
        ensures end { OnOk result (self.new.end ≡ length image.now + 24) }
        ensures fits { OnOk result (self.new.end < area_limit) }
        ensures image { OnOk result (D.image self.new.disk ≡
            option_map (written 0 (area_bytes generation image.now [] ++ 0 ∷ [])) (D.image other.old)) }
        ensures pinned { OnOk result (IsPinned D.clock D.left_since D.image self.new.disk) }

        // A crash at any moment leaves of the other disk what it had, or no open area, or the new one.
        ensures any_moment { (bytes : List ℕ) → D.image other.old ≡ Some bytes →
            IsPinned D.clock D.left_since D.image other.old →
            MatchResult result
            (λ _. LeavesOnly D.clock D.left_since other.old self.new.disk (IsOldOrShutOrNew bytes (area_bytes generation image.now [])))
            (λ _. LeavesOnly D.clock D.left_since other.old other.new (IsOldOrShutOrNew bytes (area_bytes generation image.now []))) }

        ensures told { MatchResult result
            (λ _. is_some (D.image self.new.disk) ≡ is_some (D.image other.old))
            (λ _. is_some (D.image other.new) ≡ is_some (D.image other.old)) }
        ensures no_fault { OnOk result (D.faults self.new.disk ≡ D.faults other.old) }
        ensures risen { IsErrOf result AreaFault.Disk →
            HasRisen (D.faults other.old) (D.faults other.new) }
        ensures never_falls { MatchResult result
            (λ _. D.faults other.old ≤ D.faults self.new.disk)
            (λ _. D.faults other.old ≤ D.faults other.new) }
    {
        let gate = format_disk(alloc, other, generation, image)?;
        swap(&mut self.disk, other);
        self.end = gate;
        Ok(())
    }

    /// The disk.
    pub fn into_disk(self) -> D
        ensures { result ≡ self.disk }
    {
        self.disk
    }
}
