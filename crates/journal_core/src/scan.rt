//! A scan: what a disk's area holds.

ghost use Rattle.std.specs.Prelude.{◌≡◌, ◌≢◌, ◌↔◌, ◌+◌, ◌-◌, ◌<◌, ◌≤◌, ℕ, IfOk, IfErr, IfSome, OnOk, OnErr, IsErrOf, IsTrue, MatchResult, length, min, take, is_some};
ghost use Rattle.pcfs_ports.specs.Faults.{HasRisen};
ghost use Rattle.pcfs_ports.specs.Disk.{IsPinned, Idles};
ghost use Rattle.journal_core.specs.Area.{area_limit, area_bytes, IsArea, IsFront, IsShut, IsBroken, IsGeneration};
ghost use Rattle.journal_core.specs.Faults.{IsReported, IsFrontReported};
ghost use Rattle.journal_core.specs.declared.scan.ScanFault.TheVariants.{Disk as DiskFailed, NoMemory as OutOfMemory};

use crate::area::Area;
use crate::contents::Scan;
use crate::records::{find_contents, find_front};
use bl_syntax::limits::MOST_AREA_BYTES;
use bl_syntax::{Bytes, NoMemory};
use pcfs_ports::{Disk, Failed};
use std::alloc::{AllocError, Global};
use thiserror::Error;

/// Why a scan gave no area.
#[derive(Clone, Copy, Debug, PartialEq, Eq, Error)]
pub enum ScanFault {
    /// The area is not open.
    #[error("the area is not open")]
    Closed,
    /// The number of the first record that is cut or passes `MOST_AREA_BYTES` with its closed gate; 0 for
    /// header and image.
    #[error("record {0} is cut, or passes the limit of an area")]
    Broken(u64),
    /// The disk failed.
    #[error("the disk failed")]
    Disk,
    /// A growth was refused.
    #[error("out of memory")]
    NoMemory,
}

impl From<Failed> for ScanFault {
    ghost from_gives = { λ _ e. e ≡ DiskFailed };

    fn from(_failed: Failed) -> ScanFault {
        ScanFault::Disk
    }
}

impl From<NoMemory> for ScanFault {
    ghost from_gives = { λ _ e. e ≡ OutOfMemory };

    fn from(_refused: NoMemory) -> ScanFault {
        ScanFault::NoMemory
    }
}

impl From<AllocError> for ScanFault {
    ghost from_gives = { λ _ e. e ≡ OutOfMemory };

    fn from(_refused: AllocError) -> ScanFault {
        ScanFault::NoMemory
    }
}

// How many bytes the disk has, at most as many as an area may have.
fn find_length<D: Disk>(disk: &mut D) -> Result<u64, Failed>
    ensures ok { IfOk result (λ len. IfSome (D.image disk.old) (λ bytes. len ≡ min area_limit (length bytes))) }
    ensures bound { IfOk result (λ len. len ≤ area_limit) }
    ensures same { OnOk result (D.image disk.new ≡ D.image disk.old) }
    ensures told { is_some (D.image disk.new) ≡ is_some (D.image disk.old) }
    ensures time { Idles D.clock D.left_since disk.old disk.new }
    ensures no_fault { OnOk result (D.faults disk.new ≡ D.faults disk.old) }
    ensures risen { OnErr result (HasRisen (D.faults disk.old) (D.faults disk.new)) }
    ensures never_falls { D.faults disk.old ≤ D.faults disk.new }
{
    let len = disk.len()?;
    Ok(len.min(MOST_AREA_BYTES))
}

// The bytes of the disk, at most as many as an area may have. They are read by one call into memory of
// just that length.
fn read_area<D: Disk>(alloc: Global, disk: &mut D) -> Result<Bytes, ScanFault>
    ensures ok { IfOk result (λ bytes. IfSome (D.image disk.old) (λ image. bytes ≡ take area_limit image)) }
    ensures only { result ≢ Err ScanFault.Closed × ((number : ℕ) → result ≢ Err (ScanFault.Broken number)) }
    ensures same { result ≢ Err ScanFault.Disk → D.image disk.new ≡ D.image disk.old }
    ensures told { is_some (D.image disk.new) ≡ is_some (D.image disk.old) }
    ensures time { Idles D.clock D.left_since disk.old disk.new }
    ensures no_fault { result ≢ Err ScanFault.Disk → D.faults disk.new ≡ D.faults disk.old }
    ensures risen { IsErrOf result ScanFault.Disk →
        HasRisen (D.faults disk.old) (D.faults disk.new) }
    ensures never_falls { D.faults disk.old ≤ D.faults disk.new }
{
    let len = find_length(disk)?;
    let mut bytes = vec![in alloc; 0u8; len as usize]?;
    let count = disk.read(0, &mut bytes)?;
    bytes.truncate(count);
    Ok(Bytes::from_vec(bytes))
}

// What the disk's area holds, and where it ends.
fn scan_disk<D: Disk>(alloc: Global, disk: &mut D) -> Result<(Scan, usize), ScanFault>
    ensures ok { IfOk result (λ found. IfSome (D.image disk.old) (λ bytes.
        IsArea bytes found.0.generation found.0.image found.0.payloads)) }
    ensures generated { IfOk result (λ found. IsGeneration found.0.generation) }
    ensures fits { IfOk result (λ found. length (area_bytes found.0.generation found.0.image found.0.payloads) < area_limit) }
    ensures end { IfOk result (λ found. found.1 ≡ length (area_bytes found.0.generation found.0.image found.0.payloads)) }
    ensures reported { IfErr result (λ fault. fault ≢ ScanFault.Disk → IfSome (D.image disk.old) (IsReported fault)) }
    ensures same { result ≢ Err ScanFault.Disk → D.image disk.new ≡ D.image disk.old }
    ensures pinned { result ≢ Err ScanFault.Disk → IsPinned D.clock D.left_since D.image disk.new }
    ensures told { is_some (D.image disk.new) ≡ is_some (D.image disk.old) }
    ensures time { Idles D.clock D.left_since disk.old disk.new }
    ensures no_fault { result ≢ Err ScanFault.Disk → D.faults disk.new ≡ D.faults disk.old }
    ensures risen { IsErrOf result ScanFault.Disk →
        HasRisen (D.faults disk.old) (D.faults disk.new) }
    ensures never_falls { D.faults disk.old ≤ D.faults disk.new }
{
    disk.sync()?;
    match read_area(alloc, disk) {
        Ok(bytes) => find_contents(alloc, bytes),
        Err(fault) => Err(fault),
    }
}

/// The image and the whole records at the front of a disk's area, which may break after them. It begins with a sync, and
/// then only reads.
///
/// `Closed` and `Broken(0)` are returned as by `Area::scan`, and `Disk` only if the disk's count of faults rose. After any
/// other answer nothing is pending, the bytes are as they were, and no call failed.
pub fn scan_front<D: Disk>(alloc: Global, disk: &mut D) -> Result<Scan, ScanFault>
    ensures ok { IfOk result (λ found. IfSome (D.image disk.old) (λ bytes.
        IsFront bytes found.generation found.image found.payloads)) }
    ensures reported { IfErr result (λ fault. fault ≢ ScanFault.Disk → IfSome (D.image disk.old) (IsFrontReported fault)) }
    ensures same { result ≢ Err ScanFault.Disk → D.image disk.new ≡ D.image disk.old }
    ensures pinned { result ≢ Err ScanFault.Disk → IsPinned D.clock D.left_since D.image disk.new }
    ensures told { is_some (D.image disk.new) ≡ is_some (D.image disk.old) }
    ensures time { Idles D.clock D.left_since disk.old disk.new }
    ensures no_fault { result ≢ Err ScanFault.Disk → D.faults disk.new ≡ D.faults disk.old }
    ensures risen { IsErrOf result ScanFault.Disk →
        HasRisen (D.faults disk.old) (D.faults disk.new) }
    ensures never_falls { D.faults disk.old ≤ D.faults disk.new }
{
    disk.sync()?;
    match read_area(alloc, disk) {
        Ok(bytes) => find_front(alloc, bytes),
        Err(fault) => Err(fault),
    }
}

impl<D: Disk> Area<D> {
    /// The area of a disk, and what it holds. It begins with a sync, and then only reads.
    ///
    /// `Disk` is returned only if the disk's count of faults rose. After any other answer nothing is
    /// pending, the bytes are as they were, and no call failed.
    pub fn scan(alloc: Global, disk: D) -> Result<(Area<D>, Scan), (ScanFault, D)>
        ensures ok { IfOk result (λ found. IfSome (D.image disk) (λ bytes.
            IsArea bytes found.1.generation found.1.image found.1.payloads)) }

        // These hold of a disk that tells nothing, too.
        ensures generated { IfOk result (λ found. IsGeneration found.1.generation) }
        ensures fits { IfOk result (λ found. found.0.end < area_limit) }
        ensures end { IfOk result (λ found. found.0.end ≡
            length (area_bytes found.1.generation found.1.image found.1.payloads)) }
        ensures closed { IfErr result (λ e. e.0 ≡ ScanFault.Closed → IfSome (D.image disk) IsShut) }
        ensures broken { (number : ℕ) → IfErr result (λ e. e.0 ≡ ScanFault.Broken number →
            IfSome (D.image disk) (IsBroken number)) }
        ensures no_fault { MatchResult result
            (λ found. D.faults found.0.disk ≡ D.faults disk)
            (λ e. e.0 ≢ ScanFault.Disk → D.faults e.1 ≡ D.faults disk) }
        ensures risen { IfErr result (λ e. e.0 ≡ ScanFault.Disk → HasRisen (D.faults disk) (D.faults e.1)) }
        ensures same { MatchResult result
            (λ found. D.image found.0.disk ≡ D.image disk)
            (λ e. e.0 ≢ ScanFault.Disk → D.image e.1 ≡ D.image disk) }
        ensures pinned { MatchResult result
            (λ found. IsPinned D.clock D.left_since D.image found.0.disk)
            (λ e. e.0 ≢ ScanFault.Disk → IsPinned D.clock D.left_since D.image e.1) }
        ensures told { MatchResult result
            (λ found. is_some (D.image found.0.disk) ≡ is_some (D.image disk))
            (λ e. is_some (D.image e.1) ≡ is_some (D.image disk)) }

        // A crash at any moment leaves only what it could leave before.
        ensures time { MatchResult result
            (λ found. Idles D.clock D.left_since disk found.0.disk)
            (λ e. Idles D.clock D.left_since disk e.1) }

        ensures never_falls { MatchResult result
            (λ found. D.faults disk ≤ D.faults found.0.disk)
            (λ e. D.faults disk ≤ D.faults e.1) }
    {
        let mut disk = disk;
        match scan_disk(alloc, &mut disk) {
            Ok((scan, end)) => Ok((
                Area {
                    disk,
                    end: end as u64,
                },
                scan,
            )),
            Err(fault) => Err((fault, disk)),
        }
    }
}
