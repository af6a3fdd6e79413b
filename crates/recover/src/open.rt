//! The opening of a store.

ghost use Rattle.std.specs.Prelude.{◌≡◌, ◌≢◌, ◌⊎◌, ◌≤◌, ℕ, IfErr, IfOk, IfSome, MatchResult, is_some};
ghost use Rattle.pcfs_ports.specs.Faults.{HasRisen};
ghost use Rattle.pcfs_ports.specs.Disk.{IsPinned, Idles};
ghost use Rattle.journal_core.specs.Area.{IsArea, IsBroken};
ghost use Rattle.access_history.specs.History.{authority_with};
ghost use Rattle.pcfs_store.specs.StoredHistory.{payloads_of};
ghost use Rattle.recover.specs.Opening.{HoldsArea, IsNotOpened, IsOpened, IsScanned, IsWhy, front_fault};

use crate::fault::OpenFault;
use crate::newest::find_newest;
use crate::reading::read_history;
use journal_core::{Area, Scan, ScanFault, scan_front};
use op_gate::{Damage, Gate};
use pcfs_ports::Disk;
use pcfs_store::Store;
use policy_statement::Keyring;
use std::alloc::Global;

// The fault of a scan of the front of an area, as it is reported.
fn front_fault(fault: ScanFault) -> OpenFault
    ensures { result ≡ front_fault fault }
{
    match fault {
        ScanFault::Closed => OpenFault::NoStore,
        ScanFault::Broken(number) => OpenFault::Damaged(number, Damage::Header),
        ScanFault::Disk => OpenFault::Disk,
        ScanFault::NoMemory => OpenFault::NoMemory,
    }
}

// What is wrong first with the area of a disk that breaks: a record before the break may be damaged too.
fn damage_before_break<D: Disk>(alloc: Global, disk: &mut D, key: &[u8], ring: Keyring) -> OpenFault
    ensures why { (number : ℕ) → IfSome (D.image disk.old) (λ bytes. IsBroken number bytes → IsWhy (authority_with key.now ring) bytes result) }
    ensures risen { result ≡ OpenFault.Disk → HasRisen (D.faults disk.old) (D.faults disk.new) }
    ensures same { result ≢ OpenFault.Disk → D.image disk.new ≡ D.image disk.old }
    ensures no_fault { result ≢ OpenFault.Disk → D.faults disk.new ≡ D.faults disk.old }
    ensures told { is_some (D.image disk.new) ≡ is_some (D.image disk.old) }
    ensures time { Idles D.clock D.left_since disk.old disk.new }
    ensures never_falls { D.faults disk.old ≤ D.faults disk.new }
{
    match scan_front(alloc, disk) {
        Ok(scan) => match read_history(alloc, &scan, key, ring) {
            Ok(_) => OpenFault::Damaged((scan.count() as u64).saturating_add(1), Damage::Shape),
            Err(fault) => fault,
        },
        Err(fault) => front_fault(fault),
    }
}

// Why no area was found on a disk.
fn why<D: Disk>(
    alloc: Global,
    fault: ScanFault,
    disk: &mut D,
    key: &[u8],
    ring: Keyring,
) -> OpenFault
    ensures why { IfSome (D.image disk.old) (λ bytes. IsScanned fault bytes → IsWhy (authority_with key.now ring) bytes result) }
    ensures disk { fault ≡ ScanFault.Disk → result ≡ OpenFault.Disk }
    ensures risen { result ≡ OpenFault.Disk →
        (fault ≡ ScanFault.Disk) ⊎ HasRisen (D.faults disk.old) (D.faults disk.new) }
    ensures same { result ≢ OpenFault.Disk → D.image disk.new ≡ D.image disk.old }
    ensures no_fault { result ≢ OpenFault.Disk → D.faults disk.new ≡ D.faults disk.old }
    ensures told { is_some (D.image disk.new) ≡ is_some (D.image disk.old) }
    ensures time { Idles D.clock D.left_since disk.old disk.new }
    ensures never_falls { D.faults disk.old ≤ D.faults disk.new }
{
    match fault {
        ScanFault::Broken(_) => damage_before_break(alloc, disk, key, ring),
        ScanFault::Closed => OpenFault::NoStore,
        ScanFault::Disk => OpenFault::Disk,
        ScanFault::NoMemory => OpenFault::NoMemory,
    }
}

// The area of a disk, what was found in it, and the history that it holds.
fn open_area<D: Disk>(
    alloc: Global,
    disk: D,
    key: &[u8],
    ring: Keyring,
) -> Result<(Area<D>, Scan, Gate), (OpenFault, D)>
    ensures holds { IfOk result (λ found. HoldsArea key.now ring found.0.end found.1.generation found.1.image found.2) }
    ensures area { IfOk result (λ found. IfSome (D.image disk) (λ bytes. IsArea bytes found.1.generation found.1.image (payloads_of found.2.events))) }
    ensures pinned { IfOk result (λ found. IsPinned D.clock D.left_since D.image found.0.disk) }
    ensures why { IfErr result (λ e. IfSome (D.image disk) (λ bytes. IsWhy (authority_with key.now ring) bytes e.0)) }
    ensures risen { IfErr result (λ e. e.0 ≡ OpenFault.Disk → HasRisen (D.faults disk) (D.faults e.1)) }
    ensures same { MatchResult result
        (λ found. D.image found.0.disk ≡ D.image disk)
        (λ e. e.0 ≢ OpenFault.Disk → D.image e.1 ≡ D.image disk) }
    ensures no_fault { MatchResult result
        (λ found. D.faults found.0.disk ≡ D.faults disk)
        (λ e. e.0 ≢ OpenFault.Disk → D.faults e.1 ≡ D.faults disk) }
    ensures told { MatchResult result
        (λ found. is_some (D.image found.0.disk) ≡ is_some (D.image disk))
        (λ e. is_some (D.image e.1) ≡ is_some (D.image disk)) }
    ensures time { MatchResult result
        (λ found. Idles D.clock D.left_since disk found.0.disk)
        (λ e. Idles D.clock D.left_since disk e.1) }
    ensures never_falls { MatchResult result
        (λ found. D.faults disk ≤ D.faults found.0.disk)
        (λ e. D.faults disk ≤ D.faults e.1) }
{
    match Area::scan(alloc, disk) {
        Ok((area, scan)) => match read_history(alloc, &scan, key, ring) {
            Ok(gate) => Ok((area, scan, gate)),
            Err(fault) => Err((fault, area.into_disk())),
        },
        Err((fault, disk)) => {
            let mut disk = disk;
            let fault = why(alloc, fault, &mut disk, key, ring);
            Err((fault, disk))
        }
    }
}

/// Opens the store on two disks: that of the newest area, the one with the greater generation, or `a`'s if they are equal.
/// Both disks are synced first, and then only read. Procaps will be sealed under the key, and the signatures accepted that the
/// ring accepts, which have to be those with which the area was written.
///
/// A store is returned exactly if the newest area stands for a lawful history, and then its history is that one, each event
/// with pass 0. `NoStore` is returned exactly if neither area is open, and `Damaged` with the first record that is damaged, 0
/// for header and image, and its first damage. `Disk` is returned only if a disk's count of faults rose. After any other
/// answer the bytes are as they were, and no call of a disk failed. What the disks hold counts as far as they tell it.
pub fn open_store<D: Disk>(
    alloc: Global,
    a: D,
    b: D,
    key: &[u8],
    ring: Keyring,
) -> Result<Store<D>, (OpenFault, D, D)>
    ensures ok { IfOk result (λ s. IsOpened D.clock D.left_since D.image D.faults a b key.now ring s) }
    ensures err { IfErr result (λ e. IsNotOpened D.clock D.left_since D.image D.faults a b (authority_with key.now ring) e.0 e.1 e.2) }
{
    let mut a = a;
    let mut b = b;
    match find_newest(&mut a, &mut b) {
        Ok(Some(false)) => match open_area(alloc, a, key, ring) {
            Ok((area, scan, gate)) => Ok(Store::from_scan(
                alloc,
                area,
                b,
                false,
                scan.generation(),
                scan.image(),
                gate,
            )),
            Err((fault, a)) => Err((fault, a, b)),
        },
        Ok(Some(true)) => match open_area(alloc, b, key, ring) {
            Ok((area, scan, gate)) => Ok(Store::from_scan(
                alloc,
                area,
                a,
                true,
                scan.generation(),
                scan.image(),
                gate,
            )),
            Err((fault, b)) => Err((fault, a, b)),
        },
        Ok(None) => Err((OpenFault::NoStore, a, b)),
        Err(_) => Err((OpenFault::Disk, a, b)),
    }
}
