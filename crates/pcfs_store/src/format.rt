//! How a store is made.

ghost use Rattle.std.specs.Prelude.{◌≡◌, ◌≢◌, ◌⊎◌, ◌↔◌, ◌≤◌, ◌||◌, ℕ, List, [], Some, None, IfOk, IfErr, OnOk, OnErr, MatchResult, is_some};
ghost use Rattle.pcfs_ports.specs.Faults.{HasRisen};
ghost use Rattle.pcfs_ports.specs.Disk.{IsPinned, Idles, LeavesOnly};
ghost use Rattle.journal_core.specs.Area.{IsShut, generation_of, area_bytes};
ghost use Rattle.journal_core.specs.Rest.{Rests, IsOldOrShutOrNew};
ghost use Rattle.access_history.specs.Replay.{fresh};
ghost use Rattle.pcfs_store.specs.Image.{fresh_image};
ghost use Rattle.pcfs_store.specs.StoreView.{body_of};
ghost use Rattle.pcfs_store.specs.Ready.{IsReady};
ghost use Rattle.pcfs_store.specs.Formats.{IsNewStore, IsNoneOrFresh, PairsLeft};

use crate::image::FRESH_IMAGE;
use crate::store::Store;
use journal_core::{Area, AreaFault, peek};
use op_gate::Gate;
use pcfs_ports::{Disk, Failed};
use policy_statement::Keyring;
use std::alloc::Global;
use thiserror::Error;

/// Why no store was made.
#[derive(Clone, Copy, Debug, PartialEq, Eq, Error)]
pub enum FormatFault {
    /// The area of one of the disks is open.
    #[error("the area of one of the disks is open")]
    AlreadyStore,
    /// A disk failed.
    #[error("a disk failed")]
    Disk,
    /// A growth was refused.
    #[error("out of memory")]
    NoMemory,
}

// Makes durable what is pending on two disks.
fn sync_both<D: Disk>(a: &mut D, b: &mut D) -> Result<(), Failed>
    ensures a_same { OnOk result (D.image a.new ≡ D.image a.old) }
    ensures a_pinned { OnOk result (IsPinned D.clock D.left_since D.image a.new) }
    ensures a_told { is_some (D.image a.new) ≡ is_some (D.image a.old) }
    ensures a_time { Idles D.clock D.left_since a.old a.new }
    ensures b_same { OnOk result (D.image b.new ≡ D.image b.old) }
    ensures b_pinned { OnOk result (IsPinned D.clock D.left_since D.image b.new) }
    ensures b_told { is_some (D.image b.new) ≡ is_some (D.image b.old) }
    ensures b_time { Idles D.clock D.left_since b.old b.new }
    ensures risen { OnErr result (HasRisen (D.faults a.old) (D.faults a.new) ⊎ HasRisen (D.faults b.old) (D.faults b.new)) }
    ensures a_no_fault { OnOk result (D.faults a.new ≡ D.faults a.old) }
    ensures a_never_falls { D.faults a.old ≤ D.faults a.new }
    ensures b_no_fault { OnOk result (D.faults b.new ≡ D.faults b.old) }
    ensures b_never_falls { D.faults b.old ≤ D.faults b.new }
{
    a.sync()?;
    b.sync()?;
    Ok(())
}

// Whether the area of either of two disks is open.
fn peek_both<D: Disk>(a: &mut D, b: &mut D) -> Result<bool, Failed>
    ensures ok { IfOk result (λ found. (first second : List ℕ) → D.image a.old ≡ Some first → D.image b.old ≡ Some second →
        found ≡ (is_some (generation_of first) || is_some (generation_of second))) }
    ensures a_same { OnOk result (D.image a.new ≡ D.image a.old) }
    ensures a_told { is_some (D.image a.new) ≡ is_some (D.image a.old) }
    ensures a_time { Idles D.clock D.left_since a.old a.new }
    ensures b_same { OnOk result (D.image b.new ≡ D.image b.old) }
    ensures b_told { is_some (D.image b.new) ≡ is_some (D.image b.old) }
    ensures b_time { Idles D.clock D.left_since b.old b.new }
    ensures risen { OnErr result (HasRisen (D.faults a.old) (D.faults a.new) ⊎ HasRisen (D.faults b.old) (D.faults b.new)) }
    ensures a_no_fault { OnOk result (D.faults a.new ≡ D.faults a.old) }
    ensures a_never_falls { D.faults a.old ≤ D.faults a.new }
    ensures b_no_fault { OnOk result (D.faults b.new ≡ D.faults b.old) }
    ensures b_never_falls { D.faults b.old ≤ D.faults b.new }
{
    let first = peek(a)?;
    let second = peek(b)?;
    if first.is_some() {
        return Ok(true);
    }
    Ok(second.is_some())
}

// Syncs two disks, and says whether the area of either is open.
fn is_either_open<D: Disk>(a: &mut D, b: &mut D) -> Result<bool, Failed>
    ensures ok { IfOk result (λ found. (first second : List ℕ) → D.image a.old ≡ Some first → D.image b.old ≡ Some second →
        found ≡ (is_some (generation_of first) || is_some (generation_of second))) }
    ensures a_same { OnOk result (D.image a.new ≡ D.image a.old) }
    ensures a_pinned { OnOk result (IsPinned D.clock D.left_since D.image a.new) }
    ensures a_told { is_some (D.image a.new) ≡ is_some (D.image a.old) }
    ensures a_time { Idles D.clock D.left_since a.old a.new }
    ensures b_same { OnOk result (D.image b.new ≡ D.image b.old) }
    ensures b_pinned { OnOk result (IsPinned D.clock D.left_since D.image b.new) }
    ensures b_told { is_some (D.image b.new) ≡ is_some (D.image b.old) }
    ensures b_time { Idles D.clock D.left_since b.old b.new }
    ensures risen { OnErr result (HasRisen (D.faults a.old) (D.faults a.new) ⊎ HasRisen (D.faults b.old) (D.faults b.new)) }
    ensures a_no_fault { OnOk result (D.faults a.new ≡ D.faults a.old) }
    ensures a_never_falls { D.faults a.old ≤ D.faults a.new }
    ensures b_no_fault { OnOk result (D.faults b.new ≡ D.faults b.old) }
    ensures b_never_falls { D.faults b.old ≤ D.faults b.new }
{
    sync_both(a, b)?;
    let found = peek_both(a, b)?;
    Ok(found)
}

// Why an area was not made, as the making of a store reports it.
fn fault_of(fault: AreaFault) -> FormatFault
    requires { fault ≢ AreaFault.AreaFull }
    ensures disk { (result ≡ FormatFault.Disk) ↔ (fault ≡ AreaFault.Disk) }
    ensures not_already { result ≢ FormatFault.AlreadyStore }
{
    match fault {
        AreaFault::Disk => FormatFault::Disk,
        AreaFault::AreaFull | AreaFault::NoMemory => FormatFault::NoMemory,
    }
}

// Makes a store over two disks at rest without an open area.
fn format_first<D: Disk>(
    alloc: Global,
    a: D,
    b: D,
    gate: Gate,
) -> Result<Store<D>, (FormatFault, D, D)>
    requires is_fresh { gate.base ≡ fresh }
    requires no_events { gate.events ≡ [] }
    requires nothing_pending { gate.pending ≡ None }
    ensures new { IfOk result (IsNewStore gate.key gate.ring) }
    ensures b_is { MatchResult result (λ s. s.other ≡ b) (λ e. e.2 ≡ b) }
    ensures not_already { IfErr result (λ e. e.0 ≢ FormatFault.AlreadyStore) }
    ensures same { IfErr result (λ e. e.0 ≢ FormatFault.Disk → e.1 ≡ a) }
    ensures rests { IfOk result (λ s. (first : List ℕ) → D.image a ≡ Some first → Rests D.clock D.left_since D.image s.active (body_of s)) }
    ensures any_moment { (first : List ℕ) → D.image a ≡ Some first →
        IsPinned D.clock D.left_since D.image a →
        MatchResult result
        (λ s. LeavesOnly D.clock D.left_since a s.active (IsOldOrShutOrNew first (area_bytes 1 fresh_image [])))
        (λ e. LeavesOnly D.clock D.left_since a e.1 (IsOldOrShutOrNew first (area_bytes 1 fresh_image []))) }
    ensures told { MatchResult result (λ s. is_some (D.image s.active) ≡ is_some (D.image a)) (λ e. is_some (D.image e.1) ≡ is_some (D.image a)) }
    ensures no_fault { MatchResult result (λ s. D.faults s.active ≡ D.faults a) (λ e. e.0 ≢ FormatFault.Disk → D.faults e.1 ≡ D.faults a) }
    ensures risen { IfErr result (λ e. e.0 ≡ FormatFault.Disk → HasRisen (D.faults a) (D.faults e.1)) }
    ensures never_falls { MatchResult result (λ s. D.faults a ≤ D.faults s.active) (λ e. D.faults a ≤ D.faults e.1) }
{
    match Area::format(alloc, a, 1, FRESH_IMAGE) {
        Ok(active) => Ok(Store::from_scan(alloc, active, b, false, 1, FRESH_IMAGE, gate)),
        Err((fault, a)) => Err((fault_of(fault), a, b)),
    }
}

/// Makes a store without events on two disks without an open area: its area is on `a`, and `b` is not written. Both are
/// synced first. Procaps will be sealed under the key, and the signatures accepted that the ring accepts.
///
/// `AlreadyStore` is returned exactly if either area is open, and `Disk` only if a disk's count of faults rose. After
/// `AlreadyStore` and `NoMemory` the bytes are as they were; then, and if a store is made, no call of a disk failed.
pub fn format_store<D: Disk>(
    alloc: Global,
    a: D,
    b: D,
    key: &[u8],
    ring: Keyring,
) -> Result<Store<D>, (FormatFault, D, D)>
    ensures new { IfOk result (IsNewStore key.now ring) }
    ensures ready { IfOk result (λ s. (first second : List ℕ) → D.image a ≡ Some first → D.image b ≡ Some second → IsReady D.clock D.left_since D.image s) }
    ensures shut { IfOk result (λ s. (first second : List ℕ) → D.image a ≡ Some first → D.image b ≡ Some second → IsShut first × IsShut second) }
    ensures already { IfErr result (λ e. e.0 ≡ FormatFault.AlreadyStore → (first second : List ℕ) → D.image a ≡ Some first → D.image b ≡ Some second →
        IsShut first × IsShut second → ⊥) }
    ensures same { IfErr result (λ e. e.0 ≢ FormatFault.Disk → (D.image e.1 ≡ D.image a) × (D.image e.2 ≡ D.image b)) }
    ensures b_same { IfOk result (λ s. D.image s.other ≡ D.image b) }
    ensures a_no_fault { MatchResult result (λ s. D.faults s.active ≡ D.faults a) (λ e. e.0 ≢ FormatFault.Disk → D.faults e.1 ≡ D.faults a) }
    ensures b_no_fault { MatchResult result (λ s. D.faults s.other ≡ D.faults b) (λ e. e.0 ≢ FormatFault.Disk → D.faults e.2 ≡ D.faults b) }
    ensures risen { IfErr result (λ e. e.0 ≡ FormatFault.Disk → HasRisen (D.faults a) (D.faults e.1) ⊎ HasRisen (D.faults b) (D.faults e.2)) }
    ensures a_told { MatchResult result (λ s. is_some (D.image s.active) ≡ is_some (D.image a)) (λ e. is_some (D.image e.1) ≡ is_some (D.image a)) }
    ensures b_told { MatchResult result (λ s. is_some (D.image s.other) ≡ is_some (D.image b)) (λ e. is_some (D.image e.2) ≡ is_some (D.image b)) }
    ensures a_never_falls { MatchResult result (λ s. D.faults a ≤ D.faults s.active) (λ e. D.faults a ≤ D.faults e.1) }
    ensures b_never_falls { MatchResult result (λ s. D.faults b ≤ D.faults s.other) (λ e. D.faults b ≤ D.faults e.2) }

    // The second disk is only read, and so is the first if either area was open: a fault then loses nothing.
    ensures b_time { MatchResult result (λ s. Idles D.clock D.left_since b s.other) (λ e. Idles D.clock D.left_since b e.2) }
    ensures a_time { IfErr result (λ e. (first second : List ℕ) → D.image a ≡ Some first → D.image b ≡ Some second →
        (IsShut first × IsShut second → ⊥) → Idles D.clock D.left_since a e.1) }
    ensures kept { IfErr result (λ e. (first second : List ℕ) → D.image a ≡ Some first → D.image b ≡ Some second →
        (IsShut first × IsShut second → ⊥) → IsPinned D.clock D.left_since D.image a →
        IsPinned D.clock D.left_since D.image b →
        (D.image e.1 ≡ D.image a) × (D.image e.2 ≡ D.image b)) }
    ensures b_kept { IfErr result (λ e. IsPinned D.clock D.left_since D.image b → D.image e.2 ≡ D.image b) }

    // Time goes on.
    ensures a_later { (first : List ℕ) → D.image a ≡ Some first →
        IsPinned D.clock D.left_since D.image a →
        MatchResult result (λ s. D.clock a ≤ D.clock s.active) (λ e. D.clock a ≤ D.clock e.1) }
    ensures b_later { MatchResult result (λ s. D.clock b ≤ D.clock s.other) (λ e. D.clock b ≤ D.clock e.2) }

    // A crash at any moment leaves no open area, or the one of the new store.
    ensures any_moment { (first second : List ℕ) → D.image a ≡ Some first →
        D.image b ≡ Some second →
        IsPinned D.clock D.left_since D.image a → IsPinned D.clock D.left_since D.image b →
        IsShut first → IsShut second →
        MatchResult result
        (λ s. PairsLeft D.clock D.left_since IsNoneOrFresh a b s.active s.other)
        (λ e. PairsLeft D.clock D.left_since IsNoneOrFresh a b e.1 e.2) }
{
    let mut a = a;
    let mut b = b;
    match is_either_open(&mut a, &mut b) {
        Ok(true) => return Err((FormatFault::AlreadyStore, a, b)),
        Ok(false) => {}
        Err(_) => return Err((FormatFault::Disk, a, b)),
    }
    match Gate::fresh(alloc, key, ring) {
        Ok(gate) => format_first(alloc, a, b, gate),
        Err(_) => Err((FormatFault::NoMemory, a, b)),
    }
}
