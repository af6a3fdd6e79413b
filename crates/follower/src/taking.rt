//! What a follower does with an event that is delivered.

ghost use Rattle.std.specs.Prelude.{◌≡◌, ◌≢◌, ◌<◌, ◌≤◌, ℕ, List, None, Some, length, is_some};
ghost use Rattle.bl_syntax.specs.declared.limits.TheConstants.{MOST_EVENTS};
ghost use Rattle.pcfs_ports.specs.Disk.{IsPinned};
ghost use Rattle.pcfs_store.specs.StoreView.{first_disk, second_disk, body_of};
ghost use Rattle.pcfs_store.specs.Newest.{NewestBegins};
ghost use Rattle.pcfs_store.specs.Ready.{IsReady, IsCurrent, IsAtRest, Keeps, StopsLeave, StopsNow, SurvivesStopAt};
ghost use Rattle.follower.specs.Taking.{LeavesTaking, Takes, Taking, last_number, next_number, taken_of};

use bl_syntax::CodecFault;
use journal_records::read_event;
use op_gate::Damage;
use pcfs_ports::Disk;
use pcfs_store::{Admitted, Store};
use std::alloc::Global;

/// What became of an event that was delivered.
#[derive(Clone, Copy, Debug, PartialEq, Eq)]
pub enum Taken {
    /// It is on the disk and in the history.
    Kept,
    /// The history has an event of that number.
    Known,
    /// An event before it is missing: first the one of this number, the next one.
    Missing(u64),
    /// It has the next number and may not come next: its first damage.
    Damaged(Damage),
    /// It may come next and does not fit.
    Full,
    /// A disk failed, now or in an earlier call. Nothing was added to the history; the event may be on the disk.
    Stopped,
    /// There was no memory, and nothing was kept.
    NoMemory,
}

// What is answered, by what the store answers to the event.
fn taken_of(admitted: Admitted) -> Taken
    ensures { result ≡ taken_of admitted }
{
    match admitted {
        Admitted::Kept => Taken::Kept,
        Admitted::Damaged(damage) => Taken::Damaged(damage),
        Admitted::Full => Taken::Full,
        Admitted::Stopped => Taken::Stopped,
        Admitted::NoMemory => Taken::NoMemory,
    }
}

// What is answered to a payload that is no event's.
fn unread(fault: CodecFault) -> Taken
    ensures memory { fault ≡ CodecFault.NoMemory → result ≡ Taken.NoMemory }
    ensures damaged { fault ≢ CodecFault.NoMemory → result ≡ Taken.Damaged Damage.Shape }
{
    match fault {
        CodecFault::NoMemory => Taken::NoMemory,
        _ => Taken::Damaged(Damage::Shape),
    }
}

// The number of the last event.
fn last_number<D: Disk>(store: &Store<D>) -> u64
    ensures value { result ≡ last_number store.now }
    ensures few { result ≤ MOST_EVENTS }
{
    let history = store.gate().history();
    history.lemma_is_lawful();
    history.count()
}

// Takes a payload of the next number.
fn take_next<D: Disk>(alloc: Global, store: &mut Store<D>, number: u64, payload: &[u8]) -> Taken
    requires running { store.old.stop ≡ None }
    requires next { number ≡ next_number store.old }
    ensures { Taking D.clock D.left_since D.image D.faults store.old number payload.now result store.new }
{
    store.lemma_is_store();
    match read_event(alloc, payload) {
        Ok(event) => taken_of(store.admit(alloc, event)),
        Err(fault) => unread(fault),
    }
}

// Takes a payload that was delivered under this number.
fn try_take<D: Disk>(alloc: Global, store: &mut Store<D>, number: u64, payload: &[u8]) -> Taken
    ensures { Taking D.clock D.left_since D.image D.faults store.old number payload.now result store.new }
{
    store.lemma_is_store();
    if store.is_stopped() {
        return Taken::Stopped;
    }
    let last = last_number(store);
    if number <= last {
        return Taken::Known;
    }
    if last + 1 < number {
        return Taken::Missing(last + 1);
    }
    take_next(alloc, store, number, payload)
}

/// Takes the payload of an event that was delivered under this number: its event is kept exactly if the number is the next
/// one, the event may come next, and it fits. It is tested as if it came now, and it is on the disk before this returns.
///
/// The tests come in this order. `Stopped`: a disk failed in an earlier call, and then no disk is touched. `Known`: the
/// history has an event of that number. `Missing`: an event before it is missing. Then the payload is read, and `Damaged`
/// comes exactly if it is that of no event that may come next; and `Full` exactly if its event does not fit. `Stopped` comes
/// also if a disk fails now, and only if its count of faults rose. After all but `Kept` and that `Stopped` all is as it was.
pub fn take<D: Disk>(alloc: Global, store: &mut Store<D>, number: u64, payload: &[u8]) -> Taken
    ensures answer { Takes D.faults store.old number payload.now result store.new }

    // The store stays ready unless a disk fails now, and keeps its history even then.
    ensures ready { IsReady D.clock D.left_since D.image store.old →
        result ≢ Taken.Stopped → IsReady D.clock D.left_since D.image store.new }
    ensures keeps { Keeps D.clock D.left_since D.image store.old →
        Keeps D.clock D.left_since D.image store.new }
    ensures current { IsCurrent D.clock D.left_since D.image store.old →
        result ≢ Taken.Stopped → IsCurrent D.clock D.left_since D.image store.new }

    // After an event that is kept a store is ready, also if its area lacked its closed gate before, or something was pending on it.
    ensures makes_ready { IsCurrent D.clock D.left_since D.image store.old →
        length store.old.events < length store.new.events → (active other : List ℕ) →
        D.image store.old.active ≡ Some active → D.image store.old.other ≡ Some other →
        IsPinned D.clock D.left_since D.image store.old.other →
        IsReady D.clock D.left_since D.image store.new }

    // A crash at any moment leaves the history as it was, or with the event if it is the next one.
    ensures any_moment { IsReady D.clock D.left_since D.image store.old →
        StopsLeave D.clock D.left_since D.image store.old store.new (LeavesTaking store.old number payload.now) }

    // After a fault of a disk both remain possible: with the event, and without it; in an area of the same generation, on the same disk.
    ensures met { IsReady D.clock D.left_since D.image store.old → result ≡ Taken.Stopped →
        StopsNow D.clock D.left_since D.image store.new
        (SurvivesStopAt store.old.base store.old.events store.old.generation store.old.second_active store.new.met) }

    // If the area lacked its closed gate and nothing was pending, its history still begins an area of the
    // same generation on the same disk; what follows it there is left open.
    ensures met_at_rest { IsAtRest D.clock D.left_since D.image store.old → result ≡ Taken.Stopped →
        StopsNow D.clock D.left_since D.image store.new
        (NewestBegins store.old.generation store.old.second_active (body_of store.old)) }

    ensures first_told { is_some (D.image (first_disk store.new)) ≡ is_some (D.image (first_disk store.old)) }
    ensures second_told { is_some (D.image (second_disk store.new)) ≡ is_some (D.image (second_disk store.old)) }
    ensures first_never_falls { D.faults (first_disk store.old) ≤ D.faults (first_disk store.new) }
    ensures second_never_falls { D.faults (second_disk store.old) ≤ D.faults (second_disk store.new) }
{
    try_take(alloc, store, number, payload)
}
