//! 9P2000 over a store, for each connection.

ghost use Rattle.std.specs.Prelude.{◌≡◌, ◌≤◌, ℕ, List, [], Bool, Option, None};
ghost use Rattle.std.specs.List.{AllByRecursion};
ghost use Rattle.command_words.specs.declared.given.TheConstants.{MOST_CONNECTIONS};
ghost use Rattle.journal_records.specs.EventSpelling.{IsReadEvent};
ghost use Rattle.pcfs_server.specs.Ends.{number_of};
ghost use Rattle.session_service.specs.Connections.{AreOfConnections};
ghost use Rattle.session_service.specs.Conversation.{tells_of};
ghost use Rattle.nine_service.specs.Passes.{nine_sources_of, AreOfNine, AreOfSeenNine};
ghost use Rattle.shared_store.specs.GoesOn.{HasGoneOn};
ghost use Rattle.pcfs_run.specs.Passes.{IsGrown};
ghost use Rattle.pcfs_ports.specs.Disk.{IsPinned};
ghost use Rattle.pcfs_run.specs.Served.{AreAttended, EndsServing, net_of};
ghost use Rattle.pcfs_top.specs.Ports.{ports_beside, rests_of};

use crate::commands::warn_of_clock;
use crate::serving::AT_ONCE;
use crate::status_lines::write_end;
use nine_service::{NineDoor, NineService};
use pcfs_ports::{Disk, Listener, Nonces, Sink};
use pcfs_secrets::Secrets;
use pcfs_server::{ServeEnd, serve_conns};
use pcfs_store::Store;
use pcfs_tools::answering::OUT_OF_MEMORY;
use pcfs_top::run::{Ended, write_unopened};
use recover::open_store;
use session_history::TurnClock;
use shared_store::OpenedStore;
use std::alloc::Global;
use std::io::Eprint;
use std::sync::Wait;
use std::thread::Threads;
use tree_lock::{Doorman, TreeLock};

// Attends connections by this door, and returns how that ended. The door has the same nonces afterwards.
fn attend_all<
    'a,
    R: Threads + Wait + Sync,
    D: Disk + Send,
    C: TurnClock + Sync,
    L: Listener + Sync,
    N: Nonces + Sync,
>(
    rt: &R,
    alloc: Global,
    service: &NineService<'a, OpenedStore<D>, C, N, L>,
    front: &mut NineDoor<'a, OpenedStore<D>, N>,
    port: u16,
    count: u64,
    net: &mut L,
) -> ServeEnd
    requires lock { front.old.door.lock ≡ service.now.lock.now }
    requires unmade { front.old.door.made ≡ 0 }
    requires none { front.old.door.retired ≡ [] }
    requires unserved { front.old.served ≡ 0 }
    requires few { count ≤ MOST_CONNECTIONS }
    requires nonces { service.now.nonces.value ≡ front.old.nonces.now }
    requires net { service.now.net.value ≡ net.old }
    ensures same_reference { front.new.nonces.ghost_name ≡ front.old.nonces.ghost_name }
    ensures lock { front.new.door.lock ≡ service.now.lock.now }
    ensures out { front.new.door.out ≡ front.old.door.out }
    ensures opening { front.new.door.opening ≡ front.old.door.opening }
    ensures of_connections { AreOfConnections
        (AreOfSeenNine (nine_sources_of (C.gives service.now.clock.now)
        (tells_of L.In.left L.In.faults L.In.broken L.Out.held L.Out.faults L.Out.broken)
        (L.queue net.old) (N.coming front.old.nonces.now))
        front.new.door.seen) (number_of result) front.new.door.retired }
    ensures made { front.new.door.made ≤ count }
    ensures every { front.new.door.made ≡ number_of result }
    ensures attended { AreAttended count
        (record { waiting = L.waiting net.old; over = L.over net.old; faults = L.faults net.old; nonce_faults = N.faults front.old.nonces.now })
        (record { waiting = L.waiting net.new; over = L.over net.new; faults = L.faults net.new; nonce_faults = N.faults front.new.nonces.now }) result }
{
    serve_conns(rt, alloc, net, service, front, port, count, AT_ONCE)
}

// Gives connections 9P2000 over what the lock keeps, and returns how that ended, and the doorman.
fn serve_under<
    R: Threads + Wait + Sync,
    D: Disk + Send,
    C: TurnClock + Sync,
    L: Listener + Sync,
    N: Nonces + Sync,
>(
    rt: &R,
    alloc: Global,
    lock: &TreeLock<OpenedStore<D>>,
    door: Doorman<OpenedStore<D>>,
    port: u16,
    count: u64,
    clock: &C,
    net: &mut L,
    nonces: &mut N,
) -> (ServeEnd, Doorman<OpenedStore<D>>)
    requires lock { door.lock ≡ lock.now }
    requires unmade { door.made ≡ 0 }
    requires none { door.retired ≡ [] }
    requires few { count ≤ MOST_CONNECTIONS }
    ensures lock { result.1.lock ≡ lock.now }
    ensures out { result.1.out ≡ door.out }
    ensures opening { result.1.opening ≡ door.opening }
    ensures of_connections { AreOfConnections
        (AreOfSeenNine (nine_sources_of (C.gives clock.now)
        (tells_of L.In.left L.In.faults L.In.broken L.Out.held L.Out.faults L.Out.broken)
        (L.queue net.old) (N.coming nonces.old)) result.1.seen)
        (number_of result.0) result.1.retired }
    ensures made { result.1.made ≤ count }
    ensures every { result.1.made ≡ number_of result.0 }
    ensures attended { AreAttended count
        (record { waiting = L.waiting net.old; over = L.over net.old; faults = L.faults net.old; nonce_faults = N.faults nonces.old })
        (record { waiting = L.waiting net.new; over = L.over net.new; faults = L.faults net.new; nonce_faults = N.faults nonces.new }) result.0 }
{
    let service: NineService<'_, OpenedStore<D>, C, N, L> = NineService::new(
        lock, clock, nonces, net,
    );
    let mut front = NineDoor {
        door,
        nonces: &mut *nonces,
        served: 0,
    };
    let end = attend_all(rt, alloc, &service, &mut front, port, count, net);
    let NineDoor {
        door,
        nonces: lent,
        served: _,
    } = front;
    let _ = lent;
    (end, door)
}

// Gives connections 9P2000 over the store, and returns how that ended, and the store.
fn serve_nine_store<
    R: Threads + Wait + Sync,
    D: Disk + Send,
    C: TurnClock + Sync,
    L: Listener + Sync,
    N: Nonces + Sync,
>(
    rt: &R,
    alloc: Global,
    store: Store<D>,
    port: u16,
    count: u64,
    clock: &C,
    net: &mut L,
    nonces: &mut N,
) -> (ServeEnd, Store<D>)
    requires running { store.stop ≡ None }
    requires each { AllByRecursion IsReadEvent store.events }
    requires unsettled { store.checkpoints ≡ [] }
    requires some { 1 ≤ count }
    requires few { count ≤ MOST_CONNECTIONS }
    ensures gone_on { HasGoneOn D.clock D.left_since D.image D.faults store result.1 }
    ensures grown { IsGrown (AreOfNine (nine_sources_of (C.gives clock.now)
        (tells_of L.In.left L.In.faults L.In.broken L.Out.held L.Out.faults L.Out.broken)
        (L.queue net.old) (N.coming nonces.old))) (number_of result.0) count
        store result.1 }
    ensures attended { AreAttended count
        (record { waiting = L.waiting net.old; over = L.over net.old; faults = L.faults net.old; nonce_faults = N.faults nonces.old })
        (record { waiting = L.waiting net.new; over = L.over net.new; faults = L.faults net.new; nonce_faults = N.faults nonces.new }) result.0 }
{
    let opened = OpenedStore::new(store);
    match TreeLock::new(alloc, opened) {
        Ok((lock, door)) => {
            let (end, door) = serve_under(rt, alloc, &lock, door, port, count, clock, net, nonces);
            let closed = lock.close(door);
            (end, closed.into_store())
        }
        Err(opened) => (ServeEnd::NoMemory(0), opened.into_store()),
    }
}

/// Opens the store on the disks, and gives connections 9P2000 over it.
pub(crate) fn serve9<
    R: Threads + Wait + Sync + Eprint,
    O: Sink,
    D: Disk + Send,
    C: TurnClock + Sync,
    L: Listener + Sync,
    N: Nonces + Sync,
>(
    rt: &R,
    alloc: Global,
    secrets: &Secrets,
    output: &mut O,
    a: D,
    b: D,
    port: u16,
    count: u64,
    clock: &C,
    net: &mut L,
    nonces: &mut N,
) -> Ended<D>
    requires some { 1 ≤ count }
    requires few { count ≤ MOST_CONNECTIONS }
    ensures { (left : Option (List ℕ)) (read_faults : ℕ) (read_broken : Bool) →
        EndsServing (AreOfNine (nine_sources_of (C.gives clock.now)
        (tells_of L.In.left L.In.faults L.In.broken L.Out.held L.Out.faults L.Out.broken)
        (L.queue net.old) (N.coming nonces.old))) secrets.now count
        (rests_of (IsPinned D.clock D.left_since D.image) a b result.a result.b)
        (record {
          ports = ports_beside left read_faults read_broken O.held O.faults O.broken D.image D.faults output.old a b;
          net = net_of L.waiting L.over L.faults N.faults net.old nonces.old;
        })
        (record {
          ports = ports_beside left read_faults read_broken O.held O.faults O.broken D.image D.faults output.new result.a result.b;
          net = net_of L.waiting L.over L.faults N.faults net.new nonces.new;
        }) result.status }
{
    let ring = match secrets.ring.copy(alloc) {
        Ok(ring) => ring,
        Err(_) => return Ended {
            status: OUT_OF_MEMORY,
            a,
            b,
        },
    };
    match open_store(alloc, a, b, secrets.seal_key.as_slice(), ring) {
        Ok(store) => {
            store.lemma_is_store();
            warn_of_clock(rt, clock.now(&store), store.gate().history().moment());
            let (end, store) = serve_nine_store(rt, alloc, store, port, count, clock, net, nonces);
            store.lemma_is_store();
            let status = write_end(alloc, output, end, &store);
            let (a, b) = store.into_disks();
            Ended { status, a, b }
        }
        Err((fault, a, b)) => Ended {
            status: write_unopened(alloc, output, fault),
            a,
            b,
        },
    }
}
