//! The serving loop.

ghost use Rattle.std.specs.Prelude.{◌≡◌, ℕ, ◌+◌, ◌<◌, ◌≤◌, ◌⊎◌};
ghost use Rattle.slab.specs.Slab.{slab_len};
ghost use Rattle.pcfs_ports.specs.Faults.{HasRisen};
ghost use Rattle.pcfs_server.specs.Table.{AllHave};
ghost use Rattle.pcfs_ports.specs.Telling.{IsAt};
ghost use Rattle.pcfs_server.specs.Ends.{number_of, HasTaken, HasCause, HasGivenAll, IsNetFault, StandsStill, FailedLast};

use super::end::ServeEnd;
use super::ended::EndedThreads;
use super::listener_and_door::{Front, ListenerAndDoor};
use super::service::{AdmitFault, Service};
use super::threads::{Table, begin, make_room};
use pcfs_ports::{Accepted, Listener};
use slab::Slab;
use std::alloc::Global;
use std::sync::Wait;
use std::thread;
use std::thread::{Scope, Threads};

// Accepts connections and begins to attend each, until there is a cause to end.
#[tactic(auto, using(crate::proofs::TellingLemmas::taken_none, crate::proofs::TellingLemmas::taken_more, crate::proofs::TellingLemmas::first_is_at))]
fn accept_all<
    's,
    'e,
    R: Threads + Wait + Sync,
    L: Listener,
    H: Service<L::In, L::Out> + Sync,
    F: Front<L, H>,
>(
    rt: &'e R,
    scope: &Scope<'s, &'e ()>,
    alloc: Global,
    service: &'e H,
    ended: &'e EndedThreads,
    table: &mut Table<L::In, L::Out, H, H::Token>,
    front: &mut F,
    count: u64,
    most: usize,
) -> ServeEnd
where
    L::In: 'e,
    L::Out: 'e,
    H::Token: 'e,
    requires handles { AllHave (λ handle. handle.promise.service.value ≡ service.now) table.old }
    requires belongs { H.is_door service.now (F.door front.old) }
    requires out { slab_len table.old ≤ H.out (F.door front.old) }
    requires room { count ≤ H.room (F.door front.old) }
    requires most { 0 < most }
    requires expected { (place : ℕ) (input : L.In) (output : L.Out) →
        IsAt (L.queue (F.listener front.old)) place input output →
        H.expects service.now (H.admitted (F.door front.old) + place + 1) input output }
    ensures handles { AllHave (λ handle. handle.promise.service.value ≡ service.now) table.new }
    ensures belongs { H.is_door service.now (F.door front.new) }
    ensures out { H.out (F.door front.new) + slab_len table.old ≡ H.out (F.door front.old) + slab_len table.new }
    ensures admitted { H.admitted (F.door front.new) ≡ H.admitted (F.door front.old) + number_of result }
    ensures served { H.served (F.door front.new) + slab_len table.new ≡ H.served (F.door front.old) + slab_len table.old + number_of result }
    ensures taken { HasTaken result (L.waiting (F.listener front.old)) (L.waiting (F.listener front.new)) }
    ensures cause { HasCause result count (L.over (F.listener front.new)) (L.waiting (F.listener front.new)) }
    ensures all_given { HasGivenAll result count (L.queue (F.listener front.new)) }
    ensures risen { IsNetFault result →
        HasRisen (L.faults (F.listener front.old)) (L.faults (F.listener front.new))
        ⊎ HasRisen (H.faults (F.door front.old)) (H.faults (F.door front.new)) }
    ensures refs { F.refs front.new ≡ F.refs front.old }
    ensures room { H.room (F.door front.old) ≤ H.room (F.door front.new) + count }
    ensures listener_faults { L.faults (F.listener front.old) ≤ L.faults (F.listener front.new) }
    ensures door_faults { H.faults (F.door front.old) ≤ H.faults (F.door front.new) }
    ensures kept { H.kept (F.door front.new) ≡ H.kept (F.door front.old) }
    ensures listener_steady { StandsStill result (L.faults (F.listener front.old)) (L.faults (F.listener front.new)) }
    ensures door_steady { StandsStill result (H.faults (F.door front.old)) (H.faults (F.door front.new)) }
    ensures one_failed { IsNetFault result →
        (FailedLast (L.faults (F.listener front.old)) (L.faults (F.listener front.new)) (L.broken (F.listener front.new)) ×
        (H.faults (F.door front.new) ≡ H.faults (F.door front.old))) ⊎
        (FailedLast (H.faults (F.door front.old)) (H.faults (F.door front.new)) (H.broken (F.door front.new)) ×
        (L.faults (F.listener front.new) ≡ L.faults (F.listener front.old))) }
{
    for attended in 0..count {
        make_room(rt, service, ended, table, front, most);
        let (input, output) = match front.accept(alloc) {
            Accepted::Conn(input, output) => (input, output),
            Accepted::Closed => return ServeEnd::Done(attended),
            Accepted::Failed => return ServeEnd::NetFault(attended),
            Accepted::NoMemory => return ServeEnd::NoMemory(attended),
        };
        let token = match front.admit(service, alloc) {
            Ok(token) => token,
            Err(AdmitFault::Failed) => return ServeEnd::NetFault(attended),
            Err(AdmitFault::NoMemory) => return ServeEnd::NoMemory(attended),
        };
        begin(
            rt, scope, alloc, service, ended, table, front, token, input, output, most,
        );
    }
    ServeEnd::Done(count)
}

// Serves, and notes the end.
fn serve<
    's,
    'e,
    R: Threads + Wait + Sync,
    L: Listener,
    H: Service<L::In, L::Out> + Sync,
    F: Front<L, H>,
>(
    rt: &'e R,
    scope: &Scope<'s, &'e ()>,
    alloc: Global,
    service: &'e H,
    ended: &'e EndedThreads,
    front: &mut F,
    count: u64,
    most: usize,
)
where
    L::In: 'e,
    L::Out: 'e,
    H::Token: 'e,
    requires belongs { H.is_door service.now (F.door front.old) }
    requires room { count ≤ H.room (F.door front.old) }
    requires most { 0 < most }
    requires expected { (place : ℕ) (input : L.In) (output : L.Out) →
        IsAt (L.queue (F.listener front.old)) place input output →
        H.expects service.now (H.admitted (F.door front.old) + place + 1) input output }
    ensures belongs { H.is_door service.now (F.door front.new) }
    ensures out { H.out (F.door front.new) ≡ H.out (F.door front.old) }
    ensures admitted { H.admitted (F.door front.new) ≡ H.admitted (F.door front.old) + number_of (F.noted front.new) }
    ensures served { H.served (F.door front.new) ≡ H.served (F.door front.old) + number_of (F.noted front.new) }
    ensures taken { HasTaken (F.noted front.new) (L.waiting (F.listener front.old)) (L.waiting (F.listener front.new)) }
    ensures cause { HasCause (F.noted front.new) count (L.over (F.listener front.new)) (L.waiting (F.listener front.new)) }
    ensures all_given { HasGivenAll (F.noted front.new) count (L.queue (F.listener front.new)) }
    ensures risen { IsNetFault (F.noted front.new) →
        HasRisen (L.faults (F.listener front.old)) (L.faults (F.listener front.new))
        ⊎ HasRisen (H.faults (F.door front.old)) (H.faults (F.door front.new)) }
    ensures refs { F.refs front.new ≡ F.refs front.old }
    ensures room { H.room (F.door front.old) ≤ H.room (F.door front.new) + count }
    ensures listener_faults { L.faults (F.listener front.old) ≤ L.faults (F.listener front.new) }
    ensures door_faults { H.faults (F.door front.old) ≤ H.faults (F.door front.new) }
    ensures kept { H.kept (F.door front.new) ≡ H.kept (F.door front.old) }
    ensures listener_steady { StandsStill (F.noted front.new) (L.faults (F.listener front.old)) (L.faults (F.listener front.new)) }
    ensures door_steady { StandsStill (F.noted front.new) (H.faults (F.door front.old)) (H.faults (F.door front.new)) }
    ensures one_failed { IsNetFault (F.noted front.new) →
        (FailedLast (L.faults (F.listener front.old)) (L.faults (F.listener front.new)) (L.broken (F.listener front.new)) ×
        (H.faults (F.door front.new) ≡ H.faults (F.door front.old))) ⊎
        (FailedLast (H.faults (F.door front.old)) (H.faults (F.door front.new)) (H.broken (F.door front.new)) ×
        (L.faults (F.listener front.new) ≡ L.faults (F.listener front.old))) }
{
    let mut table = Slab::new(alloc);
    let end = accept_all(
        rt, scope, alloc, service, ended, &mut table, front, count, most,
    );
    make_room(rt, service, ended, &mut table, front, 1);
    front.note(end);
}

// Serves in a scope, whose threads have all ended after it.
fn serve_in_scope<
    'e,
    F: Front<L, H>,
    L: Listener,
    H: Service<L::In, L::Out> + Sync,
    R: Threads + Wait + Sync,
>(
    rt: &'e R,
    alloc: Global,
    service: &'e H,
    ended: &'e EndedThreads,
    front: &mut F,
    count: u64,
    most: usize,
)
where
    L::In: 'e,
    L::Out: 'e,
    H::Token: 'e,
    requires belongs { H.is_door service.now (F.door front.old) }
    requires room { count ≤ H.room (F.door front.old) }
    requires most { 0 < most }
    requires expected { (place : ℕ) (input : L.In) (output : L.Out) →
        IsAt (L.queue (F.listener front.old)) place input output →
        H.expects service.now (H.admitted (F.door front.old) + place + 1) input output }
    ensures belongs { H.is_door service.now (F.door front.new) }
    ensures out { H.out (F.door front.new) ≡ H.out (F.door front.old) }
    ensures admitted { H.admitted (F.door front.new) ≡ H.admitted (F.door front.old) + number_of (F.noted front.new) }
    ensures served { H.served (F.door front.new) ≡ H.served (F.door front.old) + number_of (F.noted front.new) }
    ensures taken { HasTaken (F.noted front.new) (L.waiting (F.listener front.old)) (L.waiting (F.listener front.new)) }
    ensures cause { HasCause (F.noted front.new) count (L.over (F.listener front.new)) (L.waiting (F.listener front.new)) }
    ensures all_given { HasGivenAll (F.noted front.new) count (L.queue (F.listener front.new)) }
    ensures risen { IsNetFault (F.noted front.new) →
        HasRisen (L.faults (F.listener front.old)) (L.faults (F.listener front.new))
        ⊎ HasRisen (H.faults (F.door front.old)) (H.faults (F.door front.new)) }
    ensures refs { F.refs front.new ≡ F.refs front.old }
    ensures room { H.room (F.door front.old) ≤ H.room (F.door front.new) + count }
    ensures listener_faults { L.faults (F.listener front.old) ≤ L.faults (F.listener front.new) }
    ensures door_faults { H.faults (F.door front.old) ≤ H.faults (F.door front.new) }
    ensures kept { H.kept (F.door front.new) ≡ H.kept (F.door front.old) }
    ensures listener_steady { StandsStill (F.noted front.new) (L.faults (F.listener front.old)) (L.faults (F.listener front.new)) }
    ensures door_steady { StandsStill (F.noted front.new) (H.faults (F.door front.old)) (H.faults (F.door front.new)) }
    ensures one_failed { IsNetFault (F.noted front.new) →
        (FailedLast (L.faults (F.listener front.old)) (L.faults (F.listener front.new)) (L.broken (F.listener front.new)) ×
        (H.faults (F.door front.new) ≡ H.faults (F.door front.old))) ⊎
        (FailedLast (H.faults (F.door front.old)) (H.faults (F.door front.new)) (H.broken (F.door front.new)) ×
        (L.faults (F.listener front.new) ≡ L.faults (F.listener front.old))) }
{
    thread::scope(
        thread::scope_env(),
        rt,
        move |scope| -> &mut F
            requires belongs { H.is_door service.now (F.door front.now) }
            requires room { count ≤ H.room (F.door front.now) }
            requires most { 0 < most }
            requires expected { (place : ℕ) (input : L.In) (output : L.Out) →
                IsAt (L.queue (F.listener front.now)) place input output →
                H.expects service.now (H.admitted (F.door front.now) + place + 1) input output }
            ensures same_reference { result.ghost_name ≡ front.entry.ghost_name }
            ensures belongs { H.is_door service.entry.now (F.door result.now) }
            ensures out { H.out (F.door result.now) ≡ H.out (F.door front.entry.now) }
            ensures admitted { H.admitted (F.door result.now) ≡ H.admitted (F.door front.entry.now) + number_of (F.noted result.now) }
            ensures served { H.served (F.door result.now) ≡ H.served (F.door front.entry.now) + number_of (F.noted result.now) }
            ensures taken { HasTaken (F.noted result.now) (L.waiting (F.listener front.entry.now)) (L.waiting (F.listener result.now)) }
            ensures cause { HasCause (F.noted result.now) count (L.over (F.listener result.now)) (L.waiting (F.listener result.now)) }
            ensures all_given { HasGivenAll (F.noted result.now) count (L.queue (F.listener result.now)) }
            ensures risen { IsNetFault (F.noted result.now) →
                HasRisen (L.faults (F.listener front.entry.now)) (L.faults (F.listener result.now))
                ⊎ HasRisen (H.faults (F.door front.entry.now)) (H.faults (F.door result.now)) }
            ensures refs { F.refs result.now ≡ F.refs front.entry.now }
            ensures room { H.room (F.door front.entry.now) ≤ H.room (F.door result.now) + count }
            ensures listener_faults { L.faults (F.listener front.entry.now) ≤ L.faults (F.listener result.now) }
            ensures door_faults { H.faults (F.door front.entry.now) ≤ H.faults (F.door result.now) }
            ensures kept { H.kept (F.door result.now) ≡ H.kept (F.door front.entry.now) }
            ensures listener_steady { StandsStill (F.noted result.now) (L.faults (F.listener front.entry.now)) (L.faults (F.listener result.now)) }
            ensures door_steady { StandsStill (F.noted result.now) (H.faults (F.door front.entry.now)) (H.faults (F.door result.now)) }
            ensures one_failed { IsNetFault (F.noted result.now) →
                (FailedLast (L.faults (F.listener front.entry.now)) (L.faults (F.listener result.now)) (L.broken (F.listener result.now)) ×
                (H.faults (F.door result.now) ≡ H.faults (F.door front.entry.now))) ⊎
                (FailedLast (H.faults (F.door front.entry.now)) (H.faults (F.door result.now)) (H.broken (F.door result.now)) ×
                (L.faults (F.listener result.now) ≡ L.faults (F.listener front.entry.now))) }
        {
            serve(rt, scope, alloc, service, ended, front, count, most);
            front
        },
    );
}

/// Listens on `port`, and attends `count` of its connections, each once.
///
/// By the order of the code each connection is attended in a thread of its own, at most `most` at a time: where none can be
/// started, or `most` is 1, the caller attends it itself, and while as many as `most` are at hand, the next connection is
/// accepted only after one has ended. Before it returns it waits until all have ended, so each token has left: as many are
/// out as before, and the number in the end is what the door's count of tokens that were attended and left rose by.
///
/// The tokens have numbers, one after another, and each was attended with the connection of its number, as that was when it
/// was accepted: with the first that the listener gave, the second, and so on. What the service expects of the connection of
/// a number has to hold of each that the listener tells; of one that it does not tell it has to hold whatever that is.
///
/// `Done` comes only if `count` were attended or the listener is over and gave all that it tells; at every other end fewer
/// were. `NetFault` comes only if the listener's count of faults or the door's rose: exactly one call failed, of one of the
/// two, and nothing more was asked of that one. At each other end no call of either failed. `NoMemory` may come at any time
/// before that. By the order of the code memory that is refused for a thread is no end, as the caller then attends the
/// connection itself; a connection that was accepted and not admitted is dropped; and with a `count` of 0 it does not listen.
pub fn serve_conns<R: Threads + Wait + Sync, L: Listener, H: Service<L::In, L::Out> + Sync>(
    rt: &R,
    alloc: Global,
    listener: &mut L,
    service: &H,
    door: &mut H::Door,
    port: u16,
    count: u64,
    most: usize,
) -> ServeEnd
    requires belongs { H.is_door service.now door.old }
    requires room { count ≤ H.room door.old }
    requires most { 0 < most }
    requires expected { (place : ℕ) (input : L.In) (output : L.Out) →
        IsAt (L.queue listener.old) place input output →
        H.expects service.now (H.admitted door.old + place + 1) input output }
    ensures belongs { H.is_door service.now door.new }
    ensures out { H.out door.new ≡ H.out door.old }
    ensures admitted { H.admitted door.new ≡ H.admitted door.old + number_of result }
    ensures served { H.served door.new ≡ H.served door.old + number_of result }
    ensures taken { HasTaken result (L.waiting listener.old) (L.waiting listener.new) }
    ensures cause { HasCause result count (L.over listener.new) (L.waiting listener.new) }
    ensures all_given { HasGivenAll result count (L.queue listener.new) }
    ensures risen { IsNetFault result →
        HasRisen (L.faults listener.old) (L.faults listener.new) ⊎
        HasRisen (H.faults door.old) (H.faults door.new) }
    ensures room { H.room door.old ≤ H.room door.new + count }
    ensures listener_faults { L.faults listener.old ≤ L.faults listener.new }
    ensures door_faults { H.faults door.old ≤ H.faults door.new }
    ensures kept { H.kept door.new ≡ H.kept door.old }
    ensures listener_steady { StandsStill result (L.faults listener.old) (L.faults listener.new) }
    ensures door_steady { StandsStill result (H.faults door.old) (H.faults door.new) }
    ensures one_failed { IsNetFault result →
        (FailedLast (L.faults listener.old) (L.faults listener.new) (L.broken listener.new) × (H.faults door.new ≡ H.faults door.old)) ⊎
        (FailedLast (H.faults door.old) (H.faults door.new) (H.broken door.new) × (L.faults listener.new ≡ L.faults listener.old)) }
{
    if count > 0 && listener.listen(port).is_err() {
        return ServeEnd::NetFault(0);
    }
    let ended = EndedThreads::new(alloc);
    let mut both = ListenerAndDoor {
        listener: &mut *listener,
        door: &mut *door,
        end: ServeEnd::Done(0),
    };
    serve_in_scope(rt, alloc, service, &ended, &mut both, count, most);
    let ListenerAndDoor {
        listener: _,
        door: _,
        end,
    } = both;
    end
}
