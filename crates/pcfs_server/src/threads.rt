//! One thread a connection, in a table by its key.

ghost use Rattle.std.specs.Prelude.{◌≡◌, ◌+◌, ◌<◌, ◌≤◌, true, false};
ghost use Rattle.slab.specs.Slab.{slab_len};
ghost use Rattle.pcfs_server.specs.Table.{AllHave};

use super::ended::EndedThreads;
use super::listener_and_door::Front;
use super::service::Service;
use pcfs_ports::{Listener, Sink, Source};
use slab::Slab;
use std::alloc::Global;
use std::marker::PhantomData;
use std::snapshot::Snapshot;
use std::sync::Wait;
use std::thread::{Promise, PromisedHandle, Scope, SpawnError, Threads};

/// What a thread that attends promises of its token: it is the service's, and was attended.
#[derive(Drop)]
pub(crate) struct Attendance<I, O, H> {
    pub(crate) service: Snapshot<H>,
    marker: PhantomData<(I, O)>,
}

impl<I: Source, O: Sink, H: Service<I, O>> Promise<H::Token> for Attendance<I, O, H> {
    ghost kept_by = { λ p token. H.is_token p.service.value token × (H.attended token ≡ true) };
}

/// The threads that attend connections, by their keys.
pub(crate) type Table<I, O, H, T> = Slab<PromisedHandle<T, Attendance<I, O, H>>>;

fn promise<I, O, H>(service: &H) -> Attendance<I, O, H>
    ensures { result.service.value ≡ service.now }
{
    Attendance {
        service: Snapshot::of(service),
        marker: PhantomData,
    }
}

// Attends a connection, and then lets go of it.
fn attend_and_close<R: Wait, I: Source + Drop, O: Sink + Drop, H: Service<I, O>>(
    rt: &R,
    alloc: Global,
    service: &H,
    token: H::Token,
    input: I,
    output: O,
) -> H::Token
    requires belongs { H.is_token service.now token }
    requires once { H.attended token ≡ false }
    requires expected { H.expects service.now (H.number token) input output }
    ensures belongs { H.is_token service.now result }
    ensures attended { H.attended result ≡ true }
{
    let mut token = token;
    let connection = service.attend(rt, alloc, &mut token, input, output);
    drop(connection);
    token
}

// Joins the thread of this key, if there is one, and lets its token leave.
fn join_one<R: Threads, L: Listener, H: Service<L::In, L::Out>, F: Front<L, H>>(
    rt: &R,
    service: &H,
    table: &mut Table<L::In, L::Out, H, H::Token>,
    key: usize,
    front: &mut F,
)
    requires handles { AllHave (λ handle. handle.promise.service.value ≡ service.now) table.old }
    requires belongs { H.is_door service.now (F.door front.old) }
    requires out { slab_len table.old ≤ H.out (F.door front.old) }
    ensures handles { AllHave (λ handle. handle.promise.service.value ≡ service.now) table.new }
    ensures belongs { H.is_door service.now (F.door front.new) }
    ensures admitted { H.admitted (F.door front.new) ≡ H.admitted (F.door front.old) }
    ensures out { H.out (F.door front.new) + slab_len table.old ≡ H.out (F.door front.old) + slab_len table.new }
    ensures served { H.served (F.door front.new) + slab_len table.new ≡ H.served (F.door front.old) + slab_len table.old }
    ensures fewer { slab_len table.new ≤ slab_len table.old }
    ensures refs { F.refs front.new ≡ F.refs front.old }
    ensures listener { F.listener front.new ≡ F.listener front.old }
    ensures room { H.room (F.door front.old) ≤ H.room (F.door front.new) }
    ensures never_falls { H.faults (F.door front.old) ≤ H.faults (F.door front.new) }
    ensures kept { H.kept (F.door front.new) ≡ H.kept (F.door front.old) }
    ensures steady { H.faults (F.door front.new) ≡ H.faults (F.door front.old) }
    ensures broken { H.broken (F.door front.new) ≡ H.broken (F.door front.old) }
{
    if let Some(handle) = table.try_remove(key) {
        let token = handle.join(rt);
        front.leave(service, token);
    }
}

/// Joins the threads that have ended, and waits for ends until fewer than `most` threads are left.
pub(crate) fn make_room<R: Threads + Wait, L: Listener, H: Service<L::In, L::Out>, F: Front<L, H>>(
    rt: &R,
    service: &H,
    ended: &EndedThreads,
    table: &mut Table<L::In, L::Out, H, H::Token>,
    front: &mut F,
    most: usize,
)
    requires handles { AllHave (λ handle. handle.promise.service.value ≡ service.now) table.old }
    requires belongs { H.is_door service.now (F.door front.old) }
    requires out { slab_len table.old ≤ H.out (F.door front.old) }
    requires most { 0 < most }
    ensures most { slab_len table.new < most }
    ensures handles { AllHave (λ handle. handle.promise.service.value ≡ service.now) table.new }
    ensures belongs { H.is_door service.now (F.door front.new) }
    ensures admitted { H.admitted (F.door front.new) ≡ H.admitted (F.door front.old) }
    ensures out { H.out (F.door front.new) + slab_len table.old ≡ H.out (F.door front.old) + slab_len table.new }
    ensures served { H.served (F.door front.new) + slab_len table.new ≡ H.served (F.door front.old) + slab_len table.old }
    ensures refs { F.refs front.new ≡ F.refs front.old }
    ensures listener { F.listener front.new ≡ F.listener front.old }
    ensures room { H.room (F.door front.old) ≤ H.room (F.door front.new) }
    ensures never_falls { H.faults (F.door front.old) ≤ H.faults (F.door front.new) }
    ensures kept { H.kept (F.door front.new) ≡ H.kept (F.door front.old) }
    ensures steady { H.faults (F.door front.new) ≡ H.faults (F.door front.old) }
    ensures broken { H.broken (F.door front.new) ≡ H.broken (F.door front.old) }
{
    for _ in rt.forever() {
        let is_full = most <= table.len();
        match ended.take(rt, is_full) {
            Some(key) => join_one(rt, service, table, key, front),
            None if is_full => {}
            None => return,
        }
    }
    unreachable!()
}

/// Attends an admitted connection in a thread of its own, or here if no thread can be started.
pub(crate) fn begin<
    's,
    'e,
    R: Threads + Wait + Sync,
    L: Listener,
    H: Service<L::In, L::Out> + Sync,
    F: Front<L, H>,
>(
    rt: &'e R,
    scope: &Scope<'s, &'e ()>,
    alloc: Global,
    service: &'e H,
    ended: &'e EndedThreads,
    table: &mut Table<L::In, L::Out, H, H::Token>,
    front: &mut F,
    token: H::Token,
    input: L::In,
    output: L::Out,
    most: usize,
)
where
    L::In: 'e,
    L::Out: 'e,
    H::Token: 'e,
    requires handles { AllHave (λ handle. handle.promise.service.value ≡ service.now) table.old }
    requires belongs { H.is_door service.now (F.door front.old) }
    requires token { H.is_token service.now token }
    requires once { H.attended token ≡ false }
    requires expected { H.expects service.now (H.number token) input output }
    requires out { slab_len table.old < H.out (F.door front.old) }
    ensures handles { AllHave (λ handle. handle.promise.service.value ≡ service.now) table.new }
    ensures belongs { H.is_door service.now (F.door front.new) }
    ensures admitted { H.admitted (F.door front.new) ≡ H.admitted (F.door front.old) }
    ensures out { H.out (F.door front.new) + slab_len table.old + 1 ≡ H.out (F.door front.old) + slab_len table.new }
    ensures served { H.served (F.door front.new) + slab_len table.new ≡ H.served (F.door front.old) + slab_len table.old + 1 }
    ensures most { slab_len table.new ≤ slab_len table.old + 1 }
    ensures refs { F.refs front.new ≡ F.refs front.old }
    ensures listener { F.listener front.new ≡ F.listener front.old }
    ensures room { H.room (F.door front.old) ≤ H.room (F.door front.new) }
    ensures never_falls { H.faults (F.door front.old) ≤ H.faults (F.door front.new) }
    ensures kept { H.kept (F.door front.new) ≡ H.kept (F.door front.old) }
    ensures steady { H.faults (F.door front.new) ≡ H.faults (F.door front.old) }
    ensures broken { H.broken (F.door front.new) ≡ H.broken (F.door front.old) }
{
    let key = table.vacant_key();
    // for the keys of all threads with the new one, and for that of the loop, which may have to attend a later connection itself
    let keys = table.len().saturating_add(2);
    let starts = most > 1 && ended.reserve(rt, keys).is_ok() && table.reserve(1).is_ok();
    let work = move || -> H::Token
        requires { H.is_token service.now token × (H.attended token ≡ false) × H.expects service.now (H.number token) input output }
        ensures { H.is_token service.entry.now result × (H.attended result ≡ true) }
    {
        let token = attend_and_close(rt, alloc, service, token, input, output);
        ended.report(rt, key);
        token
    };
    let spawned = if starts {
        scope.spawn_with(promise(service), work)
    } else {
        Err(SpawnError { value: work })
    };
    match spawned {
        Ok(handle) => {
            table.insert_reserved(handle);
        }
        Err(refused) => {
            let token = (refused.value)();
            ended.forget(rt, key);
            front.leave(service, token);
        }
    }
}
