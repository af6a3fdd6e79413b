//! A run of the program that may serve: its words, its ports, and the status that it ends with.

ghost use Rattle.std.specs.Prelude.{◌≡◌, ◌≤◌, ℕ, List, Bool, MatchOption, Option, Some};
ghost use Rattle.command_words.specs.declared.given.TheConstants.{MOST_CONNECTIONS};
ghost use Rattle.command_words.specs.declared.words.Task.TheVariants.{Serve, Serve9};
ghost use Rattle.pcfs_ports.specs.Disk.{IsPinned};
ghost use Rattle.session_service.specs.Sessions.{sources_of, AreOfSession};
ghost use Rattle.session_service.specs.Conversation.{tells_of};
ghost use Rattle.nine_service.specs.Passes.{nine_sources_of, AreOfNine};
ghost use Rattle.pcfs_run.specs.Served.{EndsServing, RunEnds, net_of};
ghost use Rattle.pcfs_top.specs.Ports.{ports_beside, ports_of, rests_of};

use crate::nine_serving::serve9;
use crate::serving::serve_store;
use crate::status_lines::write_end;
use bl_syntax::limits::FIRST_MOMENT;
use command_words::{Task, task_of};
use pcfs_ports::{Disk, Listener, Nonces, Sink, Source};
use pcfs_secrets::Secrets;
use pcfs_tools::answering::OUT_OF_MEMORY;
use pcfs_top::run::{Ended, run_asked, write_unopened};
use recover::open_store;
use session_history::TurnClock;
use std::alloc::Global;
use std::io::Eprint;
use std::sync::Wait;
use std::thread::Threads;

/// A clock that is further ahead of the store than a day, in seconds, may be wrong.
const DAY: i64 = 86_400;

// Warns of a clock that may be wrong beside the moment of the store's last operation: a moment that was kept is one for good,
// and every later operation is decided as of then at the earliest. A line that cannot be written is dropped.
pub(crate) fn warn_of_clock<R: Eprint>(rt: &R, now: i64, last: i64) {
    if now < last {
        let _ = eprintln!(rt;
            "the clock shows {now}, before the last operation at {last}: until then all is decided as of {last}"
        );
    } else if last > FIRST_MOMENT && now.saturating_sub(last) > DAY {
        let _ = eprintln!(rt;
            "the clock shows {now}, more than a day after the last operation at {last}: see that it is right"
        );
    }
}

// Opens the store on the disks, and gives connections sessions over it.
fn serve<
    R: Threads + Wait + Sync + Eprint,
    O: Sink,
    D: Disk + Send,
    C: TurnClock + Sync,
    L: Listener + Sync,
    N: Nonces + Sync,
>(
    rt: &R,
    alloc: Global,
    secrets: &Secrets,
    output: &mut O,
    a: D,
    b: D,
    port: u16,
    count: u64,
    clock: &C,
    net: &mut L,
    nonces: &mut N,
) -> Ended<D>
    requires some { 1 ≤ count }
    requires few { count ≤ MOST_CONNECTIONS }
    ensures { (left : Option (List ℕ)) (read_faults : ℕ) (read_broken : Bool) →
        EndsServing (AreOfSession (sources_of (C.gives clock.now)
        (tells_of L.In.left L.In.faults L.In.broken L.Out.held L.Out.faults L.Out.broken)
        (L.queue net.old) (N.coming nonces.old))) secrets.now count
        (rests_of (IsPinned D.clock D.left_since D.image) a b result.a result.b)
        (record {
          ports = ports_beside left read_faults read_broken O.held O.faults O.broken D.image D.faults output.old a b;
          net = net_of L.waiting L.over L.faults N.faults net.old nonces.old;
        })
        (record {
          ports = ports_beside left read_faults read_broken O.held O.faults O.broken D.image D.faults output.new result.a result.b;
          net = net_of L.waiting L.over L.faults N.faults net.new nonces.new;
        }) result.status }
{
    let ring = match secrets.ring.copy(alloc) {
        Ok(ring) => ring,
        Err(_) => return Ended {
            status: OUT_OF_MEMORY,
            a,
            b,
        },
    };
    match open_store(alloc, a, b, secrets.seal_key.as_slice(), ring) {
        Ok(store) => {
            store.lemma_is_store();
            warn_of_clock(rt, clock.now(&store), store.gate().history().moment());
            let (end, store) = serve_store(rt, alloc, store, port, count, clock, net, nonces);
            store.lemma_is_store();
            let status = write_end(alloc, output, end, &store);
            let (a, b) = store.into_disks();
            Ended { status, a, b }
        }
        Err((fault, a, b)) => Ended {
            status: write_unopened(alloc, output, fault),
            a,
            b,
        },
    }
}

// The port and the number of connections, if sessions are asked for.
fn serving_of(asked: Option<Task>) -> Option<(u16, u64)>
    ensures { MatchOption result ((port count : ℕ) → asked ≡ Some (Serve port count) → ⊥) (λ s. asked ≡ Some (Serve s.0 s.1)) }
{
    match asked {
        Some(task) => match task {
            Task::Serve(port, count) => Some((port, count)),
            _ => None,
        },
        None => None,
    }
}

// The port and the number of connections, if 9P2000 is asked for.
fn nine_serving_of(asked: Option<Task>) -> Option<(u16, u64)>
    ensures { MatchOption result ((port count : ℕ) → asked ≡ Some (Serve9 port count) → ⊥) (λ s. asked ≡ Some (Serve9 s.0 s.1)) }
{
    match asked {
        Some(task) => match task {
            Task::Serve9(port, count) => Some((port, count)),
            _ => None,
        },
        None => None,
    }
}

/// Runs the program: with `serve`, a port and a number of connections, each of so many that come to that port has a session
/// over the store on the disks, by the order of the code at most 64 at once; with `serve9` each speaks 9P2000 with it; every
/// other command is that of `run_alone`. By the order of the code the words are read first, then the store is opened, and then
/// the port is listened on. If memory runs out for the words, nothing is done. What is added to the history then was added in
/// the turns of the lines of these sessions, or of these messages.
///
/// The session of the pass with a number has the nonce of that number, and its lines are the first ones of what the input of
/// the connection of that number had left when it was accepted, as far as the nonces and the listener told before the run
/// what they were to give. So it is with the messages of a connection that speaks 9P2000.
///
/// Returns the disks and the status to end with. With `serve` and `serve9` that is 0, so many were attended or no more come,
/// and the last line is `served` with their number; 3, 4, 7 or 9 as for `run_alone`; 5, a disk failed: `stopped`, also if the
/// listener failed too; 8, the listener failed or there was no nonce: `netfault`. A denial, a refusal and a fault of a
/// connection's own input or output leave the status as it is. No call of a disk failed, unless `stopped` is the last line
/// or reply, or was to be at 7.
pub fn run<
    R: Threads + Wait + Sync + Eprint,
    I: Source,
    O: Sink,
    D: Disk + Send,
    C: TurnClock + Sync,
    L: Listener + Sync,
    N: Nonces + Sync,
>(
    rt: &R,
    alloc: Global,
    words: &Vec<String>,
    secrets: &Secrets,
    input: &mut I,
    output: &mut O,
    a: D,
    b: D,
    clock: &C,
    net: &mut L,
    nonces: &mut N,
) -> Ended<D>
    ensures { RunEnds
        (AreOfSession (sources_of (C.gives clock.now)
        (tells_of L.In.left L.In.faults L.In.broken L.Out.held L.Out.faults L.Out.broken)
        (L.queue net.old) (N.coming nonces.old)))
        (AreOfNine (nine_sources_of (C.gives clock.now)
        (tells_of L.In.left L.In.faults L.In.broken L.Out.held L.Out.faults L.Out.broken)
        (L.queue net.old) (N.coming nonces.old)))
        secrets.now words.now.items
        (rests_of (IsPinned D.clock D.left_since D.image) a b result.a result.b)
        (record {
          ports = ports_of I.left I.faults I.broken O.held O.faults O.broken D.image D.faults input.old output.old a b;
          net = net_of L.waiting L.over L.faults N.faults net.old nonces.old;
        })
        (record {
          ports = ports_of I.left I.faults I.broken O.held O.faults O.broken D.image D.faults input.new output.new result.a result.b;
          net = net_of L.waiting L.over L.faults N.faults net.new nonces.new;
        }) result.status }
{
    let asked = match task_of(alloc, words) {
        Ok(asked) => asked,
        Err(_) => return Ended {
            status: OUT_OF_MEMORY,
            a,
            b,
        },
    };
    match serving_of(asked) {
        Some((port, count)) => serve(
            rt, alloc, secrets, output, a, b, port, count, clock, net, nonces,
        ),
        None => match nine_serving_of(asked) {
            Some((port, count)) => serve9(
                rt, alloc, secrets, output, a, b, port, count, clock, net, nonces,
            ),
            None => run_asked(rt, alloc, asked, secrets, input, output, a, b),
        },
    }
}
