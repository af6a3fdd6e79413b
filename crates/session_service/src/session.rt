//! A session: its greeting, and its lines as they come.

ghost use Rattle.std.specs.Prelude.{◌≡◌};
ghost use Rattle.session_service.specs.Ends.{NothingFailedBefore};
ghost use Rattle.session_service.specs.LineTalking.{session_end};
ghost use Rattle.session_service.specs.SessionEnds.{SessionEnds, GoesOnToEnd, GreetsFirst};
ghost use Rattle.pcfs_session.specs.Streams.{streams_of};
ghost use Rattle.pcfs_server.specs.Ends.{FailedLast};

use crate::greeting::greet;
use crate::session_end::SessionEnd;
use crate::talk::LineTalk;
use pcfs_ports::{Disk, Sink, Source};
use session_history::TurnClock;
use session_lines::{Checker, PlainChecker};
use session_loop::{TalkEnd, converse};
use shared_store::OpenedStore;
use std::alloc::Global;
use std::sync::Wait;
use tree_lock::{Pass, TreeLock};

// How a session ends whose talk ends so.
fn session_end(end: TalkEnd) -> SessionEnd
    ensures { result ≡ session_end end }
{
    match end {
        TalkEnd::Done => SessionEnd::Done,
        TalkEnd::Bad => SessionEnd::LineTooLong,
        TalkEnd::ReadFault => SessionEnd::ReadFault,
        TalkEnd::WriteFault => SessionEnd::WriteFault,
        TalkEnd::NoMemory => SessionEnd::NoMemory,
        TalkEnd::InputTooLong => SessionEnd::InputTooLong,
    }
}

// Answers the lines of the input, after the greeting, and returns how the session ends.
fn answer_lines<R: Wait, I: Source, O: Sink, D: Disk, C: TurnClock, K: Checker>(
    rt: &R,
    alloc: Global,
    lock: &TreeLock<OpenedStore<D>>,
    pass: &mut Pass<OpenedStore<D>>,
    input: &mut I,
    output: &mut O,
    clock: &C,
    nonce: &[u8; 16],
    checker: &mut K,
) -> SessionEnd
    requires { pass.old.lock ≡ lock.now }
    ensures ends { GoesOnToEnd D.faults (C.gives clock.now) nonce.now pass.old pass.new
        (streams_of I.left I.faults O.held O.faults input.old output.old) result
        (streams_of I.left I.faults O.held O.faults input.new output.new) }
    ensures steady { NothingFailedBefore
        (streams_of I.left I.faults O.held O.faults input.old output.old) result
        (streams_of I.left I.faults O.held O.faults input.new output.new) }
    ensures read_failed { result ≡ SessionEnd.ReadFault →
        FailedLast (I.faults input.old) (I.faults input.new) (I.broken input.new) }
    ensures write_failed { result ≡ SessionEnd.WriteFault →
        FailedLast (O.faults output.old) (O.faults output.new) (O.broken output.new) }
    ensures same_lock { pass.new.lock ≡ lock.now }
{
    let mut talk = LineTalk::new(alloc, *nonce, checker);
    session_end(converse(rt, alloc, lock, pass, input, output, clock, &mut talk))
}

/// Holds a session over a shared store, with this nonce, under this pass; a proof is checked by this checker, by the order of
/// the code outside the lock.
///
/// The greeting is written whole, unless the output fails; then nothing is taken of the input. By the order of the code, and
/// no clause, the greeting is out before the first read, and each reply before more of the input is taken. At `Done` the
/// input was read to its end and each of its lines was answered. No call of the input failed, unless the session ends by
/// that, and none of the output, unless it ends by that. Each reply has its place in each history that begins with what the
/// pass has seen at the end, after what it had seen at first, and places do not go back; what the pass was given by the
/// replies is what its own entries grew by.
pub fn serve_session_with<R: Wait, I: Source, O: Sink, D: Disk, C: TurnClock, K: Checker>(
    rt: &R,
    alloc: Global,
    lock: &TreeLock<OpenedStore<D>>,
    pass: &mut Pass<OpenedStore<D>>,
    input: &mut I,
    output: &mut O,
    clock: &C,
    nonce: [u8; 16],
    checker: &mut K,
) -> SessionEnd
    requires { pass.old.lock ≡ lock.now }
    ensures ends { SessionEnds D.faults (C.gives clock.now) nonce pass.old pass.new
        (streams_of I.left I.faults O.held O.faults input.old output.old) result
        (streams_of I.left I.faults O.held O.faults input.new output.new) }
    ensures greets_first { GreetsFirst nonce
        (streams_of I.left I.faults O.held O.faults input.old output.old)
        (streams_of I.left I.faults O.held O.faults input.new output.new) }
    ensures steady { NothingFailedBefore
        (streams_of I.left I.faults O.held O.faults input.old output.old) result
        (streams_of I.left I.faults O.held O.faults input.new output.new) }
    ensures read_failed { result ≡ SessionEnd.ReadFault →
        FailedLast (I.faults input.old) (I.faults input.new) (I.broken input.new) }
    ensures write_failed { result ≡ SessionEnd.WriteFault →
        FailedLast (O.faults output.old) (O.faults output.new) (O.broken output.new) }
    ensures same_lock { pass.new.lock ≡ lock.now }
{
    match greet(&nonce, output) {
        Ok(()) => answer_lines(rt, alloc, lock, pass, input, output, clock, &nonce, checker),
        Err(_) => SessionEnd::WriteFault,
    }
}

/// Holds a session as `serve_session_with` does; each proof is checked when its line is answered.
pub fn serve_session<R: Wait, I: Source, O: Sink, D: Disk, C: TurnClock>(
    rt: &R,
    alloc: Global,
    lock: &TreeLock<OpenedStore<D>>,
    pass: &mut Pass<OpenedStore<D>>,
    input: &mut I,
    output: &mut O,
    clock: &C,
    nonce: [u8; 16],
) -> SessionEnd
    requires { pass.old.lock ≡ lock.now }
    ensures ends { SessionEnds D.faults (C.gives clock.now) nonce pass.old pass.new
        (streams_of I.left I.faults O.held O.faults input.old output.old) result
        (streams_of I.left I.faults O.held O.faults input.new output.new) }
    ensures greets_first { GreetsFirst nonce
        (streams_of I.left I.faults O.held O.faults input.old output.old)
        (streams_of I.left I.faults O.held O.faults input.new output.new) }
    ensures steady { NothingFailedBefore
        (streams_of I.left I.faults O.held O.faults input.old output.old) result
        (streams_of I.left I.faults O.held O.faults input.new output.new) }
    ensures read_failed { result ≡ SessionEnd.ReadFault →
        FailedLast (I.faults input.old) (I.faults input.new) (I.broken input.new) }
    ensures write_failed { result ≡ SessionEnd.WriteFault →
        FailedLast (O.faults output.old) (O.faults output.new) (O.broken output.new) }
    ensures same_lock { pass.new.lock ≡ lock.now }
{
    serve_session_with(
        rt,
        alloc,
        lock,
        pass,
        input,
        output,
        clock,
        nonce,
        &mut PlainChecker,
    )
}
