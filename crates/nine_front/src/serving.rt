//! A connection, from its beginning to its end.

ghost use Rattle.std.specs.Prelude.{◌≡◌};
ghost use Rattle.pcfs_server.specs.Ends.{FailedLast};
ghost use Rattle.pcfs_session.specs.Streams.{streams_of};
ghost use Rattle.nine_front.specs.Ends.{NineEnds, NothingFailedBefore};
ghost use Rattle.nine_front.specs.NineTalking.{nine_end};

use crate::nine_end::NineEnd;
use crate::talk::NineTalk;
use pcfs_ports::{Disk, Sink, Source};
use session_history::TurnClock;
use session_loop::{TalkEnd, converse};
use shared_store::OpenedStore;
use std::alloc::Global;
use std::sync::Wait;
use tree_lock::{Pass, TreeLock};

// How a connection ends whose talk ends so.
fn nine_end(end: TalkEnd) -> NineEnd
    ensures { result ≡ nine_end end }
{
    match end {
        TalkEnd::Done => NineEnd::Done,
        TalkEnd::Bad => NineEnd::BadMessage,
        TalkEnd::ReadFault => NineEnd::ReadFault,
        TalkEnd::WriteFault => NineEnd::WriteFault,
        TalkEnd::NoMemory => NineEnd::NoMemory,
        TalkEnd::InputTooLong => NineEnd::InputTooLong,
    }
}

/// Serves a connection that speaks 9P2000 over a shared store, with this nonce, under this pass.
///
/// At `Done` the input was read to its end and each of its messages was answered. No call of the input failed, unless the
/// connection ends by that, and none of the output, unless it ends by that; and then one failed, and it was the last. Each reply
/// has its place in each history that begins with what the pass has seen at the end, after what it had seen at first, and places
/// do not go back; what the pass was given by the replies is what its own entries grew by. If it took turns, what it has seen is
/// a history, and the last of them came to the end of that.
pub fn serve_nine<R: Wait, I: Source, O: Sink, D: Disk, C: TurnClock>(
    rt: &R,
    alloc: Global,
    lock: &TreeLock<OpenedStore<D>>,
    pass: &mut Pass<OpenedStore<D>>,
    input: &mut I,
    output: &mut O,
    clock: &C,
    nonce: [u8; 16],
) -> NineEnd
    requires { pass.old.lock ≡ lock.now }
    ensures ends { NineEnds D.faults (C.gives clock.now) nonce pass.old pass.new
        (streams_of I.left I.faults O.held O.faults input.old output.old) result
        (streams_of I.left I.faults O.held O.faults input.new output.new) }
    ensures nothing_failed { NothingFailedBefore
        (streams_of I.left I.faults O.held O.faults input.old output.old) result
        (streams_of I.left I.faults O.held O.faults input.new output.new) }
    ensures read_failed { result ≡ NineEnd.ReadFault →
        FailedLast (I.faults input.old) (I.faults input.new) (I.broken input.new) }
    ensures write_failed { result ≡ NineEnd.WriteFault →
        FailedLast (O.faults output.old) (O.faults output.new) (O.broken output.new) }
    ensures same_lock { pass.new.lock ≡ lock.now }
{
    let mut talk = match NineTalk::new(alloc, &nonce) {
        Ok(talk) => talk,
        Err(_) => return NineEnd::NoMemory,
    };
    nine_end(converse(rt, alloc, lock, pass, input, output, clock, &mut talk))
}
