//! Messages that are answered, and their replies as they are spelled.

ghost use Rattle.std.specs.Prelude.{◌≡◌, ◌<◌, [], length};
ghost use Rattle.session_loop.specs.Heard.{HasHeard};
ghost use Rattle.nine_front.specs.NineTalking.{nine_talking, StandsAt};

use crate::answering::answer;
use crate::framer::MessageFramer;
use crate::replying::spell_reply;
use bl_syntax::Bytes;
use nine_fids::Connection;
use nine_messages::{Next, agreed_after};
use pcfs_ports::Disk;
use session_history::TurnClock;
use session_loop::Heard;
use shared_store::OpenedStore;
use std::alloc::Global;
use std::sync::Wait;
use tree_lock::{Pass, TreeLock};

/// Answers the next message, if it is whole, takes it, and spells the reply.
pub(crate) fn hear<R: Wait, D: Disk, C: TurnClock>(
    rt: &R,
    alloc: Global,
    lock: &TreeLock<OpenedStore<D>>,
    pass: &mut Pass<OpenedStore<D>>,
    clock: &C,
    connection: &mut Connection,
    framer: &mut MessageFramer,
    out: &mut Bytes,
) -> Heard
    requires lock { pass.old.lock ≡ lock.now }
    requires empty { out.old ≡ [] }
    ensures heard { HasHeard (nine_talking D.faults (C.gives clock.now)) (StandsAt connection.new framer.new)
        connection.old framer.old.agreed framer.old.left pass.old pass.new out.new result }
    ensures fewer { result ≡ Heard.Answered → length framer.new.left < length framer.old.left }
    ensures same_lock { pass.new.lock ≡ lock.now }
{
    let len = framer.len();
    let agreed = framer.agreed();
    match framer.next() {
        Next::Open => Heard::Open,
        Next::Bad => Heard::Bad,
        Next::Message(message, rest) => {
            let count = len - rest.len();
            let tag = message.tag;
            let after = agreed_after(agreed, &message.request);
            let reply = answer(rt, alloc, lock, pass, clock, connection, &message.request);
            framer.take(count, after);
            match spell_reply(alloc, connection, tag, &reply, out) {
                Ok(()) => Heard::Answered,
                Err(_) => Heard::Unsent,
            }
        }
    }
}
