//! Lines that are answered, and their replies as they are spelled.

ghost use Rattle.std.specs.Prelude.{◌≡◌, ◌<◌, ◌∷◌, ℕ, List, [], length, OnOk};
ghost use Rattle.line_wire.specs.declared.reply.LineReply.{LineReply};
ghost use Rattle.line_framer.specs.Framing.{IsLine};
ghost use Rattle.session_loop.specs.Heard.{HasHeard, HasHeardLast};
ghost use Rattle.session_service.specs.LineTalking.{line_talking, reply_line, AreSaid, IsHeld, StandsAt};
ghost use Rattle.session_service.specs.Said.{session_of};

use bl_syntax::{Bytes, NoMemory, Principal};
use line_framer::Framer;
use line_wire::write_reply;
use pcfs_ports::Disk;
use session_history::TurnClock;
use session_lines::{Checker, answer_line};
use session_loop::Heard;
use shared_store::OpenedStore;
use std::alloc::Global;
use std::sync::Wait;
use tree_lock::{Pass, TreeLock};

// Answers a line, and spells the reply, if there is memory for that.
fn speak<R: Wait, D: Disk, C: TurnClock, K: Checker>(
    rt: &R,
    alloc: Global,
    lock: &TreeLock<OpenedStore<D>>,
    pass: &mut Pass<OpenedStore<D>>,
    clock: &C,
    nonce: &[u8; 16],
    caller: &mut Option<Principal>,
    line: &[u8],
    checker: &mut K,
    out: &mut Bytes,
) -> Result<(), NoMemory>
    requires lock { pass.old.lock ≡ lock.now }
    requires empty { out.old ≡ [] }
    ensures said { (reply : LineReply) ×
        AreSaid D.faults (C.gives clock.now) (session_of nonce.now caller.old) pass.old pass.new (line.now ∷ []) (reply ∷ [])
        (session_of nonce.now caller.new) × OnOk result (out.new ≡ reply_line line.now reply) }
    ensures same_lock { pass.new.lock ≡ lock.now }
{
    let reply = answer_line(rt, alloc, lock, pass, clock, nonce, caller, line, checker);
    write_reply(alloc, out, &reply)
}

/// Answers the next line, if its end has come, takes it, and spells the reply.
pub(crate) fn hear<R: Wait, D: Disk, C: TurnClock, K: Checker>(
    rt: &R,
    alloc: Global,
    lock: &TreeLock<OpenedStore<D>>,
    pass: &mut Pass<OpenedStore<D>>,
    clock: &C,
    nonce: &[u8; 16],
    caller: &mut Option<Principal>,
    framer: &mut Framer,
    is_long: bool,
    checker: &mut K,
    out: &mut Bytes,
) -> Heard
    requires lock { pass.old.lock ≡ lock.now }
    requires empty { out.old ≡ [] }
    ensures heard { (left : List ℕ) → IsHeld framer.old is_long left →
        HasHeard (line_talking D.faults (C.gives clock.now)) (StandsAt nonce.now caller.new framer.new is_long)
        (session_of nonce.now caller.old) tt left pass.old pass.new out.new result }
    ensures fewer { result ≡ Heard.Answered → length framer.new.left < length framer.old.left }
    ensures same_lock { pass.new.lock ≡ lock.now }
{
    match framer.next_line() {
        None => { if is_long { Heard::Bad } else { Heard::Open } }
        Some(line) => {
            let spelled = speak(
                rt, alloc, lock, pass, clock, nonce, caller, line, checker, out,
            );
            framer.take_line();
            match spelled {
                Ok(()) => Heard::Answered,
                Err(_) => Heard::Unsent,
            }
        }
    }
}

/// Answers the last line, which has no end, if it is not empty, and spells the reply.
pub(crate) fn hear_last<R: Wait, D: Disk, C: TurnClock, K: Checker>(
    rt: &R,
    alloc: Global,
    lock: &TreeLock<OpenedStore<D>>,
    pass: &mut Pass<OpenedStore<D>>,
    clock: &C,
    nonce: &[u8; 16],
    caller: &mut Option<Principal>,
    framer: &Framer,
    checker: &mut K,
    out: &mut Bytes,
) -> Heard
    requires lock { pass.old.lock ≡ lock.now }
    requires empty { out.old ≡ [] }
    ensures heard { IsLine framer.now.left →
        HasHeardLast (line_talking D.faults (C.gives clock.now)) (session_of nonce.now caller.old) tt framer.now.left
        pass.old pass.new out.new result }
    ensures same_lock { pass.new.lock ≡ lock.now }
{
    match framer.last_line() {
        None => Heard::Open,
        Some(line) => match speak(
            rt, alloc, lock, pass, clock, nonce, caller, line, checker, out,
        ) {
            Ok(()) => Heard::Answered,
            Err(_) => Heard::Unsent,
        },
    }
}
