//! A line of a session, and its reply.

ghost use Rattle.std.specs.Prelude.{◌≡◌, if◌then◌else◌};
ghost use Rattle.session_history.specs.Turn.{IsTurnFormed};
ghost use Rattle.session_history.specs.Tasks.{IsSingle};
ghost use Rattle.session_history.specs.Placed.{is_done};
ghost use Rattle.shared_store.specs.Asking.{HasSeenFault};
ghost use Rattle.session_lines.specs.Logins.{name_or, caller_after};
ghost use Rattle.session_lines.specs.Replied.{HasTold, HasReplied};

use crate::checker::Checker;
use crate::line_replies::{is_done, login_name, take_turn};
use crate::proving::prove;
use crate::tasks::task_of;
use bl_syntax::Principal;
use line_wire::LineReply;
use pcfs_ports::Disk;
use session_history::{LineTask, TurnClock, TurnRequest};
use shared_store::OpenedStore;
use std::alloc::Global;
use std::sync::Wait;
use tree_lock::{Pass, TreeLock};

// Who is logged in after a reply: who was to be, if somebody was and the line was done.
fn set_caller(caller: &mut Option<Principal>, who: Option<Principal>, reply: &LineReply)
    ensures { caller.new ≡ (if is_done reply.now then name_or caller.old who else caller.old) }
{
    if is_done(reply) && who.is_some() {
        *caller = who;
    }
}

// Takes the one turn of a line. A login that is accepted changes the caller.
fn answer_in_turn<R: Wait, D: Disk, C: TurnClock>(
    rt: &R,
    alloc: Global,
    lock: &TreeLock<OpenedStore<D>>,
    pass: &mut Pass<OpenedStore<D>>,
    clock: &C,
    caller: &mut Option<Principal>,
    request: TurnRequest,
) -> LineReply
    requires lock { pass.old.lock ≡ lock.now }
    requires formed { IsTurnFormed request }
    requires single { IsSingle request }
    ensures told { HasTold (C.gives clock.now) request pass.old pass.new result }
    ensures caller { caller.new ≡ caller_after caller.old request result }
    ensures stopped { result ≡ LineReply.Stopped → HasSeenFault D.faults pass.new }
{
    let who = login_name(&request);
    let reply = take_turn(rt, alloc, lock, pass, clock, request);
    set_caller(caller, who, &reply);
    reply
}

/// Answers a line, given without its end, of a session with this nonce and this caller.
///
/// Each turn that it takes is placed, whatever others do, in each history that begins with what the pass has seen then. A
/// proof is checked between its two turns, by the order of the code outside the lock. If memory runs out, the reply says so.
/// `Stopped` comes only if a disk failed: the pass has seen the mark, and a count has risen since the store was opened.
pub fn answer_line<R: Wait, D: Disk, C: TurnClock, K: Checker>(
    rt: &R,
    alloc: Global,
    lock: &TreeLock<OpenedStore<D>>,
    pass: &mut Pass<OpenedStore<D>>,
    clock: &C,
    nonce: &[u8; 16],
    caller: &mut Option<Principal>,
    line: &[u8],
    checker: &mut K,
) -> LineReply
    requires { pass.old.lock ≡ lock.now }
    ensures replied { HasReplied (C.gives clock.now)
        (record { nonce = nonce.now; caller = caller.old }) line.now pass.old pass.new
        (record { nonce = nonce.now; caller = caller.new }) result }
    ensures stopped { result ≡ LineReply.Stopped → HasSeenFault D.faults pass.new }
{
    match task_of(alloc, nonce, caller, line) {
        Ok(LineTask::Reply(reply)) => reply,
        Ok(LineTask::Turn(request)) => {
            answer_in_turn(rt, alloc, lock, pass, clock, caller, request)
        }
        Ok(LineTask::Proof(goal, numbers, proof)) => prove(
            rt, alloc, lock, pass, clock, goal, numbers, proof, checker,
        ),
        Err(_) => LineReply::NoMemory,
    }
}
