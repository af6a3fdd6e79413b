//! What a line is told for which a turn replies something, and who is logged in then.

ghost use Rattle.std.specs.Prelude.{◌≡◌, ◌≢◌, ◌⊎◌};
ghost use Rattle.session_history.specs.Placed.{IsReplyOf, is_done};
ghost use Rattle.session_history.specs.Turn.{IsTurnFormed};
ghost use Rattle.session_history.specs.Tasks.{IsSingle};
ghost use Rattle.shared_store.specs.Asking.{HasSeenFault};
ghost use Rattle.session_lines.specs.Logins.{IsTellable, login_name};
ghost use Rattle.session_lines.specs.Replied.{HasTold};

use bl_syntax::Principal;
use line_wire::LineReply;
use pcfs_ports::Disk;
use proof_verifier::CheckFault;
use session_history::{TurnClock, TurnReply, TurnRequest};
use shared_store::{FormedRequest, OpenedStore, ask};
use std::alloc::Global;
use std::sync::Wait;
use tree_lock::{Pass, TreeLock};

/// What a line is told. Statements are told to nobody.
pub fn reply_of(found: TurnReply) -> LineReply
    requires { IsTellable found }
    ensures { IsReplyOf found result }
{
    match found {
        TurnReply::Step(reply) => LineReply::Step(reply),
        TurnReply::LoggedIn => LineReply::Done,
        TurnReply::Checkpointed => LineReply::Checkpointed,
        TurnReply::Full => LineReply::Full,
        TurnReply::Stopped => LineReply::Stopped,
        TurnReply::NoMemory => LineReply::NoMemory,
        TurnReply::Cited(_) => unreachable!(),
    }
}

/// What a line is told whose proof was refused.
pub fn unproved(fault: CheckFault) -> LineReply
    ensures { (result ≡ LineReply.NoMemory) ⊎ ((result ≡ LineReply.Unproved fault) × (fault ≢ CheckFault.NoMemory)) }
{
    match fault {
        CheckFault::NoMemory => LineReply::NoMemory,
        _ => LineReply::Unproved(fault),
    }
}

/// Takes a turn that asks for no statements, and says what the line is told: `Stopped` only if a disk failed.
pub fn take_turn<R: Wait, D: Disk, C: TurnClock>(
    rt: &R,
    alloc: Global,
    lock: &TreeLock<OpenedStore<D>>,
    pass: &mut Pass<OpenedStore<D>>,
    clock: &C,
    request: TurnRequest,
) -> LineReply
    requires lock { pass.old.lock ≡ lock.now }
    requires formed { IsTurnFormed request }
    requires single { IsSingle request }
    ensures told { HasTold (C.gives clock.now) request pass.old pass.new result }
    ensures stopped { result ≡ LineReply.Stopped → HasSeenFault D.faults pass.new }
{
    let found = ask(rt, alloc, lock, pass, clock, FormedRequest::new(request));
    reply_of(found)
}

/// Who is to be logged in, if somebody is.
pub fn login_name(request: &TurnRequest) -> Option<Principal>
    ensures { result ≡ login_name request.now }
{
    match request {
        TurnRequest::Login(who, _, _) => Some(*who),
        TurnRequest::Step(_) => None,
        TurnRequest::Cite(_) => None,
        TurnRequest::Checkpoint => None,
    }
}

/// Whether the line was done.
pub fn is_done(reply: &LineReply) -> bool
    ensures { result ≡ is_done reply.now }
{
    match reply {
        LineReply::Done => true,
        LineReply::Step(_) => false,
        LineReply::Checked(_) => false,
        LineReply::Unproved(_) => false,
        LineReply::Faulty(_) => false,
        LineReply::TooLong => false,
        LineReply::NotLoggedIn => false,
        LineReply::Checkpointed => false,
        LineReply::Full => false,
        LineReply::Stopped => false,
        LineReply::NoMemory => false,
    }
}
