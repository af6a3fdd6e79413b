//! A request, and its reply.

ghost use Rattle.std.specs.Prelude.{◌≡◌, ◌≤◌, length, Some};
ghost use Rattle.nine_messages.specs.declared.framing.TheConstants.{MOST_SIZE};
ghost use Rattle.nine_messages.specs.Replies.{IsWritableReply};
ghost use Rattle.nine_messages.specs.Requests.{IsRequest, twalk};
ghost use Rattle.nine_messages.specs.Views.{request_view};
ghost use Rattle.nine_front.specs.Asking.{bytes_of, after_login};
ghost use Rattle.nine_front.specs.Said.{HasAnswered};
ghost use Rattle.nine_front.specs.Views.{reply_view_of};
ghost use Rattle.nine_front.specs.Walked.{ComesTo, NeedsTurns, IsLoggedIn, IsWalk};

use crate::found::Found;
use crate::looking::act;
use crate::replying::{NineReply, reply_of};
use crate::walking::walk_names;
use bl_syntax::{Bytes, NodeId, Principal, copy_bytes};
use file_world::Op;
use line_wire::LineReply;
use nine_fids::{Connection, Step};
use nine_messages::{Names, Request};
use pcfs_ports::Disk;
use procap::Procap;
use session_history::{TurnClock, TurnReply, TurnRequest};
use shared_store::{FormedRequest, OpenedStore, ask};
use std::alloc::Global;
use std::sync::Wait;
use tree_lock::{Pass, TreeLock};

// The bytes that a request writes.
fn bytes_of<'a>(request: &Request<'a>) -> &'a [u8]
    ensures { result.now ≡ bytes_of (request_view request.now) }
{
    match request {
        Request::Write(_, _, bytes) => bytes,
        _ => &[],
    }
}

// How many bytes a request writes.
fn count_of(request: &Request<'_>) -> u32
    requires { length (bytes_of (request_view request.now)) ≤ MOST_SIZE }
    ensures { result ≡ length (bytes_of (request_view request.now)) }
{
    bytes_of(request).len() as u32
}

// An accepted login changes who is logged in.
fn after_login(connection: &mut Connection, who: Principal, replied: &TurnReply)
    ensures after { connection.new ≡ after_login connection.old who replied.now }
    ensures nonce { connection.new.nonce ≡ connection.old.nonce }
{
    match replied {
        TurnReply::LoggedIn => connection.log_in(who),
        TurnReply::Step(_) => {}
        TurnReply::Cited(_) => {}
        TurnReply::Checkpointed => {}
        TurnReply::Full => {}
        TurnReply::Stopped => {}
        TurnReply::NoMemory => {}
    }
}

// A login over the nonce of the connection.
fn logging_in(connection: &Connection, who: Principal, signature: Bytes) -> FormedRequest
    ensures { result ≡ TurnRequest.Login who connection.now.nonce signature }
{
    FormedRequest::new(TurnRequest::Login(who, *connection.nonce(), signature))
}

// Logs a principal in, if the store accepts the signature.
fn log_in<R: Wait, D: Disk, C: TurnClock>(
    rt: &R,
    alloc: Global,
    lock: &TreeLock<OpenedStore<D>>,
    pass: &mut Pass<OpenedStore<D>>,
    clock: &C,
    connection: &mut Connection,
    request: &Request<'_>,
    who: Principal,
    signature: Bytes,
) -> NineReply
    requires lock { pass.old.lock ≡ lock.now }
    requires step { ComesTo connection.old (request_view request.now) (Step.Login who signature) }
    requires few { length (bytes_of (request_view request.now)) ≤ MOST_SIZE }
    ensures answered { HasAnswered D.faults (C.gives clock.now) connection.old (request_view request.now)
        pass.old pass.new (reply_view_of connection.old.nonce result) connection.new }
    ensures writable { IsWritableReply (reply_view_of connection.old.nonce result) }
    ensures nonce { connection.new.nonce ≡ connection.old.nonce }
    ensures same_lock { pass.new.lock ≡ lock.now }
{
    let asked = logging_in(connection, who, signature);
    let replied = ask(rt, alloc, lock, pass, clock, asked);
    after_login(connection, who, &replied);
    reply_of(count_of(request), replied)
}

// Who is logged in.
fn caller_of(connection: &Connection) -> Principal
    requires { IsLoggedIn connection.now }
    ensures { connection.now.caller ≡ Some result }
{
    match connection.caller() {
        Some(who) => who,
        None => unreachable!(),
    }
}

// Reads a node under a procap, in a turn.
fn read<R: Wait, D: Disk, C: TurnClock>(
    rt: &R,
    alloc: Global,
    lock: &TreeLock<OpenedStore<D>>,
    pass: &mut Pass<OpenedStore<D>>,
    clock: &C,
    connection: &Connection,
    request: &Request<'_>,
    node: NodeId,
    p: Procap,
    offset: u64,
    len: u32,
) -> NineReply
    requires lock { pass.old.lock ≡ lock.now }
    requires step { ComesTo connection.now (request_view request.now) (Step.Read node p offset len) }
    requires few { length (bytes_of (request_view request.now)) ≤ MOST_SIZE }
    ensures answered { HasAnswered D.faults (C.gives clock.now) connection.now (request_view request.now)
        pass.old pass.new (reply_view_of connection.now.nonce result) connection.now }
    ensures writable { IsWritableReply (reply_view_of connection.now.nonce result) }
    ensures same_lock { pass.new.lock ≡ lock.now }
{
    let who = caller_of(connection);
    let op = Op::Read(node, offset, len as u64);
    let replied = act(rt, alloc, lock, pass, clock, who, op, p);
    reply_of(count_of(request), replied)
}

// Writes the bytes of a request to a node under a procap, in a turn.
fn write<R: Wait, D: Disk, C: TurnClock>(
    rt: &R,
    alloc: Global,
    lock: &TreeLock<OpenedStore<D>>,
    pass: &mut Pass<OpenedStore<D>>,
    clock: &C,
    connection: &Connection,
    request: &Request<'_>,
    node: NodeId,
    p: Procap,
    offset: u64,
) -> NineReply
    requires lock { pass.old.lock ≡ lock.now }
    requires step { ComesTo connection.now (request_view request.now) (Step.Write node p offset) }
    requires few { length (bytes_of (request_view request.now)) ≤ MOST_SIZE }
    ensures answered { HasAnswered D.faults (C.gives clock.now) connection.now (request_view request.now)
        pass.old pass.new (reply_view_of connection.now.nonce result) connection.now }
    ensures writable { IsWritableReply (reply_view_of connection.now.nonce result) }
    ensures same_lock { pass.new.lock ≡ lock.now }
{
    let who = caller_of(connection);
    match copy_bytes(alloc, bytes_of(request)) {
        Ok(bytes) => {
            let op = Op::Write(node, offset, bytes);
            let replied = act(rt, alloc, lock, pass, clock, who, op, p);
            reply_of(count_of(request), replied)
        }
        Err(_) => NineReply::Line(LineReply::NoMemory),
    }
}

// Walks names from a node, and makes the fid that the walk makes.
fn walk_to<R: Wait, D: Disk, C: TurnClock>(
    rt: &R,
    alloc: Global,
    lock: &TreeLock<OpenedStore<D>>,
    pass: &mut Pass<OpenedStore<D>>,
    clock: &C,
    connection: &mut Connection,
    fid: u32,
    newfid: u32,
    names: &Names<'_>,
    node: NodeId,
) -> NineReply
    requires lock { pass.old.lock ≡ lock.now }
    requires step { ComesTo connection.old (twalk fid newfid names.now) (Step.Walk node) }
    ensures answered { HasAnswered D.faults (C.gives clock.now) connection.old (twalk fid newfid names.now)
        pass.old pass.new (reply_view_of connection.old.nonce result) connection.new }
    ensures writable { IsWritableReply (reply_view_of connection.old.nonce result) }
    ensures nonce { connection.new.nonce ≡ connection.old.nonce }
    ensures same_lock { pass.new.lock ≡ lock.now }
{
    let _ = fid;
    let who = caller_of(connection);
    let mut found = Found::new();
    let end = walk_names(
        rt, alloc, lock, pass, clock, connection, who, node, names, &mut found,
    );
    connection.walked(newfid, names.len(), found.as_slice());
    NineReply::Walked(found, end)
}

// Walks the names of a request from a node.
fn walk<R: Wait, D: Disk, C: TurnClock>(
    rt: &R,
    alloc: Global,
    lock: &TreeLock<OpenedStore<D>>,
    pass: &mut Pass<OpenedStore<D>>,
    clock: &C,
    connection: &mut Connection,
    request: &Request<'_>,
    node: NodeId,
) -> NineReply
    requires lock { pass.old.lock ≡ lock.now }
    requires step { ComesTo connection.old (request_view request.now) (Step.Walk node) }
    requires walk { IsWalk (request_view request.now) }
    ensures answered { HasAnswered D.faults (C.gives clock.now) connection.old (request_view request.now)
        pass.old pass.new (reply_view_of connection.old.nonce result) connection.new }
    ensures writable { IsWritableReply (reply_view_of connection.old.nonce result) }
    ensures nonce { connection.new.nonce ≡ connection.old.nonce }
    ensures same_lock { pass.new.lock ≡ lock.now }
{
    match request {
        Request::Walk(fid, newfid, names) => walk_to(
            rt, alloc, lock, pass, clock, connection, *fid, *newfid, names, node,
        ),
        _ => unreachable!(),
    }
}

// Does what a step of a request asks.
fn follow<R: Wait, D: Disk, C: TurnClock>(
    rt: &R,
    alloc: Global,
    lock: &TreeLock<OpenedStore<D>>,
    pass: &mut Pass<OpenedStore<D>>,
    clock: &C,
    connection: &mut Connection,
    request: &Request<'_>,
    step: Step,
) -> NineReply
    requires lock { pass.old.lock ≡ lock.now }
    requires step { ComesTo connection.old (request_view request.now) step }
    requires few { length (bytes_of (request_view request.now)) ≤ MOST_SIZE }
    requires turns { NeedsTurns step }
    ensures answered { HasAnswered D.faults (C.gives clock.now) connection.old (request_view request.now)
        pass.old pass.new (reply_view_of connection.old.nonce result) connection.new }
    ensures writable { IsWritableReply (reply_view_of connection.old.nonce result) }
    ensures nonce { connection.new.nonce ≡ connection.old.nonce }
    ensures same_lock { pass.new.lock ≡ lock.now }
{
    match step {
        Step::Refused(_) => unreachable!(),
        Step::Answered(_) => unreachable!(),
        Step::Login(who, signature) => log_in(
            rt, alloc, lock, pass, clock, connection, request, who, signature,
        ),
        Step::Read(node, p, offset, len) => read(
            rt, alloc, lock, pass, clock, connection, request, node, p, offset, len,
        ),
        Step::Write(node, p, offset) => write(
            rt, alloc, lock, pass, clock, connection, request, node, p, offset,
        ),
        Step::Walk(node) => walk(rt, alloc, lock, pass, clock, connection, request, node),
    }
}

/// Answers a request of a connection.
///
/// Each turn that it takes is placed, whatever others do, in each history that begins with what the pass has seen then, and
/// it takes no other; if it takes none, the pass is as it was. That the store is stopped is told only if a disk failed. The
/// counts of the reply fit their fields; that it fits the size that was agreed has no clause. That memory ran out is told
/// only after the tests, or as a line of the control file is read.
pub fn answer<R: Wait, D: Disk, C: TurnClock>(
    rt: &R,
    alloc: Global,
    lock: &TreeLock<OpenedStore<D>>,
    pass: &mut Pass<OpenedStore<D>>,
    clock: &C,
    connection: &mut Connection,
    request: &Request<'_>,
) -> NineReply
    requires lock { pass.old.lock ≡ lock.now }
    requires request { IsRequest (request_view request.now) }
    requires few { length (bytes_of (request_view request.now)) ≤ MOST_SIZE }
    ensures answered { HasAnswered D.faults (C.gives clock.now) connection.old (request_view request.now)
        pass.old pass.new (reply_view_of connection.old.nonce result) connection.new }
    ensures writable { IsWritableReply (reply_view_of connection.old.nonce result) }
    ensures nonce { connection.new.nonce ≡ connection.old.nonce }
    ensures same_lock { pass.new.lock ≡ lock.now }
{
    match connection.take(alloc, request) {
        Err(_) => NineReply::Line(LineReply::NoMemory),
        Ok(step) => match step {
            Step::Refused(error) => NineReply::Refused(error),
            Step::Answered(answer) => {
                let _ = connection.reply(answer);
                NineReply::Answered(answer)
            }
            _ => follow(rt, alloc, lock, pass, clock, connection, request, step),
        },
    }
}
