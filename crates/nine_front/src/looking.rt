//! Lookups of names, and other operations under one procap, each in a turn.

ghost use Rattle.std.specs.Prelude.{◌≡◌, ◌≤◌, [], ◌∷◌, IfOk, length};
ghost use Rattle.bl_syntax.specs.declared.limits.TheConstants.{MOST_BYTES_AT_ONCE};
ghost use Rattle.file_world.specs.Needs.{bytes_to_write, slots};
ghost use Rattle.file_world.specs.Effect.{IsOperation};
ghost use Rattle.session_history.specs.Turn.{IsTurnFormed};
ghost use Rattle.shared_store.specs.Asking.{HasSeenFault};
ghost use Rattle.nine_front.specs.Asking.{act_of, look_of};
ghost use Rattle.nine_front.specs.Walked.{MayHaveAsked, MayHaveLooked};

use access_history::StepRequest;
use bl_syntax::{NoMemory, NodeId, Principal, copy_bytes};
use file_world::Op;
use journal_records::Procaps;
use pcfs_ports::Disk;
use procap::Procap;
use session_history::{TurnClock, TurnReply, TurnRequest};
use shared_store::{FormedRequest, OpenedStore, ask, look};
use std::alloc::Global;
use std::sync::Wait;
use tree_lock::{Pass, TreeLock};

// One operation under one procap.
fn acting(alloc: Global, who: Principal, op: Op, p: Procap) -> Result<FormedRequest, NoMemory>
    requires operation { IsOperation op }
    requires one { slots op ≡ 1 }
    requires few { bytes_to_write op ≤ MOST_BYTES_AT_ONCE }
    ensures { IfOk result (λ request. request ≡ act_of who op p) }
{
    let _name = who.bytes();
    let mut procaps = Procaps::new(alloc);
    procaps.push(p)?;
    Ok(FormedRequest::new(TurnRequest::Step(StepRequest::Act(who, op, procaps))))
}

/// Takes a turn for an operation under a procap.
pub(crate) fn act<R: Wait, D: Disk, C: TurnClock>(
    rt: &R,
    alloc: Global,
    lock: &TreeLock<OpenedStore<D>>,
    pass: &mut Pass<OpenedStore<D>>,
    clock: &C,
    who: Principal,
    op: Op,
    p: Procap,
) -> TurnReply
    requires lock { pass.old.lock ≡ lock.now }
    requires operation { IsOperation op }
    requires one { slots op ≡ 1 }
    requires few { bytes_to_write op ≤ MOST_BYTES_AT_ONCE }
    ensures asked { MayHaveAsked (C.gives clock.now) (act_of who op p) pass.old pass.new result }
    ensures stopped { result ≡ TurnReply.Stopped → HasSeenFault D.faults pass.new }
{
    match acting(alloc, who, op, p) {
        Ok(request) => ask(rt, alloc, lock, pass, clock, request),
        Err(_) => TurnReply::NoMemory,
    }
}

// The lookup of a name under a procap.
fn looking(
    alloc: Global,
    who: Principal,
    directory: NodeId,
    name: &[u8],
    p: Procap,
) -> Result<FormedRequest, NoMemory>
    ensures { IfOk result (λ request. request ≡ look_of who directory name.now p) }
{
    acting(
        alloc,
        who,
        Op::Lookup(directory, copy_bytes(alloc, name)?),
        p,
    )
}

/// Takes a turn for the lookup of a name under a procap, and says whether what was found is a directory.
pub(crate) fn look_up<R: Wait, D: Disk, C: TurnClock>(
    rt: &R,
    alloc: Global,
    lock: &TreeLock<OpenedStore<D>>,
    pass: &mut Pass<OpenedStore<D>>,
    clock: &C,
    who: Principal,
    directory: NodeId,
    name: &[u8],
    p: Procap,
) -> (TurnReply, bool)
    requires { pass.old.lock ≡ lock.now }
    ensures looked { MayHaveLooked (C.gives clock.now) (look_of who directory name.now p) pass.old pass.new result.0 result.1 }
    ensures stopped { result.0 ≡ TurnReply.Stopped → HasSeenFault D.faults pass.new }
{
    match looking(alloc, who, directory, name, p) {
        Ok(request) => look(rt, alloc, lock, pass, clock, request),
        Err(_) => (TurnReply::NoMemory, false),
    }
}
