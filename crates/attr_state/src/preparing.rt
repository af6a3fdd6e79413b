//! The memory for what an operation changes, taken before it.

ghost use Rattle.std.specs.Prelude.{◌≡◌, ◌+◌, length, None, Some, IsSome, IfOk, OnErr};
ghost use Rattle.file_world.specs.Attributes.{mark_at};
ghost use Rattle.file_world.specs.AttributeEffect.{attributes_of, meta_refusal, IsAskable};
ghost use Rattle.attr_state.specs.Index.{marks_of, marks_in, kept_at, AreOrdered, PreparesMeta, MetaStays};
ghost use Rattle.attr_state.specs.State.{ready_for};

use crate::mark::{KeptMark, KeptMarks};
use crate::ready::MetaReady;
use crate::refusals::value_kept;
use bl_syntax::{NoMemory, Principal};
use file_world::MetaOp;
use std::alloc::{AllocError, AllocFailed, Global};

fn prepare_attributes(
    marks: &mut KeptMarks,
    number: u64,
    more: usize,
) -> Result<MetaReady, NoMemory>
    requires ordered { AreOrdered marks.old.entries }
    requires there { IsSome (kept_at marks.old.entries number) }
    ensures ok { IfOk result (λ ready.
        (ready ≡ MetaReady.Attributes number (length (attributes_of (mark_at (marks_of marks.old.entries) number)) + more))
        × PreparesMeta marks.old.entries marks.new.entries ready) }
    ensures err { OnErr result (MetaStays marks.old.entries marks.new.entries) }
{
    let mark = marks.get_mut(&number).unwrap();
    let grown: Result<(), AllocError> = mark.attributes.reserve(more);
    match grown {
        Ok(()) => {
            let len = mark.attributes.len() + more;
            Ok(MetaReady::Attributes(number, len as u64))
        }
        Err(_) => Err(NoMemory),
    }
}

fn prepare_made(
    marks: &mut KeptMarks,
    alloc: Global,
    number: u64,
    owner: Principal,
    parent: u64,
) -> Result<MetaReady, NoMemory>
    requires ordered { AreOrdered marks.old.entries }
    requires new { kept_at marks.old.entries number ≡ None }
    ensures ok { IfOk result (λ ready. (ready ≡ MetaReady.Made number owner parent)
        × PreparesMeta marks.old.entries marks.new.entries ready) }
    ensures err { OnErr result (MetaStays marks.old.entries marks.new.entries) }
{
    let mark = KeptMark {
        owner,
        parent,
        attributes: Vec::new(alloc),
    };
    let put: Result<Option<KeptMark>, AllocFailed<(u64, KeptMark)>> = marks.insert(number, mark);
    match put {
        Ok(_) => Ok(MetaReady::Made(number, owner, parent)),
        Err(_) => Err(NoMemory),
    }
}

/// Takes the memory for what the operation changes.
pub fn prepare(marks: &mut KeptMarks, alloc: Global, op: &MetaOp) -> Result<MetaReady, NoMemory>
    requires ordered { AreOrdered marks.old.entries }
    requires askable { IsAskable (marks_of marks.old.entries) op.now }
    requires free { meta_refusal (marks_of marks.old.entries) op.now ≡ None }
    ensures ok { IfOk result (λ ready. (ready ≡ ready_for (marks_of marks.old.entries) op.now)
        × PreparesMeta marks.old.entries marks.new.entries ready) }
    ensures err { OnErr result (MetaStays marks.old.entries marks.new.entries) }
{
    match op {
        MetaOp::Get(_, _) | MetaOp::Remove(_, _) | MetaOp::Chown(_, _) => Ok(MetaReady::Nothing),
        MetaOp::Drop(_) | MetaOp::Move(_, _) => Ok(MetaReady::Nothing),
        MetaOp::Set(node, name, _) => {
            let known = value_kept(marks, node.0, name.as_slice());
            prepare_attributes(marks, node.0, if known.is_none() { 1 } else { 0 })
        }
        MetaOp::Add(node, owner, parent) => prepare_made(marks, alloc, node.0, *owner, parent.0),
    }
}

/// Gives up what is ready.
pub fn forget(marks: &mut KeptMarks, ready: &Option<MetaReady>)
    requires { AreOrdered marks.old.entries }
    ensures ordered { AreOrdered marks.new.entries }
    ensures same { marks_of marks.new.entries ≡ marks_in ready.now marks.old.entries }
{
    if let Some(MetaReady::Made(number, _, _)) = ready {
        let _ = marks.remove(number);
    }
}
