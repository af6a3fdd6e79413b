//! The changes that operations make. None of them takes memory.

ghost use Rattle.std.specs.Prelude.{◌≡◌, ◌≤◌, length, nat_eq, IsSome};
ghost use Rattle.std.specs.Map.{remove_entry};
ghost use Rattle.file_world.specs.Limits.{longest_name};
ghost use Rattle.file_world.specs.Attributes.{mark_at};
ghost use Rattle.file_world.specs.AttributeEffect.{attributes_of, with_value, without_value, with_attributes, with_owner, with_parent, marks_after};
ghost use Rattle.attr_state.specs.Index.{marks_of, kept_at, AreOrdered, HasMarkRoom, Revises, IsMetaChangeable};

use crate::attributes::{put, take_out};
use crate::mark::KeptMarks;
use bl_syntax::{Principal, Text};
use file_world::MetaOp;

fn set(marks: &mut KeptMarks, number: u64, name: &[u8], value: Text)
    requires short { length name.now ≤ longest_name }
    requires ordered { AreOrdered marks.old.entries }
    requires room { HasMarkRoom marks.old.entries number
        (length (with_value (attributes_of (mark_at (marks_of marks.old.entries) number)) name.now value)) }
    ensures { Revises marks.old.entries marks.new.entries number
        (with_attributes (with_value (attributes_of (mark_at (marks_of marks.old.entries) number)) name.now value)) }
{
    let mark = marks.get_mut(&number).unwrap();
    put(&mut mark.attributes, name, value);
}

fn unset(marks: &mut KeptMarks, number: u64, name: &[u8])
    requires ordered { AreOrdered marks.old.entries }
    requires there { IsSome (kept_at marks.old.entries number) }
    ensures { Revises marks.old.entries marks.new.entries number
        (with_attributes (without_value (attributes_of (mark_at (marks_of marks.old.entries) number)) name.now)) }
{
    let mark = marks.get_mut(&number).unwrap();
    take_out(&mut mark.attributes, name);
}

fn set_owner(marks: &mut KeptMarks, number: u64, owner: Principal)
    requires ordered { AreOrdered marks.old.entries }
    requires there { IsSome (kept_at marks.old.entries number) }
    ensures { Revises marks.old.entries marks.new.entries number (with_owner owner) }
{
    let mark = marks.get_mut(&number).unwrap();
    mark.owner = owner;
}

fn set_parent(marks: &mut KeptMarks, number: u64, parent: u64)
    requires { AreOrdered marks.old.entries }
    ensures { Revises marks.old.entries marks.new.entries number (with_parent parent) }
{
    if let Some(mark) = marks.get_mut(&number) {
        mark.parent = parent;
    }
}

fn drop_mark(marks: &mut KeptMarks, number: u64)
    requires { AreOrdered marks.old.entries }
    ensures ordered { AreOrdered marks.new.entries }
    ensures gone { marks_of marks.new.entries ≡ remove_entry (nat_eq number) (marks_of marks.old.entries) }
{
    let _ = marks.remove(&number);
}

/// Makes the change of the operation that is ready. A mark that is ready to be made is there.
pub fn change(marks: &mut KeptMarks, op: &MetaOp)
    requires { IsMetaChangeable marks.old.entries op.now }
    ensures ordered { AreOrdered marks.new.entries }
    ensures marks { marks_of marks.new.entries ≡ marks_after (marks_of marks.old.entries) op.now }
{
    match op {
        MetaOp::Get(_, _) => {}
        MetaOp::Set(node, name, value) => set(marks, node.0, name.as_slice(), *value),
        MetaOp::Remove(node, name) => unset(marks, node.0, name.as_slice()),
        MetaOp::Chown(node, owner) => set_owner(marks, node.0, *owner),
        MetaOp::Add(_, _, _) => {}
        MetaOp::Drop(node) => drop_mark(marks, node.0),
        MetaOp::Move(node, parent) => set_parent(marks, node.0, parent.0),
    }
}
