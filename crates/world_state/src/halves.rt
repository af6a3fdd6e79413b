//! What an operation does to both halves of the world.

ghost use Rattle.std.specs.Prelude.{◌≡◌, List, None, OnErr, ℕ};
ghost use Rattle.file_tree.specs.State.{TreeView, child_or_none};
ghost use Rattle.file_world.specs.AttributeEffect.{IsAskable};
ghost use Rattle.file_world.specs.Effect.{tree_part, meta_part};
ghost use Rattle.file_world.specs.Halves.{following, marks_followed, meta_op_of, tree_half_after};
ghost use Rattle.file_world.specs.TreeEffect.{change_of};
ghost use Rattle.world_state.specs.Halves.{HalvesReserve, IsAskedOf, part_in};
ghost use Rattle.world_state.specs.State.{AreReady};

use crate::half::Half;
use attr_state::Meta;
use bl_syntax::{NodeId, Principal};
use file_tree::Tree;
use file_world::{MetaOp, OpFault, OpReply, TreeOp};
use std::alloc::Global;

// The child that an operation takes away or moves; 0 if there is none.
fn child_or_none(tree: &Tree, directory: NodeId, name: &[u8]) -> NodeId
    ensures { result.0 ≡ child_or_none tree.now.tree directory.0 name.now }
{
    match tree.child(directory, name) {
        None => NodeId(0),
        Some(child) => child,
    }
}

// What follows in owners and attributes, if something does, when the caller's operation changes the tree.
fn follower(tree: &Tree, caller: &Principal, op: &TreeOp) -> Option<MetaOp>
    ensures { result ≡ following caller.now tree.now.tree.next (change_of tree.now.tree op.now) }
{
    match op {
        TreeOp::Create(directory, _) | TreeOp::Mkdir(directory, _) => {
            Some(MetaOp::Add(NodeId(tree.next_number()), *caller, *directory))
        }
        TreeOp::Unlink(directory, name) => {
            let child = child_or_none(tree, *directory, name.as_slice());
            Some(MetaOp::Drop(child))
        }
        TreeOp::Rename(directory, name, target, _) => {
            let child = child_or_none(tree, *directory, name.as_slice());
            Some(MetaOp::Move(child, *target))
        }
        _ => None,
    }
}

// The reply of an operation on the tree, with all memory taken in both halves.
fn reserve_tree(
    tree: &mut Tree,
    meta: &mut Meta,
    alloc: Global,
    caller: &Principal,
    op: &TreeOp,
) -> Result<OpReply, OpFault>
    requires { IsAskedOf caller.now tree.old.tree meta.old.marks (tree_part op.now) }
    ensures tree { tree.new.tree ≡ tree.old.tree }
    ensures meta { meta.new.marks ≡ meta.old.marks }
    ensures answer { HalvesReserve caller.now tree.old.tree meta.old.marks (tree_part op.now) result tree.new meta.new }
{
    let reply = tree.reserve(alloc, op)?;
    if let Some(follower) = follower(tree, caller, op) {
        meta.reserve(alloc, &follower)?;
    }
    Ok(OpReply::Tree(reply))
}

// The reply of an operation on owners and attributes, with all memory taken.
fn reserve_meta(meta: &mut Meta, alloc: Global, op: &MetaOp) -> Result<OpReply, OpFault>
    requires { IsAskable meta.old.marks op.now }
    ensures meta { meta.new.marks ≡ meta.old.marks }
    ensures answer { (caller : List ℕ) (tree : TreeView) →
        HalvesReserve caller tree.tree meta.old.marks (meta_part op.now) result tree meta.new }
{
    let reply = meta.reserve(alloc, op)?;
    Ok(OpReply::Meta(reply))
}

// The reply of an operation, with all memory taken in both halves, or its first refusal.
fn reserve_half(
    tree: &mut Tree,
    meta: &mut Meta,
    alloc: Global,
    caller: &Principal,
    half: &Half,
) -> Result<OpReply, OpFault>
    requires { IsAskedOf caller.now tree.old.tree meta.old.marks (part_in half.now) }
    ensures tree { tree.new.tree ≡ tree.old.tree }
    ensures meta { meta.new.marks ≡ meta.old.marks }
    ensures answer { HalvesReserve caller.now tree.old.tree meta.old.marks (part_in half.now) result tree.new meta.new }
{
    match half {
        Half::Tree(op) => reserve_tree(tree, meta, alloc, caller, op),
        Half::Meta(op) => reserve_meta(meta, alloc, op),
    }
}

/// The reply of an operation, with all memory taken in both halves, or its first refusal. Tree and marks stay. After a
/// fault neither half is ready for anything.
pub fn reserve(
    tree: &mut Tree,
    meta: &mut Meta,
    alloc: Global,
    caller: &Principal,
    half: &Half,
) -> Result<OpReply, OpFault>
    requires { IsAskedOf caller.now tree.old.tree meta.old.marks (part_in half.now) }
    ensures tree { tree.new.tree ≡ tree.old.tree }
    ensures meta { meta.new.marks ≡ meta.old.marks }
    ensures answer { HalvesReserve caller.now tree.old.tree meta.old.marks (part_in half.now) result tree.new meta.new }
    ensures tree_given_up { OnErr result (tree.new.ready ≡ None) }
    ensures meta_given_up { OnErr result (meta.new.ready ≡ None) }
{
    match reserve_half(tree, meta, alloc, caller, half) {
        Ok(reply) => Ok(reply),
        Err(fault) => {
            tree.forget();
            meta.forget();
            Err(fault)
        }
    }
}

/// Makes the change of an operation for which both halves are ready; then neither is ready for anything. It takes no
/// memory.
pub fn apply(tree: &mut Tree, meta: &mut Meta, caller: &Principal, half: &Half)
    requires { AreReady caller.now tree.old meta.old (part_in half.now) }
    ensures tree { tree.new.tree ≡ tree_half_after tree.old.tree (part_in half.now) }
    ensures meta { meta.new.marks ≡ marks_followed meta.old.marks (meta_op_of caller.now tree.old.tree (part_in half.now)) }
    ensures tree_ready { tree.new.ready ≡ None }
    ensures meta_ready { meta.new.ready ≡ None }
{
    match half {
        Half::Tree(op) => {
            let follower = follower(tree, caller, op);
            tree.apply(op);
            match follower {
                None => meta.forget(),
                Some(follower) => meta.apply(&follower),
            }
        }
        Half::Meta(op) => {
            tree.forget();
            meta.apply(op);
        }
    }
}
