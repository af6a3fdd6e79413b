//! Which half of the world an operation falls to.

ghost use Rattle.std.specs.Prelude.{◌≡◌, IsSome, Some};
ghost use Rattle.file_world.specs.Effect.{IsOperation, meta_part, part_of, tree_part};
ghost use Rattle.world_state.specs.Halves.{part_in, op_in};

use file_world::{MetaOp, Op, TreeOp};

/// An operation of the half of the world to which it falls.
#[derive(Debug, Drop)]
pub enum Half {
    Tree(TreeOp),
    Meta(MetaOp),
}

/// The half's operation. Nothing is copied.
pub fn half_of(op: Op) -> Half
    ensures { part_in result ≡ part_of op }
{
    match op {
        Op::Read(file, offset, len) => Half::Tree(TreeOp::Read(file, offset, len)),
        Op::Write(file, offset, bytes) => Half::Tree(TreeOp::Write(file, offset, bytes)),
        Op::Truncate(file, len) => Half::Tree(TreeOp::Truncate(file, len)),
        Op::List(directory) => Half::Tree(TreeOp::List(directory)),
        Op::Lookup(directory, name) => Half::Tree(TreeOp::Lookup(directory, name)),
        Op::Create(directory, name) => Half::Tree(TreeOp::Create(directory, name)),
        Op::Mkdir(directory, name) => Half::Tree(TreeOp::Mkdir(directory, name)),
        Op::Unlink(directory, name) => Half::Tree(TreeOp::Unlink(directory, name)),
        Op::Rename(directory, name, target, renamed) => {
            Half::Tree(TreeOp::Rename(directory, name, target, renamed))
        }
        Op::Getattr(node, name) => Half::Meta(MetaOp::Get(node, name)),
        Op::Setattr(node, name, value) => Half::Meta(MetaOp::Set(node, name, value)),
        Op::Delattr(node, name) => Half::Meta(MetaOp::Remove(node, name)),
        Op::Chown(node, owner) => Half::Meta(MetaOp::Chown(node, owner)),
    }
}

// The operation again of which this is the tree's.
fn op_of_tree(op: TreeOp) -> Op
    ensures { op_in (tree_part op) ≡ Some result }
{
    match op {
        TreeOp::Read(file, offset, len) => Op::Read(file, offset, len),
        TreeOp::Write(file, offset, bytes) => Op::Write(file, offset, bytes),
        TreeOp::Truncate(file, len) => Op::Truncate(file, len),
        TreeOp::List(directory) => Op::List(directory),
        TreeOp::Lookup(directory, name) => Op::Lookup(directory, name),
        TreeOp::Create(directory, name) => Op::Create(directory, name),
        TreeOp::Mkdir(directory, name) => Op::Mkdir(directory, name),
        TreeOp::Unlink(directory, name) => Op::Unlink(directory, name),
        TreeOp::Rename(directory, name, target, renamed) => {
            Op::Rename(directory, name, target, renamed)
        }
    }
}

// The operation again of which this is that of owners and attributes. No operation is one of the last three, which
// only follow the tree.
fn op_of_meta(op: MetaOp) -> Op
    requires { IsSome (op_in (meta_part op)) }
    ensures { op_in (meta_part op) ≡ Some result }
{
    match op {
        MetaOp::Get(node, name) => Op::Getattr(node, name),
        MetaOp::Set(node, name, value) => Op::Setattr(node, name, value),
        MetaOp::Remove(node, name) => Op::Delattr(node, name),
        MetaOp::Chown(node, owner) => Op::Chown(node, owner),
        MetaOp::Add(_node, _owner, _parent) => unreachable!(),
        MetaOp::Drop(_node) => unreachable!(),
        MetaOp::Move(_node, _parent) => unreachable!(),
    }
}

/// The operation again of which this is the half's. Nothing is copied.
pub fn op_of(half: Half) -> Op
    requires { IsSome (op_in (part_in half)) }
    ensures { op_in (part_in half) ≡ Some result }
{
    match half {
        Half::Tree(op) => op_of_tree(op),
        Half::Meta(op) => op_of_meta(op),
    }
}

/// The owner that an operation brings is a principal's name, and its value a text, since their types say so.
pub fn is_operation(op: &Op)
    ensures { IsOperation op.now }
{
    match op {
        Op::Setattr(_, _, value) => {
            let _ = value.bytes();
        }
        Op::Chown(_, owner) => {
            let _ = owner.bytes();
        }
        _ => {}
    }
}
