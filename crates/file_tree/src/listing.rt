//! What an operation answers.

ghost use Rattle.std.specs.Prelude.{◌≡◌, map, None, IfOk, IsTrue};
ghost use Rattle.std.specs.List.Sorted.{IsStrictlySortedBy};
ghost use Rattle.std.specs.Map.{keys_of};
ghost use Rattle.std.specs.Ordering.{nat_cmp};
ghost use Rattle.std.specs.Cmp.Lexicographic.{slice_cmp};
ghost use Rattle.file_world.specs.Tree.{node_at};
ghost use Rattle.file_world.specs.TreeEffect.{contents_of, is_directory, names_in, bytes_in, tree_refusal, tree_reply};
ghost use Rattle.file_tree.specs.Index.{rows_of, named_node, tree_in, IsTreeIndex};

use crate::name::Name;
use crate::node::KeptNodes;
use crate::refusals::child;
use bl_syntax::{Bytes, NoMemory, NodeId};
use file_world::{NamedNode, Names, TreeOp, TreeReply};
use std::alloc::Global;
use std::collections::BTreeMap;

fn bytes_of(
    nodes: &KeptNodes,
    alloc: Global,
    number: u64,
    offset: u64,
    len: u64,
) -> Result<Bytes, NoMemory>
    ensures { IfOk result
        (λ bytes. bytes ≡ bytes_in (contents_of (node_at (rows_of nodes.now.entries) number)) offset len) }
{
    match nodes.get(&number) {
        None => Ok(Bytes::new(alloc)),
        Some(node) => node.contents.part(alloc, offset as usize, len as usize),
    }
}

fn list_entry(alloc: Global, kept: &BTreeMap<Name, u64>) -> Result<Names, NoMemory>
    ensures listed { IfOk result (λ names. names ≡ map named_node kept.now.entries) }
    ensures sorted { IsStrictlySortedBy (slice_cmp nat_cmp) (keys_of kept.now.entries) }
{
    let mut names = Names::new(alloc);
    for (name, number) in kept {
        names.push(NamedNode {
            name: name.short(),
            node: NodeId(*number),
        })?;
    }
    Ok(names)
}

fn names_of(nodes: &KeptNodes, alloc: Global, next: u64, directory: u64) -> Result<Names, NoMemory>
    requires kept { IsTreeIndex nodes.now.entries next None }
    requires holds { IsTrue (is_directory (node_at (rows_of nodes.now.entries) directory)) }
    ensures { IfOk result (λ names. names ≡ names_in (rows_of nodes.now.entries) directory) }
{
    match nodes.get(&directory) {
        None => Ok(Names::new(alloc)),
        Some(node) => list_entry(alloc, &node.names),
    }
}

/// The reply of an operation that is not refused.
pub fn reply(
    nodes: &KeptNodes,
    alloc: Global,
    next: u64,
    op: &TreeOp,
) -> Result<TreeReply, NoMemory>
    requires kept { IsTreeIndex nodes.now.entries next None }
    requires free { tree_refusal (tree_in None nodes.now.entries next) op.now ≡ None }
    ensures { IfOk result (λ reply. reply ≡ tree_reply (tree_in None nodes.now.entries next) op.now) }
{
    match op {
        TreeOp::Read(file, offset, len) => {
            Ok(TreeReply::Bytes(bytes_of(nodes, alloc, file.0, *offset, *len)?))
        }
        TreeOp::List(directory) => {
            Ok(TreeReply::Names(names_of(nodes, alloc, next, directory.0)?))
        }
        TreeOp::Lookup(directory, name) => {
            let number = child(nodes, next, directory.0, name.as_slice()).unwrap_or(0);
            Ok(TreeReply::Node(NodeId(number)))
        }
        TreeOp::Create(_, _) | TreeOp::Mkdir(_, _) => Ok(TreeReply::Node(NodeId(next))),
        TreeOp::Write(_, _, _)
        | TreeOp::Truncate(_, _)
        | TreeOp::Unlink(_, _)
        | TreeOp::Rename(_, _, _, _) => Ok(TreeReply::Done),
    }
}
