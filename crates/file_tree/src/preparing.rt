//! The memory for what an operation changes, taken before it.

ghost use Rattle.std.specs.Prelude.{◌≡◌, ◌≤◌, length, None, Some, IsSome, IsOk, IsTrue, IfOk, OnOk, OnErr, unwrap_or};
ghost use Rattle.file_world.specs.Limits.{longest_name};
ghost use Rattle.file_world.specs.Tree.{node_at};
ghost use Rattle.file_world.specs.TreeEffect.{child_of, is_directory, new_node, tree_refusal};
ghost use Rattle.file_tree.specs.Index.{rows_of, kept_at, reserved_at, spot_place, published_nodes, tree_in, IsTreeIndex, Puts, ChangesRoomAlone, AddsLast, Prepares, Stays, AreNumbersBelow};
ghost use Rattle.file_tree.specs.State.{ready_for, spot as spot_at};

use crate::name::Name;
use crate::node::{KeptNode, KeptNodes};
use crate::ready::{Ready, Spot};
use crate::refusals::{child, length_at, written_length};
use bl_syntax::NoMemory;
use file_blocks::FileContents;
use file_world::{Kind, TreeOp};
use std::alloc::{AllocFailed, Global};
use std::collections::BTreeMap;

/// Keeps a number under a name in a directory. It takes no memory if the name is there.
pub fn enter(nodes: &mut KeptNodes, spot: &Spot, number: u64) -> Result<(), NoMemory>
    requires { IsSome (kept_at nodes.old.entries spot.now.directory) }
    ensures ok { OnOk result (Puts nodes.old.entries nodes.new.entries (spot_place spot.now) (Some number)) }
    ensures err { OnErr result (ChangesRoomAlone nodes.old.entries nodes.new.entries) }
    ensures succeeds { IsSome (reserved_at nodes.old.entries spot.now.directory spot.now.name) →
        IsOk result }
{
    let node = nodes.get_mut(&spot.directory).unwrap();
    let put: Result<Option<u64>, AllocFailed<(Name, u64)>> = node.names.insert(spot.name, number);
    match put {
        Ok(_) => Ok(()),
        Err(_) => Err(NoMemory),
    }
}

/// Takes a name out of a directory.
pub fn release(nodes: &mut KeptNodes, spot: &Spot)
    ensures { Puts nodes.old.entries nodes.new.entries (spot_place spot.now) None }
{
    if let Some(node) = nodes.get_mut(&spot.directory) {
        let _ = node.names.remove(&spot.name);
    }
}

fn add(
    nodes: &mut KeptNodes,
    alloc: Global,
    next: u64,
    kind: Kind,
    spot: &Spot,
) -> Result<(), NoMemory>
    requires { AreNumbersBelow nodes.old.entries next }
    ensures ok { OnOk result (AddsLast nodes.old.entries nodes.new.entries next (new_node kind (spot_place spot.now))) }
    ensures err { OnErr result (nodes.new.entries ≡ nodes.old.entries) }
{
    let node = KeptNode {
        kind,
        parent: spot.directory,
        name: spot.name,
        contents: FileContents::new(alloc),
        names: BTreeMap::new(alloc),
    };
    let put: Result<Option<KeptNode>, AllocFailed<(u64, KeptNode)>> = nodes.insert(next, node);
    match put {
        Ok(_) => Ok(()),
        Err(_) => Err(NoMemory),
    }
}

fn prepare_made(
    nodes: &mut KeptNodes,
    alloc: Global,
    next: u64,
    kind: Kind,
    directory: u64,
    name: &[u8],
) -> Result<Ready, NoMemory>
    requires kept { IsTreeIndex nodes.old.entries next None }
    requires short { length name.now ≤ longest_name }
    requires holds { IsTrue (is_directory (node_at (rows_of nodes.old.entries) directory)) }
    requires free { child_of (rows_of nodes.old.entries) directory name.now ≡ None }
    ensures ok { IfOk result (λ ready. (ready ≡ Ready.Made kind (spot_at directory name.now))
        × Prepares nodes.old.entries nodes.new.entries next ready) }
    ensures err { OnErr result (Stays nodes.old.entries nodes.new.entries next) }
{
    let spot = Spot {
        directory,
        name: Name::new(name),
    };
    enter(nodes, &spot, 0)?;
    match add(nodes, alloc, next, kind, &spot) {
        Ok(()) => Ok(Ready::Made(kind, spot)),
        Err(refused) => {
            release(nodes, &spot);
            Err(refused)
        }
    }
}

fn prepare_contents(
    nodes: &mut KeptNodes,
    alloc: Global,
    next: u64,
    number: u64,
    len: u64,
) -> Result<Ready, NoMemory>
    requires kept { IsTreeIndex nodes.old.entries next None }
    requires there { IsSome (kept_at nodes.old.entries number) }
    ensures ok { IfOk result (λ ready. (ready ≡ Ready.Contents number len)
        × Prepares nodes.old.entries nodes.new.entries next ready) }
    ensures err { OnErr result (Stays nodes.old.entries nodes.new.entries next) }
{
    let node = nodes.get_mut(&number).unwrap();
    match node.contents.reserve(alloc, len as usize) {
        Ok(()) => Ok(Ready::Contents(number, len)),
        Err(refused) => Err(refused),
    }
}

fn prepare_moved(
    nodes: &mut KeptNodes,
    next: u64,
    number: u64,
    from: Spot,
    to: Spot,
) -> Result<Ready, NoMemory>
    requires kept { IsTreeIndex nodes.old.entries next None }
    requires holds { IsTrue (is_directory (node_at (rows_of nodes.old.entries) to.directory)) }
    requires free { child_of (rows_of nodes.old.entries) to.directory to.name ≡ None }
    ensures ok { IfOk result (λ ready. (ready ≡ Ready.Moved number from to)
        × Prepares nodes.old.entries nodes.new.entries next ready) }
    ensures err { OnErr result (Stays nodes.old.entries nodes.new.entries next) }
{
    enter(nodes, &to, 0)?;
    Ok(Ready::Moved(number, from, to))
}

/// Takes the memory for what the operation changes.
pub fn prepare(
    nodes: &mut KeptNodes,
    alloc: Global,
    next: u64,
    op: &TreeOp,
) -> Result<Ready, NoMemory>
    requires kept { IsTreeIndex nodes.old.entries next None }
    requires free { tree_refusal (tree_in None nodes.old.entries next) op.now ≡ None }
    ensures ok { IfOk result (λ ready. (ready ≡ ready_for (tree_in None nodes.old.entries next) op.now)
        × Prepares nodes.old.entries nodes.new.entries next ready) }
    ensures err { OnErr result (Stays nodes.old.entries nodes.new.entries next) }
{
    match op {
        TreeOp::Read(_, _, _) | TreeOp::List(_) | TreeOp::Lookup(_, _) => Ok(Ready::Nothing),
        TreeOp::Write(file, offset, bytes) => {
            let len = written_length(length_at(nodes, file.0), *offset, bytes.len() as u64);
            prepare_contents(nodes, alloc, next, file.0, len)
        }
        TreeOp::Truncate(file, len) => prepare_contents(nodes, alloc, next, file.0, *len),
        TreeOp::Create(directory, name) => {
            prepare_made(nodes, alloc, next, Kind::File, directory.0, name.as_slice())
        }
        TreeOp::Mkdir(directory, name) => {
            prepare_made(
                nodes,
                alloc,
                next,
                Kind::Directory,
                directory.0,
                name.as_slice(),
            )
        }
        TreeOp::Unlink(directory, name) => {
            let number = child(nodes, next, directory.0, name.as_slice()).unwrap_or(0);
            let from = Spot {
                directory: directory.0,
                name: Name::new(name.as_slice()),
            };
            Ok(Ready::Gone(number, from))
        }
        TreeOp::Rename(directory, name, target, renamed) => {
            let number = child(nodes, next, directory.0, name.as_slice()).unwrap_or(0);
            let from = Spot {
                directory: directory.0,
                name: Name::new(name.as_slice()),
            };
            let to = Spot {
                directory: target.0,
                name: Name::new(renamed.as_slice()),
            };
            prepare_moved(nodes, next, number, from, to)
        }
    }
}

fn forget_ready(nodes: &mut KeptNodes, next: u64, ready: &Ready)
    requires { IsTreeIndex nodes.old.entries next (Some ready.now) }
    ensures kept { IsTreeIndex nodes.new.entries next None }
    ensures same { rows_of nodes.new.entries ≡ rows_of (published_nodes (Some ready.now) nodes.old.entries) }
{
    match ready {
        Ready::Made(_, spot) => {
            let _ = nodes.remove(&next);
            release(nodes, spot);
        }
        Ready::Moved(_, _, to) => release(nodes, to),
        Ready::Contents(_, _) => {}
        Ready::Gone(_, _) => {}
        Ready::Nothing => {}
    }
}

/// Gives up what is ready.
pub fn forget(nodes: &mut KeptNodes, next: u64, ready: &Option<Ready>)
    requires { IsTreeIndex nodes.old.entries next ready.now }
    ensures kept { IsTreeIndex nodes.new.entries next None }
    ensures same { rows_of nodes.new.entries ≡ rows_of (published_nodes ready.now nodes.old.entries) }
{
    if let Some(ready) = ready {
        forget_ready(nodes, next, ready);
    }
}
