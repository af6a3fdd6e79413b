//! The changes that operations make. None of them takes memory.

ghost use Rattle.std.specs.Prelude.{◌≡◌, ◌≤◌, ◌<◌, ◌^◌, ◌+◌, length, Some, IsSome};
ghost use Rattle.file_world.specs.Limits.{longest_name};
ghost use Rattle.file_world.specs.Tree.{node_at, contents_sum};
ghost use Rattle.file_world.specs.TreeEffect.{at, contents_of, write_at, resize_to, tree_after};
ghost use Rattle.file_tree.specs.Index.{rows_of, kept_at, reserved_at, spot_place, published_nodes, tree_in, number_ready, HasContentsRoom, Puts, Fills, Removes, Replaces, Relocates, IsChangeable, Changes};

use crate::name::Name;
use crate::node::KeptNodes;
use crate::preparing::{enter, release};
use crate::ready::{Ready, Spot};
use crate::refusals::length_at;
use bl_syntax::NoMemory;
use file_world::TreeOp;

/// Writes the bytes at the offset in a file, and returns the sum of all contents.
pub fn write(nodes: &mut KeptNodes, total: u64, number: u64, offset: u64, bytes: &[u8]) -> u64
    requires there { HasContentsRoom nodes.old.entries number
        (length (write_at (contents_of (node_at (rows_of nodes.old.entries) number)) offset bytes.now)) }
    requires fits { offset + length bytes.now < 2 ^ 63 }
    requires summed { total ≡ contents_sum (rows_of nodes.old.entries) }
    requires little { total < 2 ^ 62 }
    ensures { Fills nodes.old.entries nodes.new.entries number
        (write_at (contents_of (node_at (rows_of nodes.old.entries) number)) offset bytes.now) result }
{
    let node = nodes.get_mut(&number).unwrap();
    let before = node.contents.len() as u64;
    node.contents.write(offset as usize, bytes);
    let after = node.contents.len() as u64;
    total - before + after
}

/// Cuts a file to a length, or fills it up to it, and returns the sum of all contents.
pub fn truncate(nodes: &mut KeptNodes, total: u64, number: u64, len: u64) -> u64
    requires there { HasContentsRoom nodes.old.entries number len }
    requires fits { len < 2 ^ 63 }
    requires summed { total ≡ contents_sum (rows_of nodes.old.entries) }
    requires little { total < 2 ^ 62 }
    ensures { Fills nodes.old.entries nodes.new.entries number
        (resize_to (contents_of (node_at (rows_of nodes.old.entries) number)) len) result }
{
    let node = nodes.get_mut(&number).unwrap();
    let before = node.contents.len() as u64;
    node.contents.resize(len as usize);
    total - before + len
}

/// Removes a node and its name, and returns the sum of all contents.
pub fn unlink(nodes: &mut KeptNodes, total: u64, number: u64, spot: &Spot) -> u64
    requires there { IsSome (kept_at nodes.old.entries number) }
    requires summed { total ≡ contents_sum (rows_of nodes.old.entries) }
    ensures { Removes nodes.old.entries nodes.new.entries number (spot_place spot.now) result }
{
    let freed = length_at(nodes, number);
    let _ = nodes.remove(&number);
    release(nodes, spot);
    total - freed
}

fn set_place(nodes: &mut KeptNodes, number: u64, to: &Spot)
    requires { IsSome (kept_at nodes.old.entries number) }
    ensures { Replaces nodes.old.entries nodes.new.entries number (spot_place to.now) }
{
    let node = nodes.get_mut(&number).unwrap();
    node.parent = to.directory;
    node.name = to.name;
}

/// Moves a node from one place to another, whose name is held.
pub fn relocate(nodes: &mut KeptNodes, number: u64, from: &Spot, to: &Spot)
    requires there { IsSome (kept_at nodes.old.entries number) }
    requires holds { IsSome (kept_at nodes.old.entries to.now.directory) }
    requires held { IsSome (reserved_at nodes.old.entries to.now.directory to.now.name) }
    ensures { Relocates nodes.old.entries nodes.new.entries number (spot_place from.now) (spot_place to.now) }
{
    let entered: Result<(), NoMemory> = enter(nodes, to, number);
    entered.unwrap();
    release(nodes, from);
    set_place(nodes, number, to);
}

/// Makes the node that is ready stand at its place.
pub fn publish(nodes: &mut KeptNodes, next: u64, spot: &Spot)
    requires holds { IsSome (kept_at nodes.old.entries spot.now.directory) }
    requires held { IsSome (reserved_at nodes.old.entries spot.now.directory spot.now.name) }
    ensures { Puts nodes.old.entries nodes.new.entries (spot_place spot.now) (Some next) }
{
    let entered: Result<(), NoMemory> = enter(nodes, spot, next);
    entered.unwrap();
}

fn number_of(ready: &Ready) -> u64
    ensures { result ≡ number_ready ready.now }
{
    match ready {
        Ready::Gone(number, _) => *number,
        Ready::Moved(number, _, _) => *number,
        Ready::Contents(_, _) => 0,
        Ready::Made(_, _) => 0,
        Ready::Nothing => 0,
    }
}

fn make(nodes: &mut KeptNodes, next: u64, directory: u64, name: &[u8])
    requires short { length name.now ≤ longest_name }
    requires holds { IsSome (kept_at nodes.old.entries directory) }
    requires held { IsSome (reserved_at nodes.old.entries directory name.now) }
    ensures { Puts nodes.old.entries nodes.new.entries (at directory name.now) (Some next) }
{
    let spot = Spot {
        directory,
        name: Name::new(name),
    };
    publish(nodes, next, &spot);
}

fn remove(nodes: &mut KeptNodes, total: u64, number: u64, directory: u64, name: &[u8]) -> u64
    requires short { length name.now ≤ longest_name }
    requires there { IsSome (kept_at nodes.old.entries number) }
    requires summed { total ≡ contents_sum (rows_of nodes.old.entries) }
    ensures { Removes nodes.old.entries nodes.new.entries number (at directory name.now) result }
{
    let spot = Spot {
        directory,
        name: Name::new(name),
    };
    unlink(nodes, total, number, &spot)
}

fn rename(
    nodes: &mut KeptNodes,
    number: u64,
    directory: u64,
    name: &[u8],
    target: u64,
    renamed: &[u8],
)
    requires short { length name.now ≤ longest_name }
    requires short_too { length renamed.now ≤ longest_name }
    requires there { IsSome (kept_at nodes.old.entries number) }
    requires holds { IsSome (kept_at nodes.old.entries target) }
    requires held { IsSome (reserved_at nodes.old.entries target renamed.now) }
    ensures { Relocates nodes.old.entries nodes.new.entries number (at directory name.now) (at target renamed.now) }
{
    let from = Spot {
        directory,
        name: Name::new(name),
    };
    let to = Spot {
        directory: target,
        name: Name::new(renamed),
    };
    relocate(nodes, number, &from, &to);
}

/// Makes the change of the operation that is ready.
pub fn change(nodes: &mut KeptNodes, next: &mut u64, total: &mut u64, ready: &Ready, op: &TreeOp)
    requires ready { IsChangeable nodes.old.entries next.old ready.now op.now }
    requires summed { total.old ≡ contents_sum (rows_of (published_nodes (Some ready.now) nodes.old.entries)) }
    ensures { Changes nodes.new.entries next.new total.new
        (tree_after (tree_in (Some ready.now) nodes.old.entries next.old) op.now) }
{
    match op {
        TreeOp::Read(_, _, _) => {}
        TreeOp::List(_) => {}
        TreeOp::Lookup(_, _) => {}
        TreeOp::Write(file, offset, bytes) => {
            *total = write(nodes, *total, file.0, *offset, bytes.as_slice());
        }
        TreeOp::Truncate(file, len) => *total = truncate(nodes, *total, file.0, *len),
        TreeOp::Create(directory, name) => {
            make(nodes, *next, directory.0, name.as_slice());
            *next += 1;
        }
        TreeOp::Mkdir(directory, name) => {
            make(nodes, *next, directory.0, name.as_slice());
            *next += 1;
        }
        TreeOp::Unlink(directory, name) => {
            let number = number_of(ready);
            *total = remove(nodes, *total, number, directory.0, name.as_slice());
        }
        TreeOp::Rename(directory, name, target, renamed) => {
            let number = number_of(ready);
            rename(
                nodes,
                number,
                directory.0,
                name.as_slice(),
                target.0,
                renamed.as_slice(),
            );
        }
    }
}
