//! The first refusal of an operation.

ghost use Rattle.std.specs.Prelude.{◌≡◌, ◌≤◌, ◌+◌, ◌-◌, ◌^◌, ◌<◌, length, None, Some, nat_le, if◌then◌else◌, option_map, max};
ghost use Rattle.file_world.specs.Limits.{longest_name};
ghost use Rattle.file_world.specs.Outcome.{first_of};
ghost use Rattle.file_world.specs.Tree.{node_at, contents_sum};
ghost use Rattle.file_world.specs.TreeEffect.{file_tests, directory_tests, name_tests, length_tests, write_tests, truncate_tests, lookup_tests, make_tests, unlink_tests, rename_tests, tree_refusal, contents_of, child_of, has_names, is_full, has_way_past, length_after, is_directory};
ghost use Rattle.file_tree.specs.Index.{rows_of, reserved_at, tree_in, IsTreeIndex};

use crate::name::Name;
use crate::node::KeptNodes;
use file_world::{
    Kind, LAST_NUMBER, LONGEST_NAME, MOST_BYTES, MOST_BYTES_TOGETHER, MOST_NODES, ROOT_NUMBER,
    Refusal, TreeOp,
};
use node_rows::names::is_node_name;

fn kind_at(nodes: &KeptNodes, number: u64) -> Option<Kind>
    ensures { result ≡ option_map (λ node. node.kind) (node_at (rows_of nodes.now.entries) number) }
{
    match nodes.get(&number) {
        None => None,
        Some(node) => Some(node.kind),
    }
}

/// Whether the number is that of a directory that is kept, also of one that is only ready to be made.
pub fn is_directory(nodes: &KeptNodes, number: u64) -> bool
    ensures { result ≡ is_directory (node_at (rows_of nodes.now.entries) number) }
{
    match kind_at(nodes, number) {
        None => false,
        Some(Kind::File) => false,
        Some(Kind::Directory) => true,
    }
}

fn file_refusal(nodes: &KeptNodes, number: u64) -> Option<Refusal>
    ensures { result ≡ first_of (file_tests (rows_of nodes.now.entries) number) }
{
    match kind_at(nodes, number) {
        None => Some(Refusal::NoNode),
        Some(Kind::Directory) => Some(Refusal::IsDirectory),
        Some(Kind::File) => None,
    }
}

fn directory_refusal(nodes: &KeptNodes, number: u64) -> Option<Refusal>
    ensures { result ≡ first_of (directory_tests (rows_of nodes.now.entries) number) }
{
    match kind_at(nodes, number) {
        None => Some(Refusal::NoNode),
        Some(Kind::File) => Some(Refusal::NotDirectory),
        Some(Kind::Directory) => None,
    }
}

fn name_refusal(nodes: &KeptNodes, directory: u64, name: &[u8]) -> Option<Refusal>
    ensures { result ≡ first_of (name_tests (rows_of nodes.now.entries) directory name.now) }
{
    if let Some(refusal) = directory_refusal(nodes, directory) {
        return Some(refusal);
    }
    if is_node_name(name) {
        None
    } else {
        Some(Refusal::BadName)
    }
}

/// What the directory keeps under the name.
pub fn number_in(nodes: &KeptNodes, directory: u64, name: &[u8]) -> Option<u64>
    ensures { result
        ≡ (if nat_le (length name.now) longest_name then reserved_at nodes.now.entries directory name.now else None) }
{
    if LONGEST_NAME < name.len() {
        return None;
    }
    let name = Name::new(name);
    match nodes.get(&directory) {
        None => None,
        Some(node) => node.names.get(&name).copied(),
    }
}

/// The child of the directory under the name, while nothing is ready.
pub fn child(nodes: &KeptNodes, next: u64, directory: u64, name: &[u8]) -> Option<u64>
    requires { IsTreeIndex nodes.now.entries next None }
    ensures { result ≡ child_of (rows_of nodes.now.entries) directory name.now }
{
    number_in(nodes, directory, name)
}

fn has_names(nodes: &KeptNodes, next: u64, directory: u64) -> bool
    requires kept { IsTreeIndex nodes.now.entries next None }
    requires there { 1 ≤ directory }
    ensures { result ≡ has_names (rows_of nodes.now.entries) directory }
{
    match nodes.get(&directory) {
        None => false,
        Some(node) => !node.names.is_empty(),
    }
}

fn is_full(nodes: &KeptNodes, next: u64) -> bool
    ensures { result ≡ is_full (tree_in None nodes.now.entries next) }
{
    MOST_NODES <= nodes.len() || next == LAST_NUMBER
}

/// Whether the walk from a node to the root meets no avoided node.
fn has_way_past(nodes: &KeptNodes, avoided: u64, start: u64) -> bool
    ensures { result
        ≡ has_way_past (length (rows_of nodes.now.entries)) (rows_of nodes.now.entries) avoided start }
{
    let mut number = start;
    for _step in 0..nodes.len() {
        if number == avoided {
            return false;
        }
        if number == ROOT_NUMBER {
            return true;
        }
        match nodes.get(&number) {
            None => return false,
            Some(node) => number = node.parent,
        }
    }
    false
}

/// How many bytes the node of that number has.
pub fn length_at(nodes: &KeptNodes, number: u64) -> u64
    ensures { result ≡ length (contents_of (node_at (rows_of nodes.now.entries) number)) }
{
    match nodes.get(&number) {
        None => 0,
        Some(node) => node.contents.len() as u64,
    }
}

/// The length of contents of `old` bytes after `len` bytes were written at an offset.
pub fn written_length(old: u64, offset: u64, len: u64) -> u64
    requires { offset + len < 2 ^ 64 }
    ensures { result ≡ length_after old offset len }
{
    if len == 0 { old } else { old.max(offset + len) }
}

fn size_refusal(
    nodes: &KeptNodes,
    next: u64,
    total: u64,
    number: u64,
    end: u64,
    len: u64,
) -> Option<Refusal>
    requires kept { IsTreeIndex nodes.now.entries next None }
    requires summed { total ≡ contents_sum (rows_of nodes.now.entries) }
    requires within { len ≤ max end (length (contents_of (node_at (rows_of nodes.now.entries) number))) }
    ensures { result ≡ first_of (length_tests (rows_of nodes.now.entries) number end len) }
{
    if MOST_BYTES < end {
        return Some(Refusal::TooBig);
    }
    if MOST_BYTES_TOGETHER < total - length_at(nodes, number) + len {
        return Some(Refusal::TreeFull);
    }
    None
}

fn write_refusal(
    nodes: &KeptNodes,
    next: u64,
    total: u64,
    number: u64,
    offset: u64,
    bytes: &[u8],
) -> Option<Refusal>
    requires kept { IsTreeIndex nodes.now.entries next None }
    requires summed { total ≡ contents_sum (rows_of nodes.now.entries) }
    ensures { result
        ≡ first_of (write_tests (rows_of nodes.now.entries) number offset bytes.now) }
{
    if let Some(refusal) = file_refusal(nodes, number) {
        return Some(refusal);
    }
    let len = bytes.len() as u64;
    let Some(end) = offset.checked_add(len) else {
        return Some(Refusal::TooBig);
    };
    let after = written_length(length_at(nodes, number), offset, len);
    size_refusal(nodes, next, total, number, end, after)
}

fn truncate_refusal(
    nodes: &KeptNodes,
    next: u64,
    total: u64,
    number: u64,
    len: u64,
) -> Option<Refusal>
    requires kept { IsTreeIndex nodes.now.entries next None }
    requires summed { total ≡ contents_sum (rows_of nodes.now.entries) }
    ensures { result ≡ first_of (truncate_tests (rows_of nodes.now.entries) number len) }
{
    if let Some(refusal) = file_refusal(nodes, number) {
        return Some(refusal);
    }
    size_refusal(nodes, next, total, number, len, len)
}

fn lookup_refusal(nodes: &KeptNodes, next: u64, directory: u64, name: &[u8]) -> Option<Refusal>
    requires { IsTreeIndex nodes.now.entries next None }
    ensures { result ≡ first_of (lookup_tests (rows_of nodes.now.entries) directory name.now) }
{
    if let Some(refusal) = name_refusal(nodes, directory, name) {
        return Some(refusal);
    }
    match child(nodes, next, directory, name) {
        None => Some(Refusal::NoEntry),
        Some(_) => None,
    }
}

fn make_refusal(nodes: &KeptNodes, next: u64, directory: u64, name: &[u8]) -> Option<Refusal>
    requires { IsTreeIndex nodes.now.entries next None }
    ensures { result ≡ first_of (make_tests (tree_in None nodes.now.entries next) directory name.now) }
{
    if let Some(refusal) = name_refusal(nodes, directory, name) {
        return Some(refusal);
    }
    if child(nodes, next, directory, name).is_some() {
        return Some(Refusal::Exists);
    }
    if is_full(nodes, next) {
        Some(Refusal::TreeFull)
    } else {
        None
    }
}

fn unlink_refusal(nodes: &KeptNodes, next: u64, directory: u64, name: &[u8]) -> Option<Refusal>
    requires { IsTreeIndex nodes.now.entries next None }
    ensures { result ≡ first_of (unlink_tests (rows_of nodes.now.entries) directory name.now) }
{
    if let Some(refusal) = name_refusal(nodes, directory, name) {
        return Some(refusal);
    }
    let Some(number) = child(nodes, next, directory, name) else {
        return Some(Refusal::NoEntry);
    };
    if has_names(nodes, next, number) {
        Some(Refusal::NotEmpty)
    } else {
        None
    }
}

fn rename_refusal(
    nodes: &KeptNodes,
    next: u64,
    directory: u64,
    name: &[u8],
    target: u64,
    renamed: &[u8],
) -> Option<Refusal>
    requires { IsTreeIndex nodes.now.entries next None }
    ensures { result
        ≡ first_of (rename_tests (rows_of nodes.now.entries) directory name.now target renamed.now) }
{
    if let Some(refusal) = name_refusal(nodes, directory, name) {
        return Some(refusal);
    }
    if let Some(refusal) = name_refusal(nodes, target, renamed) {
        return Some(refusal);
    }
    let Some(number) = child(nodes, next, directory, name) else {
        return Some(Refusal::NoEntry);
    };
    if !has_way_past(nodes, number, target) {
        return Some(Refusal::IntoItself);
    }
    if child(nodes, next, target, renamed).is_some() {
        Some(Refusal::Exists)
    } else {
        None
    }
}

/// The first refusal of an operation; none if nothing refuses it.
pub fn refusal(nodes: &KeptNodes, next: u64, total: u64, op: &TreeOp) -> Option<Refusal>
    requires kept { IsTreeIndex nodes.now.entries next None }
    requires summed { total ≡ contents_sum (rows_of nodes.now.entries) }
    ensures { result ≡ tree_refusal (tree_in None nodes.now.entries next) op.now }
{
    match op {
        TreeOp::Read(file, _, _) => file_refusal(nodes, file.0),
        TreeOp::Write(file, offset, bytes) => {
            write_refusal(nodes, next, total, file.0, *offset, bytes.as_slice())
        }
        TreeOp::Truncate(file, len) => truncate_refusal(nodes, next, total, file.0, *len),
        TreeOp::List(directory) => directory_refusal(nodes, directory.0),
        TreeOp::Lookup(directory, name) => lookup_refusal(
            nodes,
            next,
            directory.0,
            name.as_slice(),
        ),
        TreeOp::Create(directory, name) => make_refusal(nodes, next, directory.0, name.as_slice()),
        TreeOp::Mkdir(directory, name) => make_refusal(nodes, next, directory.0, name.as_slice()),
        TreeOp::Unlink(directory, name) => unlink_refusal(
            nodes,
            next,
            directory.0,
            name.as_slice(),
        ),
        TreeOp::Rename(directory, name, target, renamed) => rename_refusal(
            nodes,
            next,
            directory.0,
            name.as_slice(),
            target.0,
            renamed.as_slice(),
        ),
    }
}
