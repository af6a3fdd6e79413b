//! Nodes of rows: first each under its number, then the names in their directories, then the ways to the root.

ghost use Rattle.std.specs.Prelude.{◌≡◌, ◌≤◌, ◌<◌, ◌++◌, ◌∷◌, [], length, map, true, None, IfOk, OnOk, OnErr};
ghost use Rattle.std.specs.List.{list_all};
ghost use Rattle.std.specs.List.Sorted.{IsStrictlySortedBy};
ghost use Rattle.std.specs.Map.{keys_of};
ghost use Rattle.std.specs.Ordering.{nat_cmp};
ghost use Rattle.file_world.specs.Limits.{most_bytes_together};
ghost use Rattle.file_world.specs.Tree.{contents_sum, IsTree};
ghost use Rattle.node_rows.specs.Rows.{tree_row};
ghost use Rattle.file_tree.specs.Index.{node_shown, rows_of, IsTreeIndex, AreNumbersBelow, Changes};
ghost use Rattle.file_tree.specs.RowTests.{IfNotTree, are_sound_rows, ShowsRows, AreNamed, NamesRows, is_free_place, leads_below};

use crate::name::Name;
use crate::node::{KeptNode, KeptNodes};
use crate::preparing::enter;
use crate::ready::Spot;
use crate::row_tests::{are_sound_rows, contents_total, is_directory_kind};
use bl_syntax::NoMemory;
use file_blocks::FileContents;
use node_rows::{RowsFault, TreeRow};
use std::alloc::{AllocFailed, Global};
use std::collections::BTreeMap;

// ---- each node under its number

fn node_of(alloc: Global, row: &TreeRow) -> Result<KeptNode, NoMemory>
    ensures shows { IfOk result (λ node. node_shown node ≡ (tree_row row.now).1) }
    ensures no_names { IfOk result (λ node. node.names.entries ≡ []) }
{
    Ok(KeptNode {
        kind: row.kind,
        parent: row.parent,
        name: Name::of_short(row.name),
        contents: FileContents::from_bytes(alloc, row.contents.as_slice())?,
        names: BTreeMap::new(alloc),
    })
}

fn put_last(nodes: &mut KeptNodes, number: u64, node: KeptNode) -> Result<(), NoMemory>
    requires { AreNumbersBelow nodes.old.entries number }
    ensures ok { OnOk result (nodes.new.entries ≡ nodes.old.entries ++ (number, node) ∷ []) }
    ensures err { OnErr result (nodes.new.entries ≡ nodes.old.entries) }
{
    let put: Result<Option<KeptNode>, AllocFailed<(u64, KeptNode)>> = nodes.insert(number, node);
    match put {
        Ok(_) => Ok(()),
        Err(_) => Err(NoMemory),
    }
}

fn put_nodes(alloc: Global, rows: &[TreeRow]) -> Result<KeptNodes, NoMemory>
    requires { IsStrictlySortedBy nat_cmp (keys_of (map tree_row rows.now)) }
    ensures { IfOk result (λ nodes. ShowsRows nodes.entries (map tree_row rows.now)) }
{
    let mut nodes: KeptNodes = BTreeMap::new(alloc);
    for row in rows {
        let node = node_of(alloc, row)?;
        put_last(&mut nodes, row.number.0, node)?;
    }
    Ok(nodes)
}

// ---- the names in the directories

fn is_free_place(nodes: &KeptNodes, row: &TreeRow) -> bool
    ensures { result ≡ is_free_place nodes.now.entries (tree_row row.now).1.place }
{
    match nodes.get(&row.parent) {
        None => false,
        Some(node) => {
            is_directory_kind(node.kind) && node.names.get(&Name::of_short(row.name)).is_none()
        }
    }
}

fn enter_names(nodes: &mut KeptNodes, rows: &[TreeRow]) -> Result<(), RowsFault>
    requires { ShowsRows nodes.old.entries (rows_of nodes.old.entries) }
    ensures named { OnOk result (NamesRows nodes.new.entries (rows_of nodes.old.entries) (map tree_row rows.now)) }
    ensures refused { IfNotTree result (AreNamed (rows_of nodes.old.entries) (map tree_row rows.now) → ⊥) }
{
    for row in rows {
        if !is_free_place(nodes, row) {
            return Err(RowsFault::NotTree);
        }
        let spot = Spot {
            directory: row.parent,
            name: Name::of_short(row.name),
        };
        enter(nodes, &spot, row.number.0)?;
    }
    Ok(())
}

// ---- the ways to the root

fn leads_below(nodes: &KeptNodes, bound: u64, start: u64) -> bool
    ensures { result
        ≡ leads_below (length (rows_of nodes.now.entries)) (rows_of nodes.now.entries) bound start }
{
    let mut number = start;
    for _step in 0..nodes.len() {
        if number < bound {
            return true;
        }
        match nodes.get(&number) {
            None => return false,
            Some(node) => number = node.parent,
        }
    }
    false
}

fn do_lead(nodes: &KeptNodes, rows: &[TreeRow]) -> bool
    ensures { result
        ≡ list_all (λ row. leads_below (length (rows_of nodes.now.entries)) (rows_of nodes.now.entries) row.number.0 row.parent) rows.now }
{
    rows.iter()
        .all(|row| leads_below(nodes, row.number.0, row.parent))
}

fn nodes_of_rows(alloc: Global, next: u64, rows: &[TreeRow]) -> Result<KeptNodes, RowsFault>
    requires sound { are_sound_rows next (map tree_row rows.now) ≡ true }
    requires fits { contents_sum (map tree_row rows.now) ≤ most_bytes_together }
    ensures kept { IfOk result (λ nodes. IsTreeIndex nodes.entries next None) }
    ensures same { IfOk result (λ nodes. rows_of nodes.entries ≡ map tree_row rows.now) }
    ensures refused { IfNotTree result (IsTree (record { rows = map tree_row rows.now; next = next }) → ⊥) }
{
    let [_root, others @ ..] = rows else {
        return Err(RowsFault::NotTree);
    };
    let mut nodes = put_nodes(alloc, rows)?;
    enter_names(&mut nodes, others)?;
    if do_lead(&nodes, others) {
        Ok(nodes)
    } else {
        Err(RowsFault::NotTree)
    }
}

/// The nodes of the rows, with the names in their directories, and how many bytes all contents have together.
pub fn tree_of_rows(
    alloc: Global,
    next: u64,
    rows: &[TreeRow],
) -> Result<(KeptNodes, u64), RowsFault>
    ensures made { IfOk result
        (λ made. Changes made.0.entries next made.1 (record { rows = map tree_row rows.now; next = next })) }
    ensures refused { IfNotTree result (IsTree (record { rows = map tree_row rows.now; next = next }) → ⊥) }
{
    if !are_sound_rows(next, rows) {
        return Err(RowsFault::NotTree);
    }
    match contents_total(rows) {
        None => Err(RowsFault::NotTree),
        Some(total) => Ok((nodes_of_rows(alloc, next, rows)?, total)),
    }
}
