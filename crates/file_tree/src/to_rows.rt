//! The rows of the nodes.

ghost use Rattle.std.specs.Prelude.{◌≡◌, ◌-◌, length, map, take, IfOk};
ghost use Rattle.node_rows.specs.Rows.{tree_row};
ghost use Rattle.file_tree.specs.Index.{node_shown, rows_of, published_nodes, without_unpublished};

use crate::node::{KeptNode, KeptNodes};
use crate::ready::Ready;
use bl_syntax::{NoMemory, NodeId};
use node_rows::{TreeRow, TreeRows};
use std::alloc::Global;

fn row_of(alloc: Global, number: u64, node: &KeptNode) -> Result<TreeRow, NoMemory>
    ensures { IfOk result (λ row. tree_row row ≡ (number, node_shown node.now)) }
{
    Ok(TreeRow {
        number: NodeId(number),
        kind: node.kind,
        parent: node.parent,
        name: node.name.short(),
        contents: node.contents.to_bytes(alloc)?,
    })
}

fn rows_of_all(alloc: Global, nodes: &KeptNodes) -> Result<TreeRows, NoMemory>
    ensures { IfOk result (λ rows. map tree_row rows ≡ rows_of nodes.now.entries) }
{
    let mut rows = TreeRows::new(alloc);
    for (number, node) in nodes {
        rows.push(row_of(alloc, *number, node)?)?;
    }
    Ok(rows)
}

fn without_last(mut rows: TreeRows) -> TreeRows
    ensures { result ≡ take (length rows - 1) rows }
{
    let before_last = rows.len().saturating_sub(1);
    rows.truncate(before_last);
    rows
}

fn without_unpublished(rows: TreeRows, ready: &Option<Ready>) -> TreeRows
    ensures { result ≡ without_unpublished ready.now rows }
{
    match ready {
        None => rows,
        Some(Ready::Made(_, _)) => without_last(rows),
        Some(Ready::Nothing) => rows,
        Some(Ready::Contents(_, _)) => rows,
        Some(Ready::Gone(_, _)) => rows,
        Some(Ready::Moved(_, _, _)) => rows,
    }
}

/// The rows of the nodes, without one that is only ready to be made, which is the last.
pub fn published_rows(
    alloc: Global,
    nodes: &KeptNodes,
    ready: &Option<Ready>,
) -> Result<TreeRows, NoMemory>
    ensures { IfOk result (λ rows. map tree_row rows ≡ rows_of (published_nodes ready.now nodes.now.entries)) }
{
    let rows = rows_of_all(alloc, nodes)?;
    Ok(without_unpublished(rows, ready))
}
