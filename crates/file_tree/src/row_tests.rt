//! Whether rows are sound by themselves. No test takes memory.

ghost use Rattle.std.specs.Prelude.{◌≡◌, ◌+◌, ◌<◌, ◌≤◌, length, map, MatchOption};
ghost use Rattle.std.specs.List.{list_all};
ghost use Rattle.file_world.specs.Limits.{most_bytes_together};
ghost use Rattle.file_world.specs.Tree.{contents_sum};
ghost use Rattle.file_world.specs.TreeEffect.{is_directory_kind};
ghost use Rattle.node_rows.specs.Rows.{tree_row};
ghost use Rattle.file_tree.specs.RowTests.{is_root_row, is_sound_row, is_rising_after, are_sound_others, are_sound_rows};

use file_world::{Kind, MOST_BYTES, MOST_BYTES_TOGETHER, MOST_NODES, ROOT_NUMBER};
use node_rows::TreeRow;
use node_rows::names::is_node_name;

/// Whether it is the kind of a directory.
pub fn is_directory_kind(kind: Kind) -> bool
    ensures { result ≡ is_directory_kind kind }
{
    match kind {
        Kind::File => false,
        Kind::Directory => true,
    }
}

fn is_root_row(row: &TreeRow) -> bool
    ensures { result ≡ is_root_row (tree_row row.now) }
{
    row.number.0 == ROOT_NUMBER
        && is_directory_kind(row.kind)
        && row.parent == 0
        && row.name.bytes().len() == 0
        && row.contents.len() == 0
}

fn is_sound_row(next: u64, row: &TreeRow) -> bool
    ensures { result ≡ is_sound_row next (tree_row row.now) }
{
    row.number.0 < next
        && is_node_name(row.name.bytes())
        && (!is_directory_kind(row.kind) || row.contents.len() == 0)
        && row.contents.len() as u64 <= MOST_BYTES
}

fn are_each_sound(next: u64, rows: &[TreeRow]) -> bool
    ensures { result ≡ list_all (is_sound_row next) (map tree_row rows.now) }
{
    for row in rows {
        if !is_sound_row(next, row) {
            return false;
        }
    }
    true
}

fn is_rising_after(rows: &[TreeRow], after: u64) -> bool
    ensures { result ≡ is_rising_after after (map tree_row rows.now) }
{
    let mut last = after;
    for row in rows {
        if row.number.0 <= last {
            return false;
        }
        last = row.number.0;
    }
    true
}

fn are_sound_others(next: u64, others: &[TreeRow]) -> bool
    ensures { result ≡ are_sound_others next (map tree_row others.now) }
{
    others.len() < MOST_NODES
        && is_rising_after(others, ROOT_NUMBER)
        && are_each_sound(next, others)
}

/// Whether the rows are sound by themselves: the first is the root's, and the numbers of the others rise.
pub fn are_sound_rows(next: u64, rows: &[TreeRow]) -> bool
    ensures { result ≡ are_sound_rows next (map tree_row rows.now) }
{
    match rows {
        [] => false,
        [first, others @ ..] => {
            is_root_row(first) && ROOT_NUMBER < next && are_sound_others(next, others)
        }
    }
}

/// How many bytes all contents have together; none if they are more than a tree may have.
pub fn contents_total(rows: &[TreeRow]) -> Option<u64>
    ensures { MatchOption result (most_bytes_together < contents_sum (map tree_row rows.now))
        (λ total. (total ≡ contents_sum (map tree_row rows.now)) × (total ≤ most_bytes_together)) }
{
    let mut total = 0;
    for row in rows {
        let more = row.contents.len() as u64;
        if MOST_BYTES_TOGETHER - total < more {
            return None;
        }
        total += more;
    }
    Some(total)
}
