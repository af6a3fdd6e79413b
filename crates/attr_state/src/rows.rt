//! Marks as rows, both ways.

ghost use Rattle.std.specs.Prelude.{◌≡◌, map, IfOk};
ghost use Rattle.file_world.specs.Attributes.{AreMarks};
ghost use Rattle.node_rows.specs.Rows.{meta_row};
ghost use Rattle.attr_state.specs.Index.{shown, marks_of};

use crate::mark::{KeptMark, KeptMarks};
use bl_syntax::{NoMemory, NodeId, Sequence};
use node_rows::{MetaRow, MetaRows};
use std::alloc::{AllocFailed, Global};
use std::collections::BTreeMap;

/// The rows of the marks, which keep the marks' attributes. Nothing is copied.
pub fn rows_of(alloc: Global, marks: KeptMarks) -> Result<MetaRows, NoMemory>
    ensures { IfOk result (λ rows. map meta_row rows ≡ marks_of marks.entries) }
{
    let mut rows = Sequence::new(alloc);
    for (number, mark) in marks {
        rows.push(MetaRow {
            number: NodeId(number),
            owner: mark.owner,
            parent: mark.parent,
            attributes: Sequence::from_vec(mark.attributes),
        })?;
    }
    Ok(rows)
}

// The mark of a row, in memory of its own.
fn kept_mark(alloc: Global, row: &MetaRow) -> Result<KeptMark, NoMemory>
    ensures { IfOk result (λ mark. shown mark ≡ (meta_row row.now).1) }
{
    Ok(KeptMark {
        owner: row.owner,
        parent: row.parent,
        attributes: Vec::from_slice(alloc, row.attributes.as_slice())?,
    })
}

/// The marks of the rows, in memory of their own.
pub fn kept_marks(alloc: Global, rows: &[MetaRow]) -> Result<KeptMarks, NoMemory>
    requires { AreMarks (map meta_row rows.now) }
    ensures { IfOk result (λ marks. marks_of marks.entries ≡ map meta_row rows.now) }
{
    let mut marks: KeptMarks = BTreeMap::new(alloc);
    for row in rows {
        let mark = kept_mark(alloc, row)?;
        let put: Result<Option<KeptMark>, AllocFailed<(u64, KeptMark)>> = marks.insert(
            row.number.0,
            mark,
        );
        if put.is_err() {
            return Err(NoMemory);
        }
    }
    Ok(marks)
}
