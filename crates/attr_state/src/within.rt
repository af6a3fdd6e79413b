//! Whether rows are marks within the limits. Nothing here takes memory.

ghost use Rattle.std.specs.Prelude.{◌≡◌, ◌↔◌, map, IsTrue};
ghost use Rattle.std.specs.List.{list_all, AllByRecursion};
ghost use Rattle.std.specs.List.Sorted.{IsStrictlySortedBy};
ghost use Rattle.std.specs.Map.{keys_of};
ghost use Rattle.std.specs.Ordering.{nat_cmp};
ghost use Rattle.std.specs.Cmp.Lexicographic.{slice_cmp};
ghost use Rattle.bl_syntax.specs.Names.{is_text};
ghost use Rattle.file_world.specs.FileNames.{is_attribute_name};
ghost use Rattle.file_world.specs.Attributes.{IsMark, AreMarks};
ghost use Rattle.node_rows.specs.Rows.{meta_row};
ghost use Rattle.attr_state.specs.Index.{AreSorted};

use crate::attributes::compare;
use file_world::MOST_ATTRIBUTES;
use node_rows::names::is_attribute_name;
use node_rows::{MetaRow, RowAttribute};

fn are_named(attributes: &[RowAttribute]) -> bool
    ensures { result ≡ list_all (λ attribute. is_attribute_name attribute.0) attributes.now }
{
    attributes
        .iter()
        .all(|attribute| is_attribute_name(attribute.0.bytes()))
}

// Whether the names rise in byte order.
fn do_names_rise(attributes: &[RowAttribute]) -> bool
    ensures { IsTrue result ↔ AreSorted attributes.now }
{
    attributes.is_sorted_by(|one, next| compare(one, next.0.bytes()).is_lt())
}

// The values are texts, since their type says so.
fn are_texts(attributes: &[RowAttribute])
    ensures { AllByRecursion (λ attribute. IsTrue (is_text attribute.1)) attributes.now }
{
    for attribute in attributes {
        let _ = attribute.1.bytes();
    }
}

fn is_mark(row: &MetaRow) -> bool
    ensures { IsTrue result ↔ IsMark (meta_row row.now).1 }
{
    let attributes = row.attributes.as_slice();
    let _ = row.owner.bytes();
    are_texts(attributes);
    if MOST_ATTRIBUTES < attributes.len() {
        return false;
    }
    if !are_named(attributes) {
        return false;
    }
    do_names_rise(attributes)
}

fn do_numbers_rise(rows: &[MetaRow]) -> bool
    ensures { IsTrue result ↔ IsStrictlySortedBy nat_cmp (keys_of (map meta_row rows.now)) }
{
    rows.is_sorted_by(|row, next| row.number.0 < next.number.0)
}

fn are_each_marks(rows: &[MetaRow]) -> bool
    ensures { IsTrue result ↔ AllByRecursion (λ row. IsMark (meta_row row).1) rows.now }
{
    for row in rows {
        if !is_mark(row) {
            return false;
        }
    }
    true
}

/// Whether the rows are marks within the limits.
pub fn are_marks(rows: &[MetaRow]) -> bool
    ensures { IsTrue result ↔ AreMarks (map meta_row rows.now) }
{
    if !do_numbers_rise(rows) {
        return false;
    }
    are_each_marks(rows)
}
