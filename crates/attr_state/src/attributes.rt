//! The attributes of a node: values under names, in the byte order of the names.

ghost use Rattle.std.specs.Prelude.{◌≡◌, ◌≤◌, length, IfOk, IfErr, vec_capacity};
ghost use Rattle.std.specs.List.Sorted.{IsSearchInRange};
ghost use Rattle.std.specs.Ordering.{nat_cmp};
ghost use Rattle.std.specs.Cmp.Lexicographic.{slice_cmp};
ghost use Rattle.file_world.specs.Limits.{longest_name};
ghost use Rattle.file_world.specs.Attributes.{value_at};
ghost use Rattle.file_world.specs.AttributeEffect.{with_value, without_value};
ghost use Rattle.attr_state.specs.Index.{AreSorted, IsMarkAt, IsGap};

use crate::mark::{Attribute, KeptAttributes};
use bl_syntax::{Short, Text};
use std::alloc::AllocFailed;
use std::cmp::Ordering;

/// How the attribute's name compares with another.
pub fn compare(attribute: &Attribute, name: &[u8]) -> Ordering
    ensures { result ≡ slice_cmp nat_cmp attribute.now.0 name.now }
{
    attribute.0.bytes().cmp(&name)
}

/// The place of the attribute of that name, or where it would go.
fn search(attributes: &[Attribute], name: &[u8]) -> Result<usize, usize>
    requires { AreSorted attributes.now }
    ensures bound { IsSearchInRange result (length attributes.now) }
    ensures found { IfOk result (IsMarkAt attributes.now name.now) }
    ensures absent { IfErr result (IsGap attributes.now name.now) }
{
    attributes.binary_search_by(|attribute| compare(attribute, name))
}

/// The value of the attribute of that name.
pub fn value_among(attributes: &[Attribute], name: &[u8]) -> Option<Text>
    requires { AreSorted attributes.now }
    ensures { result ≡ value_at attributes.now name.now }
{
    match search(attributes, name) {
        Ok(place) => Some(attributes[place].1),
        Err(_) => None,
    }
}

/// Puts a value under a name, replacing one that is there.
pub fn put(attributes: &mut KeptAttributes, name: &[u8], value: Text)
    requires short { length name.now ≤ longest_name }
    requires sorted { AreSorted attributes.old.items }
    requires room { length (with_value attributes.old.items name.now value) ≤ vec_capacity attributes.old }
    ensures put { attributes.new.items ≡ with_value attributes.old.items name.now value }
    ensures sorted { AreSorted attributes.new.items }
{
    match search(attributes.as_slice(), name) {
        Ok(place) => attributes[place] = (Short::new(name), value),
        Err(place) => {
            let attribute = (Short::new(name), value);
            let put: Result<(), AllocFailed<Attribute>> = attributes.insert(place, attribute);
            put.unwrap();
        }
    }
}

/// Takes the attribute of that name out.
pub fn take_out(attributes: &mut KeptAttributes, name: &[u8])
    requires { AreSorted attributes.old.items }
    ensures taken { attributes.new.items ≡ without_value attributes.old.items name.now }
    ensures sorted { AreSorted attributes.new.items }
{
    if let Ok(place) = search(attributes.as_slice(), name) {
        let _ = attributes.remove(place);
    }
}
