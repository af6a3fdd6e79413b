//! Which bytes name a node or an attribute.

ghost use Rattle.std.specs.Prelude.{◌≡◌, ◌↔◌, IsSome, IfSome, IsTrue};
ghost use Rattle.std.specs.List.{list_all};
ghost use Rattle.file_world.specs.FileNames.{is_node_name_byte, is_node_name, is_attribute_name_byte, is_attribute_name};
ghost use Rattle.node_rows.specs.Names.{is_name_or_none};

use bl_syntax::Short;
use bl_syntax::byte_classes::{is_digit, is_lower_case, is_upper_case};
use file_world::LONGEST_NAME;

fn is_node_name_byte(byte: u8) -> bool
    ensures { result ≡ is_node_name_byte byte }
{
    is_lower_case(byte)
        || is_upper_case(byte)
        || is_digit(byte)
        || byte == b'_'
        || byte == b'.'
        || byte == b'-'
}

fn are_node_name_bytes(bytes: &[u8]) -> bool
    ensures { result ≡ list_all is_node_name_byte bytes.now }
{
    bytes.iter().all(|byte| is_node_name_byte(*byte))
}

/// Whether the bytes name a node: 1 to 64 letters, digits, `_`, `.` and `-`, and neither `.` nor `..`. A name that is
/// too long is not read.
pub fn is_node_name(name: &[u8]) -> bool
    ensures { result ≡ is_node_name name.now }
{
    1 <= name.len()
        && name.len() <= LONGEST_NAME
        && are_node_name_bytes(name)
        && !(name == b".".as_slice())
        && !(name == b"..".as_slice())
}

fn is_name_or_none(name: &[u8]) -> bool
    ensures { result ≡ is_name_or_none name.now }
{
    match name {
        [] => true,
        [_, ..] => is_node_name(name),
    }
}

/// The name of a node, or the root's, which is empty, in a place of fixed size; none exactly if the bytes are neither.
pub fn node_name_or_none(name: &[u8]) -> Option<Short<64>>
    ensures named { IsSome result ↔ IsTrue (is_name_or_none name.now) }
    ensures same { IfSome result (λ short. short ≡ name.now) }
{
    if is_name_or_none(name) {
        Some(Short::new(name))
    } else {
        None
    }
}

fn is_attribute_name_byte(byte: u8) -> bool
    ensures { result ≡ is_attribute_name_byte byte }
{
    is_lower_case(byte) || is_digit(byte) || byte == b'_' || byte == b'.'
}

fn are_attribute_name_bytes(bytes: &[u8]) -> bool
    ensures { result ≡ list_all is_attribute_name_byte bytes.now }
{
    bytes.iter().all(|byte| is_attribute_name_byte(*byte))
}

/// Whether the bytes name an attribute: a lower-case letter, and at most 63 lower-case letters, digits, `_` and `.`.
#[tactic(auto, unfolding(file_world::specs::FileNames::is_attribute_name))]
pub fn is_attribute_name(name: &[u8]) -> bool
    ensures { result ≡ is_attribute_name name.now }
{
    match name {
        [] => false,
        [first, others @ ..] => {
            is_lower_case(*first)
                && are_attribute_name_bytes(others)
                && others.len() <= LONGEST_NAME - 1
        }
    }
}
