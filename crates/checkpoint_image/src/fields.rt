//! The fields of nodes that stand in no record.
//!
//! Each reader reads at the front of `bytes`, the rest of an input of `input` bytes, and gives the value and the bytes
//! after it, or the first fault.

ghost use Rattle.std.specs.Prelude.{◌≡◌, ◌↔◌, IfSome, IsSome, IsTrue};
ghost use Rattle.std.specs.Ordering.{nat_cmp};
ghost use Rattle.std.specs.Cmp.Lexicographic.{slice_cmp};
ghost use Rattle.bl_syntax.specs.Reading.{GivesReading};
ghost use Rattle.checkpoint_image.specs.NodeSpelling.{kind_code};
ghost use Rattle.checkpoint_image.specs.NodeReading.{kind_of, kind_at, number_after, is_name_after, attribute_name_at, node_name_at};

use bl_syntax::fields::{place, u64_at, with_length_at};
use bl_syntax::{CodecFault, Short};
use file_world::{Kind, LONGEST_NAME};
use node_rows::names::{is_attribute_name, node_name_or_none};
use std::cmp::Ordering;

/// The name of a node with its length byte, or the root's, which is empty.
#[tactic(auto, unfolding(bl_syntax::specs::Reading::word_at))]
pub(crate) fn node_name_at(input: usize, bytes: &[u8]) -> Result<(Short<64>, &[u8]), CodecFault>
    ensures { GivesReading (λ x. (x.0, x.1.now)) result (node_name_at input bytes.now) }
{
    let (name, rest) = with_length_at(0, LONGEST_NAME as u8, input, bytes)?;
    match node_name_or_none(name) {
        Some(short) => Ok((short, rest)),
        None => Err(CodecFault::NotCanonical(place(input, bytes))),
    }
}

// How two names compare in byte order.
fn compare(one: &[u8], other: &[u8]) -> Ordering
    ensures { result ≡ slice_cmp nat_cmp one.now other.now }
{
    one.cmp(&other)
}

// Whether the bytes name an attribute and come after the previous name in byte order.
fn is_name_after(previous: &[u8], name: &[u8]) -> bool
    ensures { result ≡ is_name_after previous.now name.now }
{
    is_attribute_name(name) && compare(previous, name).is_lt()
}

// The name of an attribute that comes after the previous one, in a place of fixed size; none exactly if the bytes are none.
fn name_after(previous: &[u8], name: &[u8]) -> Option<Short<64>>
    ensures named { IsSome result ↔ IsTrue (is_name_after previous.now name.now) }
    ensures same { IfSome result (λ short. short ≡ name.now) }
{
    if is_name_after(previous, name) {
        Some(Short::new(name))
    } else {
        None
    }
}

/// The name of an attribute with its length byte, which comes after the previous one in byte order.
#[tactic(auto, unfolding(bl_syntax::specs::Reading::word_at))]
pub(crate) fn attribute_name_at<'a>(
    previous: &[u8],
    input: usize,
    bytes: &'a [u8],
) -> Result<(Short<64>, &'a [u8]), CodecFault>
    ensures { GivesReading (λ x. (x.0, x.1.now)) result (attribute_name_at previous.now input bytes.now) }
{
    let (name, rest) = with_length_at(1, LONGEST_NAME as u8, input, bytes)?;
    match name_after(previous, name) {
        Some(short) => Ok((short, rest)),
        None => Err(CodecFault::NotCanonical(place(input, bytes))),
    }
}

/// The number of a node, which passes the previous one.
#[tactic(auto, unfolding(crate::specs::NodeReading::number_after))]
pub(crate) fn number_after(
    previous: u64,
    input: usize,
    bytes: &[u8],
) -> Result<(u64, &[u8]), CodecFault>
    ensures { GivesReading (λ x. (x.0, x.1.now)) result (number_after previous input bytes.now) }
{
    let (number, rest) = u64_at(bytes)?;
    if previous < number {
        Ok((number, rest))
    } else {
        Err(CodecFault::NotCanonical(place(input, bytes)))
    }
}

fn kind_of(code: u8) -> Option<Kind>
    ensures { result ≡ kind_of code }
{
    match code {
        1 => Some(Kind::File),
        2 => Some(Kind::Directory),
        _ => None,
    }
}

/// A kind.
#[tactic(auto, unfolding(bl_syntax::specs::Reading::coded_at))]
pub(crate) fn kind_at(input: usize, bytes: &[u8]) -> Result<(Kind, &[u8]), CodecFault>
    ensures { GivesReading (λ x. (x.0, x.1.now)) result (kind_at input bytes.now) }
{
    match bytes {
        [] => Err(CodecFault::Short),
        [code, rest @ ..] => match kind_of(*code) {
            Some(kind) => Ok((kind, rest)),
            None => Err(CodecFault::BadTag(place(input, bytes))),
        },
    }
}

/// The byte of a kind.
pub(crate) fn kind_code(kind: Kind) -> u8
    ensures { result ≡ kind_code kind }
{
    match kind {
        Kind::File => 1,
        Kind::Directory => 2,
    }
}
