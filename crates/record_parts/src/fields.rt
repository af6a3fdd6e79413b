//! The fields of records and images that stand in no term, formula or grant, both ways.
//!
//! Each reader reads at the front of `bytes`, the rest of an input, and gives the value and the bytes after it, or the
//! first fault. Each writer adds its field at the end, or nothing.

ghost use Rattle.std.specs.Prelude.{◌≡◌, ◌∷◌, ◌++◌, OnOk, OnErr};
ghost use Rattle.bl_syntax.specs.Spelling.{with_length};
ghost use Rattle.bl_syntax.specs.Reading.{GivesReading};
ghost use Rattle.bl_syntax.specs.Codec.{GivesReadingOrReports};
ghost use Rattle.record_parts.specs.Fields.{number_spelling, IsSpellableNumber, node_spelling, node_at, IsSpellableNode, free_name_at, FitsOneByte, sized_bytes_spelling, sized_bytes_at, FitsFourBytes, moment_spelling, moment_field_at};

use bl_syntax::fields::{place, put, second_bytes, u32_at, u32_bytes, u64_at, u64_bytes};
use bl_syntax::{Bytes, CodecFault, NoMemory, NodeId, copy_bytes, is_moment};
use std::alloc::Global;

/// A node by its number.
pub(crate) fn node_at(bytes: &[u8]) -> Result<(NodeId, &[u8]), CodecFault>
    ensures { GivesReading (λ x. (x.0, x.1.now)) result (node_at bytes.now) }
{
    match u64_at(bytes) {
        Err(fault) => Err(fault),
        Ok((number, rest)) => Ok((NodeId(number), rest)),
    }
}

/// A name in no grammar, with its length byte.
#[tactic(auto, unfolding(crate::specs::Fields::free_name_at))]
pub(crate) fn free_name_at(alloc: Global, bytes: &[u8]) -> Result<(Bytes, &[u8]), CodecFault>
    ensures { GivesReadingOrReports (λ x. (x.0, x.1.now)) result (free_name_at bytes.now) }
{
    match bytes {
        [] => Err(CodecFault::Short),
        [len, rest @ ..] => {
            let len = *len as usize;
            if rest.len() < len {
                return Err(CodecFault::Short);
            }
            let (name, behind) = rest.split_at(len);
            Ok((copy_bytes(alloc, name)?, behind))
        }
    }
}

/// Plain bytes, with four bytes of length.
#[tactic(auto, unfolding(crate::specs::Fields::sized_bytes_at))]
pub fn sized_bytes_at(alloc: Global, bytes: &[u8]) -> Result<(Bytes, &[u8]), CodecFault>
    ensures { GivesReadingOrReports (λ x. (x.0, x.1.now)) result (sized_bytes_at bytes.now) }
{
    match u32_at(bytes) {
        Err(fault) => Err(fault),
        Ok((len, rest)) => {
            let len = len as usize;
            if rest.len() < len {
                return Err(CodecFault::Short);
            }
            let (plain, behind) = rest.split_at(len);
            Ok((copy_bytes(alloc, plain)?, behind))
        }
    }
}

/// A moment. One outside the range has its fault at its first byte, in an input of `input` bytes.
#[tactic(auto, unfolding(crate::specs::Fields::moment_field_at))]
pub fn moment_field_at(input: usize, bytes: &[u8]) -> Result<(i64, &[u8]), CodecFault>
    ensures { GivesReading (λ x. (x.0, x.1.now)) result (moment_field_at input bytes.now) }
{
    let (number, rest) = u64_at(bytes)?;
    let second = number.cast_signed();
    if is_moment(second) {
        Ok((second, rest))
    } else {
        Err(CodecFault::NotCanonical(place(input, bytes)))
    }
}

/// Adds a byte and the number of a node.
#[tactic(auto, unfolding(crate::specs::Fields::number_spelling))]
pub(crate) fn put_node(code: u8, node: NodeId, out: &mut Bytes) -> Result<(), NoMemory>
    ensures ok { OnOk result (out.new ≡ out.old ++ code ∷ node_spelling node) }
    ensures spelled { IsSpellableNode node }
    ensures err { OnErr result (out.new ≡ out.old) }
{
    put(&[code], &u64_bytes(node.0), out)
}

/// Adds an offset, a length or the number of a node.
#[tactic(auto, unfolding(crate::specs::Fields::number_spelling))]
pub fn put_number(number: u64, out: &mut Bytes) -> Result<(), NoMemory>
    ensures ok { OnOk result (out.new ≡ out.old ++ number_spelling number) }
    ensures spelled { IsSpellableNumber number }
    ensures err { OnErr result (out.new ≡ out.old) }
{
    out.extend(&u64_bytes(number))
}

/// Adds a name with its length byte.
pub fn put_free_name(name: &[u8], out: &mut Bytes) -> Result<(), NoMemory>
    requires { FitsOneByte name.now }
    ensures ok { OnOk result (out.new ≡ out.old ++ with_length name.now) }
    ensures err { OnErr result (out.new ≡ out.old) }
{
    put(&[name.len() as u8], name, out)
}

/// Adds plain bytes with four bytes of length.
#[tactic(auto, unfolding(crate::specs::Fields::sized_bytes_spelling))]
pub fn put_sized_bytes(plain: &[u8], out: &mut Bytes) -> Result<(), NoMemory>
    requires { FitsFourBytes plain.now }
    ensures ok { OnOk result (out.new ≡ out.old ++ sized_bytes_spelling plain.now) }
    ensures err { OnErr result (out.new ≡ out.old) }
{
    put(&u32_bytes(plain.len() as u32), plain, out)
}

/// Adds a moment.
#[tactic(auto, unfolding(crate::specs::Fields::moment_spelling))]
pub fn put_moment(moment: i64, out: &mut Bytes) -> Result<(), NoMemory>
    ensures ok { OnOk result (out.new ≡ out.old ++ moment_spelling moment) }
    ensures err { OnErr result (out.new ≡ out.old) }
{
    out.extend(&second_bytes(moment))
}
