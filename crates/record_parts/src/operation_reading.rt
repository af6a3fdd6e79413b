//! Reading operations.

ghost use Rattle.std.specs.Prelude.{IfOk};
ghost use Rattle.bl_syntax.specs.Reading.{GivesReading};
ghost use Rattle.bl_syntax.specs.Codec.{GivesReadingOrReports};
ghost use Rattle.record_parts.specs.OperationSpelling.{HasFittingWords};
ghost use Rattle.record_parts.specs.OperationReading.{named_node_at, range_at, piece_at, renamed_at, valued_at, read_words_at, write_words_at, truncate_words_at, rename_words_at, setattr_words_at, chown_words_at, attribute_words_at, name_words_at, words_at, operation_at};

use crate::fields::{free_name_at, node_at, sized_bytes_at};
use bl_syntax::fields::{name_at, place, text_at, u64_at};
use bl_syntax::{Bytes, CodecFault, NodeId, Principal, Text};
use file_world::Op;
use std::alloc::Global;

/// A node, and a name.
#[tactic(auto, using(bl_syntax::proofs::ReportsFaultLemmas::hands_on, bl_syntax::proofs::ReportsFaultLemmas::stops), unfolding(crate::specs::OperationReading::named_node_at))]
fn named_node_at(alloc: Global, bytes: &[u8]) -> Result<(NodeId, Bytes, &[u8]), CodecFault>
    ensures { GivesReadingOrReports (λ x. ((x.0, x.1), x.2.now)) result (named_node_at bytes.now) }
{
    match node_at(bytes) {
        Err(fault) => Err(fault),
        Ok((node, rest)) => match free_name_at(alloc, rest) {
            Err(fault) => Err(fault),
            Ok((name, rest)) => Ok((node, name, rest)),
        },
    }
}

/// An offset, and the greatest number of bytes.
#[tactic(auto, unfolding(crate::specs::OperationReading::range_at))]
fn range_at(bytes: &[u8]) -> Result<(u64, u64, &[u8]), CodecFault>
    ensures { GivesReading (λ x. ((x.0, x.1), x.2.now)) result (range_at bytes.now) }
{
    match u64_at(bytes) {
        Err(fault) => Err(fault),
        Ok((offset, rest)) => match u64_at(rest) {
            Err(fault) => Err(fault),
            Ok((len, rest)) => Ok((offset, len, rest)),
        },
    }
}

/// An offset, and bytes.
#[tactic(auto, using(bl_syntax::proofs::ReportsFaultLemmas::hands_on, bl_syntax::proofs::ReportsFaultLemmas::stops), unfolding(crate::specs::OperationReading::piece_at))]
fn piece_at(alloc: Global, bytes: &[u8]) -> Result<(u64, Bytes, &[u8]), CodecFault>
    ensures { GivesReadingOrReports (λ x. ((x.0, x.1), x.2.now)) result (piece_at bytes.now) }
{
    match u64_at(bytes) {
        Err(fault) => Err(fault),
        Ok((offset, rest)) => match sized_bytes_at(alloc, rest) {
            Err(fault) => Err(fault),
            Ok((piece, rest)) => Ok((offset, piece, rest)),
        },
    }
}

/// A name, and a node with a name.
#[tactic(auto, using(bl_syntax::proofs::ReportsFaultLemmas::hands_on, bl_syntax::proofs::ReportsFaultLemmas::stops), unfolding(crate::specs::OperationReading::renamed_at))]
fn renamed_at(alloc: Global, bytes: &[u8]) -> Result<(Bytes, NodeId, Bytes, &[u8]), CodecFault>
    ensures { GivesReadingOrReports (λ x. ((x.0, (x.1, x.2)), x.3.now)) result (renamed_at bytes.now) }
{
    match free_name_at(alloc, bytes) {
        Err(fault) => Err(fault),
        Ok((name, rest)) => match named_node_at(alloc, rest) {
            Err(fault) => Err(fault),
            Ok((target, renamed, rest)) => Ok((name, target, renamed, rest)),
        },
    }
}

/// A name, and a text.
#[tactic(auto, using(bl_syntax::proofs::ReportsFaultLemmas::hands_on, bl_syntax::proofs::ReportsFaultLemmas::stops), unfolding(crate::specs::OperationReading::valued_at))]
fn valued_at(alloc: Global, input: usize, bytes: &[u8]) -> Result<(Bytes, Text, &[u8]), CodecFault>
    ensures { GivesReadingOrReports (λ x. ((x.0, x.1), x.2.now)) result (valued_at input bytes.now) }
{
    match free_name_at(alloc, bytes) {
        Err(fault) => Err(fault),
        Ok((name, rest)) => match text_at(input, rest) {
            Err(fault) => Err(fault),
            Ok((value, rest)) => Ok((name, value, rest)),
        },
    }
}

/// The words of a reading.
#[tactic(auto, unfolding(crate::specs::OperationReading::read_words_at))]
fn read_words_at(bytes: &[u8]) -> Result<(NodeId, u64, u64, &[u8]), CodecFault>
    ensures { GivesReading (λ x. ((x.0, (x.1, x.2)), x.3.now)) result (read_words_at bytes.now) }
{
    match node_at(bytes) {
        Err(fault) => Err(fault),
        Ok((file, rest)) => match range_at(rest) {
            Err(fault) => Err(fault),
            Ok((offset, len, rest)) => Ok((file, offset, len, rest)),
        },
    }
}

/// The words of a writing.
#[tactic(auto, using(bl_syntax::proofs::ReportsFaultLemmas::hands_on, bl_syntax::proofs::ReportsFaultLemmas::stops), unfolding(crate::specs::OperationReading::write_words_at))]
fn write_words_at(alloc: Global, bytes: &[u8]) -> Result<(NodeId, u64, Bytes, &[u8]), CodecFault>
    ensures { GivesReadingOrReports (λ x. ((x.0, (x.1, x.2)), x.3.now)) result (write_words_at bytes.now) }
{
    match node_at(bytes) {
        Err(fault) => Err(fault),
        Ok((file, rest)) => match piece_at(alloc, rest) {
            Err(fault) => Err(fault),
            Ok((offset, piece, rest)) => Ok((file, offset, piece, rest)),
        },
    }
}

/// The words of a truncation.
#[tactic(auto, unfolding(crate::specs::OperationReading::truncate_words_at))]
fn truncate_words_at(bytes: &[u8]) -> Result<(NodeId, u64, &[u8]), CodecFault>
    ensures { GivesReading (λ x. ((x.0, x.1), x.2.now)) result (truncate_words_at bytes.now) }
{
    match node_at(bytes) {
        Err(fault) => Err(fault),
        Ok((file, rest)) => match u64_at(rest) {
            Err(fault) => Err(fault),
            Ok((len, rest)) => Ok((file, len, rest)),
        },
    }
}

/// The words of a renaming: a directory and a name in it, the new directory and the new name.
#[tactic(auto, using(bl_syntax::proofs::ReportsFaultLemmas::hands_on, bl_syntax::proofs::ReportsFaultLemmas::stops), unfolding(crate::specs::OperationReading::rename_words_at))]
fn rename_words_at(
    alloc: Global,
    bytes: &[u8],
) -> Result<(NodeId, Bytes, NodeId, Bytes, &[u8]), CodecFault>
    ensures { GivesReadingOrReports (λ x. ((x.0, (x.1, (x.2, x.3))), x.4.now)) result (rename_words_at bytes.now) }
{
    match node_at(bytes) {
        Err(fault) => Err(fault),
        Ok((directory, rest)) => match renamed_at(alloc, rest) {
            Err(fault) => Err(fault),
            Ok((name, target, renamed, rest)) => Ok((directory, name, target, renamed, rest)),
        },
    }
}

/// The words of a change of an attribute.
#[tactic(auto, using(bl_syntax::proofs::ReportsFaultLemmas::hands_on, bl_syntax::proofs::ReportsFaultLemmas::stops), unfolding(crate::specs::OperationReading::setattr_words_at))]
fn setattr_words_at(
    alloc: Global,
    input: usize,
    bytes: &[u8],
) -> Result<(NodeId, Bytes, Text, &[u8]), CodecFault>
    ensures { GivesReadingOrReports (λ x. ((x.0, (x.1, x.2)), x.3.now)) result (setattr_words_at input bytes.now) }
{
    match node_at(bytes) {
        Err(fault) => Err(fault),
        Ok((node, rest)) => match valued_at(alloc, input, rest) {
            Err(fault) => Err(fault),
            Ok((name, value, rest)) => Ok((node, name, value, rest)),
        },
    }
}

/// The words of a change of an owner.
#[tactic(auto, unfolding(crate::specs::OperationReading::chown_words_at))]
fn chown_words_at(input: usize, bytes: &[u8]) -> Result<(NodeId, Principal, &[u8]), CodecFault>
    ensures { GivesReading (λ x. ((x.0, x.1), x.2.now)) result (chown_words_at input bytes.now) }
{
    match node_at(bytes) {
        Err(fault) => Err(fault),
        Ok((node, rest)) => match name_at(input, rest) {
            Err(fault) => Err(fault),
            Ok((owner, rest)) => Ok((node, owner, rest)),
        },
    }
}

/// The words of an operation on attributes and owners, whose code stands at `start`.
#[tactic(auto, using(bl_syntax::proofs::ReportsFaultLemmas::hands_on, bl_syntax::proofs::ReportsFaultLemmas::stops), unfolding(crate::specs::OperationReading::attribute_words_at))]
fn attribute_words_at(
    alloc: Global,
    input: usize,
    start: usize,
    code: u8,
    rest: &[u8],
) -> Result<(Op, &[u8]), CodecFault>
    ensures { GivesReadingOrReports (λ x. (x.0, x.1.now)) result (attribute_words_at input start code rest.now) }
{
    match code {
        10 => match named_node_at(alloc, rest) {
            Err(fault) => Err(fault),
            Ok((node, name, rest)) => Ok((Op::Getattr(node, name), rest)),
        },
        11 => match setattr_words_at(alloc, input, rest) {
            Err(fault) => Err(fault),
            Ok((node, name, value, rest)) => Ok((Op::Setattr(node, name, value), rest)),
        },
        12 => match named_node_at(alloc, rest) {
            Err(fault) => Err(fault),
            Ok((node, name, rest)) => Ok((Op::Delattr(node, name), rest)),
        },
        13 => match chown_words_at(input, rest) {
            Err(fault) => Err(fault),
            Ok((node, owner, rest)) => Ok((Op::Chown(node, owner), rest)),
        },
        _ => Err(CodecFault::BadTag(start)),
    }
}

/// The words of an operation on names in directories, or of one on attributes and owners, whose code stands at `start`.
#[tactic(auto, using(bl_syntax::proofs::ReportsFaultLemmas::hands_on, bl_syntax::proofs::ReportsFaultLemmas::stops), unfolding(crate::specs::OperationReading::name_words_at))]
fn name_words_at(
    alloc: Global,
    input: usize,
    start: usize,
    code: u8,
    rest: &[u8],
) -> Result<(Op, &[u8]), CodecFault>
    ensures { GivesReadingOrReports (λ x. (x.0, x.1.now)) result (name_words_at input start code rest.now) }
{
    match code {
        5 => match named_node_at(alloc, rest) {
            Err(fault) => Err(fault),
            Ok((directory, name, rest)) => Ok((Op::Lookup(directory, name), rest)),
        },
        6 => match named_node_at(alloc, rest) {
            Err(fault) => Err(fault),
            Ok((directory, name, rest)) => Ok((Op::Create(directory, name), rest)),
        },
        7 => match named_node_at(alloc, rest) {
            Err(fault) => Err(fault),
            Ok((directory, name, rest)) => Ok((Op::Mkdir(directory, name), rest)),
        },
        8 => match named_node_at(alloc, rest) {
            Err(fault) => Err(fault),
            Ok((directory, name, rest)) => Ok((Op::Unlink(directory, name), rest)),
        },
        9 => match rename_words_at(alloc, rest) {
            Err(fault) => Err(fault),
            Ok((directory, name, target, renamed, rest)) => {
                Ok((Op::Rename(directory, name, target, renamed), rest))
            }
        },
        _ => attribute_words_at(alloc, input, start, code, rest),
    }
}

/// The words of an operation, whose code stands at `start`.
#[tactic(auto, using(bl_syntax::proofs::ReportsFaultLemmas::hands_on, bl_syntax::proofs::ReportsFaultLemmas::stops), unfolding(crate::specs::OperationReading::words_at))]
fn words_at(
    alloc: Global,
    input: usize,
    start: usize,
    code: u8,
    rest: &[u8],
) -> Result<(Op, &[u8]), CodecFault>
    ensures { GivesReadingOrReports (λ x. (x.0, x.1.now)) result (words_at input start code rest.now) }
{
    match code {
        1 => match read_words_at(rest) {
            Err(fault) => Err(fault),
            Ok((file, offset, len, rest)) => Ok((Op::Read(file, offset, len), rest)),
        },
        2 => match write_words_at(alloc, rest) {
            Err(fault) => Err(fault),
            Ok((file, offset, piece, rest)) => Ok((Op::Write(file, offset, piece), rest)),
        },
        3 => match truncate_words_at(rest) {
            Err(fault) => Err(fault),
            Ok((file, len, rest)) => Ok((Op::Truncate(file, len), rest)),
        },
        4 => match node_at(rest) {
            Err(fault) => Err(fault),
            Ok((directory, rest)) => Ok((Op::List(directory), rest)),
        },
        _ => name_words_at(alloc, input, start, code, rest),
    }
}

/// An operation: its code and its words.
#[tactic(auto, unfolding(crate::specs::OperationReading::operation_at))]
fn coded_words_at(alloc: Global, input: usize, bytes: &[u8]) -> Result<(Op, &[u8]), CodecFault>
    ensures { GivesReadingOrReports (λ x. (x.0, x.1.now)) result (operation_at input bytes.now) }
{
    match bytes {
        [] => Err(CodecFault::Short),
        [code, rest @ ..] => words_at(alloc, input, place(input, bytes), *code, rest),
    }
}

/// An operation: the reader that formats with operations in them are made of. It reads at the front of `bytes`, the rest
/// of an input of `input` bytes, and gives the operation and the bytes after it, or the first fault. What is read may be
/// written again.
pub fn operation_at(alloc: Global, input: usize, bytes: &[u8]) -> Result<(Op, &[u8]), CodecFault>
    ensures read { GivesReadingOrReports (λ x. (x.0, x.1.now)) result (operation_at input bytes.now) }
    ensures fits { IfOk result (λ x. HasFittingWords x.0) }
{
    coded_words_at(alloc, input, bytes)
}
