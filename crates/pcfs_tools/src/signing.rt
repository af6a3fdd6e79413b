//! The statements in an input, and the lines that register them by a tree of hashes.

ghost use Rattle.std.specs.Prelude.{◌≤◌, ◌^◌};
ghost use Rattle.bl_syntax.specs.declared.limits.TheConstants.{HIGHEST_TREE};
ghost use Rattle.pcfs_tools.specs.Broken.{broken_of};
ghost use Rattle.pcfs_tools.specs.Signed.{TellsSigning};
ghost use Rattle.pcfs_session.specs.Streams.{streams_of};

use crate::answering::{OUT_OF_MEMORY, write_last_line};
use pcfs_ports::{Sink, Source};
use root_signing::answer_signing;
use std::alloc::Global;

/// Reads the seed and the statements in the input, writes the root of the seed's tree of this height and the lines that register
/// them, by the leaf `from` first, up to the first line that is wrong or finds no leaf, and returns the status to end with.
pub fn sign_statements<I: Source, O: Sink>(
    alloc: Global,
    height: u8,
    from: u32,
    input: &mut I,
    output: &mut O,
) -> u8
    requires low { height ≤ HIGHEST_TREE }
    requires within { from ≤ 2 ^ height }
    ensures { TellsSigning height from
        (streams_of I.left I.faults O.held O.faults input.old output.old)
        (streams_of I.left I.faults O.held O.faults input.new output.new)
        (broken_of I.broken O.broken input.new output.new) result }
{
    match answer_signing(alloc, height, from, input) {
        Ok(end) => write_last_line(output, end.lines.as_slice(), end.status),
        Err(_) => OUT_OF_MEMORY,
    }
}
