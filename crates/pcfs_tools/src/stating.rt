//! The table of modes in an input, and the lines that register its statements.

ghost use Rattle.std.specs.Prelude.{◌≤◌};
ghost use Rattle.pcfs_modes.specs.declared.answering.TheConstants.{LAST_SECOND};
ghost use Rattle.pcfs_tools.specs.Broken.{broken_of};
ghost use Rattle.pcfs_tools.specs.Stated.{TellsModes};
ghost use Rattle.pcfs_session.specs.Streams.{streams_of};

use crate::answering::{OUT_OF_MEMORY, write_last_line};
use pcfs_modes::answer_table;
use pcfs_ports::{Sink, Source};
use std::alloc::Global;

/// Reads the table of modes in the input, writes the lines that register its statements from one second to another, or what is
/// wrong with it, and returns the status to end with.
pub fn state_table<I: Source, O: Sink>(
    alloc: Global,
    from: u64,
    to: u64,
    input: &mut I,
    output: &mut O,
) -> u8
    requires from { from ≤ LAST_SECOND }
    requires to { to ≤ LAST_SECOND }
    ensures { TellsModes from to
        (streams_of I.left I.faults O.held O.faults input.old output.old)
        (streams_of I.left I.faults O.held O.faults input.new output.new)
        (broken_of I.broken O.broken input.new output.new) result }
{
    match answer_table(alloc, from, to, input) {
        Ok(end) => write_last_line(output, end.lines.as_slice(), end.status),
        Err(_) => OUT_OF_MEMORY,
    }
}
