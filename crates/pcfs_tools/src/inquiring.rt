//! The inquiry in an input, and what is reported of it.

ghost use Rattle.pcfs_tools.specs.Broken.{broken_of};
ghost use Rattle.pcfs_tools.specs.Inquired.{TellsInquiry};
ghost use Rattle.pcfs_session.specs.Streams.{streams_of};

use crate::answering::{OUT_OF_MEMORY, write_last_line};
use pcfs_inquiry::answer_input;
use pcfs_ports::{Sink, Source};
use std::alloc::Global;

/// Reads the inquiry in the input, writes its answer or what is wrong with it, and returns the status to end with.
pub fn inquire<I: Source, O: Sink>(alloc: Global, input: &mut I, output: &mut O) -> u8
    ensures { TellsInquiry (streams_of I.left I.faults O.held O.faults input.old output.old)
        (streams_of I.left I.faults O.held O.faults input.new output.new)
        (broken_of I.broken O.broken input.new output.new) result }
{
    match answer_input(alloc, input) {
        Ok(end) => write_last_line(output, end.line.as_slice(), end.status),
        Err(_) => OUT_OF_MEMORY,
    }
}
