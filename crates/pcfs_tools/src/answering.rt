//! A script over a store, and the status to end with.

ghost use Rattle.std.specs.Prelude.{◌≡◌, ◌-◌, None};
ghost use Rattle.pcfs_session.specs.ScriptContext.{ScriptContext, first_asker};
ghost use Rattle.pcfs_session.specs.InterpreterView.{standing_over};
ghost use Rattle.pcfs_session.specs.ScriptRun.{IsLawfulStanding, script_pass};
ghost use Rattle.pcfs_session.specs.Streams.{streams_of};
ghost use Rattle.pcfs_tools.specs.Broken.{broken_of};
ghost use Rattle.pcfs_tools.specs.LastLine.{IsWritten};
ghost use Rattle.pcfs_tools.specs.ScriptStatus.{TellsEnd, AnswersInput};

use pcfs_ports::{Disk, Sink, Source, write_all};
use pcfs_session::{ScriptEnd, script_session};
use pcfs_store::Store;
use std::alloc::Global;

/// Everything was done.
pub const DONE: u8 = 0;

/// A line was too long.
const LINE_TOO_LONG: u8 = 2;

/// A disk failed.
pub const DISK_FAULT: u8 = 5;

/// The input failed.
const READ_FAULT: u8 = 6;

/// The output failed, and may lack any of its end.
pub const WRITE_FAULT: u8 = 7;

/// Memory ran out.
pub const OUT_OF_MEMORY: u8 = 9;

/// The input was too long.
const TOO_LONG: u8 = 13;

/// Writes a last line, and returns the status, or that the output failed: then nothing is written after the call that failed.
pub fn write_last_line<O: Sink>(output: &mut O, line: &[u8], status: u8) -> u8
    ensures { IsWritten status line.now (O.held output.old) (O.faults output.old) result (O.held output.new) (O.faults output.new) (O.broken output.new) }
{
    match write_all(output, line) {
        Ok(()) => status,
        Err(_) => WRITE_FAULT,
    }
}

// Writes the last line of a script that ended so, if it has one beside its replies, and returns the status to end with.
fn write_end<O: Sink>(output: &mut O, end: ScriptEnd) -> u8
    ensures tells { TellsEnd end (O.held output.old) (O.faults output.old) result (O.held output.new) (O.faults output.new) (O.broken output.new) }
    ensures untouched { end ≡ ScriptEnd.WriteFault → O.broken output.new ≡ O.broken output.old }
{
    match end {
        ScriptEnd::Done => DONE,
        ScriptEnd::LineTooLong => LINE_TOO_LONG,
        ScriptEnd::ReadFault => write_last_line(output, b"readfault\n", READ_FAULT),
        ScriptEnd::WriteFault => WRITE_FAULT,
        ScriptEnd::NoMemory => OUT_OF_MEMORY,
        ScriptEnd::InputTooLong => write_last_line(output, b"toolong\n", TOO_LONG),
        ScriptEnd::Stopped => DISK_FAULT,
    }
}

/// Runs the script in the input over the store, and returns the status to end with, and the store. By the order of the code
/// replies are written once they have `enough` bytes, and before more of the input is taken. Nothing is read after a read
/// that failed, and nothing written after a write that failed; if the last reply could not be sent, fewer than `enough` bytes
/// of those before it are missing too, and none if memory ran out.
pub fn run_over<D: Disk, I: Source, O: Sink>(
    alloc: Global,
    store: Store<D>,
    input: &mut I,
    enough: usize,
    output: &mut O,
) -> (u8, Store<D>)
    requires lawful { IsLawfulStanding (standing_over store None (first_asker script_pass)) }
    requires running { store.stop ≡ None }
    ensures { (asker : ScriptContext) ×
        AnswersInput D.clock D.left_since D.image D.faults (enough - 1)
        (record { store = store; asker = first_asker script_pass })
        (streams_of I.left I.faults O.held O.faults input.old output.old) result.0
        (record { store = result.1; asker = asker })
        (streams_of I.left I.faults O.held O.faults input.new output.new)
        (broken_of I.broken O.broken input.new output.new) }
{
    let (end, store) = script_session(alloc, store, input, enough, output);
    (write_end(output, end), store)
}
