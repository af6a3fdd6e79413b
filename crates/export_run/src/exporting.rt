//! The export of a history, and the status to end with.

ghost use Rattle.std.specs.Prelude.{◌≡◌, ◌⊎◌, ◌<◌, IfOk, drop};
ghost use Rattle.pcfs_session.specs.ScriptEnds.{with_line_end};
ghost use Rattle.pcfs_tools.specs.LastLine.{Wrote, WroteNothing};
ghost use Rattle.export_run.specs.Exported.{TellsExport, gone_text};

use crate::outgoing::write_messages;
use access_history::History;
use bl_syntax::decimal::put_counted;
use bl_syntax::{Bytes, NoMemory};
use journal_records::EventRecord;
use payload_limits::laws::payloads_are_short;
use pcfs_ports::Sink;
use pcfs_session::SendFault;
use pcfs_tools::answering::{DONE, OUT_OF_MEMORY, WRITE_FAULT, write_last_line};
use std::alloc::Global;

/// The event is in the base.
const GONE: u8 = 17;

// The line that tells how many events are in the base alone.
fn gone_line(alloc: Global, count: u64) -> Result<Bytes, NoMemory>
    ensures { IfOk result (λ line. line ≡ with_line_end (gone_text count)) }
{
    let mut line = Bytes::new(alloc);
    put_counted(&mut line, "gone ", count)?;
    line.push(b'\n')?;
    Ok(line)
}

// Writes that line, and returns the status to end with.
fn write_gone<O: Sink>(alloc: Global, output: &mut O, count: u64) -> u8
    ensures { Wrote 17 (gone_text count) (O.held output.old) (O.faults output.old) result (O.held output.new) (O.faults output.new) (O.broken output.new)
        ⊎ WroteNothing (O.held output.old) (O.faults output.old) result (O.held output.new) (O.faults output.new) }
{
    match gone_line(alloc, count) {
        Ok(line) => write_last_line(output, line.as_slice(), GONE),
        Err(_) => OUT_OF_MEMORY,
    }
}

// The events after the first ones, of which there are so many or fewer.
fn events_after(events: &[EventRecord], first: u64) -> &[EventRecord]
    ensures { result.now ≡ drop first events.now }
{
    if (events.len() as u64) < first {
        return &events[events.len()..];
    }
    &events[first as usize..]
}

// Writes the messages of the events from that number on, and returns the status to end with.
fn write_events<O: Sink>(alloc: Global, history: &History, from: u64, output: &mut O) -> u8
    requires { history.now.base.count < from }
    ensures { TellsExport history.now.base history.now.events from
        (O.held output.old) (O.faults output.old) result (O.held output.new) (O.faults output.new) (O.broken output.new) }
{
    payloads_are_short();
    history.lemma_is_lawful();
    let earlier = from - history.base().count() - 1;
    let events = events_after(history.events(), earlier);
    match write_messages(alloc, from, events, output) {
        Ok(()) => DONE,
        Err(SendFault::Write) => WRITE_FAULT,
        Err(SendFault::NoMemory) => OUT_OF_MEMORY,
    }
}

/// Writes the messages of the history's events from that number on, and returns the status to end with: 0, all were
/// written, and past the last event there is none; 7, the output failed; 9, memory ran out; 17, the event of that number is in
/// the base, and `gone` with the base's count was written.
pub fn export_history<O: Sink>(alloc: Global, history: &History, from: u64, output: &mut O) -> u8
    ensures { TellsExport history.now.base history.now.events from
        (O.held output.old) (O.faults output.old) result (O.held output.new) (O.faults output.new) (O.broken output.new) }
{
    let count = history.base().count();
    if count < from {
        return write_events(alloc, history, from, output);
    }
    write_gone(alloc, output, count)
}
