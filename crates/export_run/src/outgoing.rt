//! Messages on their way out: they are collected, and written in large pieces.

ghost use Rattle.std.specs.Prelude.{◌≡◌, ◌<◌, ◌+◌, ◌^◌, ◌++◌, [], true, IfErr, OnOk, OnErr, length};
ghost use Rattle.pcfs_ports.specs.Faults.{raise};
ghost use Rattle.pcfs_ports.specs.Observable.{with_back, HoldsSome};
ghost use Rattle.event_messages.specs.Messages.{message_spelling, messages_spelling};
ghost use Rattle.export_run.specs.Exported.{message_of, messages_of};
ghost use Rattle.export_run.specs.Outgoing.{AreCollectedOrOut, AreCutShort, FitMessages, FitsMessage, IsUnsent};

use bl_syntax::{Bytes, NoMemory};
use event_messages::write_message;
use journal_records::EventRecord;
use pcfs_ports::{Failed, Sink};
use pcfs_session::{SendFault, flush};
use std::alloc::Global;

/// How many bytes are collected before they are written.
const ENOUGH: usize = 65_536;

// Adds the message of an event, or nothing.
fn add_message(number: u64, event: &EventRecord, collected: &mut Bytes) -> Result<(), NoMemory>
    requires { FitsMessage event.now }
    ensures ok { OnOk result (collected.new ≡ collected.old ++ message_spelling (message_of number event.now)) }
    ensures err { OnErr result (collected.new ≡ collected.old) }
{
    write_message(number, event.payload(), collected)
}

// Writes what was collected once it is enough.
fn flush_if_enough<O: Sink>(collected: &mut Bytes, output: &mut O) -> Result<(), Failed>
    ensures ok { OnOk result (AreCollectedOrOut (O.held output.old) collected.old (O.held output.new) collected.new) }
    ensures err { OnErr result (HoldsSome (O.held output.old) (O.held output.new) collected.old) }
    ensures steady { OnOk result (O.faults output.new ≡ O.faults output.old) }
    ensures by_one { OnErr result (O.faults output.new ≡ raise (O.faults output.old)) }
    ensures broken { OnErr result (O.broken output.new ≡ true) }
{
    if ENOUGH <= collected.len() {
        return flush(collected, output);
    }
    Ok(())
}

// Collects the message of an event, and writes what was collected once it is enough.
fn send_message<O: Sink>(
    number: u64,
    event: &EventRecord,
    collected: &mut Bytes,
    output: &mut O,
) -> Result<(), SendFault>
    requires { FitsMessage event.now }
    ensures ok { OnOk result (AreCollectedOrOut (O.held output.old)
        (collected.old ++ message_spelling (message_of number event.now)) (O.held output.new) collected.new) }
    ensures err { IfErr result (λ fault. IsUnsent fault (O.held output.old) (O.faults output.old)
        (collected.old ++ message_spelling (message_of number event.now)) (O.held output.new) (O.faults output.new) (O.broken output.new)) }
    ensures steady { OnOk result (O.faults output.new ≡ O.faults output.old) }
{
    match add_message(number, event, collected) {
        Ok(()) => Ok(flush_if_enough(collected, output)?),
        Err(_) => Err(SendFault::NoMemory),
    }
}

/// Writes the messages of the events, of which the first has that number. Of them no more than the piece that is written
/// next and one message is kept.
pub fn write_messages<O: Sink>(
    alloc: Global,
    first: u64,
    events: &[EventRecord],
    output: &mut O,
) -> Result<(), SendFault>
    requires fit { FitMessages events.now }
    requires counted { first + length events.now < 2 ^ 64 }
    ensures ok { OnOk result (O.held output.new ≡ with_back (O.held output.old) (messages_spelling (messages_of first events.now))) }
    ensures err { IfErr result (λ fault. AreCutShort fault (O.held output.old) (O.faults output.old)
        (messages_of first events.now) (O.held output.new) (O.faults output.new) (O.broken output.new)) }
    ensures steady { OnOk result (O.faults output.new ≡ O.faults output.old) }
{
    let mut collected = Bytes::new(alloc);
    let mut number = first;
    for event in events {
        send_message(number, event, &mut collected, output)?;
        number += 1;
    }
    Ok(flush(&mut collected, output)?)
}
