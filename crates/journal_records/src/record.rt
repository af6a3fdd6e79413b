//! Events kept as the payloads of their records.

ghost use Rattle.std.specs.Prelude.{◌≡◌, IfOk};
ghost use Rattle.journal_records.specs.EventSpelling.{event_spelling, IsSpellableEvent, HasFittingFields};

use crate::event::Event;
use crate::reading::read_event;
use crate::writing::write_event;
use bl_syntax::{Bytes, CodecFault, NoMemory, Sequence, copy_bytes};
use std::alloc::Global;
use std::marker::Model;
use std::snapshot::Snapshot;

/// How many bytes are taken at once to write a payload; a longer one grows from there.
const COMMON_SIZE: usize = 256;

/// An event, kept as the payload of its record, with its pass. Contracts see the event.
#[derive(Drop)]
pub struct EventRecord {
    pass: u64,
    payload: Bytes,
    /// The event, for contracts alone.
    event: Snapshot<Event>,
}

impl Model for EventRecord {
    ghost use Rattle.journal_records.specs.declared.event.Event.{Event};
    ghost use Rattle.journal_records.specs.contracts.event.Event as the_event;
    ghost use Rattle.journal_records.specs.EventRecord.{IsRecordOf};

    ghost Value = { Event };

    ghost coded = { the_event.the_row.coded };

    ghost view = { λ r. r.event.value };

    ghost invariant = { λ r. IsRecordOf r.event.value r.pass r.payload };
}

// The payload of an event, in memory of its own.
fn payload_of(alloc: Global, event: &Event) -> Result<Bytes, NoMemory>
    requires { HasFittingFields event.now }
    ensures same { IfOk result (λ payload. payload ≡ event_spelling event.now) }
    ensures spelled { IfOk result (λ _. IsSpellableEvent event.now) }
{
    let mut written = Sequence::from_vec(Vec::with_capacity(alloc, COMMON_SIZE)?);
    write_event(event, &mut written)?;
    copy_bytes(alloc, written.as_slice())
}

impl EventRecord {
    /// The record of an event, in memory of its own. What is counted in the event has to fit its field, and its moment has
    /// to lie in the range of moments.
    pub fn of(alloc: Global, event: &Event) -> Result<EventRecord, NoMemory>
        requires { HasFittingFields event.now }
        ensures { IfOk result (λ kept. kept ≡ event.now) }
    {
        let payload = payload_of(alloc, event)?;
        Ok(EventRecord {
            pass: event.pass(),
            payload,
            event: Snapshot::of(event),
        })
    }

    /// The payload of the event's record, in which its pass is not written.
    pub fn payload(&self) -> &[u8]
        ensures same { result.now ≡ event_spelling self.now }
        ensures spelled { IsSpellableEvent self.now }
    {
        self.payload.as_slice()
    }

    /// The event, in memory of its own. A record may be made of it again.
    pub fn event(&self, alloc: Global) -> Result<Event, NoMemory>
        ensures same { IfOk result (λ event. event ≡ self.now) }
        ensures fits { IfOk result (λ event. HasFittingFields event) }
    {
        match read_event(alloc, self.payload.as_slice()) {
            Ok(event) => Ok(event.with_pass(self.pass)),
            Err(CodecFault::NoMemory) => Err(NoMemory),
            Err(_) => unreachable!(),
        }
    }
}

/// The events of these records, in memory of their own.
pub fn events_of(alloc: Global, records: &[EventRecord]) -> Result<Sequence<Event>, NoMemory>
    ensures { IfOk result (λ events. events ≡ records.now) }
{
    let mut events = Sequence::new(alloc);
    events.reserve(records.len())?;
    for kept in records {
        events.push(kept.event(alloc)?)?;
    }
    Ok(events)
}
