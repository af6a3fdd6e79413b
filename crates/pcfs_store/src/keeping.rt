//! How the event that a gate decided is kept: on the disk first, and then in the history.

ghost use Rattle.std.specs.Prelude.{◌≡◌, ◌≢◌, ◌+◌, ◌≤◌, ◌++◌, Some, IfOk, IfErr, IfSome, IsSome, OnOk, OnErr, length};
ghost use Rattle.journal_core.specs.Area.{area_limit};
ghost use Rattle.journal_records.specs.EventSpelling.{event_spelling, IsSpellableEvent};
ghost use Rattle.pcfs_store.specs.Keeping.{AppendsEvent, KeepsPending};
ghost use Rattle.pcfs_store.specs.Admitting.{unprepared};

use crate::reply::Admitted;
use bl_syntax::limits::{MOST_AREA_BYTES, MOST_EVENTS};
use bl_syntax::{Bytes, NoMemory};
use journal_core::{Area, AreaFault, Framed, frame_after_four};
use journal_records::EventRecord;
use op_gate::{AdmitFault, Gate};
use pcfs_ports::Disk;
use std::alloc::Global;

/// How many bytes are taken at once for a record; a longer one grows from there.
const COMMON_SIZE: usize = 256;

/// What is reported of an event that was not prepared.
pub fn unprepared(fault: AdmitFault) -> Admitted
    ensures { result ≡ unprepared fault }
{
    match fault {
        AdmitFault::Damaged(damage) => Admitted::Damaged(damage),
        AdmitFault::NoMemory => Admitted::NoMemory,
    }
}

// Four bytes for the length of a record, with room for one of common size.
fn room_of(alloc: Global) -> Result<Bytes, AreaFault>
    ensures ok { IfOk result (λ bytes. length bytes ≡ 4) }
    ensures err { IfErr result (λ fault. fault ≡ AreaFault.NoMemory) }
{
    let mut bytes = Vec::with_capacity(alloc, COMMON_SIZE)?;
    bytes.extend_from_slice(&[0; 4])?;
    Ok(Bytes::from_vec(bytes))
}

// Adds the payload of an event's record, or nothing.
fn add_payload(event: &EventRecord, out: &mut Bytes) -> Result<(), NoMemory>
    ensures ok { OnOk result (out.new ≡ out.old ++ event_spelling event.now) }
    ensures spelled { OnOk result (IsSpellableEvent event.now) }
    ensures err { OnErr result (out.new ≡ out.old) }
{
    out.extend(event.payload())
}

// The record of an event, with its length and the next closed gate, in one piece of memory. `AreaFull` is returned only if no area has room for it.
fn record_of(alloc: Global, event: &EventRecord) -> Result<Framed, AreaFault>
    ensures ok { IfOk result (λ framed. framed ≡ event_spelling event.now) }
    ensures spelled { IfOk result (λ _. IsSpellableEvent event.now) }
    ensures not_disk { result ≢ Err AreaFault.Disk }
    ensures full { result ≡ Err AreaFault.AreaFull →
        area_limit ≤ length (event_spelling event.now) }
{
    let mut bytes = room_of(alloc)?;
    if add_payload(event, &mut bytes).is_err() {
        return Err(AreaFault::NoMemory);
    }
    if MOST_AREA_BYTES + 4 <= bytes.len() as u64 {
        return Err(AreaFault::AreaFull);
    }
    match frame_after_four(bytes) {
        Ok(framed) => Ok(framed),
        Err(_) => Err(AreaFault::NoMemory),
    }
}

// Adds the record of an event to the area, or nothing.
fn append_event<D: Disk>(
    alloc: Global,
    area: &mut Area<D>,
    event: &EventRecord,
) -> Result<(), AreaFault>
    ensures { AppendsEvent D.clock D.left_since D.image D.faults area.old event.now result area.new }
{
    match record_of(alloc, event) {
        Ok(framed) => area.append(&framed),
        Err(fault) => Err(fault),
    }
}

// Adds the record of the pending event to the area, or nothing.
fn append_pending<D: Disk>(alloc: Global, area: &mut Area<D>, gate: &Gate) -> Result<(), AreaFault>
    requires { IsSome gate.now.pending }
    ensures { IfSome gate.now.pending (λ event. AppendsEvent D.clock D.left_since D.image D.faults area.old event result area.new) }
{
    match gate.pending() {
        Some(event) => append_event(alloc, area, event),
        None => Err(AreaFault::NoMemory),
    }
}

/// Keeps the pending event on the disk and then in the history, or forgets it. `AreaFull` is returned exactly if it does not
/// fit, and `Disk` only if the disk failed: the event is pending still, since only the disk knows whether it has it. By the
/// order of the code all memory is taken before the first write.
pub fn keep_pending<D: Disk>(
    alloc: Global,
    area: &mut Area<D>,
    gate: &mut Gate,
) -> Result<(), AreaFault>
    requires { IsSome gate.old.pending }
    ensures { IfSome gate.old.pending (λ event. KeepsPending D.clock D.left_since D.image D.faults area.old gate.old event result area.new gate.new) }
{
    if MOST_EVENTS <= gate.history().count() {
        gate.forget();
        return Err(AreaFault::AreaFull);
    }
    match append_pending(alloc, area, gate) {
        Ok(()) => {
            gate.commit();
            Ok(())
        }
        Err(AreaFault::Disk) => Err(AreaFault::Disk),
        Err(AreaFault::AreaFull) => {
            gate.forget();
            Err(AreaFault::AreaFull)
        }
        Err(AreaFault::NoMemory) => {
            gate.forget();
            Err(AreaFault::NoMemory)
        }
    }
}
