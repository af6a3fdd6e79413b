//! The history of an area: its image, and its payloads one by one.

ghost use Rattle.std.specs.Prelude.{◌≡◌, [], IfErr, IfOk};
ghost use Rattle.access_history.specs.History.{authority_with};
ghost use Rattle.recover.specs.Reading.{AdmitsPayload, AdmitsPayloads, HasDamage, HoldsHistory, IsSameGate, ReadsGate, fault_at, unread};

use crate::fault::OpenFault;
use bl_syntax::CodecFault;
use checkpoint::read_base;
use journal_core::Scan;
use journal_records::read_event;
use op_gate::{AdmitFault, Damage, Gate};
use policy_statement::Keyring;
use std::alloc::Global;

// A fault of reading an image, or the event of a payload.
fn unread(fault: CodecFault) -> AdmitFault
    ensures { result ≡ unread fault }
{
    match fault {
        CodecFault::NoMemory => AdmitFault::NoMemory,
        _ => AdmitFault::Damaged(Damage::Shape),
    }
}

// A gate that begins with the state of an image, exactly if a history may begin with that state.
fn read_gate(alloc: Global, image: &[u8], key: &[u8], ring: Keyring) -> Result<Gate, AdmitFault>
    ensures { ReadsGate key.now ring image.now result }
{
    match read_base(alloc, image) {
        Ok(base) => Gate::from_base(alloc, key, ring, base),
        Err(fault) => Err(unread(fault)),
    }
}

// Keeps the event of a payload, exactly if it may come next.
fn admit_payload(alloc: Global, gate: &mut Gate, payload: &[u8]) -> Result<(), AdmitFault>
    ensures same { IsSameGate gate.old gate.new }
    ensures answer { AdmitsPayload gate.old payload.now result gate.new }
{
    match read_event(alloc, payload) {
        Ok(event) => gate.admit_event(alloc, event),
        Err(fault) => {
            gate.forget();
            Err(unread(fault))
        }
    }
}

// A fault of the record of that number.
fn fault_at(number: u64, fault: AdmitFault) -> OpenFault
    ensures { result ≡ fault_at number fault }
{
    match fault {
        AdmitFault::Damaged(damage) => OpenFault::Damaged(number, damage),
        AdmitFault::NoMemory => OpenFault::NoMemory,
    }
}

// Keeps the events of all payloads, or reports the first that is damaged.
fn admit_payloads(alloc: Global, gate: &mut Gate, scan: &Scan) -> Result<(), OpenFault>
    requires { gate.old.events ≡ [] }
    ensures same { IsSameGate gate.old gate.new }
    ensures answer { AdmitsPayloads (authority_with gate.old.key gate.old.ring) gate.old.base scan.now.payloads result gate.new.events }
{
    gate.forget();
    for place in 0..scan.count() {
        gate.history().lemma_is_lawful();
        if let Err(fault) = admit_payload(alloc, gate, scan.payload(place)) {
            return Err(fault_at(place as u64 + 1, fault));
        }
    }
    Ok(())
}

/// The history of what a scan found, under this key and ring: exactly if a history may begin with the state of the image, and
/// the payloads are those of lawful events; otherwise the first damage.
pub fn read_history(
    alloc: Global,
    scan: &Scan,
    key: &[u8],
    ring: Keyring,
) -> Result<Gate, OpenFault>
    ensures ok { IfOk result (λ gate. HoldsHistory key.now ring scan.now.image scan.now.payloads gate) }
    ensures err { IfErr result (λ fault. HasDamage (authority_with key.now ring) scan.now.image scan.now.payloads fault) }
{
    match read_gate(alloc, scan.image(), key, ring) {
        Ok(mut gate) => match admit_payloads(alloc, &mut gate, scan) {
            Ok(()) => {
                gate.history().lemma_is_lawful();
                Ok(gate)
            }
            Err(fault) => Err(fault),
        },
        Err(fault) => Err(fault_at(0, fault)),
    }
}
