//! Writing events.

ghost use Rattle.std.specs.Prelude.{◌≡◌, ◌++◌, OnOk, OnErr};
ghost use Rattle.bl_syntax.specs.BeginsWith.{BeginsWith};
ghost use Rattle.journal_records.specs.EventSpelling.{event_spelling, IsSpellableEvent, HasFittingFields};

use crate::event::Event;
use bl_syntax::{Bytes, NoMemory};
use record_parts::{write_acted, write_issued, write_registered, write_withdrawn};

/// Adds the payload of an event, without its pass, or nothing. The moment of an operation lies in the range of moments, its
/// names have at most 255 bytes, procaps and cited numbers are at most 255, and signatures and bytes to write have fewer
/// than 2^32 bytes.
pub fn write_event(e: &Event, out: &mut Bytes) -> Result<(), NoMemory>
    requires { HasFittingFields e.now }
    ensures ok { OnOk result (out.new ≡ out.old ++ event_spelling e.now) }
    ensures spelled { OnOk result (IsSpellableEvent e.now) }
    ensures err { OnErr result (out.new ≡ out.old) }
{
    let len = out.len();
    let added = add_event(e, out);
    if added.is_err() {
        out.truncate(len);
    }
    added
}

/// Adds the payload of an event, or a front of it.
#[tactic(auto, using(bl_syntax::proofs::BeginsWithLemmas::writing), unfolding(crate::specs::EventSpelling::event_spelling))]
fn add_event(e: &Event, out: &mut Bytes) -> Result<(), NoMemory>
    requires { HasFittingFields e.now }
    ensures ok { OnOk result (out.new ≡ out.old ++ event_spelling e.now) }
    ensures spelled { OnOk result (IsSpellableEvent e.now) }
    ensures err { OnErr result (BeginsWith out.new out.old) }
{
    match e {
        Event::Registered {
            pass: _,
            statement,
            signature,
        } => {
            out.push(1)?;
            write_registered(statement, signature.as_slice(), out)
        }
        Event::Issued {
            pass: _,
            cited,
            proof,
            grant,
        } => {
            out.push(2)?;
            write_issued(cited.as_slice(), proof, grant, out)
        }
        Event::Acted {
            pass: _,
            caller,
            op,
            procaps,
            moment,
        } => {
            out.push(3)?;
            write_acted(caller, op, procaps.as_slice(), *moment, out)
        }
        Event::Withdrawn {
            pass: _,
            number,
            signature,
        } => {
            out.push(4)?;
            write_withdrawn(*number, signature.as_slice(), out)
        }
    }
}
