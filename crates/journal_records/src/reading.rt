//! Reading events.

ghost use Rattle.std.specs.Prelude.{IfOk};
ghost use Rattle.bl_syntax.specs.Reading.{GivesReading};
ghost use Rattle.bl_syntax.specs.Codec.{GivesReadingOrReports};
ghost use Rattle.procap.specs.Procap.{at_end};
ghost use Rattle.journal_records.specs.EventSpelling.{HasFittingFields};
ghost use Rattle.journal_records.specs.EventReading.{event_at, whole_event, ReadsWholeEvent};

use crate::event::Event;
use bl_syntax::CodecFault;
use bl_syntax::fields::place;
use record_parts::{acted_at, issued_at, registered_at, withdrawn_at};
use std::alloc::Global;

/// An event at the front of `bytes`, the rest of an input of `input` bytes.
#[tactic(auto, using(bl_syntax::proofs::ReportsFaultLemmas::hands_on, bl_syntax::proofs::ReportsFaultLemmas::stops), unfolding(crate::specs::EventReading::event_at))]
fn event_at(alloc: Global, input: usize, bytes: &[u8]) -> Result<(Event, &[u8]), CodecFault>
    ensures { GivesReadingOrReports (λ x. (x.0, x.1.now)) result (event_at input bytes.now) }
{
    match bytes {
        [] => Err(CodecFault::Short),
        [1, rest @ ..] => match registered_at(alloc, input, rest) {
            Err(fault) => Err(fault),
            Ok((statement, signature, rest)) => Ok((
                Event::Registered {
                    pass: 0,
                    statement,
                    signature,
                },
                rest,
            )),
        },
        [2, rest @ ..] => match issued_at(alloc, input, rest) {
            Err(fault) => Err(fault),
            Ok((cited, proof, grant, rest)) => Ok((
                Event::Issued {
                    pass: 0,
                    cited,
                    proof,
                    grant,
                },
                rest,
            )),
        },
        [3, rest @ ..] => match acted_at(alloc, input, rest) {
            Err(fault) => Err(fault),
            Ok((caller, op, procaps, moment, rest)) => Ok((
                Event::Acted {
                    pass: 0,
                    caller,
                    op,
                    procaps,
                    moment,
                },
                rest,
            )),
        },
        [4, rest @ ..] => match withdrawn_at(alloc, rest) {
            Err(fault) => Err(fault),
            Ok((number, signature, rest)) => Ok((
                Event::Withdrawn {
                    pass: 0,
                    number,
                    signature,
                },
                rest,
            )),
        },
        [_, ..] => Err(CodecFault::BadTag(place(input, bytes))),
    }
}

/// Reads an event that is all of the bytes, with pass 0. Bytes after it are `NotCanonical` at the first of them. What is
/// read may be written again.
pub fn read_event(alloc: Global, bytes: &[u8]) -> Result<Event, CodecFault>
    ensures exact { GivesReadingOrReports (λ e. e) result (whole_event bytes.now) }
    ensures whole { ReadsWholeEvent bytes.now result }
    ensures fits { IfOk result (λ e. HasFittingFields e) }
{
    match event_at(alloc, bytes.len(), bytes) {
        Err(fault) => Err(fault),
        Ok((event, rest)) => at_end(bytes.len(), event, rest),
    }
}

/// The event after which nothing is left over.
fn at_end(input: usize, event: Event, rest: &[u8]) -> Result<Event, CodecFault>
    ensures { GivesReading (λ e. e) result (at_end input (event, rest.now)) }
{
    match rest {
        [] => Ok(event),
        [_, ..] => Err(CodecFault::NotCanonical(place(input, rest))),
    }
}
