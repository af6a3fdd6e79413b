//! What happened, and the payloads of a journal's records: events, both ways.
//!
//! What is written is the one spelling of an event, up to its pass, which is not written. What is read is the event of
//! pass 0 whose spelling the payload is; any other bytes give their first fault from the left. An event may be kept as
//! its payload, with its pass.
#![tactic(auto)]

mod event;
pub mod laws;
mod reading;
mod record;
mod writing;

pub use event::{Event, Procaps};
pub use reading::read_event;
pub use record::{EventRecord, events_of};
pub use writing::write_event;
