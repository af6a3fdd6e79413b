//! The audit of a history: a report of what is wrong with its events, and of operations that were admitted by grants that
//! were not issued before.
//!
//! The report is a definition over the base, the events, the key of the seal and the ring; it ends with the first event with
//! which something is wrong. Which statements stand before each event is read off the events alone, and with it which grants
//! are gone. It is the same in any number of pieces. The report on a lawful history has no wrong row. A history over a
//! lawful base whose report has none is lawful too, if its events are typed and it ends below event 2^48.
#![tactic(auto)]

mod admission;
mod auditing;
mod auditor;
mod credentials;
mod decoding;
mod digests;
mod dossier;
mod ends;
mod examining;
mod firsts;
mod grants;
mod issues;
pub mod laws;
mod papers;
mod report;
mod report_text;
mod statements;
mod supports;

pub use auditing::{audit, audit_pieces};
pub use decoding::events_in_pieces;
pub use report::{Finding, Report, ReportRow, ReportRows};
pub use report_text::write_report;
