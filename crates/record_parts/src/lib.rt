//! The parts of journal records and checkpoints, both ways: operations, and what was registered, withdrawn,
//! issued and done.
//!
//! What is written is the one spelling of its value, and what is read is spelled so. Any other bytes give their first
//! fault from the left. What is read is copied once, out of the input. An issue may be kept as its bytes.
#![tactic(auto)]

pub mod fields;
mod grant_matching;
mod issuing_record;
pub mod laws;
mod operation_reading;
mod operation_writing;
mod parts;
mod record_reading;
mod record_writing;

pub use issuing_record::IssuingRecord;
pub use operation_reading::operation_at;
pub use operation_writing::write_operation;
pub use record_reading::{acted_at, issued_at, registered_at, withdrawn_at};
pub use record_writing::{write_acted, write_issued, write_registered, write_withdrawn};
