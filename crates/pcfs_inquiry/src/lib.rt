//! Inquiries: statements, and a goal with a proof of it from all of them. The answer is what the proof grants, or why it is
//! refused; nothing is kept.
//!
//! An inquiry comes in lines. The first line that is wrong is reported with its number, its fault, and the fault's place.
#![tactic(auto)]

mod answering;
pub mod laws;
mod reading;

pub use answering::{InquiryEnd, answer_input};
pub use reading::{Inquiry, InquiryFault, read_inquiry};
