//! A script over a store: its lines, as they come in pieces, and their answers.
//!
//! The lines that are answered are those of the pieces joined, whatever the pieces are; by the order of the code, and no
//! clause, each reply is out before more of the input is taken. What is answered to a line is a definition without scripts.
//! Laws say that a line and a script have exactly one outcome, unless memory runs out or a disk fails.
#![tactic(auto)]

mod answering;
mod brought;
mod interpreter;
pub mod laws;
mod line_replies;
mod outbox;
mod script;
mod script_end;
mod signing;

pub use outbox::{SendFault, flush, send, send_all};
pub use script::script_session;
pub use script_end::ScriptEnd;
