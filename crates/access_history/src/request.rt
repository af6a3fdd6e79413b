//! What the gate is asked.

use bl_syntax::{Bytes, Principal, Statement};
use file_world::Op;
use journal_records::Procaps;
use proof_verifier::Checked;

/// A request to the gate.
#[derive(Debug, Drop)]
pub enum StepRequest {
    /// Keep a statement, under this signature of who says it.
    Register(Statement, Bytes),
    /// Withdraw the statement of this number, under this signature of who said it.
    Withdraw(u32, Bytes),
    /// Issue what the proof grants, if the statements that it cites stand under their numbers.
    Issue(Checked),
    /// Let the caller act, under these procaps, one for each slot.
    Act(Principal, Op, Procaps),
    /// Show the procap of the issue of this number: to the principal that it names, or, if nobody is named, to the
    /// operator, who may see each.
    ShowProcap(u64, Option<Principal>),
}
