//! What the state keeps of an event.

use crate::issue_record::IssueRecord;
use bl_syntax::{Bytes, Grant, Numbers, Sequence, Statement};
use policy_statement::Registered;
use proof_term::ProofTree;

/// A grant that was issued, its proof, and the numbers of the statements that the proof cites. A state keeps it as its
/// record.
#[derive(Debug, Drop)]
pub struct Issue {
    pub cited: Numbers,
    pub proof: ProofTree,
    pub grant: Grant,
}

/// What the state keeps of an event beside the event.
#[derive(Debug, Drop)]
pub enum Addition {
    /// A statement more, with its signature.
    Statement(Statement, Bytes),
    /// The statement of this number is withdrawn.
    Withdrawal(u32),
    /// An issue more.
    Issue(IssueRecord),
    /// Nothing more: the world makes the change of an operation.
    Operation,
}

/// Statements with their signatures, by their numbers from 1.
pub type Statements = Sequence<Registered>;

/// Records of issues, by their numbers from 1.
pub type Issues = Sequence<IssueRecord>;
