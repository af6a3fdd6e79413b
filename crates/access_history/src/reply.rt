//! What is answered to a request.

use bl_syntax::{Constraint, StatePred};
use file_world::{OpReply, Refusal};
use procap::Procap;

/// Why a statement was not registered or withdrawn.
#[derive(Clone, Copy, Debug)]
pub enum Rejection {
    /// The signature is not accepted from who says the statement. It is the one rejection of a withdrawal.
    BadSignature,
    /// As many statements as may be kept are there.
    RegistryFull,
    /// An equal statement has this number.
    Duplicate(u32),
}

/// Why a procap does not give what is needed. Places of conditions count from 1.
#[derive(Clone, Copy, Debug)]
pub enum DenialCause {
    /// Its seal is not the one of its grant under the server's key.
    Seal,
    /// It names another principal than the caller.
    Principal,
    /// It names another file.
    File,
    /// It names another permission.
    Permission,
    /// A condition on time does not hold.
    Time(u32, Constraint),
    /// A condition on the server's state does not hold.
    State(u32, StatePred),
    /// It was issued, and rests on a withdrawn statement: this is the first number that its grant names whose statement was
    /// withdrawn; or, if it names none, the first such number that the last of its issues cites, each of which cites one.
    Withdrawn(u32),
}

/// An operation was not admitted.
#[derive(Clone, Copy, Debug)]
pub struct Denial {
    /// The place of the need, from 1.
    pub need: u32,
    pub cause: DenialCause,
    /// The number of the last event, in whose state it was decided.
    pub at: u64,
}

/// An answer to a request.
#[derive(Debug, Drop)]
pub enum StepReply {
    /// The number of the statement that was registered.
    Statement(u32),
    /// The statement was withdrawn.
    Withdrawn,
    /// The number of the issue, and how many conditions on time and on the state its grant has.
    Issue(u64, u32, u32),
    /// The procap of an issue.
    Procap(Procap),
    /// What the operation returns.
    Operation(OpReply),
    Denied(Denial),
    /// Why the operation was refused, and the number of the last event.
    Refused(Refusal, u64),
    Rejected(Rejection),
    /// There is no statement or issue of this number, or the statement was withdrawn.
    Absent(u64),
}
