//! What is returned to a line for which a proof is refused, the store says something, or the reader finds a fault.

ghost use Rattle.std.specs.Prelude.{◌≡◌, ◌≢◌, IfOk, OnErr};
ghost use Rattle.pcfs_session.specs.Interpreter.{IsToldAs, IsToldOfCheckpoint, unread_reply};

use bl_syntax::NoMemory;
use line_forms::LineFault;
use line_wire::LineReply;
use pcfs_store::{CheckpointReply, StoreReply};
use proof_verifier::CheckFault;

/// What is returned if a proof is refused. An error exactly if memory ran out, which is no fault of the proof.
pub fn unproved(fault: CheckFault) -> Result<LineReply, NoMemory>
    ensures ok { IfOk result (λ reply. (reply ≡ LineReply.Unproved fault) × (fault ≢ CheckFault.NoMemory)) }
{
    match fault {
        CheckFault::NoMemory => Err(NoMemory),
        _ => Ok(LineReply::Unproved(fault)),
    }
}

/// What is returned to a line for which the store says this.
pub fn reply_of_store(reply: StoreReply) -> Result<LineReply, NoMemory>
    ensures ok { IfOk result (λ told. IsToldAs reply told) }
    ensures err { OnErr result (reply ≡ StoreReply.NoMemory) }
{
    match reply {
        StoreReply::Step(reply) => Ok(LineReply::Step(reply)),
        StoreReply::Full => Ok(LineReply::Full),
        StoreReply::Stopped => Ok(LineReply::Stopped),
        StoreReply::NoMemory => Err(NoMemory),
    }
}

/// What is returned to a line for which a checkpoint of the store says this.
pub fn reply_of_checkpoint(reply: CheckpointReply) -> Result<LineReply, NoMemory>
    ensures ok { IfOk result (λ told. IsToldOfCheckpoint reply told) }
    ensures err { OnErr result (reply ≡ CheckpointReply.NoMemory) }
{
    match reply {
        CheckpointReply::Checkpointed => Ok(LineReply::Checkpointed),
        CheckpointReply::Full => Ok(LineReply::Full),
        CheckpointReply::Stopped => Ok(LineReply::Stopped),
        CheckpointReply::NoMemory => Err(NoMemory),
    }
}

/// What is returned to a line with this fault.
pub fn unread(fault: LineFault) -> LineReply
    ensures { result ≡ unread_reply fault }
{
    match fault {
        LineFault::NoMemory => LineReply::NoMemory,
        _ => LineReply::Faulty(fault),
    }
}
