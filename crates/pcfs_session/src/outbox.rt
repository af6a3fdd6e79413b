//! Replies on their way out: they are collected, and written in large pieces.

ghost use Rattle.std.specs.Prelude.{◌≡◌, ◌≤◌, ◌-◌, ◌++◌, ◌∷◌, [], length, true, OnOk, OnErr, IsErrOf};
ghost use Rattle.pcfs_ports.specs.Faults.{HasRisen, raise};
ghost use Rattle.pcfs_ports.specs.Observable.{with_back, HoldsSome};
ghost use Rattle.line_wire.specs.declared.reply.LineReply.TheVariants.{Stopped as StoppedReply};
ghost use Rattle.line_wire.specs.ReplyText.{reply_text};
ghost use Rattle.pcfs_session.specs.Outbox.{GoesOut};
ghost use Rattle.pcfs_session.specs.declared.outbox.SendFault.TheVariants.{Write as WriteFailed};

use bl_syntax::Bytes;
use line_wire::{LineReply, write_reply};
use pcfs_ports::{Failed, Sink, write_all};
use std::alloc::Global;
use thiserror::Error;

/// Why a reply was not sent.
#[derive(Clone, Copy, Debug, PartialEq, Eq, Error)]
pub enum SendFault {
    /// The output failed.
    #[error("the output failed")]
    Write,
    /// There was no memory for its text.
    #[error("out of memory")]
    NoMemory,
}

impl From<Failed> for SendFault {
    ghost from_gives = { λ _ e. e ≡ WriteFailed };

    fn from(_failed: Failed) -> SendFault {
        SendFault::Write
    }
}

/// Writes what was collected. After a fault some first part of it was written.
pub fn flush<O: Sink>(collected: &mut Bytes, output: &mut O) -> Result<(), Failed>
    ensures ok { OnOk result (O.held output.new ≡ with_back (O.held output.old) collected.old) }
    ensures empty { OnOk result (collected.new ≡ []) }
    ensures steady { OnOk result (O.faults output.new ≡ O.faults output.old) }
    ensures err { OnErr result (HoldsSome (O.held output.old) (O.held output.new) collected.old) }
    ensures risen { OnErr result (HasRisen (O.faults output.old) (O.faults output.new)) }
    ensures never_falls { O.faults output.old ≤ O.faults output.new }
    ensures by_one { OnErr result (O.faults output.new ≡ raise (O.faults output.old)) }
    ensures broken { OnErr result (O.broken output.new ≡ true) }
{
    write_all(output, collected.as_slice())?;
    collected.clear();
    Ok(())
}

// Writes what was collected if it is enough.
fn flush_if_enough<O: Sink>(
    collected: &mut Bytes,
    enough: usize,
    output: &mut O,
) -> Result<(), Failed>
    ensures ok { OnOk result (GoesOut (O.held output.old) collected.old (O.held output.new) collected.new) }
    ensures few { OnOk result (length collected.new ≤ enough - 1) }
    ensures err { OnErr result (HoldsSome (O.held output.old) (O.held output.new) collected.old) }
    ensures risen { OnErr result (HasRisen (O.faults output.old) (O.faults output.new)) }
    ensures never_falls { O.faults output.old ≤ O.faults output.new }
    ensures steady { OnOk result (O.faults output.new ≡ O.faults output.old) }
    ensures by_one { OnErr result (O.faults output.new ≡ raise (O.faults output.old)) }
    ensures broken { OnErr result (O.broken output.new ≡ true) }
{
    if enough <= collected.len() {
        return flush(collected, output);
    }
    Ok(())
}

// Writes what was collected, after memory ran out.
fn give_up<O: Sink>(collected: &mut Bytes, output: &mut O) -> SendFault
    ensures some { HoldsSome (O.held output.old) (O.held output.new) collected.old }
    ensures out { (result ≡ SendFault.NoMemory) →
        O.held output.new ≡ with_back (O.held output.old) collected.old }
    ensures steady { (result ≡ SendFault.NoMemory) →
        (O.faults output.new ≡ O.faults output.old) }
    ensures risen { (result ≡ SendFault.Write) →
        HasRisen (O.faults output.old) (O.faults output.new) }
    ensures never_falls { O.faults output.old ≤ O.faults output.new }
    ensures by_one { (result ≡ SendFault.Write) → O.faults output.new ≡ raise (O.faults output.old) }
    ensures broken { (result ≡ SendFault.Write) → O.broken output.new ≡ true }
{
    match flush(collected, output) {
        Ok(()) => SendFault::NoMemory,
        Err(_) => SendFault::Write,
    }
}

/// Collects the line of a reply, and writes what was collected once it has `enough` bytes, so that fewer are left. If memory
/// runs out, what was collected before is written.
pub fn send<O: Sink>(
    alloc: Global,
    collected: &mut Bytes,
    reply: &LineReply,
    enough: usize,
    output: &mut O,
) -> Result<(), SendFault>
    ensures ok { OnOk result (GoesOut (O.held output.old) (collected.old ++ (reply_text reply.now ++ 10 ∷ [])) (O.held output.new) collected.new) }
    ensures few { OnOk result (length collected.new ≤ enough - 1) }
    ensures err { OnErr result (HoldsSome (O.held output.old) (O.held output.new) (collected.old ++ (reply_text reply.now ++ 10 ∷ []))) }
    ensures unsent { IsErrOf result SendFault.NoMemory →
        O.held output.new ≡ with_back (O.held output.old) collected.old }
    ensures risen { IsErrOf result SendFault.Write →
        HasRisen (O.faults output.old) (O.faults output.new) }
    ensures never_falls { O.faults output.old ≤ O.faults output.new }
    ensures steady { OnOk result (O.faults output.new ≡ O.faults output.old) }
    ensures steady_unsent { IsErrOf result SendFault.NoMemory →
        (O.faults output.new ≡ O.faults output.old) }
    ensures by_one { IsErrOf result SendFault.Write →
        O.faults output.new ≡ raise (O.faults output.old) }
    ensures broken { IsErrOf result SendFault.Write → O.broken output.new ≡ true }
{
    match write_reply(alloc, collected, reply) {
        Ok(()) => Ok(flush_if_enough(collected, enough, output)?),
        Err(_) => Err(give_up(collected, output)),
    }
}

/// Writes what was collected, and then the line that tells that a disk failed. No memory is taken. After a fault of the output
/// some first part of it was written.
pub fn send_stopped<O: Sink>(collected: &mut Bytes, output: &mut O) -> Result<(), Failed>
    ensures ok { OnOk result (O.held output.new ≡ with_back (O.held output.old) (collected.old ++ (reply_text StoppedReply ++ 10 ∷ []))) }
    ensures steady { OnOk result (O.faults output.new ≡ O.faults output.old) }
    ensures err { OnErr result (HoldsSome (O.held output.old) (O.held output.new) (collected.old ++ (reply_text StoppedReply ++ 10 ∷ []))) }
    ensures risen { OnErr result (HasRisen (O.faults output.old) (O.faults output.new)) }
    ensures never_falls { O.faults output.old ≤ O.faults output.new }
    ensures by_one { OnErr result (O.faults output.new ≡ raise (O.faults output.old)) }
    ensures broken { OnErr result (O.broken output.new ≡ true) }
{
    match flush(collected, output) {
        Ok(()) => {}
        Err(failed) => return Err(failed),
    }
    match write_all(output, b"stopped\n") {
        Ok(()) => Ok(()),
        Err(failed) => Err(failed),
    }
}

/// Collects the line of a reply, and writes all that was collected. If memory runs out, what was collected before is written.
pub fn send_all<O: Sink>(
    alloc: Global,
    collected: &mut Bytes,
    reply: &LineReply,
    output: &mut O,
) -> Result<(), SendFault>
    ensures ok { OnOk result (O.held output.new ≡ with_back (O.held output.old) (collected.old ++ (reply_text reply.now ++ 10 ∷ []))) }
    ensures err { OnErr result (HoldsSome (O.held output.old) (O.held output.new) (collected.old ++ (reply_text reply.now ++ 10 ∷ []))) }
    ensures unsent { IsErrOf result SendFault.NoMemory →
        O.held output.new ≡ with_back (O.held output.old) collected.old }
    ensures steady { OnOk result (O.faults output.new ≡ O.faults output.old) }
    ensures steady_unsent { IsErrOf result SendFault.NoMemory →
        (O.faults output.new ≡ O.faults output.old) }
    ensures risen { IsErrOf result SendFault.Write →
        HasRisen (O.faults output.old) (O.faults output.new) }
    ensures never_falls { O.faults output.old ≤ O.faults output.new }
    ensures by_one { IsErrOf result SendFault.Write →
        O.faults output.new ≡ raise (O.faults output.old) }
    ensures broken { IsErrOf result SendFault.Write → O.broken output.new ≡ true }
{
    match write_reply(alloc, collected, reply) {
        Ok(()) => Ok(flush(collected, output)?),
        Err(_) => Err(give_up(collected, output)),
    }
}
