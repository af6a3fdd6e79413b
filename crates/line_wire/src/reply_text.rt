//! The line that a reply is written as.
#![tactic(auto, using(bl_syntax::proofs::BeginsWithLemmas::writing))]

ghost use Rattle.std.specs.Prelude.{◌≡◌, ◌++◌, ◌∷◌, [], OnOk, OnErr};
ghost use Rattle.bl_syntax.specs.BeginsWith.{BeginsWith};
ghost use Rattle.line_wire.specs.ReplyText.{step_text, reply_text, issue_text};

use crate::checked_text::write_checked;
use crate::fault_text::{write_fault, write_unproved};
use crate::gate_text::{write_denial, write_refused, write_rejection};
use crate::hex_text::write_procap_text;
use crate::operation_text::write_operation;
use crate::reply::LineReply;
use access_history::StepReply;
use bl_syntax::decimal::{put_counted, put_text};
use bl_syntax::{Bytes, NoMemory};
use std::alloc::Global;

/// Writes a reply as a line with its end, all of it or nothing.
pub fn write_reply(alloc: Global, out: &mut Bytes, reply: &LineReply) -> Result<(), NoMemory>
    ensures ok { OnOk result (out.new ≡ out.old ++ (reply_text reply.now ++ 10 ∷ [])) }
    ensures err { OnErr result (out.new ≡ out.old) }
{
    let len = out.len();
    let written = write_line(alloc, out, reply);
    if written.is_err() {
        out.truncate(len);
    }
    written
}

fn write_line(alloc: Global, out: &mut Bytes, reply: &LineReply) -> Result<(), NoMemory>
    ensures ok { OnOk result (out.new ≡ out.old ++ (reply_text reply.now ++ 10 ∷ [])) }
    ensures err { OnErr result (BeginsWith out.new out.old) }
{
    write_text(alloc, out, reply)?;
    out.push(b'\n')
}

fn write_text(alloc: Global, out: &mut Bytes, reply: &LineReply) -> Result<(), NoMemory>
    ensures ok { OnOk result (out.new ≡ out.old ++ reply_text reply.now) }
    ensures err { OnErr result (BeginsWith out.new out.old) }
{
    match reply {
        LineReply::Done => put_text(out, "ok"),
        LineReply::Step(step) => write_step(alloc, out, step),
        LineReply::Checked(grant) => write_checked(out, grant),
        LineReply::Unproved(fault) => write_unproved(out, *fault),
        LineReply::Faulty(fault) => write_fault(out, *fault),
        LineReply::TooLong => put_text(out, "bad 3"),
        LineReply::NotLoggedIn => put_text(out, "rejected 4"),
        LineReply::Checkpointed => put_text(out, "ok checkpoint"),
        LineReply::Full => put_text(out, "full"),
        LineReply::Stopped => put_text(out, "stopped"),
        LineReply::NoMemory => put_text(out, "nomemory"),
    }
}

fn write_step(alloc: Global, out: &mut Bytes, step: &StepReply) -> Result<(), NoMemory>
    ensures ok { OnOk result (out.new ≡ out.old ++ step_text step.now) }
    ensures err { OnErr result (BeginsWith out.new out.old) }
{
    match step {
        StepReply::Statement(number) => put_counted(out, "ok statement ", u64::from(*number)),
        StepReply::Withdrawn => put_text(out, "ok"),
        StepReply::Issue(number, times, states) => write_issue(out, *number, *times, *states),
        StepReply::Procap(p) => write_procap_text(alloc, out, p),
        StepReply::Operation(reply) => write_operation(out, reply),
        StepReply::Denied(denial) => write_denial(out, denial),
        StepReply::Refused(refusal, at) => write_refused(out, *refusal, *at),
        StepReply::Rejected(rejection) => write_rejection(out, *rejection),
        StepReply::Absent(number) => put_counted(out, "absent ", *number),
    }
}

fn write_issue(out: &mut Bytes, number: u64, times: u32, states: u32) -> Result<(), NoMemory>
    ensures ok { OnOk result (out.new ≡ out.old ++ issue_text number times states) }
    ensures err { OnErr result (BeginsWith out.new out.old) }
{
    put_counted(out, "ok issue ", number)?;
    put_counted(out, " time ", u64::from(times))?;
    put_counted(out, " state ", u64::from(states))
}
