//! The answer to the inquiry in an input.

ghost use Rattle.std.specs.Prelude.{◌≡◌, ◌≢◌, ◌++◌, ◌∷◌, [], ℕ, List, IfOk, OnOk, OnErr};
ghost use Rattle.proof_verifier.specs.Cited.{AreCited, statements_of};
ghost use Rattle.proof_verifier.specs.Verdict.{verdict};
ghost use Rattle.pcfs_inquiry.specs.Answers.{InquiryEnds, verdict_text};

use crate::reading::{Inquiry, InquiryFault, read_inquiry};
use bl_syntax::decimal::put_text;
use bl_syntax::{Bytes, Grant, NoMemory};
use line_faults::{bad_line, has_long_line};
use line_wire::{LineReply, write_reply};
use pcfs_ports::{Source, TakeFault, read_to_end};
use proof_verifier::{CheckFault, verdict};
use std::alloc::Global;

/// The inquiry was answered.
const DONE: u8 = 0;

/// A line is too long.
const LINE_TOO_LONG: u8 = 2;

/// The input failed.
const READ_FAULT: u8 = 6;

/// A line is wrong.
const BAD_INPUT: u8 = 12;

/// The input is too long.
const TOO_LONG: u8 = 13;

/// How the inquiry in an input ends: the status, and the line to be written, with its end.
#[derive(Debug, Drop)]
pub struct InquiryEnd {
    pub status: u8,
    pub line: Bytes,
}

// A line with this text.
fn line_with(alloc: Global, text: &str) -> Result<Bytes, NoMemory>
    ensures { IfOk result (λ line. line ≡ text.now ++ 10 ∷ []) }
{
    let mut line = Bytes::new(alloc);
    put_text(&mut line, text)?;
    line.push(b'\n')?;
    Ok(line)
}

// The line that tells what a proof grants.
fn granted_line(alloc: Global, grant: Grant) -> Result<Bytes, NoMemory>
    ensures { IfOk result (λ line. line ≡ verdict_text (Ok grant) ++ 10 ∷ []) }
{
    let mut reply = Bytes::new(alloc);
    write_reply(alloc, &mut reply, &LineReply::Checked(grant))?;
    let mut line = Bytes::new(alloc);
    line.extend(&reply.as_slice()[3..])?;
    Ok(line)
}

// The line that tells why a proof is refused; an error if memory ran out, which is no fault of the proof.
fn refused_line(alloc: Global, fault: CheckFault) -> Result<Bytes, NoMemory>
    ensures line { IfOk result (λ line. line ≡ verdict_text (Err fault) ++ 10 ∷ []) }
    ensures not_memory { OnOk result (fault ≢ CheckFault.NoMemory) }
{
    match fault {
        CheckFault::NoMemory => Err(NoMemory),
        _ => {
            let mut line = Bytes::new(alloc);
            write_reply(alloc, &mut line, &LineReply::Unproved(fault))?;
            Ok(line)
        }
    }
}

// The answer to an inquiry.
fn answer(alloc: Global, inquiry: &Inquiry) -> Result<Bytes, NoMemory>
    requires { AreCited inquiry.now.cites }
    ensures { IfOk result (λ line. line ≡ verdict_text (verdict (statements_of inquiry.now.cites) inquiry.now.goal inquiry.now.proof) ++ 10 ∷ []) }
{
    match verdict(alloc, &inquiry.cites, &inquiry.goal, &inquiry.proof) {
        Ok(grant) => granted_line(alloc, grant),
        Err(fault) => refused_line(alloc, fault),
    }
}

// The end with this status and this line, or out of memory.
fn end_with(status: u8, line: Result<Bytes, NoMemory>) -> Result<InquiryEnd, NoMemory>
    ensures status { IfOk result (λ end. end.status ≡ status) }
    ensures line { IfOk result (λ end. line ≡ Ok end.line) }
{
    match line {
        Ok(line) => Ok(InquiryEnd { status, line }),
        Err(refused) => Err(refused),
    }
}

/// Reads the input to its end and answers the inquiry in it. What ends it otherwise is told with its status: 2, a line is
/// too long; 6, the input failed; 12, a line is wrong; 13, the input has 1 GiB or more. After a read that failed nothing is
/// read, and if memory runs out no read has failed.
pub fn answer_input<I: Source>(alloc: Global, input: &mut I) -> Result<InquiryEnd, NoMemory>
    ensures ends { IfOk result (λ end. (text : List ℕ) × (end.line ≡ text ++ 10 ∷ [])
        × InquiryEnds (I.left input.old) (I.left input.new) (I.faults input.old)
        (I.faults input.new) (I.broken input.new) end.status text) }
    ensures steady { OnErr result (I.faults input.new ≡ I.faults input.old) }
{
    let failed = end_with(READ_FAULT, line_with(alloc, "readfault"))?;
    let bytes = match read_to_end(alloc, input) {
        Ok(bytes) => bytes,
        Err(TakeFault::Failed) => return Ok(failed),
        Err(TakeFault::TooLong) => return end_with(TOO_LONG, line_with(alloc, "toolong")),
        Err(TakeFault::NoMemory) => return Err(NoMemory),
    };
    if has_long_line(bytes.as_slice()) {
        return end_with(LINE_TOO_LONG, line_with(alloc, "bad 3"));
    }
    match read_inquiry(alloc, bytes.as_slice()) {
        Ok(inquiry) => end_with(DONE, answer(alloc, &inquiry)),
        Err(InquiryFault::Bad(number, fault)) => end_with(
            BAD_INPUT,
            bad_line(alloc, number, fault),
        ),
        Err(InquiryFault::NoMemory) => Err(NoMemory),
    }
}
