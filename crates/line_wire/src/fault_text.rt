//! The texts of faults of proofs and of lines: the number of the fault, and its place.
#![tactic(auto, using(bl_syntax::proofs::BeginsWithLemmas::writing))]

ghost use Rattle.std.specs.Prelude.{◌≡◌, ◌++◌, OnOk, OnErr};
ghost use Rattle.bl_syntax.specs.BeginsWith.{BeginsWith};
ghost use Rattle.line_wire.specs.FaultText.{placed_text, unproved_text, bad_text_text, fault_text};

use bl_syntax::decimal::{put_counted, put_text};
use bl_syntax::{Bytes, NoMemory};
use bl_text::TextFault;
use line_forms::LineFault;
use proof_verifier::CheckFault;

// Writes the number of a fault and its place, after a word and a space.
fn write_placed(out: &mut Bytes, word: &str, number: u64, place: usize) -> Result<(), NoMemory>
    ensures ok { OnOk result (out.new ≡ out.old ++ placed_text word.now number place) }
    ensures err { OnErr result (BeginsWith out.new out.old) }
{
    put_counted(out, word, number)?;
    put_counted(out, " ", place as u64)
}

/// Writes why a proof is refused.
pub fn write_unproved(out: &mut Bytes, fault: CheckFault) -> Result<(), NoMemory>
    ensures ok { OnOk result (out.new ≡ out.old ++ unproved_text fault) }
    ensures err { OnErr result (BeginsWith out.new out.old) }
{
    match fault {
        CheckFault::NoHypothesis(node) => write_placed(out, "unproved ", 1, node),
        CheckFault::WrongShape(node) => write_placed(out, "unproved ", 2, node),
        CheckFault::NotEntailed(node) => write_placed(out, "unproved ", 3, node),
        CheckFault::NotInState(node) => write_placed(out, "unproved ", 4, node),
        CheckFault::ViewTooWeak(node) => write_placed(out, "unproved ", 5, node),
        CheckFault::BadTerm(node) => write_placed(out, "unproved ", 6, node),
        CheckFault::TooManyConditions(node) => write_placed(out, "unproved ", 7, node),
        CheckFault::NoMemory => put_text(out, "nomemory"),
    }
}

fn write_bad_text(out: &mut Bytes, fault: TextFault) -> Result<(), NoMemory>
    ensures ok { OnOk result (out.new ≡ out.old ++ bad_text_text fault) }
    ensures err { OnErr result (BeginsWith out.new out.old) }
{
    match fault {
        TextFault::Unexpected(at) => write_placed(out, "bad 4 ", 1, at),
        TextFault::UnknownName(at) => write_placed(out, "bad 4 ", 2, at),
        TextFault::BadDate(at) => write_placed(out, "bad 4 ", 3, at),
        TextFault::Sort(at) => write_placed(out, "bad 4 ", 4, at),
        TextFault::TooLarge(at) => write_placed(out, "bad 4 ", 5, at),
        TextFault::NoMemory => put_text(out, "nomemory"),
    }
}

/// Writes the fault of a line: its number, and the place of a bad word or of the fault in a text.
pub fn write_fault(out: &mut Bytes, fault: LineFault) -> Result<(), NoMemory>
    ensures ok { OnOk result (out.new ≡ out.old ++ fault_text fault) }
    ensures err { OnErr result (BeginsWith out.new out.old) }
{
    match fault {
        LineFault::BadWord(place) => put_counted(out, "bad 1 ", place as u64),
        LineFault::BadCount => put_text(out, "bad 2"),
        LineFault::BadText(fault) => write_bad_text(out, fault),
        LineFault::NoMemory => put_text(out, "nomemory"),
    }
}
