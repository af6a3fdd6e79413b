//! The line that reports the first wrong line of an input.

ghost use Rattle.std.specs.Prelude.{◌≡◌, ◌++◌, ◌∷◌, [], IfOk, OnErr, OnOk};
ghost use Rattle.bl_syntax.specs.BeginsWith.{BeginsWith};
ghost use Rattle.line_faults.specs.Reports.{bad_line_text, line_fault_text, text_fault_text};

use bl_syntax::decimal::{put_counted, put_text};
use bl_syntax::{Bytes, NoMemory};
use bl_text::TextFault;
use line_forms::LineFault;
use std::alloc::Global;

// Writes the number of a fault of a text, and its place there.
fn write_text_fault(out: &mut Bytes, fault: TextFault) -> Result<(), NoMemory>
    ensures ok { OnOk result (out.new ≡ out.old ++ text_fault_text fault) }
    ensures err { OnErr result (BeginsWith out.new out.old) }
{
    match fault {
        TextFault::Unexpected(at) => put_counted(out, "11 ", at as u64),
        TextFault::UnknownName(at) => put_counted(out, "12 ", at as u64),
        TextFault::BadDate(at) => put_counted(out, "13 ", at as u64),
        TextFault::Sort(at) => put_counted(out, "14 ", at as u64),
        TextFault::TooLarge(at) => put_counted(out, "15 ", at as u64),
        TextFault::NoMemory => put_text(out, "nomemory"),
    }
}

// Writes the number of a fault of a line, and its place.
fn write_line_fault(out: &mut Bytes, fault: LineFault) -> Result<(), NoMemory>
    ensures ok { OnOk result (out.new ≡ out.old ++ line_fault_text fault) }
    ensures err { OnErr result (BeginsWith out.new out.old) }
{
    match fault {
        LineFault::BadWord(place) => put_counted(out, "1 ", place as u64),
        LineFault::BadCount => put_text(out, "2 0"),
        LineFault::BadText(fault) => write_text_fault(out, fault),
        LineFault::NoMemory => put_text(out, "nomemory"),
    }
}

/// The line that tells which line is wrong, and how.
pub fn bad_line(alloc: Global, number: usize, fault: LineFault) -> Result<Bytes, NoMemory>
    ensures { IfOk result (λ line. line ≡ bad_line_text number fault ++ 10 ∷ []) }
{
    let mut line = Bytes::new(alloc);
    put_counted(&mut line, "line ", number as u64)?;
    put_text(&mut line, " bad ")?;
    write_line_fault(&mut line, fault)?;
    line.push(b'\n')?;
    Ok(line)
}
