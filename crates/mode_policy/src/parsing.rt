//! The reading of a table of modes.

ghost use Rattle.std.specs.Prelude.{◌≡◌};
ghost use Rattle.line_text.specs.Lines.{lines_of};
ghost use Rattle.mode_policy.specs.Reading.{AddsLine, ReadsTable, fault_at};

use crate::fault::{LineFault, ModeFault};
use crate::lines::read_line;
use crate::table::ModeTable;
use line_text::first_line;
use std::alloc::Global;

// Adds the line.
fn add_line(alloc: Global, table: &mut ModeTable, line: &[u8]) -> Result<(), LineFault>
    ensures { AddsLine table.old line.now result table.new }
{
    match read_line(alloc, line)? {
        Some(said) => table.add(said),
        None => Err(LineFault::Bad),
    }
}

// The fault of the line of that number.
fn fault_at(number: usize, fault: LineFault) -> ModeFault
    ensures { result ≡ fault_at number fault }
{
    match fault {
        LineFault::Bad => ModeFault::BadLine(number),
        LineFault::Twice => ModeFault::Twice(number),
        LineFault::NoMemory => ModeFault::NoMemory,
    }
}

impl ModeTable {
    /// The table of a text. Its lines are `who K`, `member K GROUP` and `mode #N OWNER GROUP BITS`, with three octal digits; the K
    /// of a `member` line and OWNER stand in a `who` line before. The first line that is not such a one is `BadLine`; one that
    /// repeats a principal, a membership or a file is `Twice`.
    pub fn parse(alloc: Global, text: &[u8]) -> Result<ModeTable, ModeFault>
        ensures { ReadsTable text.now result }
    {
        let mut table = ModeTable::new(alloc);
        let mut rest = text;
        let mut place = 0;
        while let Some((line, others)) = first_line(rest) {
            match add_line(alloc, &mut table, line) {
                Ok(()) => {}
                Err(fault) => return Err(fault_at(place + 1, fault)),
            }
            rest = others;
            place += 1;
        }
        Ok(table)
    }
}
