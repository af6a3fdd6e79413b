//! Lines that are too long.

ghost use Rattle.std.specs.Prelude.{◌↔◌, IsTrue};
ghost use Rattle.line_text.specs.Lines.{lines_of};
ghost use Rattle.line_faults.specs.LongLines.{HasLongLine};

use bl_syntax::limits::LONGEST_LINE;
use line_text::first_line;

/// Whether a line of the input is too long.
pub fn has_long_line(input: &[u8]) -> bool
    ensures { IsTrue result ↔ HasLongLine (lines_of input.now) }
{
    let mut rest = input;
    while let Some((line, others)) = first_line(rest) {
        if LONGEST_LINE < line.len() {
            return true;
        }
        rest = others;
    }
    false
}
