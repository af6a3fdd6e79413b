//! Where the lines of a piece end, and whether one is too long.

ghost use Rattle.std.specs.Prelude.{◌≡◌, ◌==◌, ◌≤◌, position, ◌+◌, ◌<◌, take, drop, length, MatchOption};
ghost use Rattle.bl_syntax.specs.declared.limits.TheConstants.{LONGEST_LINE};
ghost use Rattle.line_text.specs.Words.{HasNo};
ghost use Rattle.line_framer.specs.Framing.{IsFirst};
ghost use Rattle.line_framer.specs.Scanning.{IsScanned};

use bl_syntax::limits::LONGEST_LINE;
use memchr::memchr;

fn first_end(bytes: &[u8]) -> Option<usize>
    ensures { result ≡ position (λ byte. byte == 10) bytes.now }
{
    memchr(b'\n', bytes)
}

/// The place of the first end of a line.
pub fn end_of_line(bytes: &[u8]) -> Option<usize>
    ensures { MatchOption result (HasNo 10 bytes.now) (λ end. (end < length bytes.now) × IsFirst bytes.now (take end bytes.now) (drop (end + 1) bytes.now)) }
{
    first_end(bytes)
}

/// What a piece does to a line that is open, and to those after it.
#[derive(Clone, Copy, Debug, PartialEq, Eq)]
pub enum Scanned {
    /// No line is too long, and the last one, without its end, has this many bytes.
    Short(usize),
    /// A line is too long. So many bytes of the piece stand before it.
    Long(usize),
}

/// Looks for a line that is too long in a piece that comes after a last line, without its end, of this many bytes.
pub fn scan(last_len: usize, piece: &[u8]) -> Scanned
    requires { last_len ≤ LONGEST_LINE }
    ensures { IsScanned last_len piece.now result }
{
    let mut last_len = last_len;
    let mut rest = piece;
    'lines: while let Some(end) = end_of_line(rest) {
        if LONGEST_LINE - last_len < end {
            return Scanned::Long(piece.len() - rest.len());
        }
        last_len = 0;
        rest = &rest[end + 1..];
    }
    if LONGEST_LINE - last_len < rest.len() {
        Scanned::Long(piece.len() - rest.len())
    } else {
        Scanned::Short(last_len + rest.len())
    }
}
