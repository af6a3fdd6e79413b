//! The text of a point in time.

ghost use Rattle.std.specs.Prelude.{◌≡◌};
ghost use Rattle.bl_tokens.specs.Times.{time_at, at_end, time_reading};

use crate::faults::TextFault;
use crate::tokens::{Cursor, Token, token_from};
use bl_syntax::{Term, TimePoint};

/// The point in time that the text writes: `-inf`, `+inf`, a second in up to 18 digits, a date
/// `yyyy-mm-dd`, or a date with a time of day `yyyy-mm-ddThh:mm:ssZ`; or its first fault.
pub fn parse_time(text: &[u8]) -> Result<TimePoint, TextFault>
    ensures { result ≡ time_reading text.now }
{
    let first = token_from(text, 0, 0);
    match time_at(&first) {
        Ok(point) => at_end(point, &token_from(text, first.end, 0)),
        Err(fault) => Err(fault),
    }
}

fn time_at(here: &Cursor) -> Result<TimePoint, TextFault>
    ensures { result ≡ time_at here.now.at here.now.token }
{
    match &here.token {
        Token::Constant(Term::Time(point)) => Ok(*point),
        Token::BadDate => Err(TextFault::BadDate(here.at)),
        _ => Err(TextFault::Unexpected(here.at)),
    }
}

/// The point, if nothing stands after it.
fn at_end(point: TimePoint, behind: &Cursor) -> Result<TimePoint, TextFault>
    ensures { result ≡ at_end behind.now.at behind.now.token point }
{
    match &behind.token {
        Token::End => Ok(point),
        _ => Err(TextFault::Unexpected(behind.at)),
    }
}
