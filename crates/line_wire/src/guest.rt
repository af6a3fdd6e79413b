//! Lines of a session in which nobody is logged in.

ghost use Rattle.std.specs.Prelude.{◌≡◌};
ghost use Rattle.line_wire.specs.Guest.{unread_guest, read_guest, IsGuestLine};

use crate::guest_line::GuestLine;
use crate::reply::LineReply;
use line_forms::{Line, LineFault, Mode, read_line_in};
use std::alloc::Global;

// What becomes of a line that is not read.
fn unread(fault: LineFault) -> GuestLine
    ensures { result ≡ unread_guest fault }
{
    match fault {
        LineFault::NoMemory => GuestLine::Answered(LineReply::NoMemory),
        _ => GuestLine::Answered(LineReply::Faulty(fault)),
    }
}

// What becomes of a line that asks for this.
fn login_alone(asked: Line) -> GuestLine
    ensures { result ≡ read_guest asked }
{
    match asked {
        Line::Login(who, signature) => GuestLine::Login(who, signature),
        Line::Command(_) => GuestLine::Answered(LineReply::NotLoggedIn),
        Line::Statement(_) => GuestLine::Answered(LineReply::NotLoggedIn),
        Line::Goal(_, _) => GuestLine::Answered(LineReply::NotLoggedIn),
    }
}

/// What becomes of a line, given without its end, before a login: its fault is reported first; then it logs in, or is
/// rejected since nobody is logged in.
pub fn read_guest_line(alloc: Global, line: &[u8]) -> GuestLine
    ensures { IsGuestLine line.now result }
{
    match read_line_in(alloc, &Mode::Guest, line) {
        Ok(asked) => login_alone(asked),
        Err(fault) => unread(fault),
    }
}
