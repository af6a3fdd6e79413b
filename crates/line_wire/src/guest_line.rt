//! What becomes of a line before a login.

use crate::reply::LineReply;
use bl_syntax::{Bytes, Principal};

/// What becomes of a line of a session in which nobody is logged in.
#[derive(Debug, Drop)]
pub enum GuestLine {
    /// It logs the principal in, if this is their signature over the login message.
    Login(Principal, Bytes),
    /// It is answered so.
    Answered(LineReply),
}
