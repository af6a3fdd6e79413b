//! A session with the server: one connection, a login on it, and a reply for each line. One that breaks off is taken up again.
//!
//! What is sent for something is the one line that asks for it, and nothing that was read stands in two replies. The session is
//! generic over what connects: no contract says what a socket gives.
#![tactic(auto)]

mod dialer;
mod fault;
mod greeting;
mod inbox;
mod lines;
mod session;

pub use dialer::Dialer;
pub use fault::system_words;
pub use greeting::nonce_of;
pub use inbox::Inbox;
pub use lines::{line_of, login_line, signed_statement, signed_withdrawal};
pub use session::{Replies, Session};
