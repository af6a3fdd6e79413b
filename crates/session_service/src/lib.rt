//! A session over a shared store: from its greeting to the end of its input; and the service that gives each connection one.
//!
//! `serve_session` writes the greeting, with a nonce, and answers lines as they come. The greeting takes no memory: it is
//! written whole, unless the output fails. By the order of the code, and no clause, it is out before the first read, and
//! each reply before more of the input is taken. Whatever other sessions do, the replies are placed in each history that begins with
//! what the session's pass has seen, and the pass's own entries grew by those that the replies were given.
#![tactic(auto)]

mod greeting;
pub mod laws;
mod lines;
mod service;
mod session;
mod session_end;
mod talk;

pub use service::{SessionDoor, SessionService, SessionToken};
pub use session::{serve_session, serve_session_with};
pub use session_end::SessionEnd;
