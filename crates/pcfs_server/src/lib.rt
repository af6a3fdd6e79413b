//! Serving: each connection of a listener is attended by a service, at most once; by the order of the code in a thread of its
//! own, and at most so many at a time.
//!
//! `serve_conns` returns how it ended and how many connections were attended: what the service's own count rose by. Each
//! token that the service admitted was attended at most once and has left; and it was attended with the connection of its
//! number, as that was accepted: what the service expects of the connection of that number holds of it, as far as the
//! listener tells its connections. A service has the connection's input and output for itself, and gives them back in an
//! `EndedConnection`, which gives neither out, so that nothing is written to an output after the service attended it.
#![tactic(auto)]

mod end;
mod ended;
mod ended_connection;
pub mod laws;
mod listener_and_door;
mod service;
mod serving;
mod threads;

pub use end::ServeEnd;
pub use ended_connection::EndedConnection;
pub use service::{AdmitFault, Service};
pub use serving::serve_conns;
