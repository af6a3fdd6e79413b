//! What a connection that speaks 9P2000 knows, and what each request comes to.
//!
//! A request meets the tests of its kind in one order, and the first that holds is its error. Any other is answered at once,
//! or leaves what a turn at the store is needed for: a login; a node to be read or written, with the first procap of the
//! purse that names who is logged in, the file and the permission; or the node from which names are walked. Fids take no
//! memory: a connection has room for all of them from its beginning.
#![tactic(auto)]

mod answering;
mod connection;
mod control;
mod entry;
mod error;
mod fid;
mod fids;
mod front;
pub mod laws;
pub mod limits;
mod nonce;
mod purse;
mod serving;
mod step;
mod taking;
mod tests_of_requests;
mod walking;

pub use connection::Connection;
pub use control::{Control, read_control};
pub use error::NineError;
pub use fid::{Fid, FidFile, OpenMode, qid_of};
pub use fids::Fids;
pub use nonce::Nonce;
pub use purse::Purse;
pub use step::{Answer, Step};
