//! The server's files, as a user may use them: a procap for each need, paths looked up by node, contents in pieces, a file that is
//! replaced by another.
//!
//! It is generic over what asks the server and keeps the wallet. Each line that is sent is the one of an operation with a procap for
//! each of its needs, or of a proof.
#![tactic(auto)]

mod asking;
mod changes;
mod contents;
mod paths;
mod ports;
mod putting;
mod replacing;
mod rights;
mod words;

pub use asking::{Client, Done, Need};
pub use changes::{Spot, attribute, give, move_node, remove_attribute, set_attribute, unlink};
pub use contents::{content, size_of, write_in_place};
pub use paths::{Entry, NO_DIRECTORY, child, create_directory, entries, node, spot};
pub use ports::{Change, Ports, Proof, Span};
pub use putting::{Attribute, write_anew};
pub use rights::{by_line, held, win};
