//! Words of the client: names and paths on the server, numbers, how long a reply may take, and how a command ends.
//!
//! A name that was taken is one that the server takes, so that no word of a line that is sent holds a space or a line's end.
#![tactic(auto)]

mod names;
mod numerals;
mod place;
mod quoting;
mod stops;
mod timeout;

pub use names::{Name, attribute_name, attribute_value};
pub use numerals::{counting_number, statement_number, whole_number};
pub use place::Place;
pub use quoting::{put_quoted, without_controls};
pub use stops::{
    BAD_LINE, BAD_WORDS, DONE, INTERRUPTED, NO_FILE, NO_LOGIN, NO_RIGHT, NO_SERVER, REFUSED,
    Refusal, SERVER_FAILS, Stop, WRITE_FAULT,
};
pub use timeout::Timeout;
