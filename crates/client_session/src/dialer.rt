//! What connects to a server.

use std::io::{self, Read, Write};

/// What connects to a server, waits, and tells whoever looks on what is no fault.
pub trait Dialer {
    type Link: Read + Write + Drop;

    /// A new connection, whose calls end after the time that a reply may take.
    fn dial(&mut self) -> io::Result<Self::Link>;

    /// Waits so many milliseconds.
    fn pause(&self, milliseconds: u64);

    /// Tells this.
    fn remark(&self, words: &str);
}
