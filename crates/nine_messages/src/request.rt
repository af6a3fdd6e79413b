//! Requests, as they stand in the bytes of a message.

use crate::names::Names;

/// What a client asks for. Texts, data and names are those of the message, which is borrowed.
#[derive(Debug, Drop)]
pub enum Request<'a> {
    /// Tversion: the greatest size of a message, and the version.
    Version(u32, &'a [u8]),
    /// Tattach: the fid, the fid of an authentication, the user, and the tree.
    Attach(u32, u32, &'a [u8], &'a [u8]),
    /// Tflush: the tag of the request that is given up.
    Flush(u16),
    /// Twalk: the fid, the new fid, and the names.
    Walk(u32, u32, Names<'a>),
    /// Topen: the fid, and the mode.
    Open(u32, u8),
    /// Tread: the fid, the offset, and the greatest number of bytes.
    Read(u32, u64, u32),
    /// Twrite: the fid, the offset, and the bytes.
    Write(u32, u64, &'a [u8]),
    /// Tclunk: the fid.
    Clunk(u32),
    /// A kind that none of these has, and its bytes.
    Other(u8, &'a [u8]),
}

/// A request, and its tag.
#[derive(Debug, Drop)]
pub struct Message<'a> {
    pub tag: u16,
    pub request: Request<'a>,
}
