//! Replies.

/// Which file it is.
#[derive(Clone, Copy, Debug, PartialEq, Eq)]
pub struct Qid {
    /// 128 for a directory, and 0 for a file.
    pub kind: u8,
    pub version: u32,
    pub path: u64,
}

/// What a server replies. Texts, data and qids are borrowed.
#[derive(Debug, Drop)]
pub enum Reply<'a> {
    /// Rversion: the greatest size of a message, and the version.
    Version(u32, &'a [u8]),
    /// Rattach: which file the fid stands for.
    Attach(Qid),
    /// Rflush.
    Flush,
    /// Rwalk: which file each name led to.
    Walk(&'a [Qid]),
    /// Ropen: which file was opened.
    Open(Qid),
    /// Rread: the bytes.
    Read(&'a [u8]),
    /// Rwrite: how many bytes were written.
    Write(u32),
    /// Rclunk.
    Clunk,
    /// Rerror: what went wrong.
    Error(&'a [u8]),
}
