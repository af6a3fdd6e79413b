//! What a request comes to.

use crate::error::NineError;
use bl_syntax::{Bytes, NodeId, Principal};
use nine_messages::Qid;
use procap::Procap;

/// A reply for which no turn is needed.
#[derive(Clone, Copy, Debug, PartialEq, Eq)]
pub enum Answer {
    /// The greatest size of a message, and whether the version is served.
    Version(u32, bool),
    /// Which file a new fid stands for.
    Attach(Qid),
    /// Nothing was to be given up.
    Flush,
    /// A walk without names.
    Walk,
    /// Which file was opened.
    Open(Qid),
    /// So many bytes of the greeting, or all.
    Greeting(u32),
    /// So many bytes were written to the control file.
    Written(u32),
    /// A fid ended.
    Clunk,
}

/// What a request comes to. What it writes, and the names of a walk, are those of the request.
#[derive(Debug, Drop)]
pub enum Step {
    /// It is refused.
    Refused(NineError),
    /// It is answered at once.
    Answered(Answer),
    /// Who is to be logged in by this signature.
    Login(Principal, Bytes),
    /// The node is to be read with the procap, from the offset, so many bytes.
    Read(NodeId, Procap, u64, u32),
    /// The node is to be written with the procap, at the offset.
    Write(NodeId, Procap, u64),
    /// The names are to be walked, from the node.
    Walk(NodeId),
}
