//! What an operation that is not refused answers.

use bl_syntax::{Bytes, NodeId, Sequence, Short, Text};

/// A name in a directory, and the node that it names there.
#[derive(Clone, Copy, Debug)]
pub struct NamedNode {
    pub name: Short<64>,
    pub node: NodeId,
}

/// The names in a directory.
pub type Names = Sequence<NamedNode>;

/// What an operation on the tree answers.
#[derive(Debug, Drop)]
pub enum TreeReply {
    Done,
    Bytes(Bytes),
    /// In the byte order of the names.
    Names(Names),
    Node(NodeId),
}

/// What an operation on attributes answers.
#[derive(Debug, Drop)]
pub enum MetaReply {
    Done,
    Text(Text),
}

/// What an operation answers.
#[derive(Debug, Drop)]
pub enum OpReply {
    Tree(TreeReply),
    Meta(MetaReply),
}
