//! The world of the file server as plain data: its nodes, the operations on it, what each of them needs and does.
//!
//! The crates that keep the tree and the attributes, and the history of operations, cite these definitions, so that
//! the contract of an operation is written once. Laws say what the definitions are worth.
#![tactic(auto)]

pub mod laws;
mod limits;
mod operation;
mod refusal;
mod reply;

pub use limits::{
    LAST_NUMBER, LONGEST_NAME, MOST_ATTRIBUTES, MOST_BYTES, MOST_BYTES_TOGETHER, MOST_NODES,
    ROOT_NUMBER,
};
pub use operation::{Kind, MetaOp, Op, TreeOp};
pub use refusal::{OpFault, Refusal};
pub use reply::{MetaReply, NamedNode, Names, OpReply, TreeReply};
