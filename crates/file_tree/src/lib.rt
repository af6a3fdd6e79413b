//! The file tree: what an operation answers is decided first, with all memory taken, and then made so.
//!
//! Contracts see the rows of the tree and the number of the next node. `reserve` returns the reply or the first refusal
//! of the operation and changes nothing of them; `apply` then takes no memory, cannot fail, and makes the change.
#![tactic(auto)]

mod applying;
mod copying;
mod directories;
mod from_rows;
mod listing;
mod name;
mod node;
mod preparing;
mod ready;
mod refusals;
mod row_tests;
mod to_rows;
mod tree;

pub use directories::NodeDirectories;
pub use file_world::{Kind, NamedNode, Names, OpFault, Refusal, TreeOp, TreeReply};
pub use ready::{Ready, Spot};
pub use tree::Tree;
