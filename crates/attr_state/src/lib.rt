//! Owners and attributes of nodes: what an operation answers is decided first, with all memory taken, and then made so.
//!
//! Contracts see the mark of each node: its owner, its directory and its attributes. `reserve` returns the reply or the
//! first refusal of the operation and changes nothing of them; `apply` then takes no memory, cannot fail, and makes the
//! change. What policy can speak of is looked up at the node that it names. The marks are given as rows, and made of
//! rows, which are refused exactly if they are no marks within the limits.
#![tactic(auto)]

mod applying;
mod attributes;
mod current;
mod directories;
mod facts;
mod mark;
mod meta;
mod preparing;
mod ready;
mod refusals;
mod rows;
mod within;

pub use directories::MarkDirectories;
pub use file_world::{MetaOp, MetaReply, OpFault, Refusal};
pub use meta::Meta;
pub use node_rows::{MetaRow, MetaRows, RowsFault};
pub use ready::MetaReady;
