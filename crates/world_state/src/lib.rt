//! The world of the file server: a file tree, and the owners and attributes of its nodes, which agree.
//!
//! Contracts see the plain world of all thirteen operations. `reserve` returns the reply or the first refusal of an
//! operation and changes nothing of it; `apply` then takes no memory, cannot fail, and makes the change in both halves.
//! `needs` says which permissions an operation needs, and the world tells which conditions on its state hold. A world is
//! given as rows, and made of rows, which are refused exactly if they are no world within the limits.
#![tactic(auto)]

mod half;
mod halves;
mod needs;
mod same_nodes;
mod world;

pub use file_world::{Op, OpFault, OpReply, Refusal};
pub use needs::Needs;
pub use node_rows::{MetaRows, RowsFault, TreeRows};
pub use world::World;
