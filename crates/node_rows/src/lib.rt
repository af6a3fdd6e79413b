//! Rows in which a whole world is handed over: what the tree keeps of each node, and its owner and attributes. And which
//! bytes name a node or an attribute.
//!
//! The two rows of a node stand in two lists, so that each half of a world takes and gives its own. Contracts see them
//! together as nodes of a world.
#![tactic(auto)]

pub mod names;
mod rows;

pub use rows::{MetaRow, MetaRows, RowAttribute, RowAttributes, RowsFault, TreeRow, TreeRows};
