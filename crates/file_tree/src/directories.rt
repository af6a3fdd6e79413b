//! Each node with its directory, one after the other.

ghost use Rattle.std.specs.Prelude.{◌≡◌};
ghost use Rattle.std.specs.Map.Iter.{TakesFirst};
ghost use Rattle.file_tree.specs.Index.{rows_of};
ghost use Rattle.file_tree.specs.State.{directories_of_nodes};

use crate::node::{KeptNode, KeptNodes};
use bl_syntax::NodeId;
use std::collections::btree_map::Iter;
use std::marker::Model;

/// The nodes that are left, by rising number. Contracts see the list of their numbers, each with that of its directory.
#[derive(Drop)]
pub struct NodeDirectories<'a> {
    nodes: Iter<'a, u64, KeptNode>,
}

impl<'a> Model for NodeDirectories<'a> {
    ghost use Rattle.std.specs.Prelude.{List, ℕ};
    ghost use Rattle.file_tree.specs.Index.{rows_of};
    ghost use Rattle.file_tree.specs.State.{directories_of_nodes};

    ghost Value = { List (ℕ × ℕ) };

    ghost view = { λ d. directories_of_nodes (rows_of d.nodes) };
}

impl<'a> NodeDirectories<'a> {
    pub(crate) fn new(nodes: &'a KeptNodes) -> NodeDirectories<'a>
        ensures { result ≡ directories_of_nodes (rows_of nodes.now.entries) }
    {
        NodeDirectories {
            nodes: nodes.iter(),
        }
    }

    /// The next node, and the number of its directory; none exactly if no node is left. It takes no memory.
    pub fn next(&mut self) -> Option<(NodeId, u64)>
        ensures { TakesFirst (λ node. (node.0.0, node.1)) self.old result self.new }
    {
        match self.nodes.next() {
            None => None,
            Some((number, node)) => Some((NodeId(*number), node.parent)),
        }
    }
}
