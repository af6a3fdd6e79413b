//! Each node with its directory, one after the other.

ghost use Rattle.std.specs.Prelude.{◌≡◌};
ghost use Rattle.std.specs.Map.Iter.{TakesFirst};
ghost use Rattle.attr_state.specs.Index.{marks_of};
ghost use Rattle.attr_state.specs.State.{directories_of_marks};

use crate::mark::{KeptMark, KeptMarks};
use bl_syntax::NodeId;
use std::collections::btree_map::Iter;
use std::marker::Model;

/// The nodes that are left, by rising number. Contracts see the list of their numbers, each with that of its directory.
#[derive(Drop)]
pub struct MarkDirectories<'a> {
    marks: Iter<'a, u64, KeptMark>,
}

impl<'a> Model for MarkDirectories<'a> {
    ghost use Rattle.std.specs.Prelude.{List, ℕ};
    ghost use Rattle.attr_state.specs.Index.{marks_of};
    ghost use Rattle.attr_state.specs.State.{directories_of_marks};

    ghost Value = { List (ℕ × ℕ) };

    ghost view = { λ d. directories_of_marks (marks_of d.marks) };
}

impl<'a> MarkDirectories<'a> {
    pub(crate) fn new(marks: &'a KeptMarks) -> MarkDirectories<'a>
        ensures { result ≡ directories_of_marks (marks_of marks.now.entries) }
    {
        MarkDirectories {
            marks: marks.iter(),
        }
    }

    /// The next node, and the number of its directory; none exactly if no node is left. It takes no memory.
    pub fn next(&mut self) -> Option<(NodeId, u64)>
        ensures { TakesFirst (λ node. (node.0.0, node.1)) self.old result self.new }
    {
        match self.marks.next() {
            None => None,
            Some((number, mark)) => Some((NodeId(*number), mark.parent)),
        }
    }
}
