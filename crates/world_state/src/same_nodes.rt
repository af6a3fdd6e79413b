//! Whether a tree and marks are of the same nodes.

ghost use Rattle.std.specs.Prelude.{◌≡◌, ◌↔◌, IsTrue, None};
ghost use Rattle.file_world.specs.Attributes.{AreMarks};
ghost use Rattle.file_world.specs.Tree.{IsTree};
ghost use Rattle.world_state.specs.Made.{HaveSameNodes, IsNext};

use attr_state::{MarkDirectories, Meta};
use bl_syntax::NodeId;
use file_tree::Tree;

// Whether the next node is this one, in this directory.
fn is_next(marks: &mut MarkDirectories<'_>, node: NodeId, directory: u64) -> bool
    ensures { IsNext (node.0, directory) marks.old result marks.new }
{
    match marks.next() {
        None => false,
        Some((marked, parent)) => marked.0 == node.0 && parent == directory,
    }
}

/// Whether both halves have the same nodes, each in the same directory, while they are ready for nothing. It takes no
/// memory.
pub fn are_of_same_nodes(tree: &Tree, meta: &Meta) -> bool
    requires tree { tree.now.ready ≡ None }
    requires meta { meta.now.ready ≡ None }
    ensures same { IsTrue result ↔ HaveSameNodes tree.now.tree meta.now.marks }
    ensures whole { IsTree tree.now.tree }
    ensures within { AreMarks meta.now.marks }
{
    let mut nodes = tree.directories();
    let mut marks = meta.directories();
    while let Some((node, directory)) = nodes.next() {
        if !is_next(&mut marks, node, directory) {
            return false;
        }
    }
    marks.next().is_none()
}
