//! The tree and its calls.

ghost use Rattle.std.specs.Prelude.{◌≡◌, map, None, Some, IfOk};
ghost use Rattle.file_world.specs.TreeEffect.{child_of, fresh_tree, is_directory, tree_after};
ghost use Rattle.file_world.specs.Tree.{IsTree, node_at};
ghost use Rattle.node_rows.specs.Rows.{tree_row};
ghost use Rattle.file_tree.specs.State.{directories_of_nodes, Reserves, IsReady, MakesTree};
ghost use Rattle.file_tree.specs.Index.{option_number, above_zero};

use crate::applying::change;
use crate::copying::copy_nodes;
use crate::directories::NodeDirectories;
use crate::from_rows::tree_of_rows;
use crate::listing::reply;
use crate::name::Name;
use crate::node::{KeptNode, KeptNodes};
use crate::preparing::{forget, prepare};
use crate::ready::Ready;
use crate::refusals::{is_directory, number_in, refusal};
use crate::to_rows::published_rows;
use bl_syntax::{NoMemory, NodeId};
use file_blocks::FileContents;
use file_world::{Kind, OpFault, ROOT_NUMBER, TreeOp, TreeReply};
use node_rows::{RowsFault, TreeRows};
use std::alloc::{AllocFailed, Global};
use std::collections::BTreeMap;
use std::marker::Model;

/// The file tree: its nodes and the number of the next one, and what an operation is ready to change.
#[derive(Drop)]
pub struct Tree {
    nodes: KeptNodes,
    next: u64,
    /// How many bytes all contents have together.
    total: u64,
    ready: Option<Ready>,
}

impl Model for Tree {
    ghost use Rattle.std.specs.Prelude.{◌≡◌};
    ghost use Rattle.file_world.specs.Tree.{contents_sum};
    ghost use Rattle.file_tree.specs.State.{TreeView};
    ghost use Rattle.file_tree.specs.Index.{rows_of, published_nodes, tree_in, IsTreeIndex};

    ghost Value = { TreeView };

    ghost view = { λ t. record { tree = tree_in t.ready t.nodes.entries t.next; ready = t.ready } };

    ghost invariant = { λ t. IsTreeIndex t.nodes.entries t.next t.ready × (t.total ≡ contents_sum (rows_of (published_nodes t.ready t.nodes.entries))) };
}

impl Tree {
    /// The tree with the root alone.
    pub fn new(alloc: Global) -> Result<Tree, NoMemory>
        ensures { IfOk result (λ tree. tree ≡ record { tree = fresh_tree; ready = None }) }
    {
        let root = KeptNode {
            kind: Kind::Directory,
            parent: 0,
            name: Name::new(b""),
            contents: FileContents::new(alloc),
            names: BTreeMap::new(alloc),
        };
        let mut nodes = BTreeMap::new(alloc);
        let put: Result<Option<KeptNode>, AllocFailed<(u64, KeptNode)>> = nodes.insert(
            ROOT_NUMBER,
            root,
        );
        match put {
            Ok(_) => Ok(Tree {
                nodes,
                next: ROOT_NUMBER + 1,
                total: 0,
                ready: None,
            }),
            Err(_) => Err(NoMemory),
        }
    }

    /// The child of the directory under the name; none also if the number is no directory's. It takes no memory.
    pub fn child(&self, d: NodeId, name: &[u8]) -> Option<NodeId>
        ensures { result ≡ option_number (child_of self.now.tree.rows d.0 name.now) }
    {
        let kept = number_in(&self.nodes, d.0, name);
        node_of(kept)
    }

    /// Whether the number is that of a directory. It takes no memory.
    pub fn is_directory(&self, n: NodeId) -> bool
        ensures { result ≡ is_directory (node_at self.now.tree.rows n.0) }
    {
        n.0 < self.next && is_directory(&self.nodes, n.0)
    }

    /// The number of the next node that is made.
    pub fn next_number(&self) -> u64
        ensures { result ≡ self.now.tree.next }
    {
        self.next
    }

    /// Each node with its directory, while nothing is ready.
    pub fn directories(&self) -> NodeDirectories<'_>
        requires { self.now.ready ≡ None }
        ensures nodes { result ≡ directories_of_nodes self.now.tree.rows }
        ensures whole { IsTree self.now.tree }
    {
        NodeDirectories::new(&self.nodes)
    }

    /// Gives up what is ready. It takes no memory.
    pub fn forget(&mut self)
        ensures { self.new ≡ record { tree = self.old.tree; ready = None } }
    {
        forget(&mut self.nodes, self.next, &self.ready);
        self.ready = None;
    }

    /// The reply of an operation, with all memory taken for its change, or its first refusal. The rows and the next
    /// number stay. What was ready before is given up.
    pub fn reserve(&mut self, alloc: Global, op: &TreeOp) -> Result<TreeReply, OpFault>
        ensures same { self.new.tree ≡ self.old.tree }
        ensures answer { Reserves self.old.tree op.now result self.new.ready }
    {
        forget(&mut self.nodes, self.next, &self.ready);
        self.ready = None;
        if let Some(refusal) = refusal(&self.nodes, self.next, self.total, op) {
            return Err(OpFault::Refused(refusal));
        }
        let reply = reply(&self.nodes, alloc, self.next, op)?;
        let ready = prepare(&mut self.nodes, alloc, self.next, op)?;
        self.ready = Some(ready);
        Ok(reply)
    }

    /// Makes the change of the operation that is ready. It takes no memory.
    pub fn apply(&mut self, op: &TreeOp)
        requires { IsReady self.old op.now }
        ensures tree { self.new.tree ≡ tree_after self.old.tree op.now }
        ensures ready { self.new.ready ≡ None }
    {
        let Some(ready) = self.ready else {
            return;
        };
        self.ready = None;
        change(&mut self.nodes, &mut self.next, &mut self.total, &ready, op);
    }

    /// An equal tree in memory of its own, with nothing ready.
    pub fn copy(&self) -> Result<Tree, NoMemory>
        ensures { IfOk result (λ copied. copied ≡ record { tree = self.now.tree; ready = None }) }
    {
        Ok(Tree {
            nodes: copy_nodes(&self.nodes, self.next, &self.ready)?,
            next: self.next,
            total: self.total,
            ready: None,
        })
    }

    /// The rows of the nodes by rising number, in memory of their own.
    pub fn to_rows(&self, alloc: Global) -> Result<TreeRows, NoMemory>
        ensures { IfOk result (λ rows. map tree_row rows ≡ self.now.tree.rows) }
    {
        published_rows(alloc, &self.nodes, &self.ready)
    }

    /// The tree of these rows by rising number, with that number for the next node, in memory of its own.
    pub fn from_rows(alloc: Global, next: u64, rows: &TreeRows) -> Result<Tree, RowsFault>
        ensures { MakesTree (record { rows = map tree_row rows.now; next = next }) result }
    {
        let (nodes, total) = tree_of_rows(alloc, next, rows.as_slice())?;
        Ok(Tree {
            nodes,
            next,
            total,
            ready: None,
        })
    }
}

fn node_of(kept: Option<u64>) -> Option<NodeId>
    ensures { result ≡ option_number (above_zero kept) }
{
    match kept {
        None => None,
        Some(number) => {
            if number == 0 {
                None
            } else {
                Some(NodeId(number))
            }
        }
    }
}
