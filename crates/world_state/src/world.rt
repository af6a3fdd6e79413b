//! The world and its calls.

ghost use Rattle.std.specs.Prelude.{◌≡◌, IfOk, OnErr};
ghost use Rattle.file_world.specs.Effect.{world_after};
ghost use Rattle.file_world.specs.Facts.{facts};
ghost use Rattle.file_world.specs.World.{IsWorld, fresh_world};
ghost use Rattle.node_rows.specs.Rows.{item_rows, AreOfSameNodes};
ghost use Rattle.world_state.specs.Made.{JoinsHalves, MakesWorld};
ghost use Rattle.world_state.specs.State.{IsWorldReady, ReservesWorld, meta_state, nothing_ready, settled, tree_state};

use crate::half::{half_of, is_operation, op_of};
use crate::halves::{apply, reserve};
use crate::same_nodes::are_of_same_nodes;
use attr_state::Meta;
use bl_syntax::{NoMemory, Principal, StatePred};
use condition_set::Facts;
use file_tree::Tree;
use file_world::{Op, OpFault, OpReply};
use node_rows::{MetaRows, RowsFault, TreeRows};
use std::alloc::Global;
use std::marker::Model;

/// The world: a file tree, and the owners and attributes of its nodes.
#[derive(Drop)]
pub struct World {
    tree: Tree,
    meta: Meta,
}

impl Model for World {
    ghost use Rattle.world_state.specs.Halves.{AreHalves, joined};
    ghost use Rattle.world_state.specs.State.{WorldState};
    ghost use Rattle.world_state.specs.StateCode.{world_state_code};

    ghost Value = { WorldState };

    ghost coded = { world_state_code };

    ghost view = { λ w. record { world = joined w.tree.tree w.meta.marks; ready = record { tree = w.tree.ready; meta = w.meta.ready } } };

    ghost invariant = { λ w. AreHalves w.tree.tree w.meta.marks };
}

impl World {
    /// The world with the root alone, which `admin` owns.
    pub fn new(alloc: Global) -> Result<World, NoMemory>
        ensures { IfOk result (λ world. world ≡ settled fresh_world) }
    {
        let tree = Tree::new(alloc)?;
        let meta = Meta::new(alloc)?;
        Ok(World { tree, meta })
    }

    /// The world of these halves, which are ready for nothing any more. They are refused exactly if they differ in nodes
    /// or directories. It takes no memory.
    pub fn from_parts(tree: Tree, meta: Meta) -> Result<World, RowsFault>
        ensures { JoinsHalves tree.tree meta.marks result }
    {
        let mut tree = tree;
        let mut meta = meta;
        tree.forget();
        meta.forget();
        if are_of_same_nodes(&tree, &meta) {
            Ok(World { tree, meta })
        } else {
            Err(RowsFault::NotTree)
        }
    }

    /// The world of these rows, with this number for the next node. They are refused exactly if they are not of the same
    /// nodes, or no world within the limits.
    pub fn from_rows(
        alloc: Global,
        next: u64,
        tree: &TreeRows,
        meta: &MetaRows,
    ) -> Result<World, RowsFault>
        ensures { MakesWorld next tree.now meta.now result }
    {
        match Tree::from_rows(alloc, next, tree) {
            Err(fault) => Err(fault),
            Ok(tree) => match Meta::from_rows(alloc, meta) {
                Err(fault) => Err(fault),
                Ok(meta) => World::from_parts(tree, meta),
            },
        }
    }

    /// The rows of the nodes by rising number, those of the tree and those of owners and attributes.
    pub fn to_rows(&self, alloc: Global) -> Result<(TreeRows, MetaRows), NoMemory>
        ensures same { IfOk result (λ rows. AreOfSameNodes rows.0 rows.1) }
        ensures rows { IfOk result (λ rows. item_rows rows.0 rows.1 ≡ self.now.world.rows) }
    {
        Ok((self.tree.to_rows(alloc)?, self.meta.to_rows(alloc)?))
    }

    /// The file tree.
    pub fn tree(&self) -> &Tree
        ensures same { result.now ≡ tree_state self.now }
        ensures whole { IsWorld self.now.world }
    {
        &self.tree
    }

    /// The owners and attributes.
    pub fn meta(&self) -> &Meta
        ensures same { result.now ≡ meta_state self.now }
        ensures whole { IsWorld self.now.world }
    {
        &self.meta
    }

    /// The reply of the caller's operation, with all memory taken for its change, or its first refusal; and the
    /// operation, which is given back. The world stays. A half that has no part in the operation stays ready for what it
    /// was; after a fault nothing is ready.
    pub fn reserve(
        &mut self,
        alloc: Global,
        caller: &Principal,
        op: Op,
    ) -> (Op, Result<OpReply, OpFault>)
        ensures same { self.new.world ≡ self.old.world }
        ensures op { result.0 ≡ op }
        ensures answer { ReservesWorld caller.now self.old.world op result.1 self.new }
        ensures given_up { OnErr result.1 (self.new.ready ≡ nothing_ready) }
    {
        let half = half_of(op);
        let answer = reserve(&mut self.tree, &mut self.meta, alloc, caller, &half);
        (op_of(half), answer)
    }

    /// Makes the change of the caller's operation, for which the world is ready, and gives the operation back. Then nothing
    /// is ready. It takes no memory.
    pub fn apply(&mut self, caller: &Principal, op: Op) -> Op
        requires { IsWorldReady caller.now self.old op }
        ensures world { self.new.world ≡ world_after caller.now self.old.world op }
        ensures ready { self.new.ready ≡ nothing_ready }
        ensures op { result ≡ op }
    {
        let _ = caller.bytes();
        is_operation(&op);
        let half = half_of(op);
        apply(&mut self.tree, &mut self.meta, caller, &half);
        op_of(half)
    }

    /// An equal world in memory of its own, with nothing ready.
    pub fn copy(&self) -> Result<World, NoMemory>
        ensures { IfOk result (λ copied. copied ≡ settled self.now.world) }
    {
        let tree = self.tree.copy()?;
        let meta = self.meta.copy()?;
        Ok(World { tree, meta })
    }
}

impl Facts for World {
    ghost facts = { λ world. facts world.world };

    fn holds(&self, s: &StatePred) -> bool {
        self.meta.holds(s)
    }
}
