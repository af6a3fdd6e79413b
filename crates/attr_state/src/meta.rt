//! The owners and attributes of all nodes, and their calls.

ghost use Rattle.std.specs.Prelude.{◌≡◌, None, IfOk, is_some, map, option_map};
ghost use Rattle.file_world.specs.Attributes.{mark_at, AreMarks};
ghost use Rattle.file_world.specs.Facts.{facts_of_marks};
ghost use Rattle.file_world.specs.AttributeEffect.{fresh_marks, value_of, marks_after, IsAskable, IsMetaOperation};
ghost use Rattle.node_rows.specs.Rows.{meta_row};
ghost use Rattle.attr_state.specs.State.{directories_of_marks, ReservesMeta, IsMetaReady, MakesMarks};

use crate::applying::change;
use crate::attributes::value_among;
use crate::current::{copy_marks, current_mark};
use crate::directories::MarkDirectories;
use crate::facts::{has_value, is_in, is_owner};
use crate::mark::{KeptMark, KeptMarks};
use crate::preparing::{forget, prepare};
use crate::ready::MetaReady;
use crate::refusals::{refusal, reply};
use crate::rows::{kept_marks, rows_of};
use crate::within::are_marks;
use bl_syntax::{NoMemory, NodeId, Principal, StatePred, Text};
use condition_set::Facts;
use file_world::{MetaOp, MetaReply, OpFault, ROOT_NUMBER};
use node_rows::{MetaRows, RowsFault};
use std::alloc::{AllocFailed, Global};
use std::collections::BTreeMap;
use std::marker::Model;

/// Owners and attributes: the mark of each node, and what an operation is ready to change.
#[derive(Drop)]
pub struct Meta {
    marks: KeptMarks,
    ready: Option<MetaReady>,
}

impl Model for Meta {
    ghost use Rattle.attr_state.specs.State.{MetaView};
    ghost use Rattle.attr_state.specs.Index.{marks_in, IsMetaIndex};

    ghost Value = { MetaView };

    ghost view = { λ m. record { marks = marks_in m.ready m.marks.entries; ready = m.ready } };

    ghost invariant = { λ m. IsMetaIndex m.marks.entries m.ready };
}

impl Meta {
    /// The mark of the root alone, which `admin` owns.
    pub fn new(alloc: Global) -> Result<Meta, NoMemory>
        ensures { IfOk result (λ meta. meta ≡ record { marks = fresh_marks; ready = None }) }
    {
        let root = KeptMark {
            owner: Principal::new(b"admin").unwrap(),
            parent: 0,
            attributes: Vec::new(alloc),
        };
        let mut marks = BTreeMap::new(alloc);
        let put: Result<Option<KeptMark>, AllocFailed<(u64, KeptMark)>> = marks.insert(
            ROOT_NUMBER,
            root,
        );
        match put {
            Ok(_) => Ok(Meta { marks, ready: None }),
            Err(_) => Err(NoMemory),
        }
    }

    /// Whether there is a node of that number. It takes no memory.
    pub fn contains(&self, node: NodeId) -> bool
        ensures { result ≡ is_some (mark_at self.now.marks node.0) }
    {
        current_mark(&self.marks, &self.ready, node.0).is_some()
    }

    /// The owner of a node; none if there is no node of that number. It takes no memory.
    pub fn owner(&self, node: NodeId) -> Option<Principal>
        ensures { result ≡ option_map (λ mark. mark.owner) (mark_at self.now.marks node.0) }
    {
        match current_mark(&self.marks, &self.ready, node.0) {
            None => None,
            Some(mark) => Some(mark.owner),
        }
    }

    /// The value of an attribute; none also if there is no node of that number. It takes no memory.
    pub fn value(&self, node: NodeId, name: &[u8]) -> Option<Text>
        ensures { result ≡ value_of self.now.marks node.0 name.now }
    {
        match current_mark(&self.marks, &self.ready, node.0) {
            None => None,
            Some(mark) => value_among(mark.attributes.as_slice(), name),
        }
    }

    /// The reply of an operation, with all memory taken for its change, or its first refusal. The marks stay. What was
    /// ready before is given up.
    pub fn reserve(&mut self, alloc: Global, op: &MetaOp) -> Result<MetaReply, OpFault>
        requires { IsAskable self.old.marks op.now }
        ensures same { self.new.marks ≡ self.old.marks }
        ensures answer { ReservesMeta self.old.marks op.now result self.new.ready }
    {
        forget(&mut self.marks, &self.ready);
        self.ready = None;
        if let Some(refusal) = refusal(&self.marks, op) {
            return Err(OpFault::Refused(refusal));
        }
        let reply = reply(&self.marks, op);
        let ready = prepare(&mut self.marks, alloc, op)?;
        self.ready = Some(ready);
        Ok(reply)
    }

    /// Gives up what is ready. It takes no memory.
    pub fn forget(&mut self)
        ensures { self.new ≡ record { marks = self.old.marks; ready = None } }
    {
        forget(&mut self.marks, &self.ready);
        self.ready = None;
    }

    /// Makes the change of the operation that is ready. It takes no memory.
    pub fn apply(&mut self, op: &MetaOp)
        requires { IsMetaReady self.old op.now }
        ensures marks { self.new.marks ≡ marks_after self.old.marks op.now }
        ensures ready { self.new.ready ≡ None }
    {
        is_operation(op);
        self.ready = None;
        change(&mut self.marks, op);
    }

    /// Equal owners and attributes in memory of their own, with nothing ready.
    pub fn copy(&self) -> Result<Meta, NoMemory>
        ensures { IfOk result (λ copied. copied ≡ record { marks = self.now.marks; ready = None }) }
    {
        Ok(Meta {
            marks: copy_marks(&self.marks, &self.ready)?,
            ready: None,
        })
    }

    /// Each node with its directory, while nothing is ready.
    pub fn directories(&self) -> MarkDirectories<'_>
        requires { self.now.ready ≡ None }
        ensures nodes { result ≡ directories_of_marks self.now.marks }
        ensures within { AreMarks self.now.marks }
    {
        MarkDirectories::new(&self.marks)
    }

    /// The rows of the nodes, by rising number.
    pub fn to_rows(&self, alloc: Global) -> Result<MetaRows, NoMemory>
        ensures { IfOk result (λ rows. map meta_row rows ≡ self.now.marks) }
    {
        rows_of(alloc, copy_marks(&self.marks, &self.ready)?)
    }

    /// The owners and attributes of these rows, with nothing ready. The rows are refused exactly if they are no marks
    /// within the limits: their numbers rise, names and values are of attributes, and each node's names rise.
    pub fn from_rows(alloc: Global, rows: &MetaRows) -> Result<Meta, RowsFault>
        ensures { MakesMarks (map meta_row rows.now) result }
    {
        if !are_marks(rows.as_slice()) {
            return Err(RowsFault::NotTree);
        }
        Ok(Meta {
            marks: kept_marks(alloc, rows.as_slice())?,
            ready: None,
        })
    }
}

// The owner that an operation brings is a principal's name, and its value a text, since their types say so.
fn is_operation(op: &MetaOp)
    ensures { IsMetaOperation op.now }
{
    match op {
        MetaOp::Set(_, _, value) => {
            let _ = value.bytes();
        }
        MetaOp::Chown(_, owner) | MetaOp::Add(_, owner, _) => {
            let _ = owner.bytes();
        }
        _ => {}
    }
}

impl Facts for Meta {
    ghost facts = { λ meta. facts_of_marks meta.marks };

    fn holds(&self, s: &StatePred) -> bool {
        match s {
            StatePred::Owner(node, owner) => is_owner(&self.marks, &self.ready, node, owner),
            StatePred::HasXattr(node, name, value) => {
                has_value(&self.marks, &self.ready, node, name, value)
            }
            StatePred::InDir(node, directory) => is_in(&self.marks, &self.ready, node, directory),
        }
    }
}
