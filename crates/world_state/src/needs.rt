//! Which permissions an operation needs.

ghost use Rattle.std.specs.Prelude.{◌≡◌, ◌≤◌, ◌∷◌, [], length};
ghost use Rattle.file_world.specs.Needs.{attribute_permission, need, needs};
ghost use Rattle.world_state.specs.Needed.{child_needed, placed};

use crate::world::World;
use bl_syntax::{NodeId, Perm};
use file_world::Op;
use std::marker::Model;

/// What the names of the attributes begin with on which policy rests.
const POLICY_PREFIX: &[u8] = b"pcfs.";

/// The permissions that an operation needs on nodes, at most three, in the order of the procaps that are to give them.
#[derive(Debug, Drop)]
pub struct Needs {
    pairs: [(NodeId, Perm); 3],
    len: usize,
}

impl Model for Needs {
    ghost use Rattle.std.specs.Prelude.{◌≤◌, List, take};
    ghost use Rattle.file_world.specs.Needs.{Need};
    ghost use Rattle.world_state.specs.Needed.{placed};

    ghost Value = { List Need };

    ghost view = { λ n. placed 1 (take n.len n.pairs) };

    ghost invariant = { λ n. n.len ≤ 3 };
}

impl Needs {
    /// Each node with the permission on it. The first place is that of the first procap.
    pub fn as_slice(&self) -> &[(NodeId, Perm)]
        ensures same { placed 1 result.now ≡ self.now }
        ensures few { length result.now ≤ 3 }
    {
        &self.pairs[..self.len]
    }
}

fn one(file: NodeId, permission: Perm) -> Needs
    ensures { result ≡ need 1 file permission ∷ [] }
{
    let pair = (file, permission);
    Needs {
        pairs: [pair, pair, pair],
        len: 1,
    }
}

fn unlink_needs(directory: NodeId, child: Option<NodeId>) -> Needs
    ensures { result ≡ need 1 directory Perm.Write ∷ child_needed 2 child }
{
    let first = (directory, Perm::Write);
    match child {
        None => one(directory, Perm::Write),
        Some(child) => {
            let second = (child, Perm::Identity);
            Needs {
                pairs: [first, second, second],
                len: 2,
            }
        }
    }
}

fn rename_needs(directory: NodeId, target: NodeId, child: Option<NodeId>) -> Needs
    ensures { result ≡ need 1 directory Perm.Write ∷ need 2 target Perm.Write ∷ child_needed 3 child }
{
    let first = (directory, Perm::Write);
    let second = (target, Perm::Write);
    match child {
        None => Needs {
            pairs: [first, second, second],
            len: 2,
        },
        Some(child) => Needs {
            pairs: [first, second, (child, Perm::Identity)],
            len: 3,
        },
    }
}

// The permission that a change of the attribute needs.
fn attribute_permission(name: &[u8]) -> Perm
    ensures { result ≡ attribute_permission name.now }
{
    if name.starts_with(POLICY_PREFIX) {
        Perm::Govern
    } else {
        Perm::Write
    }
}

impl World {
    /// What the operation needs in this world. The child that is to go or to move is one of its nodes, if it is there.
    pub fn needs(&self, op: &Op) -> Needs
        ensures { result ≡ needs self.now.world op.now }
    {
        match op {
            Op::Read(file, _, _) => one(*file, Perm::Read),
            Op::Write(file, _, _) => one(*file, Perm::Write),
            Op::Truncate(file, _) => one(*file, Perm::Write),
            Op::List(directory) => one(*directory, Perm::Read),
            Op::Lookup(directory, _) => one(*directory, Perm::Execute),
            Op::Create(directory, _) => one(*directory, Perm::Write),
            Op::Mkdir(directory, _) => one(*directory, Perm::Write),
            Op::Unlink(directory, name) => {
                unlink_needs(*directory, self.tree().child(*directory, name.as_slice()))
            }
            Op::Rename(directory, name, target, _) => {
                let child = self.tree().child(*directory, name.as_slice());
                rename_needs(*directory, *target, child)
            }
            Op::Getattr(node, _) => one(*node, Perm::Read),
            Op::Setattr(node, name, _) => one(*node, attribute_permission(name.as_slice())),
            Op::Delattr(node, name) => one(*node, attribute_permission(name.as_slice())),
            Op::Chown(node, _) => one(*node, Perm::Govern),
        }
    }
}
