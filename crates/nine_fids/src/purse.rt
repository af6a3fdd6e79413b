//! Procaps that a client brought.

ghost use Rattle.std.specs.Prelude.{◌≡◌, ◌<◌, [], ◌∷◌, ◌++◌, length, nat_le, is_some, option_map, IsSome, IfOk, OnOk, OnErr};
ghost use Rattle.nine_fids.specs.Purse.{is_fitting, fitting};

use crate::limits::MOST_PROCAPS;
use bl_syntax::{NoMemory, NodeId, Perm, Principal, Sequence};
use procap::Procap;
use std::alloc::Global;
use std::marker::Model;

/// At most `MOST_PROCAPS` procaps. Contracts see them in the order in which they came.
#[derive(Debug, Drop)]
pub struct Purse {
    procaps: Sequence<Procap>,
}

impl Model for Purse {
    ghost use Rattle.std.specs.Prelude.{◌≤◌, List, length};
    ghost use Rattle.procap.specs.declared.procap.Procap.{Procap};
    ghost use Rattle.nine_fids.specs.declared.limits.TheConstants.{MOST_PROCAPS};

    ghost Value = { List Procap };

    ghost view = { λ p. p.procaps };

    ghost invariant = { λ p. length p.procaps ≤ MOST_PROCAPS };
}

// Whether the procap names the principal, the file and the permission. Each part of the goal is asked for alone, so that of
// most procaps the number of the file is read and nothing copied.
fn is_fitting(who: &Principal, node: NodeId, permission: Perm, p: &Procap) -> bool
    ensures { result ≡ is_fitting who.now node permission p.now }
{
    p.grant.goal().file.0 == node.0
        && p.grant.goal().perm == permission
        && p.grant.goal().who == *who
}

impl Purse {
    // The first procap that names the principal, the file and the permission.
    fn first_fitting(&self, who: &Principal, node: NodeId, permission: Perm) -> Option<&Procap>
        ensures { option_map (λ p. p.now) result ≡ fitting self.now who.now node permission }
    {
        self.procaps
            .as_slice()
            .iter()
            .find(|p| is_fitting(who, node, permission, p))
    }

    /// No procaps. It takes no memory.
    pub fn new(alloc: Global) -> Purse
        ensures { result ≡ [] }
    {
        Purse {
            procaps: Sequence::new(alloc),
        }
    }

    /// Whether there is no room for another procap.
    pub fn is_full(&self) -> bool
        ensures { result ≡ nat_le MOST_PROCAPS (length self.now) }
    {
        MOST_PROCAPS <= self.procaps.len()
    }

    /// Adds a procap after the others.
    pub fn push(&mut self, p: Procap) -> Result<(), NoMemory>
        requires { length self.old < MOST_PROCAPS }
        ensures ok { OnOk result (self.new ≡ self.old ++ p ∷ []) }
        ensures err { OnErr result (self.new ≡ self.old) }
    {
        self.procaps.push(p)
    }

    /// Drops all procaps.
    pub fn clear(&mut self)
        ensures { self.new ≡ [] }
    {
        self.procaps.clear();
    }

    /// Whether a procap names the principal, the file and the permission.
    pub fn has_fitting(&self, who: &Principal, node: NodeId, permission: Perm) -> bool
        ensures { result ≡ is_some (fitting self.now who.now node permission) }
    {
        self.first_fitting(who, node, permission).is_some()
    }

    /// The first procap that names the principal, the file and the permission, copied. If none does, no memory is taken.
    pub fn fitting(
        &self,
        alloc: Global,
        who: &Principal,
        node: NodeId,
        permission: Perm,
    ) -> Result<Option<Procap>, NoMemory>
        ensures ok { IfOk result (λ p. p ≡ fitting self.now who.now node permission) }
        ensures err { OnErr result (IsSome (fitting self.now who.now node permission)) }
    {
        match self.first_fitting(who, node, permission) {
            Some(p) => Ok(Some(p.copy(alloc)?)),
            None => Ok(None),
        }
    }
}
