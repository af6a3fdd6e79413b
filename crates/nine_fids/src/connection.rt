//! What a connection knows.

ghost use Rattle.std.specs.Prelude.{◌≡◌, Some, IsSome, IfOk, OnErr, length};
ghost use Rattle.nine_fids.specs.Nonce.{greeting};
ghost use Rattle.nine_fids.specs.States.{begun_with};
ghost use Rattle.nine_fids.specs.Tests.{fitting_of};

use crate::fids::Fids;
use crate::nonce::Nonce;
use crate::purse::Purse;
use bl_syntax::{NoMemory, NodeId, Perm, Principal};
use nine_messages::MOST_SIZE;
use procap::Procap;
use std::alloc::Global;

/// The nonce of its greeting, who is logged in, the purse, whether a version is agreed, the greatest size of a message, and
/// the fids.
#[derive(Debug, Drop)]
pub struct Connection {
    pub(crate) nonce: Nonce,
    pub(crate) caller: Option<Principal>,
    pub(crate) purse: Purse,
    pub(crate) is_agreed: bool,
    pub(crate) msize: u32,
    pub(crate) fids: Fids,
}

impl Connection {
    /// A connection before its first request.
    pub fn new(alloc: Global, nonce: &[u8; 16]) -> Result<Connection, NoMemory>
        ensures { IfOk result (λ s. s ≡ begun_with nonce.now) }
    {
        let nonce = Nonce::new(alloc, nonce)?;
        let fids = Fids::new(alloc)?;
        Ok(Connection {
            nonce,
            caller: None,
            purse: Purse::new(alloc),
            is_agreed: false,
            msize: MOST_SIZE,
            fids,
        })
    }

    /// Who is logged in.
    pub fn caller(&self) -> Option<Principal>
        ensures { result ≡ self.now.caller }
    {
        self.caller
    }

    /// The nonce that a login signs.
    pub fn nonce(&self) -> &[u8; 16]
        ensures { result.now ≡ self.now.nonce }
    {
        self.nonce.bytes()
    }

    /// The greeting, with its end: 39 bytes.
    pub fn greeting(&self) -> &[u8]
        ensures greeting { result.now ≡ greeting self.now.nonce }
        ensures count { length result.now ≡ 39 }
    {
        self.nonce.greeting()
    }

    /// Logs a principal in, whose signature was accepted.
    pub fn log_in(&mut self, who: Principal)
        ensures { self.new ≡ record self.old { caller = Some who } }
    {
        self.caller = Some(who);
    }

    /// The first procap that names who is logged in, the node and the permission, copied. If none does, no memory is taken.
    pub fn fitting(
        &self,
        alloc: Global,
        node: NodeId,
        permission: Perm,
    ) -> Result<Option<Procap>, NoMemory>
        ensures ok { IfOk result (λ p. p ≡ fitting_of self.now self.now.caller node permission) }
        ensures err { OnErr result (IsSome (fitting_of self.now self.now.caller node permission)) }
    {
        match &self.caller {
            None => Ok(None),
            Some(who) => self.purse.fitting(alloc, who, node, permission),
        }
    }
}
