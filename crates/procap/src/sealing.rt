//! The seal: made under the store's key, and tested.

ghost use Rattle.std.specs.Prelude.{◌≡◌, ◌↔◌, IsTrue};
ghost use Rattle.procap.specs.GrantSpelling.{IsSpellableGrant};
ghost use Rattle.procap.specs.Procap.{IsSpellableProcap};
ghost use Rattle.procap.specs.Genuine.{seal_of, IsGenuine};

use crate::feeding::feed_grant;
use crate::procap::Procap;
use bl_syntax::Grant;
use pcfs_hmac::Mac;
use std::marker::Model;

/// A store's key, which may have any length. Contracts see its bytes.
///
/// It is kept as the empty text under the key, so that no seal takes the key in again. Nothing wipes it when it is dropped.
#[derive(Drop)]
pub struct SealKey {
    empty: Mac,
}

impl Model for SealKey {
    ghost use Rattle.std.specs.Prelude.{◌≡◌, ℕ, List, []};

    ghost Value = { List ℕ };

    ghost view = { λ k. k.empty.key };

    ghost invariant = { λ k. k.empty.text ≡ [] };
}

impl SealKey {
    /// The key with these bytes.
    pub fn new(key: &[u8]) -> SealKey
        ensures { result ≡ key.now }
    {
        SealKey {
            empty: Mac::new(key),
        }
    }

    /// The procap of a grant. It takes no memory.
    pub fn seal(&self, grant: Grant) -> Procap
        ensures grant { result.grant ≡ grant }
        ensures genuine { IsGenuine self.now result }
        ensures spelled { IsSpellableProcap result }
    {
        let tag = self.tag(&grant);
        Procap { grant, tag }
    }

    /// Whether all bytes of the tag are those of the grant's. It takes no memory.
    pub fn is_genuine(&self, p: &Procap) -> bool
        ensures exact { IsTrue result ↔ IsGenuine self.now p.now }
        ensures spelled { IsSpellableProcap p.now }
    {
        self.tag(&p.grant) == p.tag
    }

    /// The tag of a grant under the key. It takes no memory.
    pub fn tag(&self, grant: &Grant) -> [u8; 32]
        ensures same { result ≡ seal_of self.now grant.now }
        ensures spelled { IsSpellableGrant grant.now }
    {
        let mut text = self.empty.copy();
        feed_grant(&mut text, grant);
        text.finish()
    }
}

/// The procap of a grant under a key. It takes no memory.
pub fn seal(key: &[u8], grant: Grant) -> Procap
    ensures grant { result.grant ≡ grant }
    ensures genuine { IsGenuine key.now result }
    ensures spelled { IsSpellableProcap result }
{
    SealKey::new(key).seal(grant)
}

/// Whether all bytes of the tag are those of the grant's under the key. It takes no memory.
pub fn genuine(p: &Procap, key: &[u8]) -> bool
    ensures exact { IsTrue result ↔ IsGenuine key.now p.now }
    ensures spelled { IsSpellableProcap p.now }
{
    SealKey::new(key).is_genuine(p)
}
