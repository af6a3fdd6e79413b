//! The ring: names with their keys or roots.

ghost use Rattle.std.specs.Prelude.{◌≡◌, ◌↔◌, ◌<◌, [], ◌∷◌, ◌++◌, IfOk, OnOk, OnErr, IsErrOf};
ghost use Rattle.std.specs.Option.{option_copied, option_map};
ghost use Rattle.bl_syntax.specs.declared.limits.TheConstants.{HIGHEST_TREE};
ghost use Rattle.pcfs_hmac.specs.Hmac.{hmac};
ghost use Rattle.policy_statement.specs.Ring.{IsKnown, credential_of, keyed, rooted, tag_of};
ghost use Rattle.policy_statement.specs.declared.ring.KeyFault.TheVariants as faults;

use bl_syntax::limits::HIGHEST_TREE;
use bl_syntax::{NoMemory, Principal};
use merkle_sig::accepts_root;
use pcfs_hmac::Mac;
use pcfs_ports::Signatures;
use std::alloc::{AllocFailed, Global};
use std::marker::Model;
use thiserror::Error;

/// Why a key or a root was not added.
#[derive(Clone, Copy, Debug, PartialEq, Eq, Error)]
pub enum KeyFault {
    /// The name has a key or a root already.
    #[error("the name has a key or a root already")]
    Known,
    /// The tree is higher than 8.
    #[error("the tree is higher than {most}", most = HIGHEST_TREE)]
    BadHeight,
    /// A growth was refused.
    #[error("out of memory")]
    NoMemory,
}

impl<T: Drop> From<AllocFailed<T>> for KeyFault {
    ghost from_gives = { λ _ e. e ≡ faults.NoMemory };

    fn from(_refused: AllocFailed<T>) -> KeyFault {
        KeyFault::NoMemory
    }
}

// What a name signs with. A key is kept as the empty text under it, so that no message takes the key in again.
#[derive(Drop)]
enum Held {
    Key(Mac),
    Root(u8, [u8; 32]),
}

// A name, and what it signs with.
#[derive(Drop)]
struct Entry {
    who: Principal,
    held: Held,
}

impl Model for Entry {
    ghost use Rattle.policy_statement.specs.Held.{IsHeld, credential};
    ghost use Rattle.policy_statement.specs.Ring.{KeyView};

    ghost Value = { KeyView };

    ghost view = { λ e. record { who = e.who; holds = credential e.held } };

    ghost invariant = { λ e. IsHeld e.held };
}

impl Entry {
    ghost use Rattle.std.specs.Prelude.{◌==◌, ◌≤◌};
    ghost use Rattle.std.specs.Str.{bytes_eq};
    ghost use Rattle.bl_syntax.specs.declared.limits.TheConstants.{HIGHEST_TREE};
    ghost use Rattle.policy_statement.specs.Ring.{accepts_by, keyed, rooted, tag_by};

    fn with_key(who: Principal, key: &[u8]) -> Entry
        ensures { result ≡ record { who = who; holds = keyed key.now } }
    {
        Entry {
            who,
            held: Held::Key(Mac::new(key)),
        }
    }

    fn with_root(who: Principal, height: u8, root: [u8; 32]) -> Entry
        requires { height ≤ HIGHEST_TREE }
        ensures { result ≡ record { who = who; holds = rooted height root } }
    {
        Entry {
            who,
            held: Held::Root(height, root),
        }
    }

    fn copy(&self) -> Entry
        ensures { result ≡ self.now }
    {
        let held = match &self.held {
            Held::Key(empty) => Held::Key(empty.copy()),
            Held::Root(height, root) => Held::Root(*height, *root),
        };
        Entry {
            who: self.who,
            held,
        }
    }

    fn is_of(&self, who: &[u8]) -> bool
        ensures { result ≡ bytes_eq self.now.who who.now }
    {
        self.who.bytes() == who
    }

    fn tag(&self, message: &[u8]) -> Option<[u8; 32]>
        ensures { result ≡ tag_by message.now self.now.holds }
    {
        match &self.held {
            Held::Key(empty) => Some(tag_after(empty, message)),
            Held::Root(_, _) => None,
        }
    }

    fn accepts(&self, message: &[u8], signature: &[u8]) -> bool
        ensures { result ≡ accepts_by message.now signature.now self.now.holds }
    {
        match &self.held {
            Held::Key(empty) => tag_after(empty, message).as_slice() == signature,
            Held::Root(height, root) => accepts_root(root, *height, message, signature),
        }
    }
}

// The tag of the message under the key of an empty text.
fn tag_after(empty: &Mac, message: &[u8]) -> [u8; 32]
    requires { empty.now.text ≡ [] }
    ensures { result ≡ hmac empty.now.key message.now }
{
    let mut text = empty.copy();
    text.update(message);
    text.finish()
}

/// A ring of names, each with one key or one root of a tree of hashes.
///
/// Contracts see the list of names with what the ring has of them, in the order in which they were added. Keys may have
/// any length, and nothing wipes them when the ring is dropped.
#[derive(Drop)]
pub struct Keyring {
    entries: Vec<Entry>,
}

impl Model for Keyring {
    ghost use Rattle.std.specs.Prelude.{List};
    ghost use Rattle.policy_statement.specs.Ring.{KeyView};

    ghost Value = { List KeyView };

    ghost view = { λ r. r.entries.items };
}

impl Keyring {
    /// The ring without names. It takes no memory.
    pub fn new(alloc: Global) -> Keyring
        ensures { result ≡ [] }
    {
        Keyring {
            entries: Vec::new(alloc),
        }
    }

    /// Gives the name this key. `Known` is returned exactly if it has a key or a root, which it keeps.
    pub fn add(&mut self, who: Principal, key: &[u8]) -> Result<(), KeyFault>
        ensures ok { OnOk result (self.new ≡ self.old ++ record { who = who; holds = keyed key.now } ∷ []) }
        ensures err { OnErr result (self.new ≡ self.old) }
        ensures known { IsErrOf result faults.Known ↔ IsKnown self.old who }
        ensures never_high { ¬ (IsErrOf result faults.BadHeight) }
    {
        if self.find(who.bytes()).is_some() {
            return Err(KeyFault::Known);
        }
        self.entries.push(Entry::with_key(who, key))?;
        Ok(())
    }

    /// Gives the name this root of a tree of this height. `Known` is returned exactly if it has a key or a root, which it
    /// keeps, and `BadHeight` exactly if it has none and the tree is higher than 8.
    pub fn add_root(&mut self, who: Principal, height: u8, root: [u8; 32]) -> Result<(), KeyFault>
        ensures ok { OnOk result (self.new ≡ self.old ++ record { who = who; holds = rooted height root } ∷ []) }
        ensures err { OnErr result (self.new ≡ self.old) }
        ensures known { IsErrOf result faults.Known ↔ IsKnown self.old who }
        ensures high { IsErrOf result faults.BadHeight ↔ (¬ (IsKnown self.old who) × (HIGHEST_TREE < height)) }
    {
        if self.find(who.bytes()).is_some() {
            return Err(KeyFault::Known);
        }
        if height > HIGHEST_TREE {
            return Err(KeyFault::BadHeight);
        }
        self.entries.push(Entry::with_root(who, height, root))?;
        Ok(())
    }

    /// The tag of the message under the key of the name; none exactly if the name has no key, so also
    /// if it has a root.
    pub fn sign(&self, who: &Principal, message: &[u8]) -> Option<[u8; 32]>
        ensures { result ≡ tag_of self.now who.now message.now }
    {
        self.tag(who.bytes(), message)
    }

    /// An equal ring in memory of its own.
    pub fn copy(&self, alloc: Global) -> Result<Keyring, NoMemory>
        ensures { IfOk result (λ copied. copied ≡ self.now) }
    {
        let mut entries = Vec::with_capacity(alloc, self.entries.len())?;
        for entry in &self.entries {
            entries.push(entry.copy())?;
        }
        Ok(Keyring { entries })
    }

    fn find(&self, who: &[u8]) -> Option<&Entry>
        ensures { option_map (λ e. e.now.holds) result ≡ credential_of self.now who.now }
    {
        self.entries.iter().find(|entry| entry.is_of(who))
    }

    fn tag(&self, who: &[u8], message: &[u8]) -> Option<[u8; 32]>
        ensures { result ≡ tag_of self.now who.now message.now }
    {
        match self.find(who) {
            Some(entry) => entry.tag(message),
            None => None,
        }
    }
}

/// It accepts exactly the whole tag of the message under the key of a name with a key, exactly what the root accepts for
/// a name with a root, and nothing from another.
impl Signatures for Keyring {
    ghost use Rattle.policy_statement.specs.Ring.{is_accepted};

    ghost accepted = { is_accepted };

    fn accepts(&self, who: &[u8], message: &[u8], signature: &[u8]) -> bool
        ensures { result ≡ is_accepted self.now who.now message.now signature.now }
    {
        match self.find(who) {
            Some(entry) => entry.accepts(message, signature),
            None => false,
        }
    }
}
