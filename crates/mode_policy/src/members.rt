//! Memberships, each once.

ghost use Rattle.std.specs.Prelude.{◌≡◌, ◌↔◌, [], ◌∷◌, ◌++◌, Contains, IsTrue, OnOk, OnErr};

use crate::names::MOST_PLACES;
use bl_syntax::NoMemory;
use std::alloc::Global;
use std::collections::BTreeMap;
use std::marker::Model;

/// The places of a principal and of a group, in the order in which they were added, each pair once. Contracts see the list.
#[derive(Drop)]
pub struct MemberList {
    members: Vec<(u32, u32)>,
    places: BTreeMap<(u32, u32), u32>,
}

impl Model for MemberList {
    ghost use Rattle.std.specs.Prelude.{List, ℕ};
    ghost use Rattle.mode_policy.specs.Places.{ArePlacesOf, pair_cmp};

    ghost Value = { List (ℕ × ℕ) };

    ghost view = { λ l. l.members.items };

    ghost invariant = { λ l. ArePlacesOf pair_cmp l.places.entries l.members.items };
}

impl MemberList {
    /// No memberships. It takes no memory.
    pub fn new(alloc: Global) -> MemberList
        ensures { result ≡ [] }
    {
        MemberList {
            members: Vec::new(alloc),
            places: BTreeMap::new(alloc),
        }
    }

    /// Whether the principal of that place is a member of the group of that place.
    pub fn has(&self, who: u32, group: u32) -> bool
        ensures { IsTrue result ↔ Contains self.now (who, group) }
    {
        self.places.contains_key(&(who, group))
    }

    /// Adds a membership that is not there. More than 2^32 of them find no memory.
    pub fn add(&mut self, who: u32, group: u32) -> Result<(), NoMemory>
        requires { Contains self.old (who, group) → ⊥ }
        ensures ok { OnOk result (self.new ≡ self.old ++ (who, group) ∷ []) }
        ensures err { OnErr result (self.new ≡ self.old) }
    {
        let len = self.members.len();
        if MOST_PLACES <= len {
            return Err(NoMemory);
        }
        self.members.push((who, group))?;
        match self.places.insert((who, group), len as u32) {
            Ok(_) => Ok(()),
            Err(_) => {
                self.members.truncate(len);
                Err(NoMemory)
            }
        }
    }
}
