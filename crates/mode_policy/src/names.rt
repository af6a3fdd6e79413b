//! Names, each once and with its place.

ghost use Rattle.std.specs.Prelude.{◌≡◌, ◌<◌, [], ◌∷◌, ◌++◌, length, Contains, Some, IfOk, OnErr, MatchOption};
ghost use Rattle.std.specs.List.{slice_get};
ghost use Rattle.mode_policy.specs.Places.{IsPlaceOf};

use crate::name::Name;
use bl_syntax::{NoMemory, Principal};
use std::alloc::Global;
use std::collections::BTreeMap;
use std::marker::Model;

/// The greatest number of entries of a list.
pub const MOST_PLACES: usize = 4_294_967_295;

/// Names in the order in which they were added, each once. Contracts see the list.
#[derive(Drop)]
pub struct NameList {
    names: Vec<Principal>,
    places: BTreeMap<Name, u32>,
}

impl Model for NameList {
    ghost use Rattle.std.specs.Prelude.{List, ℕ};
    ghost use Rattle.std.specs.Ordering.{nat_cmp};
    ghost use Rattle.std.specs.Cmp.Lexicographic.{slice_cmp};
    ghost use Rattle.mode_policy.specs.Places.{ArePlacesOf};

    ghost Value = { List (List ℕ) };

    ghost view = { λ l. l.names.items };

    ghost invariant = { λ l. ArePlacesOf (slice_cmp nat_cmp) l.places.entries l.names.items };
}

impl NameList {
    /// No names. It takes no memory.
    pub fn new(alloc: Global) -> NameList
        ensures { result ≡ [] }
    {
        NameList {
            names: Vec::new(alloc),
            places: BTreeMap::new(alloc),
        }
    }

    /// The names in order.
    pub fn as_slice(&self) -> &[Principal]
        ensures { result.now ≡ self.now }
    {
        self.names.as_slice()
    }

    /// Where the name stands, from 0.
    pub fn find(&self, name: &Principal) -> Option<u32>
        ensures { MatchOption result (Contains self.now name.now → ⊥) (IsPlaceOf self.now name.now) }
    {
        self.places.get(&Name::new(*name)).copied()
    }

    /// Adds a name that is not there, and returns its place. More than 2^32 names find no memory.
    pub fn add(&mut self, name: Principal) -> Result<u32, NoMemory>
        requires { Contains self.old name → ⊥ }
        ensures ok { IfOk result (λ place. (place ≡ length self.old) × (self.new ≡ self.old ++ name ∷ [])) }
        ensures err { OnErr result (self.new ≡ self.old) }
    {
        let len = self.names.len();
        if MOST_PLACES <= len {
            return Err(NoMemory);
        }
        self.names.push(name)?;
        match self.places.insert(Name::new(name), len as u32) {
            Ok(_) => Ok(len as u32),
            Err(_) => {
                self.names.truncate(len);
                Err(NoMemory)
            }
        }
    }
}
