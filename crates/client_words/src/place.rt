//! Paths: the node at which a path begins, and the names from there.

ghost use Rattle.std.specs.Prelude.{◌≡◌, ◌≢◌, ◌∷◌, ◌++◌, ℕ, List, IfOk, IfSome, MatchOption};
ghost use Rattle.client_words.specs.Places.{HasStart, IsPlace, words_between};

use crate::names::Name;
use crate::numerals::counting_number;
use crate::quoting::put_quoted;
use crate::stops::{BAD_WORDS, Stop};
use bl_syntax::{NoMemory, NodeId};
use std::alloc::{AllocError, Global};

/// The node of the root.
const ROOT: u64 = 1;

/// A path: the node at which it begins, and the names from there, each one that the server takes.
#[derive(Drop)]
pub struct Place {
    start: NodeId,
    names: Vec<Name>,
}

fn bad_path(alloc: Global, text: &str, why: &str) -> Stop {
    match bad_path_words(alloc, text, why) {
        Ok(words) => Stop::Ended(BAD_WORDS, words),
        Err(_) => Stop::NoMemory,
    }
}

fn bad_path_words(alloc: Global, text: &str, why: &str) -> Result<String, AllocError> {
    let mut words = String::new(alloc);
    put_quoted(&mut words, text)?;
    words.push_str(why)?;
    Ok(words)
}

// What stands after a `#`, with which the text begins.
fn after_sign(text: &str) -> Option<&str>
    ensures { MatchOption result ((rest : List ℕ) → text.now ≢ 35 ∷ rest) (λ rest. text.now ≡ 35 ∷ rest.now) }
{
    text.strip_prefix('#')
}

// What stands after a slash, with which the text begins.
fn after_slash(text: &str) -> Option<&str>
    ensures { MatchOption result ((rest : List ℕ) → text.now ≢ 47 ∷ rest) (λ rest. text.now ≡ 47 ∷ rest.now) }
{
    text.strip_prefix('/')
}

// What stands before the first slash, and after it.
fn at_slash(text: &str) -> Option<(&str, &str)>
    ensures { IfSome result (λ parts. text.now ≡ parts.0.now ++ 47 ∷ parts.1.now) }
{
    text.split_once('/')
}

// The node whose number stands after the sign, and the names after it.
#[tactic(auto, using(crate::proofs::PlaceLemmas::node_with_names, crate::proofs::PlaceLemmas::node_alone))]
fn node_of(rest: &str) -> Option<(u64, &str)>
    ensures { IfSome result (λ parts. HasStart (35 ∷ rest.now) parts.0 parts.1.now) }
{
    match at_slash(rest) {
        Some((digits, names)) => {
            let number = counting_number(digits.as_bytes())?;
            Some((number, names))
        }
        None => {
            let number = counting_number(rest.as_bytes())?;
            Some((number, ""))
        }
    }
}

// The node at which a path begins, and the names from there.
#[tactic(auto, using(crate::proofs::PlaceLemmas::root_with_names, crate::proofs::PlaceLemmas::node_of_text))]
fn start_of(text: &str) -> Option<(u64, &str)>
    ensures { IfSome result (λ parts. HasStart text.now parts.0 parts.1.now) }
{
    match after_sign(text) {
        Some(rest) => node_of(rest),
        None => {
            let names = after_slash(text)?;
            Some((ROOT, names))
        }
    }
}

// The names between slashes; none if one of them is no name.
#[tactic(auto, using(crate::proofs::PlaceLemmas::words_push))]
fn names_of(alloc: Global, text: &str) -> Result<Option<Vec<Name>>, NoMemory>
    ensures { IfOk result (λ found. IfSome found (λ names. names.items ≡ words_between text.now)) }
{
    let mut names = Vec::new(alloc);
    for word in text.split('/') {
        if !word.is_empty() {
            match Name::new(alloc, word)? {
                Some(name) => names.push(name)?,
                None => return Ok(None),
            }
        }
    }
    Ok(Some(names))
}

// The same names in memory of their own.
fn copied(alloc: Global, names: &[Name]) -> Result<Vec<Name>, NoMemory> {
    let mut all = Vec::new(alloc);
    for name in names {
        all.push(name.copy(alloc)?)?;
    }
    Ok(all)
}

impl Place {
    /// The path of a text: a slash or a node by its number, and the names between the slashes; or why it is none.
    #[tactic(auto, using(crate::proofs::PlaceLemmas::place_of))]
    pub fn of(alloc: Global, text: &str) -> Result<Place, Stop>
        ensures { IfOk result (IsPlace text.now) }
    {
        let (start, rest) = match start_of(text) {
            Some(parts) => parts,
            None => return Err(bad_path(
                alloc,
                text,
                ": a path begins with / or with a node, as /notes/today or #7/today",
            )),
        };
        match names_of(alloc, rest)? {
            Some(names) => Ok(Place {
                start: NodeId(start),
                names,
            }),
            None => Err(bad_path(
                alloc,
                text,
                ": a name has 1 to 64 of A-Z a-z 0-9 _ . - and is neither . nor ..",
            )),
        }
    }

    /// A node by its number alone.
    pub fn at(alloc: Global, start: NodeId) -> Place {
        Place {
            start,
            names: Vec::new(alloc),
        }
    }

    /// The node at which the path begins.
    pub fn start(&self) -> NodeId {
        self.start
    }

    /// The names from there.
    pub fn names(&self) -> &[Name] {
        self.names.as_slice()
    }

    /// The last name; none if the path has no name.
    pub fn last(&self) -> Option<&Name> {
        self.names.last()
    }

    /// An equal path in memory of its own.
    pub fn copy(&self, alloc: Global) -> Result<Place, NoMemory> {
        Ok(Place {
            start: self.start,
            names: copied(alloc, self.names.as_slice())?,
        })
    }

    /// The path without its last name.
    pub fn parent(&self, alloc: Global) -> Result<Place, NoMemory> {
        let mut names = copied(alloc, self.names.as_slice())?;
        let _ = names.pop();
        Ok(Place {
            start: self.start,
            names,
        })
    }

    /// The path with one name more.
    pub fn below(&self, alloc: Global, name: &Name) -> Result<Place, NoMemory> {
        let mut names = copied(alloc, self.names.as_slice())?;
        names.push(name.copy(alloc)?)?;
        Ok(Place {
            start: self.start,
            names,
        })
    }

    /// The path as a text.
    pub fn shown(&self, alloc: Global) -> Result<String, NoMemory> {
        let mut text = String::new(alloc);
        let start = self.start.0;
        if start != ROOT {
            write!(text, "#{start}")?;
        }
        for name in &self.names {
            text.push('/')?;
            text.push_str(name.as_str())?;
        }
        if text.is_empty() {
            text.push('/')?;
        }
        Ok(text)
    }
}
