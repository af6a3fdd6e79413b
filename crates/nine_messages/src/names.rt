//! Names of a walk, which stay where they came.

ghost use Rattle.std.specs.Prelude.{◌≡◌, ◌∷◌, ◌++◌, ◌↔◌, [], length, MatchOption, OnOk, OnErr, IsTrue};
ghost use Rattle.bl_syntax.specs.BeginsWith.{BeginsWith};
ghost use Rattle.nine_messages.specs.Fields.{Gives, after, many_at, listed, listed_at, text, text_at, filled};

use crate::fields::{text_at, u16_at};
use crate::fields_writing::put_u16;
use bl_syntax::{Bytes, NoMemory};
use std::marker::Model;

/// Texts one after the other, each after its count, as they stand in a message. Contracts see the list of them.
#[derive(Debug, Drop)]
pub struct Names<'a> {
    count: u16,
    bytes: &'a [u8],
}

impl<'a> Model for Names<'a> {
    ghost use Rattle.std.specs.Prelude.{ℕ, List};
    ghost use Rattle.nine_messages.specs.Fields.{texts_in};
    ghost use Rattle.nine_messages.specs.Names.{AreNames};

    ghost Value = { List (List ℕ) };

    ghost view = { λ n. texts_in n.count n.bytes.now };

    ghost invariant = { λ n. AreNames n.count n.bytes.now };
}

impl<'a> Names<'a> {
    /// How many names there are.
    pub fn len(&self) -> usize
        ensures { result ≡ length self.now }
    {
        self.count as usize
    }

    /// The first name, and those after it; none exactly if there is no name.
    pub fn split_first(&self) -> Option<(&'a [u8], Names<'a>)>
        ensures { MatchOption result (self.now ≡ []) (λ x. self.now ≡ x.0.now ∷ x.1) }
    {
        if self.count == 0 {
            return None;
        }
        match text_at(self.bytes) {
            None => None,
            Some((name, rest)) => Some((
                name,
                Names {
                    count: self.count - 1,
                    bytes: rest,
                },
            )),
        }
    }
}

impl<'a> Names<'a> {
    /// Adds how many names there are, and each, or a front of them.
    #[tactic(auto, using(bl_syntax::proofs::BeginsWithLemmas::writing))]
    pub(crate) fn add(&self, out: &mut Bytes) -> Result<(), NoMemory>
        ensures ok { OnOk result (out.new ≡ out.old ++ listed text self.now) }
        ensures err { OnErr result (BeginsWith out.new out.old) }
    {
        put_u16(self.count, out)?;
        out.extend(self.bytes)?;
        Ok(())
    }
}

// What stands after so many texts, if these bytes hold them whole.
fn after_texts(count: u16, bytes: &[u8]) -> Option<&[u8]>
    ensures { Gives (λ x. x.now) result (after (many_at text_at count bytes.now)) }
{
    let mut rest = bytes;
    for _ in 0..count {
        match text_at(rest) {
            None => return None,
            Some((_, after)) => rest = after,
        }
    }
    Some(rest)
}

// Whether so many texts fill the bytes.
#[tactic(auto, using(crate::proofs::NamesLemmas::no_bytes))]
fn are_filling(count: u16, bytes: &[u8]) -> bool
    ensures { IsTrue result ↔ (after (many_at text_at count bytes.now) ≡ Some []) }
{
    match after_texts(count, bytes) {
        None => false,
        Some(rest) => rest.is_empty(),
    }
}

/// How many texts there are, and each, if they fill the bytes.
#[tactic(auto, using(crate::proofs::NamesLemmas::naming))]
pub(crate) fn names_of(bytes: &[u8]) -> Option<Names<'_>>
    ensures { Gives (λ x. x) result (filled (λ x. x) (listed_at text_at bytes.now)) }
{
    match u16_at(bytes) {
        None => None,
        Some((count, rest)) => {
            if are_filling(count, rest) {
                Some(Names { count, bytes: rest })
            } else {
                None
            }
        }
    }
}
