//! The facts at a node. They lie on the stack, and none is copied on the way to a premise.

ghost use Rattle.std.specs.Prelude.{◌≡◌};
ghost use Rattle.bl_syntax.specs.Equality.{state_eq};
ghost use Rattle.proof_verifier.specs.Tests.{has_state};
ghost use Rattle.proof_verifier.specs.Instances.{term_with};
ghost use Rattle.proof_verifier.specs.Known.{fact_view, fact_list};

use crate::instance::TermList;
use bl_syntax::{StatePred, Term};

/// A predicate on the server's state, with terms for its variables.
#[derive(Clone, Copy)]
pub struct FactRef<'a> {
    pub predicate: &'a StatePred,
    pub terms: &'a TermList<'a>,
}

impl<'a> FactRef<'a> {
    /// The predicate of those terms.
    pub fn with_terms(&self) -> StatePred
        ensures { result ≡ fact_view self.now }
    {
        match self.predicate {
            StatePred::Owner(file, owner) => StatePred::Owner(*self.term(file), *self.term(owner)),
            StatePred::HasXattr(file, name, value) => StatePred::HasXattr(
                *self.term(file),
                *self.term(name),
                *self.term(value),
            ),
            StatePred::InDir(file, directory) => {
                StatePred::InDir(*self.term(file), *self.term(directory))
            }
        }
    }

    /// Whether it is this predicate of the same terms.
    fn is(&self, s: &StatePred) -> bool
        ensures { result ≡ state_eq (fact_view self.now) s.now }
    {
        match (self.predicate, s) {
            (StatePred::Owner(file, owner), StatePred::Owner(other, other_owner)) => {
                self.term(file) == other && self.term(owner) == other_owner
            }
            (
                StatePred::HasXattr(file, name, value),
                StatePred::HasXattr(other, other_name, other_value),
            ) => {
                self.term(file) == other
                    && self.term(name) == other_name
                    && self.term(value) == other_value
            }
            (StatePred::InDir(file, directory), StatePred::InDir(other, other_directory)) => {
                self.term(file) == other && self.term(directory) == other_directory
            }
            _ => false,
        }
    }

    fn term(&self, t: &'a Term) -> &'a Term
        ensures { result.now ≡ term_with 0 self.now.terms.now t.now }
    {
        self.terms.term(t)
    }
}

/// The facts at a node, the newest last.
#[derive(Clone, Copy)]
pub enum FactList<'a> {
    None,
    /// One more.
    More(&'a FactList<'a>, FactRef<'a>),
}

impl FactList<'_> {
    /// Whether the predicate is among them.
    pub fn has(&self, s: &StatePred) -> bool
        ensures { result ≡ has_state (fact_list self.now) s.now }
    {
        match self {
            FactList::None => false,
            FactList::More(older, fact) => older.has(s) || fact.is(s),
        }
    }
}
