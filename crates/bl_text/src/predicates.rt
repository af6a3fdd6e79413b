//! Predicates with their arguments.

ghost use Rattle.std.specs.Prelude.{◌≡◌};
ghost use Rattle.bl_syntax.specs.Names.{is_predicate_name};
ghost use Rattle.bl_text.specs.Scope.{variables};
ghost use Rattle.bl_text.specs.Pieces.{are_may_arguments, apply_atom, apply_owner, apply_attribute, apply_directory, apply_state, apply_predicate, GivesPiece};

use crate::scope::Scope;
use bl_syntax::boxes::{atom_of, state_of};
use bl_syntax::{Formula, Principal, Sort, StatePred, Term, Terms, Word};
use bl_tokens::TextFault;
use std::alloc::Global;

/// The predicate by which a policy gives a principal a permission on a file.
const MAY: &[u8] = b"may";

#[tactic(auto, unfolding(crate::specs::Pieces::are_may_arguments))]
fn are_may_arguments(scope: &Scope<'_>, terms: &[Term]) -> bool
    ensures { result ≡ are_may_arguments (variables scope.now) terms.now }
{
    match terms {
        [who, file, permission] => {
            scope.is_of_wanted_sort(Sort::Principal, who)
                && scope.is_of_wanted_sort(Sort::File, file)
                && scope.is_of_wanted_sort(Sort::Perm, permission)
        }
        _ => false,
    }
}

#[tactic(auto, unfolding(crate::specs::Pieces::apply_atom))]
fn apply_atom(
    alloc: Global,
    scope: &Scope<'_>,
    at: usize,
    name: &Word,
    terms: Terms,
) -> Result<Box<Formula>, TextFault>
    ensures { GivesPiece result (apply_atom (variables scope.now) at name.now terms) }
{
    if name.bytes() == MAY && !are_may_arguments(scope, terms.as_slice()) {
        Err(TextFault::Sort(at))
    } else {
        Ok(atom_of(alloc, name, terms)?)
    }
}

#[tactic(auto, unfolding(crate::specs::Pieces::apply_owner))]
fn apply_owner(
    alloc: Global,
    scope: &Scope<'_>,
    at: usize,
    terms: &[Term],
) -> Result<Box<Formula>, TextFault>
    ensures { GivesPiece result (apply_owner (variables scope.now) at terms.now) }
{
    match terms {
        [file, owner] => {
            if scope.is_of_wanted_sort(Sort::File, file)
                && scope.is_of_wanted_sort(Sort::Principal, owner)
            {
                Ok(state_of(alloc, &StatePred::Owner(*file, *owner))?)
            } else {
                Err(TextFault::Sort(at))
            }
        }
        _ => Err(TextFault::Sort(at)),
    }
}

#[tactic(auto, unfolding(crate::specs::Pieces::apply_attribute))]
fn apply_attribute(
    alloc: Global,
    scope: &Scope<'_>,
    at: usize,
    terms: &[Term],
) -> Result<Box<Formula>, TextFault>
    ensures { GivesPiece result (apply_attribute (variables scope.now) at terms.now) }
{
    match terms {
        [file, name, value] => {
            if scope.is_of_wanted_sort(Sort::File, file)
                && scope.is_of_wanted_sort(Sort::Text, name)
                && scope.is_of_wanted_sort(Sort::Text, value)
            {
                Ok(state_of(alloc, &StatePred::HasXattr(*file, *name, *value))?)
            } else {
                Err(TextFault::Sort(at))
            }
        }
        _ => Err(TextFault::Sort(at)),
    }
}

#[tactic(auto, unfolding(crate::specs::Pieces::apply_directory))]
fn apply_directory(
    alloc: Global,
    scope: &Scope<'_>,
    at: usize,
    terms: &[Term],
) -> Result<Box<Formula>, TextFault>
    ensures { GivesPiece result (apply_directory (variables scope.now) at terms.now) }
{
    match terms {
        [file, directory] => {
            if scope.is_of_wanted_sort(Sort::File, file)
                && scope.is_of_wanted_sort(Sort::File, directory)
            {
                Ok(state_of(alloc, &StatePred::InDir(*file, *directory))?)
            } else {
                Err(TextFault::Sort(at))
            }
        }
        _ => Err(TextFault::Sort(at)),
    }
}

#[tactic(auto, unfolding(crate::specs::Pieces::apply_state))]
fn apply_state(
    alloc: Global,
    scope: &Scope<'_>,
    at: usize,
    name: &Principal,
    terms: Terms,
) -> Result<Box<Formula>, TextFault>
    ensures { GivesPiece result (apply_state (variables scope.now) at name.now terms) }
{
    if name.bytes() == b"owner".as_slice() {
        apply_owner(alloc, scope, at, terms.as_slice())
    } else if name.bytes() == b"has_xattr".as_slice() {
        apply_attribute(alloc, scope, at, terms.as_slice())
    } else {
        apply_directory(alloc, scope, at, terms.as_slice())
    }
}

/// Whether the name is that of a predicate that takes any arguments, or of `may`.
pub fn is_atom(name: &Principal) -> bool
    ensures { result ≡ is_predicate_name name.now }
{
    Word::new(name.bytes()).is_some()
}

/// The predicate of that name, at that place, with these arguments.
#[tactic(auto, unfolding(crate::specs::Pieces::apply_predicate))]
pub fn apply_predicate(
    alloc: Global,
    scope: &Scope<'_>,
    at: usize,
    name: &Principal,
    terms: Terms,
) -> Result<Box<Formula>, TextFault>
    ensures { GivesPiece result (apply_predicate (variables scope.now) at name.now terms) }
{
    match Word::new(name.bytes()) {
        Some(word) => apply_atom(alloc, scope, at, &word, terms),
        None => apply_state(alloc, scope, at, name, terms),
    }
}
