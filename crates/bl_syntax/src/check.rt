//! Which formulas are closed and well sorted.

ghost use Rattle.std.specs.Prelude.{◌≡◌, ◌≤◌, ◌-◌};
ghost use Rattle.std.specs.Option.{SomeIff};
ghost use Rattle.bl_syntax.specs.Binders.{sorts};
ghost use Rattle.bl_syntax.specs.Formula.{formula_view, atom, state};
ghost use Rattle.bl_syntax.specs.Terms.{sort_of};
ghost use Rattle.bl_syntax.specs.WellSorted.{size, widest_atom};
ghost use Rattle.bl_syntax.specs.FirstFault.{Finds, formula_fault, sorting_fault, may_fault, scopes_fault, state_fault, times_fault, term_fault};

use crate::binders::Binders;
use crate::formula::Formula;
use crate::limits::{MOST_ARGUMENTS, MOST_FORMULA_NODES};
use crate::names::Word;
use crate::terms::{Sort, StatePred, Term};
use thiserror::Error;

/// The first fault of a formula: of its size, and then of its nodes from the root, each node before its parts.
#[derive(Clone, Copy, Debug, PartialEq, Eq, Error)]
pub enum SyntaxFault {
    /// A term has another sort than its place asks for.
    #[error("a term has another sort than its place asks for")]
    WrongSort,
    /// A predicate has another number of arguments than it takes.
    #[error("a predicate has another number of arguments than it takes")]
    WrongArity,
    /// A variable has no binder, or a parameter is out of scope.
    #[error("a variable has no binder, or a parameter is out of scope")]
    Unbound,
    /// More than 512 nodes, or an atom with more than 8 arguments.
    #[error("the formula has more than 512 nodes, or an atom with more than 8 arguments")]
    TooLarge,
}

/// The predicate by which a policy gives a principal a permission on a file.
const MAY: &[u8] = b"may";

/// Whether the formula is closed and well sorted within the limits, where the parameters have
/// these sorts; else its first fault, that of the limits before any other.
pub fn check_formula(f: &Formula, scope: &[Sort]) -> Result<(), SyntaxFault>
    ensures { Finds result (formula_fault scope.now (formula_view f.now)) }
{
    match nodes_left(f, MOST_FORMULA_NODES) {
        Some(_) => check_sorts(f, scope, &Binders::Outermost),
        None => Err(SyntaxFault::TooLarge),
    }
}

/// How many of so many nodes the formula leaves; none where it has more, or an atom with too many
/// arguments. It calls itself no deeper than there are nodes left.
fn nodes_left(f: &Formula, nodes: u16) -> Option<u16>
    ensures { SomeIff result ((size (formula_view f.now) ≤ nodes) × (widest_atom (formula_view f.now) ≤ MOST_ARGUMENTS))
        (nodes - size (formula_view f.now)) }
{
    match f {
        Formula::Atom(_, terms) => {
            if terms.len() <= MOST_ARGUMENTS {
                nodes.checked_sub(1 + terms.len() as u16)
            } else {
                None
            }
        }
        Formula::State(s) => nodes.checked_sub(state_size(s)),
        Formula::Cons(_) => nodes.checked_sub(3),
        Formula::And(a, b) | Formula::Or(a, b) | Formula::Imp(a, b) => {
            nodes_left(b, nodes_left(a, nodes.checked_sub(1)?)?)
        }
        Formula::True | Formula::False => nodes.checked_sub(1),
        Formula::Forall(_, a) | Formula::Exists(_, a) => nodes_left(a, nodes.checked_sub(1)?),
        Formula::Says(_, a) => nodes_left(a, nodes.checked_sub(2)?),
        Formula::At(a, _, _) => nodes_left(a, nodes.checked_sub(3)?),
    }
}

/// How many nodes a predicate on the server's state has.
fn state_size(s: &StatePred) -> u16
    ensures { result ≡ size (state s.now) }
{
    match s {
        StatePred::HasXattr(..) => 4,
        _ => 3,
    }
}

/// The first fault of sorts, numbers of arguments and scopes.
fn check_sorts(f: &Formula, scope: &[Sort], binders: &Binders<'_>) -> Result<(), SyntaxFault>
    ensures { Finds result (sorting_fault scope.now (sorts binders.now) (formula_view f.now)) }
{
    match f {
        Formula::Atom(name, terms) => check_atom(name, terms.as_slice(), scope, binders),
        Formula::Cons(c) => check_times(&c.low, &c.high, scope, binders),
        Formula::State(s) => check_state(s, scope, binders),
        Formula::And(a, b) | Formula::Or(a, b) | Formula::Imp(a, b) => {
            check_sorts(a, scope, binders)?;
            check_sorts(b, scope, binders)
        }
        Formula::True | Formula::False => Ok(()),
        Formula::Forall(sort, a) | Formula::Exists(sort, a) => {
            check_sorts(a, scope, &Binders::Inside(*sort, &*binders))
        }
        Formula::Says(who, a) => {
            check_term(who, Sort::Principal, scope, binders)?;
            check_sorts(a, scope, binders)
        }
        Formula::At(a, from, to) => {
            check_sorts(a, scope, binders)?;
            check_times(from, to, scope, binders)
        }
    }
}

fn check_atom(
    name: &Word,
    terms: &[Term],
    scope: &[Sort],
    binders: &Binders<'_>,
) -> Result<(), SyntaxFault>
    ensures { Finds result (sorting_fault scope.now (sorts binders.now) (atom name.now terms.now)) }
{
    if name.bytes() == MAY {
        check_may(terms, scope, binders)
    } else {
        check_scopes(terms, scope, binders)
    }
}

/// The arguments of `may`: a principal, a file and a permission.
fn check_may(terms: &[Term], scope: &[Sort], binders: &Binders<'_>) -> Result<(), SyntaxFault>
    ensures { Finds result (may_fault scope.now (sorts binders.now) terms.now) }
{
    match terms {
        [who, file, permission] => {
            check_term(who, Sort::Principal, scope, binders)?;
            check_term(file, Sort::File, scope, binders)?;
            check_term(permission, Sort::Perm, scope, binders)
        }
        _ => Err(SyntaxFault::WrongArity),
    }
}

/// Terms of any sort.
fn check_scopes(terms: &[Term], scope: &[Sort], binders: &Binders<'_>) -> Result<(), SyntaxFault>
    ensures { Finds result (scopes_fault scope.now (sorts binders.now) terms.now) }
{
    for t in terms {
        if sort_of(t, scope, binders).is_none() {
            return Err(SyntaxFault::Unbound);
        }
    }
    Ok(())
}

fn check_state(s: &StatePred, scope: &[Sort], binders: &Binders<'_>) -> Result<(), SyntaxFault>
    ensures { Finds result (state_fault scope.now (sorts binders.now) s.now) }
{
    match s {
        StatePred::Owner(file, owner) => {
            check_term(file, Sort::File, scope, binders)?;
            check_term(owner, Sort::Principal, scope, binders)
        }
        StatePred::HasXattr(file, name, value) => {
            check_term(file, Sort::File, scope, binders)?;
            check_term(name, Sort::Text, scope, binders)?;
            check_term(value, Sort::Text, scope, binders)
        }
        StatePred::InDir(file, directory) => {
            check_term(file, Sort::File, scope, binders)?;
            check_term(directory, Sort::File, scope, binders)
        }
    }
}

fn check_times(
    from: &Term,
    to: &Term,
    scope: &[Sort],
    binders: &Binders<'_>,
) -> Result<(), SyntaxFault>
    ensures { Finds result (times_fault scope.now (sorts binders.now) from.now to.now) }
{
    check_term(from, Sort::Time, scope, binders)?;
    check_term(to, Sort::Time, scope, binders)
}

/// A term of that sort.
fn check_term(
    t: &Term,
    wanted: Sort,
    scope: &[Sort],
    binders: &Binders<'_>,
) -> Result<(), SyntaxFault>
    ensures { Finds result (term_fault scope.now (sorts binders.now) wanted t.now) }
{
    match sort_of(t, scope, binders) {
        None => Err(SyntaxFault::Unbound),
        Some(sort) => {
            if sort == wanted {
                Ok(())
            } else {
                Err(SyntaxFault::WrongSort)
            }
        }
    }
}

/// The sort of a term; none where it has a variable or a parameter out of scope.
fn sort_of(t: &Term, scope: &[Sort], binders: &Binders<'_>) -> Option<Sort>
    ensures { result ≡ sort_of scope.now (sorts binders.now) t.now }
{
    match t {
        Term::Prin(_) => Some(Sort::Principal),
        Term::File(_) => Some(Sort::File),
        Term::Perm(_) => Some(Sort::Perm),
        Term::Time(_) | Term::Ctime => Some(Sort::Time),
        Term::Text(_) => Some(Sort::Text),
        Term::Param(n) => scope.get(*n as usize).copied(),
        Term::Bound(n) => binders.sort_at(*n),
    }
}
