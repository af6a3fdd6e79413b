//! A term instead of a bound variable.

ghost use Rattle.std.specs.Prelude.{◌≡◌, suc, IfOk, map};
ghost use Rattle.bl_syntax.specs.Formula.{formula_view, atom, compare, state, says, on};
ghost use Rattle.bl_syntax.specs.Substitution.{put_in, put_in_term, put_in_constraint, put_in_state, instance_at};

use crate::boxes::{
    atom_of, both_of, constraint_of, either_of, every_of, falsity_of, implies_of, on_of, says_of,
    some_of, state_of, truth_of,
};
use crate::formula::Formula;
use crate::lists::{NoMemory, Sequence};
use crate::names::Word;
use crate::terms::{Constraint, StatePred, Term};
use std::alloc::{AllocError, Global};

/// The body of a binder with the term in the place of the binder's variable. The term is not
/// changed on the way: one in scope holds no bound variable.
pub fn instantiate(alloc: Global, body: &Formula, t: &Term) -> Result<Box<Formula>, NoMemory>
    ensures { IfOk result (λ instance. formula_view instance.value ≡ instance_at t.now (formula_view body.now)) }
{
    put_in(alloc, body, 0, t)
}

/// The formula with t for the variable of the binder that stands so many binders further out. It calls itself as deep
/// as the formula is, and holds no formula and no term on the stack.
fn put_in(alloc: Global, f: &Formula, depth: usize, t: &Term) -> Result<Box<Formula>, NoMemory>
    ensures { IfOk result (λ changed. formula_view changed.value ≡ put_in depth t.now (formula_view f.now)) }
{
    match f {
        Formula::Atom(name, terms) => put_in_atom(alloc, name, terms.as_slice(), depth, t),
        Formula::Cons(c) => put_in_comparison(alloc, c, depth, t),
        Formula::State(s) => put_in_state_formula(alloc, s, depth, t),
        Formula::And(a, b) => {
            both_of(
                alloc,
                put_in(alloc, a, depth, t)?,
                put_in(alloc, b, depth, t)?,
            )
        }
        Formula::Or(a, b) => {
            either_of(
                alloc,
                put_in(alloc, a, depth, t)?,
                put_in(alloc, b, depth, t)?,
            )
        }
        Formula::Imp(a, b) => {
            implies_of(
                alloc,
                put_in(alloc, a, depth, t)?,
                put_in(alloc, b, depth, t)?,
            )
        }
        Formula::True => truth_of(alloc),
        Formula::False => falsity_of(alloc),
        Formula::Forall(sort, a) => {
            every_of(alloc, *sort, put_in(alloc, a, inner_depth(depth)?, t)?)
        }
        Formula::Exists(sort, a) => {
            some_of(alloc, *sort, put_in(alloc, a, inner_depth(depth)?, t)?)
        }
        Formula::Says(who, a) => put_in_says(alloc, who, put_in(alloc, a, depth, t)?, depth, t),
        Formula::At(a, from, to) => {
            put_in_on(alloc, put_in(alloc, a, depth, t)?, from, to, depth, t)
        }
    }
}

#[inline(never)]
fn put_in_atom(
    alloc: Global,
    name: &Word,
    terms: &[Term],
    depth: usize,
    t: &Term,
) -> Result<Box<Formula>, NoMemory>
    ensures { IfOk result (λ f. formula_view f.value ≡ atom name.now (map (put_in_term depth t.now) terms.now)) }
{
    let terms = put_in_terms(alloc, terms, depth, t)?;
    atom_of(alloc, name, Sequence::from_vec(terms))
}

#[inline(never)]
fn put_in_comparison(
    alloc: Global,
    c: &Constraint,
    depth: usize,
    t: &Term,
) -> Result<Box<Formula>, NoMemory>
    ensures { IfOk result (λ f. formula_view f.value ≡ compare (put_in_constraint depth t.now c.now)) }
{
    constraint_of(alloc, &put_in_constraint(c, depth, t))
}

#[inline(never)]
fn put_in_state_formula(
    alloc: Global,
    s: &StatePred,
    depth: usize,
    t: &Term,
) -> Result<Box<Formula>, NoMemory>
    ensures { IfOk result (λ f. formula_view f.value ≡ state (put_in_state depth t.now s.now)) }
{
    state_of(alloc, &put_in_state(s, depth, t))
}

#[inline(never)]
fn put_in_says(
    alloc: Global,
    who: &Term,
    a: Box<Formula>,
    depth: usize,
    t: &Term,
) -> Result<Box<Formula>, NoMemory>
    ensures { IfOk result (λ f. formula_view f.value ≡ says (put_in_term depth t.now who.now) (formula_view a.value)) }
{
    says_of(alloc, &put_in_term(who, depth, t), a)
}

#[inline(never)]
fn put_in_on(
    alloc: Global,
    a: Box<Formula>,
    from: &Term,
    to: &Term,
    depth: usize,
    t: &Term,
) -> Result<Box<Formula>, NoMemory>
    ensures { IfOk result (λ f. formula_view f.value ≡ on (formula_view a.value) (put_in_term depth t.now from.now) (put_in_term depth t.now to.now)) }
{
    on_of(
        alloc,
        a,
        &put_in_term(from, depth, t),
        &put_in_term(to, depth, t),
    )
}

/// One binder further in. No memory holds a formula with so many binders that their number does not fit.
fn inner_depth(depth: usize) -> Result<usize, NoMemory>
    ensures { IfOk result (λ next. next ≡ suc depth) }
{
    depth.checked_add(1).ok_or(NoMemory)
}

fn put_in_term(place: &Term, depth: usize, t: &Term) -> Term
    ensures { result ≡ put_in_term depth t.now place.now }
{
    match place {
        Term::Bound(n) if *n as usize == depth => *t,
        _ => *place,
    }
}

fn put_in_terms(
    alloc: Global,
    places: &[Term],
    depth: usize,
    t: &Term,
) -> Result<Vec<Term>, AllocError>
    ensures { IfOk result (λ terms. terms.items ≡ map (put_in_term depth t.now) places.now) }
{
    places
        .iter()
        .map(|place| put_in_term(place, depth, t))
        .collect(alloc)
}

fn put_in_constraint(c: &Constraint, depth: usize, t: &Term) -> Constraint
    ensures { result ≡ put_in_constraint depth t.now c.now }
{
    Constraint {
        low: put_in_term(&c.low, depth, t),
        high: put_in_term(&c.high, depth, t),
    }
}

fn put_in_state(s: &StatePred, depth: usize, t: &Term) -> StatePred
    ensures { result ≡ put_in_state depth t.now s.now }
{
    match s {
        StatePred::Owner(file, owner) => {
            StatePred::Owner(put_in_term(file, depth, t), put_in_term(owner, depth, t))
        }
        StatePred::HasXattr(file, name, value) => StatePred::HasXattr(
            put_in_term(file, depth, t),
            put_in_term(name, depth, t),
            put_in_term(value, depth, t),
        ),
        StatePred::InDir(file, directory) => {
            StatePred::InDir(
                put_in_term(file, depth, t),
                put_in_term(directory, depth, t),
            )
        }
    }
}
