//! Formulas in memory of their own, made of their parts. A formula is large, so what goes through formulas level by
//! level holds boxes alone, and leaves it to these to make the formula that a box holds.

ghost use Rattle.std.specs.Prelude.{◌≡◌, IfOk};
ghost use Rattle.bl_syntax.specs.Formula.{formula_view, atom, compare, state, both, either, implies, truth, falsity, forall_, exists_, says, on};

use crate::formula::Formula;
use crate::lists::NoMemory;
use crate::names::Word;
use crate::terms::{Constraint, Sort, StatePred, Term, Terms};
use std::alloc::Global;

/// The atom of that predicate and these arguments.
#[inline(never)]
pub fn atom_of(alloc: Global, name: &Word, terms: Terms) -> Result<Box<Formula>, NoMemory>
    ensures { IfOk result (λ f. formula_view f.value ≡ atom name.now terms) }
{
    Ok(Box::new(alloc, Formula::Atom(*name, terms))?)
}

/// The constraint as a formula.
#[inline(never)]
pub fn constraint_of(alloc: Global, c: &Constraint) -> Result<Box<Formula>, NoMemory>
    ensures { IfOk result (λ f. formula_view f.value ≡ compare c.now) }
{
    Ok(Box::new(alloc, Formula::Cons(Box::new(alloc, *c)?))?)
}

/// The predicate on the server's state as a formula.
#[inline(never)]
pub fn state_of(alloc: Global, s: &StatePred) -> Result<Box<Formula>, NoMemory>
    ensures { IfOk result (λ f. formula_view f.value ≡ state s.now) }
{
    Ok(Box::new(alloc, Formula::State(Box::new(alloc, *s)?))?)
}

/// The conjunction of two formulas.
#[inline(never)]
pub fn both_of(alloc: Global, a: Box<Formula>, b: Box<Formula>) -> Result<Box<Formula>, NoMemory>
    ensures { IfOk result (λ f. formula_view f.value ≡ both (formula_view a.value) (formula_view b.value)) }
{
    Ok(Box::new(alloc, Formula::And(a, b))?)
}

/// The disjunction of two formulas.
#[inline(never)]
pub fn either_of(alloc: Global, a: Box<Formula>, b: Box<Formula>) -> Result<Box<Formula>, NoMemory>
    ensures { IfOk result (λ f. formula_view f.value ≡ either (formula_view a.value) (formula_view b.value)) }
{
    Ok(Box::new(alloc, Formula::Or(a, b))?)
}

/// The implication of the second formula by the first.
#[inline(never)]
pub fn implies_of(alloc: Global, a: Box<Formula>, b: Box<Formula>) -> Result<Box<Formula>, NoMemory>
    ensures { IfOk result (λ f. formula_view f.value ≡ implies (formula_view a.value) (formula_view b.value)) }
{
    Ok(Box::new(alloc, Formula::Imp(a, b))?)
}

/// The formula that is always true.
#[inline(never)]
pub fn truth_of(alloc: Global) -> Result<Box<Formula>, NoMemory>
    ensures { IfOk result (λ f. formula_view f.value ≡ truth) }
{
    Ok(Box::new(alloc, Formula::True)?)
}

/// The formula that is never true.
#[inline(never)]
pub fn falsity_of(alloc: Global) -> Result<Box<Formula>, NoMemory>
    ensures { IfOk result (λ f. formula_view f.value ≡ falsity) }
{
    Ok(Box::new(alloc, Formula::False)?)
}

/// The formula about all of a sort.
#[inline(never)]
pub fn every_of(alloc: Global, sort: Sort, a: Box<Formula>) -> Result<Box<Formula>, NoMemory>
    ensures { IfOk result (λ f. formula_view f.value ≡ forall_ sort (formula_view a.value)) }
{
    Ok(Box::new(alloc, Formula::Forall(sort, a))?)
}

/// The formula about one of a sort.
#[inline(never)]
pub fn some_of(alloc: Global, sort: Sort, a: Box<Formula>) -> Result<Box<Formula>, NoMemory>
    ensures { IfOk result (λ f. formula_view f.value ≡ exists_ sort (formula_view a.value)) }
{
    Ok(Box::new(alloc, Formula::Exists(sort, a))?)
}

/// What a principal says.
#[inline(never)]
pub fn says_of(alloc: Global, who: &Term, a: Box<Formula>) -> Result<Box<Formula>, NoMemory>
    ensures { IfOk result (λ f. formula_view f.value ≡ says who.now (formula_view a.value)) }
{
    Ok(Box::new(alloc, Formula::Says(Box::new(alloc, *who)?, a))?)
}

/// The formula on an interval.
#[inline(never)]
pub fn on_of(
    alloc: Global,
    a: Box<Formula>,
    from: &Term,
    to: &Term,
) -> Result<Box<Formula>, NoMemory>
    ensures { IfOk result (λ f. formula_view f.value ≡ on (formula_view a.value) from.now to.now) }
{
    let from = Box::new(alloc, *from)?;
    let to = Box::new(alloc, *to)?;
    Ok(Box::new(alloc, Formula::At(a, from, to))?)
}
