//! Formulas of the logic.

use crate::boxes::{constraint_of, on_of, says_of, state_of};
use crate::lists::NoMemory;
use crate::names::Word;
use crate::terms::{Constraint, Sort, StatePred, Term, Terms, are_same};
use std::alloc::Global;
use std::mem;

/// A formula, which takes little room itself: its constraints, its predicates on the server's state and its terms are
/// in boxes, since each of these has room for the longest text. A variable is the number of binders between it and its own, so the innermost binder's is 0.
#[derive(Debug)]
pub enum Formula {
    /// A predicate and its arguments.
    Atom(Word, Terms),
    /// One time is not after another.
    Cons(Box<Constraint>),
    /// A predicate on the server's state.
    State(Box<StatePred>),
    And(Box<Formula>, Box<Formula>),
    Or(Box<Formula>, Box<Formula>),
    Imp(Box<Formula>, Box<Formula>),
    True,
    False,
    Forall(Sort, Box<Formula>),
    Exists(Sort, Box<Formula>),
    /// A principal says a formula.
    Says(Box<Term>, Box<Formula>),
    /// A formula on an interval, from the first time to the second.
    At(Box<Formula>, Box<Term>, Box<Term>),
}

// A loop, so that the deepest formula takes no more of the stack than any other. What still waits for it hangs in a
// box that was emptied, so it takes no memory either.
impl Drop for Formula {
    #[inline(never)]
    fn drop(mut self) {
        let mut waiting: Option<Box<Formula>> = None;
        'parts: loop {
            match self {
                Formula::And(mut a, b) | Formula::Or(mut a, b) | Formula::Imp(mut a, b) => {
                    match waiting {
                        None => {
                            self = Box::into_inner(a);
                            waiting = Some(b);
                        }
                        Some(others) => {
                            self = mem::replace(&mut *a, Formula::And(b, others));
                            waiting = Some(a);
                        }
                    }
                }
                Formula::Forall(_, a) | Formula::Exists(_, a) => self = Box::into_inner(a),
                Formula::Says(_who, a) => self = Box::into_inner(a),
                Formula::At(a, _from, _to) => self = Box::into_inner(a),
                Formula::Atom(_, _)
                | Formula::Cons(_)
                | Formula::State(_)
                | Formula::True
                | Formula::False => match waiting {
                    None => return,
                    Some(part) => {
                        self = Box::into_inner(part);
                        waiting = None;
                    }
                },
            }
        }
    }
}

impl Formula {
    ghost use Rattle.std.specs.Prelude.{◌≡◌, ◌↔◌, IfOk, IsTrue};
    ghost use Rattle.bl_syntax.specs.Formula.{formula_view};
    ghost use Rattle.bl_syntax.specs.Copying.{join_again, wrap_again, leaf_again};

    /// An equal formula in memory of its own.
    pub fn copy(&self, alloc: Global) -> Result<Formula, NoMemory>
        ensures { IfOk result (λ copied. formula_view copied ≡ formula_view self.now) }
    {
        Ok(Box::into_inner(self.boxed_copy(alloc)?))
    }

    /// The same in a box. It calls itself as deep as the formula is, and holds no formula on the stack.
    pub fn boxed_copy(&self, alloc: Global) -> Result<Box<Formula>, NoMemory>
        ensures { IfOk result (λ copied. formula_view copied.value ≡ formula_view self.now) }
    {
        match self {
            Formula::And(a, b) | Formula::Or(a, b) | Formula::Imp(a, b) => {
                let first = a.boxed_copy(alloc)?;
                let second = b.boxed_copy(alloc)?;
                self.join_again(alloc, first, second)
            }
            Formula::Forall(_, a)
            | Formula::Exists(_, a)
            | Formula::Says(_, a)
            | Formula::At(a, _, _) => {
                let inner = a.boxed_copy(alloc)?;
                self.wrap_again(alloc, inner)
            }
            _ => self.copy_leaf(alloc),
        }
    }

    /// Two formulas under the connective of this one.
    #[inline(never)]
    fn join_again(
        &self,
        alloc: Global,
        a: Box<Formula>,
        b: Box<Formula>,
    ) -> Result<Box<Formula>, NoMemory>
        ensures { IfOk result (λ f. formula_view f.value ≡ join_again (formula_view self.now) (formula_view a.value) (formula_view b.value)) }
    {
        let f = match self {
            Formula::And(_, _) => Formula::And(a, b),
            Formula::Or(_, _) => Formula::Or(a, b),
            _ => Formula::Imp(a, b),
        };
        Ok(Box::new(alloc, f)?)
    }

    /// A formula under the binder of this one, said by who says this one, or on its interval.
    #[inline(never)]
    fn wrap_again(&self, alloc: Global, a: Box<Formula>) -> Result<Box<Formula>, NoMemory>
        ensures { IfOk result (λ f. formula_view f.value ≡ wrap_again (formula_view self.now) (formula_view a.value)) }
    {
        let f = match self {
            Formula::Forall(sort, _) => Formula::Forall(*sort, a),
            Formula::Exists(sort, _) => Formula::Exists(*sort, a),
            Formula::Says(who, _) => return says_of(alloc, who, a),
            Formula::At(_, from, to) => return on_of(alloc, a, from, to),
            _ => return Ok(a),
        };
        Ok(Box::new(alloc, f)?)
    }

    /// A copy of a formula with no formulas in it.
    #[inline(never)]
    fn copy_leaf(&self, alloc: Global) -> Result<Box<Formula>, NoMemory>
        ensures { IfOk result (λ f. formula_view f.value ≡ leaf_again (formula_view self.now)) }
    {
        let f = match self {
            Formula::Atom(name, terms) => Formula::Atom(*name, terms.copy(alloc)?),
            Formula::Cons(c) => return constraint_of(alloc, c),
            Formula::State(s) => return state_of(alloc, s),
            Formula::True => Formula::True,
            _ => Formula::False,
        };
        Ok(Box::new(alloc, f)?)
    }

    /// Whether it is the same formula.
    pub fn is_same(&self, other: &Formula) -> bool
        ensures { IsTrue result ↔ (formula_view self.now ≡ formula_view other.now) }
    {
        match (self, other) {
            (Formula::Atom(name, terms), Formula::Atom(other_name, other_terms)) => {
                name.is_same(other_name) && are_same(terms.as_slice(), other_terms.as_slice())
            }
            (Formula::Cons(c), Formula::Cons(d)) => c.is_same(d),
            (Formula::State(s), Formula::State(t)) => s.is_same(t),
            (Formula::And(a, b), Formula::And(c, d))
            | (Formula::Or(a, b), Formula::Or(c, d))
            | (Formula::Imp(a, b), Formula::Imp(c, d)) => a.is_same(c) && b.is_same(d),
            (Formula::True, Formula::True) => true,
            (Formula::False, Formula::False) => true,
            (Formula::Forall(sort, a), Formula::Forall(other_sort, b)) => {
                sort == other_sort && a.is_same(b)
            }
            (Formula::Exists(sort, a), Formula::Exists(other_sort, b)) => {
                sort == other_sort && a.is_same(b)
            }
            (Formula::Says(who, a), Formula::Says(other_who, b)) => {
                who.is_same(other_who) && a.is_same(b)
            }
            (Formula::At(a, from, to), Formula::At(b, other_from, other_to)) => {
                a.is_same(b) && from.is_same(other_from) && to.is_same(other_to)
            }
            _ => false,
        }
    }
}
