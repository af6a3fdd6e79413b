//! The forms that rules ask for: the parts of a formula that has the form, or a fault at the node.

ghost use Rattle.std.specs.Prelude.{◌≡◌, Ok, Err, MatchResult};
ghost use Rattle.bl_syntax.specs.Formula.{formula_view};
ghost use Rattle.proof_verifier.specs.Shapes.{as_atom, as_constraint, as_state, as_both, as_either, as_implies, as_true, as_false, as_forall, as_exists, as_says, as_on};

use crate::fault::CheckFault;
use bl_syntax::{Constraint, Formula, Sort, StatePred, Term, Word};

/// An atom: its name and its arguments.
pub fn as_atom<'a>(f: &'a Formula, node: usize) -> Result<(&'a Word, &'a [Term]), CheckFault>
    ensures { MatchResult result (λ parts. as_atom node (formula_view f.now) ≡ Ok (parts.0.now, parts.1.now))
        (λ fault. as_atom node (formula_view f.now) ≡ Err fault) }
{
    match f {
        Formula::Atom(name, terms) => Ok((name, terms.as_slice())),
        _ => Err(CheckFault::WrongShape(node)),
    }
}

/// A constraint.
pub fn as_constraint<'a>(f: &'a Formula, node: usize) -> Result<&'a Constraint, CheckFault>
    ensures { MatchResult result (λ c. as_constraint node (formula_view f.now) ≡ Ok c.now)
        (λ fault. as_constraint node (formula_view f.now) ≡ Err fault) }
{
    match f {
        Formula::Cons(c) => Ok(c),
        _ => Err(CheckFault::WrongShape(node)),
    }
}

/// A predicate on the server's state.
pub fn as_state<'a>(f: &'a Formula, node: usize) -> Result<&'a StatePred, CheckFault>
    ensures { MatchResult result (λ s. as_state node (formula_view f.now) ≡ Ok s.now)
        (λ fault. as_state node (formula_view f.now) ≡ Err fault) }
{
    match f {
        Formula::State(s) => Ok(s),
        _ => Err(CheckFault::WrongShape(node)),
    }
}

/// A & B: both parts.
pub fn as_both<'a>(f: &'a Formula, node: usize) -> Result<(&'a Formula, &'a Formula), CheckFault>
    ensures { MatchResult result (λ parts. as_both node (formula_view f.now) ≡ Ok (formula_view parts.0.now, formula_view parts.1.now))
        (λ fault. as_both node (formula_view f.now) ≡ Err fault) }
{
    match f {
        Formula::And(a, b) => Ok((&**a, &**b)),
        _ => Err(CheckFault::WrongShape(node)),
    }
}

/// A | B: both parts.
pub fn as_either<'a>(f: &'a Formula, node: usize) -> Result<(&'a Formula, &'a Formula), CheckFault>
    ensures { MatchResult result (λ parts. as_either node (formula_view f.now) ≡ Ok (formula_view parts.0.now, formula_view parts.1.now))
        (λ fault. as_either node (formula_view f.now) ≡ Err fault) }
{
    match f {
        Formula::Or(a, b) => Ok((&**a, &**b)),
        _ => Err(CheckFault::WrongShape(node)),
    }
}

/// A => B: both parts.
pub fn as_implies<'a>(f: &'a Formula, node: usize) -> Result<(&'a Formula, &'a Formula), CheckFault>
    ensures { MatchResult result (λ parts. as_implies node (formula_view f.now) ≡ Ok (formula_view parts.0.now, formula_view parts.1.now))
        (λ fault. as_implies node (formula_view f.now) ≡ Err fault) }
{
    match f {
        Formula::Imp(a, b) => Ok((&**a, &**b)),
        _ => Err(CheckFault::WrongShape(node)),
    }
}

/// True.
pub fn as_true(f: &Formula, node: usize) -> Result<(), CheckFault>
    ensures { MatchResult result (λ _. as_true node (formula_view f.now) ≡ Ok tt) (λ fault. as_true node (formula_view f.now) ≡ Err fault) }
{
    match f {
        Formula::True => Ok(()),
        _ => Err(CheckFault::WrongShape(node)),
    }
}

/// False.
pub fn as_false(f: &Formula, node: usize) -> Result<(), CheckFault>
    ensures { MatchResult result (λ _. as_false node (formula_view f.now) ≡ Ok tt) (λ fault. as_false node (formula_view f.now) ≡ Err fault) }
{
    match f {
        Formula::False => Ok(()),
        _ => Err(CheckFault::WrongShape(node)),
    }
}

/// Forall: the sort and the body.
pub fn as_forall<'a>(f: &'a Formula, node: usize) -> Result<(Sort, &'a Formula), CheckFault>
    ensures { MatchResult result (λ parts. as_forall node (formula_view f.now) ≡ Ok (parts.0, formula_view parts.1.now))
        (λ fault. as_forall node (formula_view f.now) ≡ Err fault) }
{
    match f {
        Formula::Forall(sort, a) => Ok((*sort, &**a)),
        _ => Err(CheckFault::WrongShape(node)),
    }
}

/// Exists: the sort and the body.
pub fn as_exists<'a>(f: &'a Formula, node: usize) -> Result<(Sort, &'a Formula), CheckFault>
    ensures { MatchResult result (λ parts. as_exists node (formula_view f.now) ≡ Ok (parts.0, formula_view parts.1.now))
        (λ fault. as_exists node (formula_view f.now) ≡ Err fault) }
{
    match f {
        Formula::Exists(sort, a) => Ok((*sort, &**a)),
        _ => Err(CheckFault::WrongShape(node)),
    }
}

/// K says A: the principal and the formula.
pub fn as_says<'a>(f: &'a Formula, node: usize) -> Result<(&'a Term, &'a Formula), CheckFault>
    ensures { MatchResult result (λ parts. as_says node (formula_view f.now) ≡ Ok (parts.0.now, formula_view parts.1.now))
        (λ fault. as_says node (formula_view f.now) ≡ Err fault) }
{
    match f {
        Formula::Says(who, a) => Ok((who, &**a)),
        _ => Err(CheckFault::WrongShape(node)),
    }
}

/// A @ [u,v]: the formula and the interval.
pub fn as_on<'a>(
    f: &'a Formula,
    node: usize,
) -> Result<(&'a Formula, &'a Term, &'a Term), CheckFault>
    ensures { MatchResult result (λ parts. as_on node (formula_view f.now) ≡ Ok (formula_view parts.0.now, parts.1.now, parts.2.now))
        (λ fault. as_on node (formula_view f.now) ≡ Err fault) }
{
    match f {
        Formula::At(a, from, to) => Ok((&**a, from, to)),
        _ => Err(CheckFault::WrongShape(node)),
    }
}
