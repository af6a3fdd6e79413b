//! Formulas as they stand at a node: a part of a statement or of the goal, and the terms that were put in for the
//! variables of the binders around it. So an instance of a formula is no copy of it, and takes no memory.

ghost use Rattle.std.specs.Prelude.{◌≡◌};
ghost use Rattle.bl_syntax.specs.declared.terms.Term.{Term};
ghost use Rattle.bl_syntax.specs.Substitution.{put_in_term};
ghost use Rattle.proof_verifier.specs.Instances.{term_with};

use bl_syntax::{Formula, Term};

/// The terms for the variables of binders, the innermost binder's last. They lie on the stack or in the proof.
#[derive(Clone, Copy)]
pub enum TermList<'a> {
    None,
    /// One more.
    More(&'a TermList<'a>, &'a Term),
}

impl<'a> TermList<'a> {
    /// The term with these for its variable.
    #[tactic(auto, using(crate::proofs::InstanceLemmas::term_with_other))]
    pub fn term(&self, t: &'a Term) -> &'a Term
        ensures { result.now ≡ term_with 0 self.now t.now }
    {
        match t {
            Term::Bound(n) => self.variable(t, *n, 0),
            _ => t,
        }
    }

    /// The same of the variable with that number, below so many binders. The terms of binders further out than its own
    /// are not looked at.
    fn variable(&self, t: &'a Term, n: u32, depth: u32) -> &'a Term
        requires { t.now ≡ Term.Bound n }
        ensures { result.now ≡ term_with depth self.now t.now }
    {
        match self {
            TermList::None => t,
            TermList::More(outer, last) => {
                if n > depth {
                    put_in_term(outer.variable(t, n, depth + 1), depth, last)
                } else {
                    put_in_term(t, depth, last)
                }
            }
        }
    }
}

/// The term, or the other one in the place of the variable of the binder that stands so many binders further out.
fn put_in_term<'a>(place: &'a Term, depth: u32, t: &'a Term) -> &'a Term
    ensures { result.now ≡ put_in_term depth t.now place.now }
{
    match place {
        Term::Bound(n) if *n == depth => t,
        _ => place,
    }
}

/// A formula with terms for the variables of the binders around it.
#[derive(Clone, Copy)]
pub struct Instance<'a> {
    pub formula: &'a Formula,
    pub terms: &'a TermList<'a>,
}
