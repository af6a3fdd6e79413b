//! The forms that rules ask of an instance: its parts, with the same terms, or a fault at the node.

ghost use Rattle.std.specs.Prelude.{◌≡◌, Ok, Err, map, MatchResult};
ghost use Rattle.proof_verifier.specs.Instances.{term_with, instance_view, body_view};
ghost use Rattle.proof_verifier.specs.Known.{fact_view};
ghost use Rattle.proof_verifier.specs.Shapes.{as_atom, as_same_atom, as_constraint, as_state, as_both, as_either, as_implies, as_true, as_false, as_forall, as_exists, as_says, as_on};
ghost use Rattle.proof_verifier.specs.Tests.{are_same};

use crate::facts::FactRef;
use crate::fault::CheckFault;
use crate::instance::{Instance, TermList};
use crate::shapes;
use bl_syntax::{Formula, Sort, Term, Word};

impl<'a> Instance<'a> {
    /// An atom: its name, and its arguments as they stand in the formula.
    #[tactic(auto, using(crate::proofs::InstanceLemmas::as_atom_ok, crate::proofs::InstanceLemmas::as_atom_err))]
    fn as_atom(&self, node: usize) -> Result<(&'a Word, &'a [Term]), CheckFault>
        ensures { MatchResult result (λ parts. as_atom node (instance_view self.now) ≡ Ok (parts.0.now, map (term_with 0 self.now.terms.now) parts.1.now))
            (λ fault. as_atom node (instance_view self.now) ≡ Err fault) }
    {
        shapes::as_atom(self.formula, node)
    }

    // The part of the formula with the same terms.
    fn part(&self, formula: &'a Formula) -> Instance<'a>
        ensures formula { result.formula ≡ formula.entry }
        ensures terms { result.terms ≡ self.now.terms }
    {
        Instance {
            formula,
            terms: self.terms,
        }
    }

    /// A constraint: both its terms.
    #[tactic(auto, using(crate::proofs::InstanceLemmas::as_constraint_ok, crate::proofs::InstanceLemmas::as_constraint_err))]
    pub fn as_constraint(&self, node: usize) -> Result<(&'a Term, &'a Term), CheckFault>
        ensures { MatchResult result (λ parts. as_constraint node (instance_view self.now) ≡ Ok (record { low = parts.0.now; high = parts.1.now }))
            (λ fault. as_constraint node (instance_view self.now) ≡ Err fault) }
    {
        let c = shapes::as_constraint(self.formula, node)?;
        Ok((self.terms.term(&c.low), self.terms.term(&c.high)))
    }

    /// A predicate on the server's state.
    #[tactic(auto, using(crate::proofs::InstanceLemmas::as_state_ok, crate::proofs::InstanceLemmas::as_state_err))]
    pub fn as_state(&self, node: usize) -> Result<FactRef<'a>, CheckFault>
        ensures { MatchResult result (λ parts. as_state node (instance_view self.now) ≡ Ok (fact_view parts))
            (λ fault. as_state node (instance_view self.now) ≡ Err fault) }
    {
        let predicate = shapes::as_state(self.formula, node)?;
        Ok(FactRef {
            predicate,
            terms: self.terms,
        })
    }

    /// A & B: both parts.
    #[tactic(auto, using(crate::proofs::InstanceLemmas::as_both_ok, crate::proofs::InstanceLemmas::as_both_err))]
    pub fn as_both(&self, node: usize) -> Result<(Instance<'a>, Instance<'a>), CheckFault>
        ensures { MatchResult result (λ parts. as_both node (instance_view self.now) ≡ Ok (instance_view parts.0, instance_view parts.1))
            (λ fault. as_both node (instance_view self.now) ≡ Err fault) }
    {
        let (a, b) = shapes::as_both(self.formula, node)?;
        Ok((self.part(a), self.part(b)))
    }

    /// A | B: both parts.
    #[tactic(auto, using(crate::proofs::InstanceLemmas::as_either_ok, crate::proofs::InstanceLemmas::as_either_err))]
    pub fn as_either(&self, node: usize) -> Result<(Instance<'a>, Instance<'a>), CheckFault>
        ensures { MatchResult result (λ parts. as_either node (instance_view self.now) ≡ Ok (instance_view parts.0, instance_view parts.1))
            (λ fault. as_either node (instance_view self.now) ≡ Err fault) }
    {
        let (a, b) = shapes::as_either(self.formula, node)?;
        Ok((self.part(a), self.part(b)))
    }

    /// A => B: both parts.
    #[tactic(auto, using(crate::proofs::InstanceLemmas::as_implies_ok, crate::proofs::InstanceLemmas::as_implies_err))]
    pub fn as_implies(&self, node: usize) -> Result<(Instance<'a>, Instance<'a>), CheckFault>
        ensures { MatchResult result (λ parts. as_implies node (instance_view self.now) ≡ Ok (instance_view parts.0, instance_view parts.1))
            (λ fault. as_implies node (instance_view self.now) ≡ Err fault) }
    {
        let (a, b) = shapes::as_implies(self.formula, node)?;
        Ok((self.part(a), self.part(b)))
    }

    /// True.
    #[tactic(auto, using(crate::proofs::InstanceLemmas::as_true_ok, crate::proofs::InstanceLemmas::as_true_err))]
    pub fn as_true(&self, node: usize) -> Result<(), CheckFault>
        ensures { MatchResult result (λ _. as_true node (instance_view self.now) ≡ Ok tt) (λ fault. as_true node (instance_view self.now) ≡ Err fault) }
    {
        shapes::as_true(self.formula, node)
    }

    /// False.
    #[tactic(auto, using(crate::proofs::InstanceLemmas::as_false_ok, crate::proofs::InstanceLemmas::as_false_err))]
    pub fn as_false(&self, node: usize) -> Result<(), CheckFault>
        ensures { MatchResult result (λ _. as_false node (instance_view self.now) ≡ Ok tt) (λ fault. as_false node (instance_view self.now) ≡ Err fault) }
    {
        shapes::as_false(self.formula, node)
    }

    /// Forall: the sort and the body.
    #[tactic(auto, using(crate::proofs::InstanceLemmas::as_forall_ok, crate::proofs::InstanceLemmas::as_forall_err))]
    pub fn as_forall(&self, node: usize) -> Result<(Sort, Instance<'a>), CheckFault>
        ensures { MatchResult result (λ parts. as_forall node (instance_view self.now) ≡ Ok (parts.0, body_view parts.1))
            (λ fault. as_forall node (instance_view self.now) ≡ Err fault) }
    {
        let (sort, a) = shapes::as_forall(self.formula, node)?;
        Ok((sort, self.part(a)))
    }

    /// Exists: the sort and the body.
    #[tactic(auto, using(crate::proofs::InstanceLemmas::as_exists_ok, crate::proofs::InstanceLemmas::as_exists_err))]
    pub fn as_exists(&self, node: usize) -> Result<(Sort, Instance<'a>), CheckFault>
        ensures { MatchResult result (λ parts. as_exists node (instance_view self.now) ≡ Ok (parts.0, body_view parts.1))
            (λ fault. as_exists node (instance_view self.now) ≡ Err fault) }
    {
        let (sort, a) = shapes::as_exists(self.formula, node)?;
        Ok((sort, self.part(a)))
    }

    /// K says A: the principal and the formula.
    #[tactic(auto, using(crate::proofs::InstanceLemmas::as_says_ok, crate::proofs::InstanceLemmas::as_says_err))]
    pub fn as_says(&self, node: usize) -> Result<(&'a Term, Instance<'a>), CheckFault>
        ensures { MatchResult result (λ parts. as_says node (instance_view self.now) ≡ Ok (parts.0.now, instance_view parts.1))
            (λ fault. as_says node (instance_view self.now) ≡ Err fault) }
    {
        let (who, a) = shapes::as_says(self.formula, node)?;
        Ok((self.terms.term(who), self.part(a)))
    }

    /// A @ [u,v]: the formula and the interval.
    #[tactic(auto, using(crate::proofs::InstanceLemmas::as_on_ok, crate::proofs::InstanceLemmas::as_on_err))]
    pub fn as_on(&self, node: usize) -> Result<(Instance<'a>, &'a Term, &'a Term), CheckFault>
        ensures { MatchResult result (λ parts. as_on node (instance_view self.now) ≡ Ok (instance_view parts.0, parts.1.now, parts.2.now))
            (λ fault. as_on node (instance_view self.now) ≡ Err fault) }
    {
        let (a, from, to) = shapes::as_on(self.formula, node)?;
        Ok((self.part(a), self.terms.term(from), self.terms.term(to)))
    }
}

/// The two instances are one atom.
pub fn test_same(a: &Instance<'_>, b: &Instance<'_>, node: usize) -> Result<(), CheckFault>
    ensures { MatchResult result (λ _. as_same_atom node (instance_view a.now) (instance_view b.now) ≡ Ok tt)
        (λ fault. as_same_atom node (instance_view a.now) (instance_view b.now) ≡ Err fault) }
{
    let (name, terms) = a.as_atom(node)?;
    let (other, others) = b.as_atom(node)?;
    if !name.is_same(other) {
        return Err(CheckFault::WrongShape(node));
    }
    if are_same(terms, a.terms, others, b.terms) {
        Ok(())
    } else {
        Err(CheckFault::WrongShape(node))
    }
}

/// Whether the terms are the same in the same order, with these terms and those for their variables.
fn are_same<'a, 'b>(
    terms: &'a [Term],
    own: &TermList<'a>,
    others: &'b [Term],
    their: &TermList<'b>,
) -> bool
    ensures { result ≡ are_same (map (term_with 0 own.now) terms.now) (map (term_with 0 their.now) others.now) }
{
    match terms {
        [] => others.is_empty(),
        [t, rest @ ..] => match others {
            [] => false,
            [other, other_rest @ ..] => {
                own.term(t) == their.term(other) && are_same(rest, own, other_rest, their)
            }
        },
    }
}
