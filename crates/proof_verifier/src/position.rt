//! Where a run stands.

use crate::facts::FactList;
use crate::fault::CheckFault;
use crate::hypotheses::{Hypotheses, HypothesisRef};
use crate::instance::Instance;
use bl_syntax::Term;

/// What a node is checked on, but for what grows and is cut back. All of it lies on the stack or in
/// the statements and the proof, and none is copied on the way to a premise.
#[derive(Clone, Copy)]
pub struct Position<'a> {
    /// The node's number.
    pub node: usize,
    pub hypotheses: &'a Hypotheses<'a>,
    /// How many numbers of hypotheses are used.
    pub count: usize,
    pub facts: &'a FactList<'a>,
    /// The view's principal and interval.
    pub who: &'a Term,
    pub begins: &'a Term,
    pub ends: &'a Term,
    /// The goal and its interval.
    pub goal: Instance<'a>,
    pub from: &'a Term,
    pub to: &'a Term,
}

impl<'a> Position<'a> {
    ghost use Rattle.std.specs.Prelude.{◌≡◌, Ok, Err, length, MatchResult};
    ghost use Rattle.proof_verifier.specs.Instances.{instance_view};
    ghost use Rattle.proof_verifier.specs.Hypotheses.{hypotheses_by_number};
    ghost use Rattle.proof_verifier.specs.Shapes.{truth_at, claim_at};

    /// The truth with that number: its formula and its interval.
    pub fn truth_at(&self, h: u16) -> Result<(Instance<'a>, &'a Term, &'a Term), CheckFault>
        requires { self.now.count ≡ length (hypotheses_by_number self.now.hypotheses.now) }
        ensures { MatchResult result (λ found.
            truth_at self.now.node (hypotheses_by_number self.now.hypotheses.now) h
            ≡ Ok (instance_view found.0, found.1.now, found.2.now))
            (λ fault. truth_at self.now.node (hypotheses_by_number self.now.hypotheses.now) h ≡ Err fault) }
    {
        match self.hypotheses.cited(self.count, h, self.node)? {
            HypothesisRef::Truth(a, from, to) => Ok((a, from, to)),
            HypothesisRef::Claim(..) => Err(CheckFault::WrongShape(self.node)),
        }
    }

    /// The claim with that number: who claims which formula, and its interval.
    pub fn claim_at(
        &self,
        h: u16,
    ) -> Result<(&'a Term, Instance<'a>, &'a Term, &'a Term), CheckFault>
        requires { self.now.count ≡ length (hypotheses_by_number self.now.hypotheses.now) }
        ensures { MatchResult result (λ found.
            claim_at self.now.node (hypotheses_by_number self.now.hypotheses.now) h
            ≡ Ok (found.0.now, instance_view found.1, found.2.now, found.3.now))
            (λ fault. claim_at self.now.node (hypotheses_by_number self.now.hypotheses.now) h ≡ Err fault) }
    {
        match self.hypotheses.cited(self.count, h, self.node)? {
            HypothesisRef::Truth(..) => Err(CheckFault::WrongShape(self.node)),
            HypothesisRef::Claim(who, a, from, to) => Ok((who, a, from, to)),
        }
    }
}
