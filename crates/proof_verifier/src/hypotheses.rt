//! The hypotheses at a node. They lie on the stack, and none is copied on the way to a premise.

ghost use Rattle.std.specs.Prelude.{◌≡◌, ◌+◌, ℕ, length, Some, Ok, Err, MatchResult};
ghost use Rattle.std.specs.Option.{option_map};
ghost use Rattle.proof_verifier.specs.Shapes.{cited_hypothesis};
ghost use Rattle.proof_verifier.specs.Hypotheses.{hypothesis, hypotheses_by_number, left_at, struck_if};

use crate::fault::CheckFault;
use crate::instance::Instance;
use bl_syntax::Term;

/// A hypothesis: a formula that holds on an interval, or a principal's claim of one.
#[derive(Clone, Copy)]
pub enum HypothesisRef<'a> {
    /// The formula, and its interval.
    Truth(Instance<'a>, &'a Term, &'a Term),
    /// Who claims it, the formula, and its interval.
    Claim(&'a Term, Instance<'a>, &'a Term, &'a Term),
}

/// The hypotheses at a node, the newest last.
#[derive(Clone, Copy)]
pub enum Hypotheses<'a> {
    None,
    /// One more.
    More(&'a Hypotheses<'a>, HypothesisRef<'a>),
    /// The same, without the truths among them.
    Struck(&'a Hypotheses<'a>),
}

impl<'a> Hypotheses<'a> {
    /// The hypothesis with that number, of so many, unless it was struck out; else the fault of the node.
    pub fn cited(&self, count: usize, h: u16, node: usize) -> Result<HypothesisRef<'a>, CheckFault>
        requires { count ≡ length (hypotheses_by_number self.now) }
        ensures { MatchResult result (λ held. cited_hypothesis node (hypotheses_by_number self.now) h ≡ Ok (hypothesis held))
            (λ fault. cited_hypothesis node (hypotheses_by_number self.now) h ≡ Err fault) }
    {
        let number = h as usize;
        if number >= count {
            return Err(CheckFault::NoHypothesis(node));
        }
        match self.newer_hypothesis(count - number - 1, false) {
            Some(held) => Ok(held),
            None => Err(CheckFault::NoHypothesis(node)),
        }
    }

    /// The hypothesis with that many newer ones; none if it was struck out, or there are too few.
    fn newer_hypothesis(&self, newer: usize, struck: bool) -> Option<HypothesisRef<'a>>
        ensures { (h : ℕ) → h + newer + 1 ≡ length (hypotheses_by_number self.now)
            → option_map hypothesis result ≡ struck_if struck (left_at (hypotheses_by_number self.now) h) }
    {
        match self {
            Hypotheses::None => None,
            Hypotheses::More(older, held) => {
                if newer > 0 {
                    older.newer_hypothesis(newer - 1, struck)
                } else {
                    left_of(*held, struck)
                }
            }
            Hypotheses::Struck(older) => older.newer_hypothesis(newer, true),
        }
    }
}

/// What is left of a hypothesis, if truths may be struck out.
fn left_of(held: HypothesisRef<'_>, struck: bool) -> Option<HypothesisRef<'_>>
    ensures { option_map hypothesis result ≡ struck_if struck (Some (hypothesis held.entry)) }
{
    match held {
        HypothesisRef::Truth(..) if struck => None,
        _ => Some(held),
    }
}
