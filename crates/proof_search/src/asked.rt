//! What is asked for.
#![tactic(auto, using(crate::proofs::AskedLemmas::met_between))]

ghost use Rattle.std.specs.Prelude.{List, IsTrue};
ghost use Rattle.proof_search.specs.Asked.{AreLeft, AreMet};

use bl_syntax::{Goal, Grant, StatePred, StatePreds, TimePoint};
use condition_set::{Facts, first_failing_state, window};

/// The moments at which the conditions on time have to hold.
#[derive(Clone, Copy, Debug, PartialEq, Eq)]
pub enum Moments {
    /// Some moment.
    Some,
    /// Each moment from the first second to the second one, both counted from 1970-01-01T00:00:00Z.
    Each(i64, i64),
}

/// What is asked for: the goal, when it has to hold, the facts of the state that are known, and whether others may be left
/// over as conditions.
#[derive(Debug, Drop)]
pub struct Asked {
    pub goal: Goal,
    pub moments: Moments,
    pub facts: StatePreds,
    pub leaves: bool,
}

/// The facts that are known.
#[derive(Clone, Copy)]
struct Known<'a> {
    listed: &'a [StatePred],
}

impl Facts for Known<'_> {
    ghost facts = { λ k. k.listed.now };

    fn holds(&self, s: &StatePred) -> bool {
        self.listed.iter().any(|fact| fact.is_same(s))
    }
}

/// Whether the conditions on time hold at all moments that are asked for.
pub fn are_met(grant: &Grant, moments: Moments) -> bool
    ensures { IsTrue result → AreMet moments grant.now.times }
{
    let (first, last) = match window(grant) {
        Some(ends) => ends,
        None => return false,
    };
    match moments {
        Moments::Some => true,
        Moments::Each(from, to) => {
            if !first.is_up_to(TimePoint::At(from)) {
                return false;
            }
            TimePoint::At(to).is_up_to(last)
        }
    }
}

/// Whether the conditions on the state are facts, or may be left over.
pub fn are_left(grant: &Grant, facts: &[StatePred], leaves: bool) -> bool
    ensures { IsTrue result → AreLeft facts.now leaves grant.now.states }
{
    if leaves {
        return true;
    }
    first_failing_state(grant, &Known { listed: facts }).is_none()
}
