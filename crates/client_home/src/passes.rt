//! Procaps that were won.

ghost use Rattle.std.specs.Prelude.{◌≡◌, ◌↔◌, ℤ, IfOk, IsTrue, MatchOption};
ghost use Rattle.condition_set.specs.Window.{IsWindow, MeetsConditions};
ghost use Rattle.client_home.specs.Passes.{IsEnded};

use crate::words::copied;
use bl_syntax::{Goal, NoMemory, Numbers, TimePoint, copy_numbers};
use condition_set::window;
use procap::Procap;
use std::alloc::Global;

/// A procap that was won: at which server, for what, by which statements, and how the user calls the file.
#[derive(Drop)]
pub struct Pass {
    pub server: String,
    pub goal: Goal,
    pub numbers: Numbers,
    pub path: String,
    pub word: String,
    pub procap: Procap,
}

impl Pass {
    /// The first and the last time at which its conditions on time hold; none if they never hold.
    pub fn window(&self) -> Option<(TimePoint, TimePoint)>
        ensures { MatchOption result
            ((second : ℤ) → MeetsConditions self.now.procap.grant.times second → ⊥)
            (λ w. IsWindow self.now.procap.grant.times w.0 w.1) }
    {
        window(&self.procap.grant)
    }

    /// Whether its conditions on time hold at this second.
    #[tactic(auto, using(crate::proofs::PassLemmas::holds_between, crate::proofs::PassLemmas::fails_before))]
    pub fn holds_at(&self, second: i64) -> bool
        ensures { IsTrue result ↔ MeetsConditions self.now.procap.grant.times second }
    {
        let (first, last) = match self.window() {
            Some(ends) => ends,
            None => return false,
        };
        if !first.is_up_to(TimePoint::At(second)) {
            return false;
        }
        TimePoint::At(second).is_up_to(last)
    }

    /// Whether its conditions on time hold at no second from this one on.
    pub fn is_ended(&self, second: i64) -> bool
        ensures { IsTrue result → IsEnded self.now.procap.grant.times second }
    {
        let (_, last) = match self.window() {
            Some(ends) => ends,
            None => return true,
        };
        !TimePoint::At(second).is_up_to(last)
    }

    /// Whether it is of this server, and for this.
    pub fn is_for(&self, server: &str, goal: &Goal) -> bool {
        self.server.as_str() == server && self.goal.is_same(goal)
    }

    /// An equal one in memory of its own.
    pub fn copy(&self, alloc: Global) -> Result<Pass, NoMemory>
        ensures { IfOk result (λ copied. copied.procap ≡ self.now.procap) }
    {
        Ok(Pass {
            server: copied(alloc, self.server.as_str())?,
            goal: self.goal,
            numbers: copy_numbers(alloc, self.numbers.as_slice())?,
            path: copied(alloc, self.path.as_str())?,
            word: copied(alloc, self.word.as_str())?,
            procap: self.procap.copy(alloc)?,
        })
    }
}
