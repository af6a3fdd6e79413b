//! Conditions as they come up: each is kept once, in the order of its first appearance.

ghost use Rattle.std.specs.Prelude.{◌≡◌, ◌↔◌, Contains, IsOk, IsTrue, IsErrOf, OnOk, OnErr};
ghost use Rattle.bl_syntax.specs.Grant.{GrantView, IsTimeCondition, IsStateCondition};
ghost use Rattle.condition_set.specs.Conditions.{without_conditions, IsFull, AddsTime, AddsState};
ghost use Rattle.condition_set.specs.declared.collect.CollectFault.TheVariants.{NoMemory as OutOfMemory};

use bl_syntax::limits::MOST_CONDITIONS;
use bl_syntax::{Constraint, Goal, Grant, NoMemory, StatePred};
use std::alloc::Global;
use thiserror::Error;

/// A condition that was not added.
#[derive(Clone, Copy, Debug, PartialEq, Eq, Error)]
pub enum CollectFault {
    /// The grant holds 64 conditions, and this one is new.
    #[error("the grant holds 64 conditions, and this one is new")]
    Full,
    /// A growth was refused, and nothing was changed.
    #[error("out of memory")]
    NoMemory,
}

impl From<NoMemory> for CollectFault {
    ghost from_gives = { λ _ fault. fault ≡ OutOfMemory };

    fn from(_refused: NoMemory) -> CollectFault {
        CollectFault::NoMemory
    }
}

/// Collects the conditions under which a goal is granted.
pub trait Collect {
    // the goal, and the conditions in the order in which they came up
    ghost granted: { Self → GrantView };

    /// The goal without conditions. It takes no memory.
    fn collect(alloc: Global, goal: Goal) -> Self
        ensures { granted result ≡ without_conditions goal };

    /// Adds a condition on time after the others. One that is there changes nothing and takes no memory.
    fn add_time(&mut self, c: Constraint) -> Result<(), CollectFault>
        requires { IsTimeCondition c }
        ensures ok { OnOk result (AddsTime (granted self.old) c (granted self.new)) }
        ensures known { Contains (granted self.old).times c → IsOk result }
        ensures full { IsErrOf result CollectFault.Full ↔ (IsFull (granted self.old) × (Contains (granted self.old).times c → ⊥)) }
        ensures err { OnErr result (granted self.new ≡ granted self.old) };

    /// Adds a condition on the server's state after the others. One that is there changes nothing and takes no memory.
    fn add_state(&mut self, s: StatePred) -> Result<(), CollectFault>
        requires { IsStateCondition s }
        ensures ok { OnOk result (AddsState (granted self.old) s (granted self.new)) }
        ensures known { Contains (granted self.old).states s → IsOk result }
        ensures full { IsErrOf result CollectFault.Full ↔ (IsFull (granted self.old) × (Contains (granted self.old).states s → ⊥)) }
        ensures err { OnErr result (granted self.new ≡ granted self.old) };
}

impl Collect for Grant {
    ghost granted = { λ g. g };

    fn collect(alloc: Global, goal: Goal) -> Self {
        Grant::new(alloc, goal)
    }

    fn add_time(&mut self, c: Constraint) -> Result<(), CollectFault> {
        if is_time_among(self.times(), &c) {
            return Ok(());
        }
        if is_full(self) {
            return Err(CollectFault::Full);
        }
        self.push_time(c)?;
        Ok(())
    }

    fn add_state(&mut self, s: StatePred) -> Result<(), CollectFault> {
        if is_state_among(self.states(), &s) {
            return Ok(());
        }
        if is_full(self) {
            return Err(CollectFault::Full);
        }
        self.push_state(s)?;
        Ok(())
    }
}

fn is_full(g: &Grant) -> bool
    ensures { IsTrue result ↔ IsFull g.now }
{
    g.times().len() + g.states().len() == MOST_CONDITIONS
}

fn is_time_among(held: &[Constraint], c: &Constraint) -> bool
    ensures { IsTrue result ↔ Contains held.now c.now }
{
    held.iter().any(|kept| kept.is_same(c))
}

fn is_state_among(held: &[StatePred], s: &StatePred) -> bool
    ensures { IsTrue result ↔ Contains held.now s.now }
{
    held.iter().any(|kept| kept.is_same(s))
}
