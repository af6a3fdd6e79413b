//! Goals, and grants with the conditions that a proof left open.

use crate::limits::MOST_CONDITIONS;
use crate::lists::{NoMemory, Numbers, Sequence};
use crate::names::Principal;
use crate::terms::{Constraint, Constraints, NodeId, Perm, StatePred, StatePreds};
use std::alloc::Global;
use std::marker::Model;

/// Who wants which permission on which file.
#[derive(Clone, Copy, Debug, PartialEq, Eq)]
pub struct Goal {
    pub who: Principal,
    pub file: NodeId,
    pub perm: Perm,
}

impl Goal {
    ghost use Rattle.std.specs.Prelude.{◌≡◌, ◌↔◌, IsTrue};

    /// Whether the same principal wants the same permission on the same file.
    pub fn is_same(&self, other: &Goal) -> bool
        ensures { IsTrue result ↔ (self.now ≡ other.now) }
    {
        self == other
    }
}

/// What a verified proof grants: its goal, under conditions on time and on the server's state. It may name the statements
/// that it rests on.
#[derive(Debug, Drop)]
pub struct Grant {
    goal: Goal,
    times: Constraints,
    states: StatePreds,
    cited: Numbers,
}

impl Model for Grant {
    ghost use Rattle.bl_syntax.specs.Grant.{GrantView, IsGrant};

    ghost Value = { GrantView };

    ghost view = { λ g. record { goal = g.goal; times = g.times; states = g.states; cited = g.cited } };

    ghost invariant = { λ g. IsGrant (record { goal = g.goal; times = g.times; states = g.states; cited = g.cited }) };
}

impl Grant {
    ghost use Rattle.std.specs.Prelude.{◌≡◌, ◌↔◌, ◌+◌, ◌<◌, [], ◌∷◌, ◌++◌, length, Contains, IsTrue, OnOk, OnErr, IfOk};
    ghost use Rattle.bl_syntax.specs.Equality.{grant_eq};
    ghost use Rattle.bl_syntax.specs.Grant.{IsGrant, IsTimeCondition, IsStateCondition, MayName};

    /// The goal without conditions, which names no statements. It takes no memory.
    pub fn new(alloc: Global, goal: Goal) -> Grant
        ensures { result ≡ record { goal = goal; times = []; states = []; cited = [] } }
    {
        Grant {
            goal,
            times: Sequence::new(alloc),
            states: Sequence::new(alloc),
            cited: Sequence::new(alloc),
        }
    }

    /// What is granted.
    pub fn goal(&self) -> Goal
        ensures { result ≡ self.now.goal }
    {
        self.goal
    }

    /// The conditions on time, in the order in which they came up.
    pub fn times(&self) -> &[Constraint]
        ensures same { result.now ≡ self.now.times }
        ensures kept { IsGrant self.now }
    {
        self.times.as_slice()
    }

    /// The conditions on the server's state, in the order in which they came up.
    pub fn states(&self) -> &[StatePred]
        ensures same { result.now ≡ self.now.states }
        ensures kept { IsGrant self.now }
    {
        self.states.as_slice()
    }

    /// The numbers of the statements that it names, none or 1 to 64, strictly rising.
    pub fn cited(&self) -> &[u32]
        ensures same { result.now ≡ self.now.cited }
        ensures kept { IsGrant self.now }
    {
        self.cited.as_slice()
    }

    /// The grant that names these statements, or none, the same in all else. It takes no memory.
    pub fn naming(self, numbers: Numbers) -> Grant
        requires { MayName numbers }
        ensures { result ≡ record self { cited = numbers } }
    {
        Grant {
            goal: self.goal,
            times: self.times,
            states: self.states,
            cited: numbers,
        }
    }

    /// Takes room for so many more conditions on time at once, and no more than that. The grant stays as it is.
    pub fn reserve_times(&mut self, more: usize) -> Result<(), NoMemory>
        ensures { self.new ≡ self.old }
    {
        self.times.reserve(more)
    }

    /// Takes room for so many more conditions on the server's state at once, and no more than that. The grant stays as it is.
    pub fn reserve_states(&mut self, more: usize) -> Result<(), NoMemory>
        ensures { self.new ≡ self.old }
    {
        self.states.reserve(more)
    }

    /// Adds a new condition on time after the others.
    pub fn push_time(&mut self, c: Constraint) -> Result<(), NoMemory>
        requires condition { IsTimeCondition c }
        requires new { Contains self.old.times c → ⊥ }
        requires room { length self.old.times + length self.old.states < MOST_CONDITIONS }
        ensures ok { OnOk result (self.new ≡ record self.old { times = self.old.times ++ c ∷ [] }) }
        ensures err { OnErr result (self.new ≡ self.old) }
    {
        // `push(c)` would move the constraint into a generic call, which the kit refuses for this type.
        self.times.extend(&[c])
    }

    /// Adds a new condition on the server's state after the others.
    pub fn push_state(&mut self, s: StatePred) -> Result<(), NoMemory>
        requires condition { IsStateCondition s }
        requires new { Contains self.old.states s → ⊥ }
        requires room { length self.old.times + length self.old.states < MOST_CONDITIONS }
        ensures ok { OnOk result (self.new ≡ record self.old { states = self.old.states ++ s ∷ [] }) }
        ensures err { OnErr result (self.new ≡ self.old) }
    {
        self.states.extend(&[s])
    }

    /// Whether it grants the same under the same conditions, which came up in the same order, and names the same statements.
    pub fn is_same(&self, other: &Grant) -> bool
        ensures computed { result ≡ grant_eq self.now other.now }
        ensures decides { IsTrue result ↔ (self.now ≡ other.now) }
    {
        self.has_same_parts(other)
    }

    /// Whether it is the other with these statements named: it grants the same under the same conditions, which came up in the
    /// same order.
    pub fn is_naming(&self, other: &Grant, numbers: &[u32]) -> bool
        ensures { IsTrue result ↔ (self.now ≡ record other.now { cited = numbers.now }) }
    {
        self.has_parts_naming(other, numbers)
    }

    // Whether the goals are the same, the conditions in their order, and these numbers.
    fn has_parts_naming(&self, other: &Grant, numbers: &[u32]) -> bool
        ensures { result ≡ grant_eq self.now (record other.now { cited = numbers.now }) }
    {
        self.goal == other.goal
            && self.times.as_slice() == other.times.as_slice()
            && self.states.as_slice() == other.states.as_slice()
            && self.cited.as_slice() == numbers
    }

    // Whether the goals are the same, the conditions in their order, and the numbers.
    fn has_same_parts(&self, other: &Grant) -> bool
        ensures { result ≡ grant_eq self.now other.now }
    {
        self.goal == other.goal
            && self.times.as_slice() == other.times.as_slice()
            && self.states.as_slice() == other.states.as_slice()
            && self.cited.as_slice() == other.cited.as_slice()
    }

    /// An equal grant in memory of its own.
    pub fn copy(&self, alloc: Global) -> Result<Grant, NoMemory>
        ensures { IfOk result (λ copied. copied ≡ self.now) }
    {
        Ok(Grant {
            goal: self.goal,
            times: self.times.copy(alloc)?,
            states: self.states.copy(alloc)?,
            cited: self.cited.copy(alloc)?,
        })
    }
}
