//! Constraints that grow and are cut back, and what they entail.

ghost use Rattle.std.specs.Prelude.{◌≡◌, ◌<◌, ◌↔◌, [], ◌∷◌, ◌++◌, OnOk, OnErr, IsTrue, length, take};
ghost use Rattle.bl_syntax.specs.Entailment.{Entails};

use crate::reaching::has_chain;
use crate::tracked::{Tracked, contradict, track};
use bl_syntax::{Constraint, NoMemory, Term};
use std::alloc::Global;
use std::marker::Model;

/// Constraints in the order in which they were pushed, at most 512. Contracts see their list.
#[derive(Debug, Drop)]
pub struct ConstraintStack {
    tracked: Vec<Tracked>,
}

impl Model for ConstraintStack {
    ghost use Rattle.std.specs.Prelude.{List};
    ghost use Rattle.bl_syntax.specs.declared.terms.Constraint.{Constraint};
    ghost use Rattle.bl_constraints.specs.Reached.{AreTracked, constraints_of};

    ghost Value = { List Constraint };

    ghost view = { λ s. constraints_of s.tracked.items };

    ghost invariant = { λ s. AreTracked s.tracked.items };
}

impl ConstraintStack {
    /// No constraints. It takes no memory.
    pub fn new(alloc: Global) -> ConstraintStack
        ensures { result ≡ [] }
    {
        ConstraintStack {
            tracked: Vec::new(alloc),
        }
    }

    /// How many constraints there are.
    pub fn len(&self) -> usize
        ensures { result ≡ length self.now }
    {
        self.tracked.len()
    }

    /// Adds a constraint after the others.
    #[inline(never)]
    pub fn push(&mut self, c: &Constraint) -> Result<(), NoMemory>
        requires { length self.old < 512 }
        ensures ok { OnOk result (self.new ≡ self.old ++ c.now ∷ []) }
        ensures err { OnErr result (self.new ≡ self.old) }
    {
        let tracked = track(self.tracked.as_slice(), c);
        self.tracked.push(tracked)?;
        Ok(())
    }

    /// Keeps the first `len` constraints.
    pub fn truncate(&mut self, len: usize)
        ensures { self.new ≡ take len self.old }
    {
        self.tracked.truncate(len);
    }

    /// Whether the constraints entail that `u` is not after `v`. It takes no memory.
    #[inline(never)]
    pub fn entails(&self, u: &Term, v: &Term) -> bool
        ensures { IsTrue result ↔ Entails self.now u.now v.now }
    {
        has_chain(self.tracked.as_slice(), u, v) || contradict(self.tracked.as_slice())
    }
}
