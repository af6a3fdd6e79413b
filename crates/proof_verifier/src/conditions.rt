//! What becomes of a rule's conditions.

ghost use Rattle.std.specs.Prelude.{◌≡◌};
ghost use Rattle.bl_syntax.specs.Grant.{IsTimeCondition, IsStateCondition};
ghost use Rattle.proof_verifier.specs.Conditions.{keep_time, keep_state, time_condition, state_condition};
ghost use Rattle.proof_verifier.specs.Entailed.{is_entailed};
ghost use Rattle.proof_verifier.specs.Known.{fact_list};
ghost use Rattle.proof_verifier.specs.LeftOver.{by_grant};
ghost use Rattle.proof_verifier.specs.Run.{GivesMet};

use crate::checker::Checker;
use crate::facts::FactList;
use crate::fault::CheckFault;
use bl_constraints::ConstraintStack;
use bl_syntax::{Constraint, StatePred, Term, is_state_condition, is_time_condition};
use condition_set::{Collect, CollectFault};

impl Checker {
    /// That the first time is not after the second: passed over, kept, or a fault of the node.
    pub fn time_condition(&mut self, low: &Term, high: &Term, node: usize) -> Result<(), CheckFault>
        ensures { GivesMet self.old self.new result (time_condition by_grant node self.old.constraints low.now high.now self.old.grant) }
    {
        if is_entailed(&self.constraints, low, high) {
            return Ok(());
        }
        let c = Constraint {
            low: *low,
            high: *high,
        };
        if is_time_condition(&c) {
            self.keep_time(c, node)
        } else {
            Err(CheckFault::NotEntailed(node))
        }
    }

    /// That the predicate is true of the server's state: passed over, kept, or a fault of the node.
    pub fn state_condition(
        &mut self,
        s: &StatePred,
        facts: &FactList<'_>,
        node: usize,
    ) -> Result<(), CheckFault>
        ensures { GivesMet self.old self.new result (state_condition by_grant node (fact_list facts.now) s.now self.old.grant) }
    {
        if facts.has(s) {
            Ok(())
        } else if is_state_condition(s) {
            self.keep_state(*s, node)
        } else {
            Err(CheckFault::NotInState(node))
        }
    }

    fn keep_time(&mut self, c: Constraint, node: usize) -> Result<(), CheckFault>
        requires { IsTimeCondition c }
        ensures { GivesMet self.old self.new result (keep_time node c self.old.grant) }
    {
        match self.grant.add_time(c) {
            Ok(()) => Ok(()),
            Err(CollectFault::Full) => Err(CheckFault::TooManyConditions(node)),
            Err(CollectFault::NoMemory) => Err(CheckFault::NoMemory),
        }
    }

    fn keep_state(&mut self, s: StatePred, node: usize) -> Result<(), CheckFault>
        requires { IsStateCondition s }
        ensures { GivesMet self.old self.new result (keep_state node s self.old.grant) }
    {
        match self.grant.add_state(s) {
            Ok(()) => Ok(()),
            Err(CollectFault::Full) => Err(CheckFault::TooManyConditions(node)),
            Err(CollectFault::NoMemory) => Err(CheckFault::NoMemory),
        }
    }
}

/// Whether the constraints entail that the first term is not after the second.
fn is_entailed(constraints: &ConstraintStack, u: &Term, v: &Term) -> bool
    ensures { result ≡ is_entailed constraints.now u.now v.now }
{
    constraints.entails(u, v)
}
