//! The first condition of a grant that fails.

ghost use Rattle.std.specs.Prelude.{◌↔◌, List, Contains, IsNone, IsTrue, IfSome};
ghost use Rattle.std.specs.List.{AllByRecursion};
ghost use Rattle.bl_syntax.specs.declared.terms.StatePred.{StatePred};
ghost use Rattle.bl_syntax.specs.Grant.{HoldsAt};
ghost use Rattle.condition_set.specs.FailsFirst.{FailsFirst};

use bl_syntax::{Grant, StatePred, holds_at};

/// What is true of the server's state, as far as policy can speak of it.
///
/// Its meaning is a list of predicates, and what it answers is true exactly of the members of that list.
pub trait Facts {
    // the predicates that are true
    ghost facts: { Self → List StatePred };

    /// Whether the predicate is true. It takes no memory.
    fn holds(&self, s: &StatePred) -> bool
        ensures { IsTrue result ↔ Contains (facts self.now) s.now };
}

/// The place, from 0, of the first condition on time that does not hold at the moment `t` (whole seconds from
/// 1970-01-01T00:00:00Z); none exactly if all hold. It takes no memory.
pub fn first_failing_time(g: &Grant, t: i64) -> Option<usize>
    ensures none { IsNone result ↔ AllByRecursion (HoldsAt t) g.now.times }
    ensures first { IfSome result (FailsFirst (HoldsAt t) g.now.times) }
{
    for (place, c) in g.times().iter().enumerate() {
        if !holds_at(t, c) {
            return Some(place);
        }
    }
    None
}

/// The place, from 0, of the first condition on the server's state that is not true there; none exactly if all
/// are. It takes no memory.
pub fn first_failing_state<X: Facts>(g: &Grant, facts: &X) -> Option<usize>
    ensures none { IsNone result ↔ AllByRecursion (Contains (X.facts facts.now)) g.now.states }
    ensures first { IfSome result (FailsFirst (Contains (X.facts facts.now)) g.now.states) }
{
    for (place, s) in g.states().iter().enumerate() {
        if !facts.holds(s) {
            return Some(place);
        }
    }
    None
}
