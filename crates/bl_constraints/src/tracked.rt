//! A constraint, and what is known of it beside those that were pushed before it.

ghost use Rattle.std.specs.Prelude.{◌≡◌, ◌↔◌, IsTrue};
ghost use Rattle.bl_syntax.specs.Entailment.{IsContradictory};
ghost use Rattle.bl_constraints.specs.Reached.{AreTracked, IsTracked, constraints_of};

use crate::constants::{earliest_end, latest_start};
use crate::places::Places;
use crate::reaching::{places_after, places_before};
use bl_syntax::Constraint;

/// A constraint, and where chains lead by those that were pushed before it.
#[derive(Clone, Copy, Debug)]
pub struct Tracked {
    pub constraint: Constraint,
    /// From the high sides of these, chains lead to its low side.
    pub before: Places,
    /// To the low sides of these, chains lead from its high side.
    pub after: Places,
    /// Whether those and this one contradict one another.
    pub contradicts: bool,
}

/// The constraint, which is to be pushed after these.
pub fn track(items: &[Tracked], c: &Constraint) -> Tracked
    requires { AreTracked items.now }
    ensures same { result.constraint ≡ c.now }
    ensures tracked { IsTracked (constraints_of items.now) result }
{
    let before = places_before(items, &c.low);
    let after = places_after(items, &c.high);
    let latest = latest_start(items, &before, &c.low);
    let earliest = earliest_end(items, &after, &c.high);
    Tracked {
        constraint: *c,
        before,
        after,
        contradicts: contradict(items) || !latest.is_up_to(earliest),
    }
}

/// Whether the constraints contradict one another.
pub fn contradict(items: &[Tracked]) -> bool
    requires { AreTracked items.now }
    ensures { IsTrue result ↔ IsContradictory (constraints_of items.now) }
{
    if items.len() == 0 {
        return false;
    }
    items[items.len() - 1].contradicts
}
