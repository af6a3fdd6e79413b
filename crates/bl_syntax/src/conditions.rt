//! Which conditions a grant can keep, and whether one on time holds at a moment.

ghost use Rattle.std.specs.Prelude.{◌≡◌, ◌↔◌, IsTrue, MatchOption};
ghost use Rattle.bl_syntax.specs.declared.terms.TimePoint.{TimePoint};
ghost use Rattle.bl_syntax.specs.Terms.{term_at};
ghost use Rattle.bl_syntax.specs.Grant.{HoldsAt, IsTimeCondition, IsStateCondition};
ghost use Rattle.bl_syntax.specs.ConditionTests.{is_constant_in_range, is_ctime, is_time_condition, is_state_condition};

use crate::terms::{Constraint, StatePred, Term, TimePoint};

/// Whether the constraint holds with this second, counted from 1970-01-01T00:00:00Z, as the current time.
pub fn holds_at(moment: i64, c: &Constraint) -> bool
    ensures { IsTrue result ↔ HoldsAt moment c.now }
{
    match (time_at(moment, &c.low), time_at(moment, &c.high)) {
        (Some(low), Some(high)) => low.is_up_to(high),
        _ => false,
    }
}

/// The constant time that the term is at a moment.
fn time_at(moment: i64, t: &Term) -> Option<TimePoint>
    ensures { MatchOption result ((p : TimePoint) → term_at moment t.now ≡ Term.Time p → ⊥)
        (λ p. term_at moment t.now ≡ Term.Time p) }
{
    match t {
        Term::Time(point) => Some(*point),
        Term::Ctime => Some(TimePoint::At(moment)),
        _ => None,
    }
}

/// Whether the term is a constant, with its time in the range of moments.
pub fn is_constant_in_range(t: &Term) -> bool
    ensures { result ≡ is_constant_in_range t.now }
{
    match t {
        Term::Time(point) => point.is_in_range(),
        Term::Ctime | Term::Param(_) | Term::Bound(_) => false,
        _ => true,
    }
}

fn is_ctime(t: &Term) -> bool
    ensures { result ≡ is_ctime t.now }
{
    match t {
        Term::Ctime => true,
        _ => false,
    }
}

/// Whether a grant can keep the condition on time.
pub fn is_time_condition(c: &Constraint) -> bool
    ensures computed { result ≡ is_time_condition c.now }
    ensures decides { IsTrue result ↔ IsTimeCondition c.now }
{
    let low_is_ctime = is_ctime(&c.low);
    let high_is_ctime = is_ctime(&c.high);
    (low_is_ctime || high_is_ctime)
        && (low_is_ctime || is_constant_in_range(&c.low))
        && (high_is_ctime || is_constant_in_range(&c.high))
}

/// Whether a grant can keep the condition on the server's state.
pub fn is_state_condition(s: &StatePred) -> bool
    ensures computed { result ≡ is_state_condition s.now }
    ensures decides { IsTrue result ↔ IsStateCondition s.now }
{
    match s {
        StatePred::Owner(file, owner) => is_constant_in_range(file) && is_constant_in_range(owner),
        StatePred::HasXattr(file, name, value) => {
            is_constant_in_range(file) && is_constant_in_range(name) && is_constant_in_range(value)
        }
        StatePred::InDir(file, directory) => is_constant_in_range(file)
            && is_constant_in_range(directory),
    }
}
