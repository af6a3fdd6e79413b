//! The time between whose ends the conditions on time hold.

ghost use Rattle.std.specs.Prelude.{◌≡◌, ◌↔◌, ◌⊎◌, ℤ, IsTrue, MatchOption};
ghost use Rattle.bl_syntax.specs.declared.terms.TimePoint.{TimePoint};
ghost use Rattle.bl_syntax.specs.TimeOrder.{IsUpTo, IsInRange};
ghost use Rattle.bl_syntax.specs.Grant.{HoldsAt, IsTimeCondition};
ghost use Rattle.condition_set.specs.Window.{LiesBetween, MeetsConditions, IsWindow};

use bl_syntax::{Constraint, Grant, Term, TimePoint};

/// The least and the greatest time between which all conditions on time hold; none exactly if no second meets
/// them. It takes no memory.
///
/// Without a condition the window reaches from `-inf` to `+inf`. A condition that compares the current time with a
/// constant of another sort, with `+inf` from above or with `-inf` from below, is never met.
pub fn window(g: &Grant) -> Option<(TimePoint, TimePoint)>
    ensures { MatchOption result ((second : ℤ) → MeetsConditions g.now.times second → ⊥) (λ w. IsWindow g.now.times w.0 w.1) }
{
    let mut first = TimePoint::NegInf;
    let mut last = TimePoint::PosInf;
    for c in g.times() {
        let (from, to) = span_of(c);
        first = later_time(first, from);
        last = earlier_time(last, to);
    }
    if has_second(first, last) {
        Some((first, last))
    } else {
        None
    }
}

/// The first and the last time of the seconds at which the condition holds.
fn span_of(c: &Constraint) -> (TimePoint, TimePoint)
    requires { IsTimeCondition c.now }
    ensures between { (second : ℤ) → HoldsAt second c.now ↔ LiesBetween result.0 result.1 second }
    ensures first_in_range { IsInRange result.0 }
    ensures last_in_range { IsInRange result.1 }
{
    match (c.low, c.high) {
        (Term::Ctime, Term::Ctime) => (TimePoint::NegInf, TimePoint::PosInf),
        (Term::Ctime, Term::Time(to)) => (TimePoint::NegInf, to),
        (Term::Time(from), Term::Ctime) => (from, TimePoint::PosInf),
        _ => (TimePoint::PosInf, TimePoint::NegInf),
    }
}

/// The later one of two times.
fn later_time(u: TimePoint, v: TimePoint) -> TimePoint
    ensures bound { (w : TimePoint) → IsUpTo result w ↔ (IsUpTo u w × IsUpTo v w) }
    ensures either { (result ≡ u) ⊎ (result ≡ v) }
{
    if u.is_up_to(v) { v } else { u }
}

/// The earlier one of two times.
fn earlier_time(u: TimePoint, v: TimePoint) -> TimePoint
    ensures bound { (w : TimePoint) → IsUpTo w result ↔ (IsUpTo w u × IsUpTo w v) }
    ensures either { (result ≡ u) ⊎ (result ≡ v) }
{
    if u.is_up_to(v) { u } else { v }
}

/// Whether there is a second from the first time to the last.
fn has_second(first: TimePoint, last: TimePoint) -> bool
    ensures { IsTrue result ↔ ((second : ℤ) × LiesBetween first last second) }
{
    match (first, last) {
        (TimePoint::PosInf, _) | (_, TimePoint::NegInf) => false,
        (TimePoint::At(from), TimePoint::At(to)) => from <= to,
        (TimePoint::NegInf, TimePoint::PosInf) => true,
        (TimePoint::NegInf, TimePoint::At(_)) | (TimePoint::At(_), TimePoint::PosInf) => true,
    }
}
