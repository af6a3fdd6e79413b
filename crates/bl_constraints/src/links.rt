//! What two terms alone tell of their order.

ghost use Rattle.std.specs.Prelude.{◌≡◌, ◌↔◌, IsTrue, []};
ghost use Rattle.bl_syntax.specs.Entailment.{IsLink};

use bl_syntax::{Term, TimePoint};

/// Whether the first term is seen not to be after the second without any constraint.
#[inline(always)]
pub(crate) fn is_linked(u: &Term, v: &Term) -> bool
    ensures { IsTrue result ↔ IsLink [] u.now v.now }
{
    match u {
        Term::Time(first) => is_linked_from(*first, v),
        _ => is_last(v) || is_same(u, v),
    }
}

fn is_linked_from(first: TimePoint, v: &Term) -> bool
    ensures { IsTrue result ↔ IsLink [] (Term.Time first) v.now }
{
    match v {
        Term::Time(second) => first.is_up_to(*second),
        _ => first.is_up_to(TimePoint::NegInf),
    }
}

fn is_last(v: &Term) -> bool
    ensures { IsTrue result ↔ (v.now ≡ Term.Time TimePoint.PosInf) }
{
    matches!(v, Term::Time(TimePoint::PosInf))
}

/// Whether it is the same term. Parameters come up most, so they are told apart in place.
#[inline(always)]
fn is_same(u: &Term, v: &Term) -> bool
    ensures { IsTrue result ↔ (u.now ≡ v.now) }
{
    match (u, v) {
        (Term::Param(number), Term::Param(other)) => number == other,
        (Term::Param(_), _) | (_, Term::Param(_)) => false,
        _ => is_same_constant(u, v),
    }
}

#[inline(never)]
fn is_same_constant(u: &Term, v: &Term) -> bool
    ensures { IsTrue result ↔ (u.now ≡ v.now) }
{
    u.is_same(v)
}
