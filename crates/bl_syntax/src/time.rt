//! The order of points in time, and the range of moments.

ghost use Rattle.std.specs.Prelude.{◌↔◌, IsTrue};
ghost use Rattle.bl_syntax.specs.TimeOrder.{IsMoment, IsUpTo, IsInRange};

use crate::limits::{FIRST_MOMENT, LAST_MOMENT};
use crate::terms::TimePoint;

/// Whether a second, counted from 1970-01-01T00:00:00Z, lies in the years 1 to 9999.
pub fn is_moment(second: i64) -> bool
    ensures { IsTrue result ↔ IsMoment second }
{
    FIRST_MOMENT <= second && second <= LAST_MOMENT
}

impl TimePoint {
    /// Whether it is not after the other.
    pub fn is_up_to(self, other: TimePoint) -> bool
        ensures { IsTrue result ↔ IsUpTo self other }
    {
        match (self, other) {
            (TimePoint::NegInf, _) => true,
            (TimePoint::At(second), TimePoint::At(other_second)) => second <= other_second,
            (TimePoint::At(_), TimePoint::PosInf) => true,
            (TimePoint::PosInf, TimePoint::PosInf) => true,
            _ => false,
        }
    }

    /// Whether it is a moment, or before or after all of them.
    pub fn is_in_range(self) -> bool
        ensures { IsTrue result ↔ IsInRange self }
    {
        match self {
            TimePoint::At(second) => is_moment(second),
            TimePoint::NegInf | TimePoint::PosInf => true,
        }
    }
}
