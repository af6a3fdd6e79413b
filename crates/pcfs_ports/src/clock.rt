//! Clocks: which moment it is.

ghost use Rattle.std.specs.Prelude.{ℤ};
ghost use Rattle.bl_syntax.specs.TimeOrder.{IsMoment};

use bl_syntax::limits::{FIRST_MOMENT, LAST_MOMENT};
use std::rt;
use std::sync::atomic::{AtomicI64, Ordering};

/// Tells the time, in whole seconds from 1970-01-01T00:00:00Z, from 0001-01-01T00:00:00Z to 9999-12-31T23:59:59Z.
///
/// Its meaning is which moments it may give. Generic code can show this of no moment but those that it was given.
/// Asking takes no memory and has no fault, and two answers need not be in order.
pub trait Clock {
    // It may give this moment.
    ghost gives: { Self → ℤ → Type 0 };

    /// The time.
    fn now(&self) -> i64
        ensures given { gives self.now result }
        ensures in_range { IsMoment result };
}

// The nearest moment.
fn nearest_moment(second: i64) -> i64
    ensures { IsMoment result }
{
    second.clamp(FIRST_MOMENT, LAST_MOMENT)
}

/// A clock that stands still until it is set. Threads may share it.
#[derive(Debug, Drop)]
pub struct SetClock {
    second: AtomicI64,
}

impl SetClock {
    /// A clock that stands at this second, or at the nearest in the range of moments.
    pub const fn new(now: i64) -> SetClock {
        SetClock {
            second: AtomicI64::new(now),
        }
    }

    /// Sets the clock to this second, or to the nearest in the range of moments.
    pub fn set(&self, now: i64) {
        self.second.store(now, Ordering::SeqCst);
    }
}

impl Clock for SetClock {
    ghost gives = { λ _ second. IsMoment second };

    fn now(&self) -> i64 {
        nearest_moment(self.second.load(Ordering::SeqCst))
    }
}

/// The system's clock, clamped to the range of moments. Where it cannot be read, or is set before 1970, the answer is
/// the lower end of the range.
#[derive(Debug, Drop)]
pub struct SystemClock<'a, R> {
    rt: &'a R,
}

impl<'a, R: rt::Clock> SystemClock<'a, R> {
    /// The clock of this runtime.
    pub fn new(rt: &'a R) -> SystemClock<'a, R> {
        SystemClock { rt }
    }
}

impl<'a, R: rt::Clock> Clock for SystemClock<'a, R> {
    ghost gives = { λ _ second. IsMoment second };

    fn now(&self) -> i64 {
        match self.rt.since_1970() {
            Ok(time) => nearest_moment(i64::try_from(time.as_secs()).unwrap_or(LAST_MOMENT)),
            Err(_) => FIRST_MOMENT,
        }
    }
}
