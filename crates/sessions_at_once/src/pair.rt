//! Two things that threads do at the same time.

use std::thread::{Threads, join};

/// Something that a thread does.
pub trait Errand<R> {
    // It may be done.
    ghost ready: { Self → Type 0 };

    /// Does it, and says whether it came to its end.
    fn go(self, rt: &R) -> bool
        requires { ready self };
}

/// Whether both came to their ends, each in a thread of its own.
pub fn both_at_once<R: Threads + Sync, A: Errand<R> + Send + Drop>(
    rt: &R,
    first: A,
    second: A,
) -> bool
    requires first { A.ready first }
    requires second { A.ready second }
{
    let go_first = move || -> bool
        requires { A.ready first }
    { first.go(rt) };
    let go_second = move || -> bool
        requires { A.ready second }
    { second.go(rt) };
    let (first_ended, second_ended) = join(rt, go_first, go_second);
    first_ended && second_ended
}
