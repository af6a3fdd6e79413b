//! What is found at each of many places by itself, in several threads.

ghost use Rattle.std.specs.Prelude.{◌<◌, ℕ, IfOk};
ghost use Rattle.pcfs_audit.specs.Examining.{AreFound};

use bl_syntax::NoMemory;
use rayon::prelude::*;
use std::alloc::Global;
use std::thread::Threads;

/// Finds something of what stands at a place.
pub trait Examiner {
    /// What is found.
    type Found: Send + Drop;

    // Something stands at that place.
    ghost has: { Self → ℕ → Type 0 };

    // This is found of what stands at that place.
    ghost finds: { Self → ℕ → Self.Found → Type 0 };

    /// What is found of what stands at that place.
    fn examine(&self, place: usize) -> Result<Self::Found, NoMemory>
        requires { has self.now place }
        ensures { IfOk result (finds self.now place) };
}

/// What is found at so many places, in order, in several threads, each for at least `least` places.
pub fn examine_in_pieces<R: Threads + Sync, E: Examiner + Sync>(
    rt: &R,
    alloc: Global,
    examiner: &E,
    count: usize,
    least: usize,
) -> Result<Vec<E::Found>, NoMemory>
    requires { (place : ℕ) → place < count → E.Examiner.has examiner.now place }
    ensures { IfOk result (λ all. AreFound (E.Examiner.finds examiner.now) count all.items) }
{
    let found = (0..count)
        .into_par_iter()
        .with_min_len(least)
        .map(
            |place: usize| -> Result<E::Found, NoMemory>
                requires { E.Examiner.has examiner.now place }
                ensures { IfOk result (E.Examiner.finds examiner.entry.now place) }
            { examiner.examine(place) },
        )
        .collect(rt, alloc);
    match found {
        Ok(all) => all,
        Err(_) => Err(NoMemory),
    }
}
