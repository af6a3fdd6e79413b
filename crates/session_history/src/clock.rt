//! Clocks that are read in a turn.

ghost use Rattle.std.specs.Prelude.{ℤ, List};
ghost use Rattle.bl_syntax.specs.TimeOrder.{IsMoment};
ghost use Rattle.pcfs_store.specs.Entries.{StoreEntry, entries_of};

use pcfs_ports::{Clock, Disk};
use pcfs_store::Store;

/// Tells the time to who has a store in hand.
///
/// Its meaning is which moments it may give over which entries. Code that is generic over it can show this of no moment but
/// those that it was given, and of none over other entries; and it is asked with the store, which nobody has but in a
/// turn. So a moment that was read before an entry came is none that is given after it.
pub trait TurnClock {
    // To who has a store with these entries it may give this moment.
    ghost gives: { Self → List StoreEntry → ℤ → Type 0 };

    /// The time. It takes no memory and has no fault.
    fn now<D: Disk>(&self, store: &Store<D>) -> i64
        ensures given { gives self.now (entries_of store.now) result }
        ensures in_range { IsMoment result };
}

/// A clock does not look at the store: it may give the same moments over all entries.
impl<C: Clock> TurnClock for C {
    ghost gives = { λ clock _ second. C.gives clock second };

    fn now<D: Disk>(&self, _store: &Store<D>) -> i64 {
        Clock::now(self)
    }
}
