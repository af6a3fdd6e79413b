//! The lock, its doorman and its passes.
use crate::recorded::Recorded;
use crate::rule::{LockSeat, LockTable};
use std::marker::Model;

/// A lock. Contracts see it as the name of its table.
#[derive(Drop)]
pub struct TreeLock<V: Recorded> {
    pub(crate) table: LockTable<V>,
}

impl<V: Recorded> Model for TreeLock<V> {
    ghost use Rattle.std.specs.Prelude.{◌≡◌};
    ghost use Rattle.atomic_table.specs.Seated.{TableId, table_id_coded};

    ghost Value = { TableId };

    ghost coded = { table_id_coded };

    ghost view = { λ l. l.table.shared.table_id };

    ghost invariant = { λ l. (l.table.shared.table_id.words ≡ 64) × (l.table.shared.table_id.slots ≡ 1) };
}

/// What makes passes and takes them in.
pub struct Doorman<V: Recorded> {
    pub(crate) seat: LockSeat<V>,
    pub(crate) made: u64,
    pub(crate) out: u64,
}

impl<V: Recorded> Model for Doorman<V> {
    ghost use Rattle.tree_lock.specs.Seen.{DoormanView};

    ghost Value = { DoormanView V.Entry };

    ghost use Rattle.tree_lock.specs.Seats.{IsDoormanSeat, doorman_view};

    ghost view = { λ d. doorman_view d.seat.me.0 d.seat.table_id d.out };

    ghost invariant = { λ d. IsDoormanSeat d.seat d.made d.out };
}

impl<V: Recorded> Doorman<V> {
    ghost use Rattle.std.specs.Prelude.{◌≡◌, [], ◌+◌, length};
    ghost use mathlib.Core.List.{IsPrefix};
    ghost use Rattle.tree_lock.specs.Seats.{doorman_view};

    pub(crate) fn into_seat(self) -> LockSeat<V>
        ensures seat { (result.id ≡ 0) × (result.me.1 ≡ []) }
        ensures view { doorman_view result.me.0 result.table_id self.out ≡ self }
        ensures counted { self.out + length self.retired ≡ self.made }
        ensures opened { IsPrefix self.opening self.seen }
        ensures told { IsPrefix result.me.0.told result.me.0.seen }
    {
        let Doorman {
            seat,
            made: _,
            out: _,
        } = self;
        seat
    }
}

impl<V: Recorded> Drop for Doorman<V> {
    fn drop(self) {
        let Doorman {
            seat: _,
            made: _,
            out: _,
        } = self;
    }
}

/// What has turns at the lock.
pub struct Pass<V: Recorded> {
    pub(crate) seat: LockSeat<V>,
    pub(crate) number: u64,
    pub(crate) turns: u64,
}

impl<V: Recorded> Model for Pass<V> {
    ghost use Rattle.std.specs.Prelude.{◌≡◌, [], ◌≤◌, true};
    ghost use Rattle.tree_lock.specs.Seen.{PassView};
    ghost use Rattle.tree_lock.specs.declared.view.Stage.TheVariants.{Idle};

    ghost Value = { PassView V.Entry };

    ghost view = { λ p. record { lock = p.seat.table_id; number = p.number; seen = p.seat.me.0.seen; own = p.seat.me.0.own; turns = p.turns } };

    ghost invariant = { λ p. (p.seat.me.1 ≡ []) × (p.number ≡ p.seat.me.0.number) × (1 ≤ p.number) × (p.seat.me.0.stage ≡ Idle) × (p.seat.me.0.out ≡ true) };
}

impl<V: Recorded> Pass<V> {
    ghost use Rattle.std.specs.Prelude.{◌≡◌, [], ◌≤◌, true};
    ghost use Rattle.tree_lock.specs.Seats.{seat_view};
    ghost use Rattle.tree_lock.specs.declared.view.Stage.TheVariants.{Idle};

    pub(crate) fn into_seat(self) -> LockSeat<V>
        ensures seat { (result.me.1 ≡ []) × (result.me.0.stage ≡ Idle) × (result.me.0.out ≡ true) × (1 ≤ result.me.0.number) }
        ensures view { seat_view self.turns result ≡ self }
    {
        let Pass {
            seat,
            number: _,
            turns: _,
        } = self;
        seat
    }
}

impl<V: Recorded> Drop for Pass<V> {
    fn drop(self) {
        let Pass {
            seat: _,
            number: _,
            turns: _,
        } = self;
    }
}
