//! The rule of the lock's table, and what each step at it tells.
use crate::recorded::Recorded;
use crate::view::Knowledge;
use atomic_table::{Join, Play, Seat, Shared, Split, Table, TableRule};
use std::alloc::Global;
use std::marker::PhantomData;
use std::snapshot::Snapshot;

// The words: how many tickets were drawn, how many were served, how many passes sleep, and whether one was called. They
// stand on cache lines of their own.
pub const TICKETS: usize = 0;

pub const SERVED: usize = 16;

pub const SLEEPERS: usize = 32;

pub const CALL: usize = 48;

pub struct Turns<V> {
    value: PhantomData<V>,
}

impl<V: Recorded> TableRule<Option<V>, Knowledge<V::Entry>, Snapshot<V>> for Turns<V> {
    ghost use Rattle.tree_lock.specs.Knowledge.{opening_view};
    ghost use Rattle.tree_lock.specs.Rule.{Kept};

    ghost holds = { λ _. Kept V.entries };

    ghost first = { λ key. opening_view (V.entries key.value) };
}

pub type LockTable<V> = Table<
    Option<V>,
    Knowledge<<V as Recorded>::Entry>,
    Snapshot<V>,
    Turns<V>,
    Global,
>;

pub type LockShared<V> = Shared<
    Option<V>,
    Knowledge<<V as Recorded>::Entry>,
    Snapshot<V>,
    Turns<V>,
>;

pub type LockSeat<V> = Seat<Option<V>, Knowledge<<V as Recorded>::Entry>>;

/// The doorman makes a pass.
pub struct MakeStep;

impl<E> Split<Knowledge<E>> for MakeStep {
    ghost use Rattle.tree_lock.specs.Knowledge.{after_making, made_by};

    ghost left = { after_making };

    ghost right = { made_by };
}

/// The doorman takes in a pass.
pub struct RetireStep;

impl<E> Join<Knowledge<E>> for RetireStep {
    ghost use Rattle.tree_lock.specs.Knowledge.{after_retiring, spent_view};

    ghost both = { after_retiring };

    ghost spent = { spent_view };
}

/// The doorman sees the history.
pub struct LookStep;

impl<V, E> Play<Option<V>, Knowledge<E>> for LookStep {
    ghost use Rattle.tree_lock.specs.Steps.{look_step};

    ghost then = { look_step };
}

/// A pass draws a ticket.
pub struct DrawStep;

impl<V, E> Play<Option<V>, Knowledge<E>> for DrawStep {
    ghost use Rattle.tree_lock.specs.Steps.{draw_step};

    ghost then = { draw_step };
}

/// A pass waits for its turn, or takes the value.
pub struct WaitStep;

impl<V: Recorded> Play<Option<V>, Knowledge<V::Entry>> for WaitStep {
    ghost use Rattle.tree_lock.specs.Steps.{wait_step};

    ghost then = { wait_step V.entries };
}

/// A pass tells what its job appended.
pub struct TellStep;

impl<V: Recorded> Play<Option<V>, Knowledge<V::Entry>> for TellStep {
    ghost use Rattle.tree_lock.specs.Steps.{tell_step};

    ghost then = { tell_step V.entries };
}

/// A pass ends its turn.
pub struct ServeStep;

impl<V, E> Play<Option<V>, Knowledge<E>> for ServeStep {
    ghost use Rattle.tree_lock.specs.Steps.{serve_step};

    ghost then = { serve_step };
}

/// A pass says that it sleeps, or calls one that does.
pub struct SignalStep;

impl<V, E> Play<Option<V>, Knowledge<E>> for SignalStep {
    ghost use Rattle.tree_lock.specs.Steps.{signal_step};

    ghost then = { signal_step };
}
