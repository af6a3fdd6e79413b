//! How a pass waits. It draws a ticket only if nobody has one, and else sleeps until it is called; after a few calls, or
//! some more times that it slept, it draws one all the same, so that those who come again and again do not keep it out.
//!
//! Who ends a turn calls one that sleeps, unless a call is under way. The first that takes the call has it, whether it was
//! woken or came just then. No clause says that a call comes: what is proved here is that the lock's rule does not hang on
//! these words.
ghost use Rattle.std.specs.Prelude.{◌≡◌};
ghost use Rattle.tree_lock.specs.Seats.{IsLockTable, IsPassAt};

use crate::recorded::Recorded;
use crate::rule::{CALL, LockSeat, LockShared, SERVED, SLEEPERS, SignalStep, TICKETS};
use std::hint::spin_loop;
use std::sync::Wait;
use std::thread;
use std::time::Duration;

// How often a pass looks for a free lock before it sleeps.
const LOOKS: u32 = 200;

// After so many calls that it took in vain, or so many times that it slept, a pass draws a ticket.
const CALLS: u32 = 5;

const SLEEPS: u32 = 20;

// How often a pass with a ticket looks for its turn before it yields between looks, and before it dozes between them.
const SPINS: u32 = 200;

const YIELDS: u32 = 300;

const DOZE_MICROS: u64 = 100;

/// Waits until nobody has a ticket, or it is time to draw one.
pub fn approach<V: Recorded, R: Wait>(rt: &R, shared: &LockShared<V>, seat: &mut LockSeat<V>)
    requires { IsPassAt shared.now.table_id seat.old }
    ensures { (seat.new.table_id ≡ seat.old.table_id) × (seat.new.me ≡ seat.old.me) }
{
    for _ in 0..LOOKS {
        if !is_taken(shared) {
            return;
        }
        spin_loop();
    }
    sleep(rt, shared, seat);
}

// Sleeps until nobody has a ticket, a few calls were in vain, or it slept some more times. A call is for the first that
// takes it: another that wakes does not undo the next call, and sleeps on.
fn sleep<V: Recorded, R: Wait>(rt: &R, shared: &LockShared<V>, seat: &mut LockSeat<V>)
    requires { IsPassAt shared.now.table_id seat.old }
    ensures { (seat.new.table_id ≡ seat.old.table_id) × (seat.new.me ≡ seat.old.me) }
{
    let mut calls: u32 = 0;
    shared.fetch_add::<SignalStep>(seat, SLEEPERS, 1);
    for _ in 0..SLEEPS {
        if calls == CALLS || !is_taken(shared) {
            break;
        }
        shared.park(rt, CALL, 0);
        if take_call(shared, seat) {
            calls = calls.saturating_add(1);
        }
    }
    shared.fetch_sub::<SignalStep>(seat, SLEEPERS, 1);
}

// Takes the call, and says whether there was one.
fn take_call<V: Recorded>(shared: &LockShared<V>, seat: &mut LockSeat<V>) -> bool
    requires { IsPassAt shared.now.table_id seat.old }
    ensures { (seat.new.table_id ≡ seat.old.table_id) × (seat.new.me ≡ seat.old.me) }
{
    if shared.peek(CALL) == 0 {
        return false;
    }
    shared.swap::<SignalStep>(seat, CALL, 0) != 0
}

// Whether somebody has a ticket.
fn is_taken<V: Recorded>(shared: &LockShared<V>) -> bool
    requires { IsLockTable shared.now.table_id }
{
    shared.peek(TICKETS) != shared.peek(SERVED)
}

/// Calls a pass that sleeps.
pub fn call_next<V: Recorded>(shared: &LockShared<V>, seat: &mut LockSeat<V>)
    requires { IsPassAt shared.now.table_id seat.old }
    ensures { (seat.new.table_id ≡ seat.old.table_id) × (seat.new.me ≡ seat.old.me) }
{
    if shared.peek(SLEEPERS) != 0 && shared.peek(CALL) == 0 {
        shared.store::<SignalStep>(seat, CALL, 1);
        shared.wake_one(CALL);
    }
}

/// Waits for a moment with a ticket in hand, after so many looks. So many tickets were served at the last one.
pub fn rest<V: Recorded, R: Wait>(rt: &R, shared: &LockShared<V>, served: u64, look_step: u32)
    requires { IsLockTable shared.now.table_id }
{
    if look_step < SPINS {
        spin_loop();
    } else if look_step < YIELDS {
        thread::yield_now();
    } else {
        shared.park_timeout(
            rt,
            SERVED,
            (served % (1 << 32)) as u32,
            Duration::from_micros(DOZE_MICROS),
        );
    }
}
