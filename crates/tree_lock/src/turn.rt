//! A turn: a ticket is drawn, waited for, and served after the job's work.
ghost use Rattle.std.specs.Prelude.{◌≡◌, ℕ, [], ◌∷◌, Some};
ghost use Rattle.tree_lock.specs.Entries.{of_number, Appends};
ghost use Rattle.tree_lock.specs.Knowledge.{after_work, at_stage};
ghost use Rattle.tree_lock.specs.declared.view.Stage.TheVariants.{Idle};
ghost use Rattle.tree_lock.specs.Seen.{one_more};
ghost use Rattle.tree_lock.specs.Seats.{seat_view, IsPassAt, IsIdle, IsWaiting, IsHolding};
ghost use Rattle.tree_lock.specs.Steps.{Takes};
ghost use Rattle.tree_lock.specs.Turned.{Turned};

use crate::parts::{Pass, TreeLock};
use crate::recorded::{Job, Recorded};
use crate::rule::{DrawStep, LockSeat, LockShared, SERVED, ServeStep, TICKETS, TellStep, WaitStep};
use crate::waiting::{approach, call_next, rest};
use std::sync::Wait;

impl<V: Recorded> TreeLock<V> {
    /// Waits for the pass's turn, in which the job works on the value.
    pub fn turn<J: Job<V>, R: Wait>(&self, rt: &R, pass: &mut Pass<V>, job: J) -> J::Out
        requires { pass.old.lock ≡ self.now }
        ensures { Turned V.entries (J.done job) pass.old pass.new result }
    {
        let number = pass.number;
        let out = turn_at(rt, &self.table.shared, &mut pass.seat, number, job);
        pass.turns = pass.turns.saturating_add(1);
        out
    }
}

fn turn_at<V: Recorded, J: Job<V>, R: Wait>(
    rt: &R,
    shared: &LockShared<V>,
    seat: &mut LockSeat<V>,
    number: u64,
    job: J,
) -> J::Out
    requires idle { IsIdle shared.now.table_id seat.old }
    requires number { number ≡ seat.old.me.0.number }
    ensures idle { IsIdle shared.now.table_id seat.new }
    ensures turned { (turns : ℕ) → Turned V.entries (J.done job) (seat_view turns seat.old) (seat_view (one_more turns) seat.new) result }
{
    approach(rt, shared, seat);
    let ticket = draw(shared, seat);
    wait_turn(rt, shared, seat, ticket);
    let out = work_at(shared, seat, number, job);
    show_entries(shared, seat);
    serve(shared, seat);
    call_next(shared, seat);
    out
}

// Draws a ticket.
fn draw<V: Recorded>(shared: &LockShared<V>, seat: &mut LockSeat<V>) -> u64
    requires { IsIdle shared.now.table_id seat.old }
    ensures seat { IsWaiting shared.now.table_id seat.new result }
    ensures same { seat_view 0 seat.new ≡ seat_view 0 seat.old }
{
    shared.fetch_add::<DrawStep>(seat, TICKETS, 1)
}

// Waits until the ticket is served, and takes the value.
fn wait_turn<V: Recorded, R: Wait>(
    rt: &R,
    shared: &LockShared<V>,
    seat: &mut LockSeat<V>,
    ticket: u64,
)
    requires { IsWaiting shared.now.table_id seat.old ticket }
    ensures { (seat.new.table_id ≡ seat.old.table_id) × ((t : ℕ) × Takes V.entries t seat.old.me seat.new.me) }
{
    let mut look_step: u32 = 0;
    for _ in rt.forever() {
        let served = shared.load::<WaitStep>(seat, SERVED);
        if served == ticket {
            return;
        }
        rest(rt, shared, served, look_step);
        look_step = look_step.saturating_add(1);
    }
    unreachable!()
}

// The job works on the value that the pass has taken.
fn work_at<V: Recorded, J: Job<V>>(
    shared: &LockShared<V>,
    seat: &mut LockSeat<V>,
    number: u64,
    job: J,
) -> J::Out
    requires at { IsPassAt shared.now.table_id seat.old }
    requires value { (before : V) × (seat.old.me.1 ≡ (0, Some before) ∷ []) }
    ensures { (before after : V) × (seat.old.me.1 ≡ (0, Some before) ∷ [])
        × J.done job before number after result × Appends number (V.entries before)
        (V.entries after) × (seat.new.table_id ≡ seat.old.table_id)
        × (seat.new.me ≡ (seat.old.me.0, (0, Some after) ∷ [])) }
{
    let Some(value) = seat.slot_mut(shared, 0) else {
        unreachable!()
    };
    job.work(value, number)
}

// Tells what the job appended: it is in the history from now on, while the pass still has the value.
fn show_entries<V: Recorded>(shared: &LockShared<V>, seat: &mut LockSeat<V>)
    requires { (value : V) × IsHolding shared.now.table_id seat.old value × Appends seat.old.me.0.number seat.old.me.0.seen (V.entries value) }
    ensures { (value : V) × IsHolding shared.now.table_id seat.new value × (seat.new.me.0.seen ≡ V.entries value)
        × (seat.old.me.1 ≡ (0, Some value) ∷ [])
        × (seat.new.me.0 ≡ after_work seat.old.me.0 (V.entries value) (of_number seat.old.me.0.number (V.entries value))) }
{
    shared.load::<TellStep>(seat, SERVED);
}

// Gives the value back, and serves the next ticket.
fn serve<V: Recorded>(shared: &LockShared<V>, seat: &mut LockSeat<V>)
    requires { (value : V) × IsHolding shared.now.table_id seat.old value × (seat.old.me.0.seen ≡ V.entries value) }
    ensures idle { IsIdle shared.now.table_id seat.new }
    ensures view { seat.new.me.0 ≡ at_stage seat.old.me.0 Idle }
{
    shared.fetch_add::<ServeStep>(seat, SERVED, 1);
}
