//! Listeners: where connections come from.

ghost use Rattle.std.specs.Prelude.{◌≡◌, ◌≢◌, ℕ, ◌≤◌, ◌↔◌, true, false, [], ◌∷◌, ◌++◌, List, Option, Some, Bool, IfSome, IsErr, OnOk, OnErr, length, is_err, refl};
ghost use Rattle.pcfs_ports.specs.Faults.{HasRisen, raise};
ghost use Rattle.pcfs_ports.specs.Calls.{no_calls, FailsNext, after_call, after_failed_call};
ghost use Rattle.pcfs_ports.specs.Accepted.{connections_of, count_of, FallsBy};
ghost use Rattle.pcfs_ports.specs.Telling.{IfGiven, IsAt, AreTakenOff, AreAllGiven};

use super::accepted::Accepted;
use super::faults::{CallPlan, Failed};
use super::sinks::{MemorySink, Sink};
use super::sources::{MemorySource, Source};
use bl_syntax::{NoMemory, Numbers};
use std::alloc::Global;
use std::collections::VecDeque;
use std::marker::Model;

/// Where connections come from, one after another.
///
/// Its meaning is which connections are still to come, in their order, each with its input and its output as they are when
/// it is accepted, and how many come; it may tell both, the number alone, or nothing, and does so after each call as before.
/// Further whether it is over; a count of faults that never falls, and counts as risen if it stands at `u64::MAX`; and
/// whether its last call failed.
pub trait Listener {
    /// Where a connection's bytes come from.
    type In: Source + Send + Drop;

    /// Where a connection's bytes go.
    type Out: Sink + Send + Drop;

    // The connections that are still to come, if it tells them.
    ghost queue: { Self → Option (List (Self.In × Self.Out)) };

    // How many connections are still to come, if it tells that.
    ghost waiting: { Self → Option ℕ };

    // No connection comes any more.
    ghost over: { Self → Type 0 };

    // How many faults it has had.
    ghost faults: { Self → ℕ };

    // Whether its last call failed.
    ghost broken: { Self → Bool };

    /// Begins to listen on a port. It gives no connection. `Failed` comes only if the count of faults rose, by one; at each
    /// other answer it stands still.
    fn listen(&mut self, port: u16) -> Result<(), Failed>
        ensures queue { queue self.new ≡ queue self.old }
        ensures waiting { waiting self.new ≡ waiting self.old }
        ensures risen { OnErr result (HasRisen (faults self.old) (faults self.new)) }
        ensures never_falls { faults self.old ≤ faults self.new }
        ensures steady { OnOk result (faults self.new ≡ faults self.old) }
        ensures by_one { OnErr result (faults self.new ≡ raise (faults self.old)) }
        ensures broken { broken self.new ≡ is_err result };

    /// The next connection, the first of those that are told. It may wait for one.
    ///
    /// `Closed` comes only if it is over, and none is still to come. `Failed` comes only if the count of faults rose, by
    /// one; at each other answer it stands still.
    fn accept(&mut self, alloc: Global) -> Accepted<Self::In, Self::Out>
        ensures first { IfGiven result (λ input output. IsAt (queue self.old) 0 input output) }
        ensures queue { AreTakenOff (count_of result) (queue self.old) (queue self.new) }
        ensures waiting { FallsBy (count_of result) (waiting self.old) (waiting self.new) }
        ensures closed { result ≡ Accepted.Closed → over self.new }
        ensures none_left { result ≡ Accepted.Closed →
            IfSome (waiting self.new) (λ left. left ≡ 0) }
        ensures all_given { result ≡ Accepted.Closed → AreAllGiven (queue self.new) }
        ensures risen { result ≡ Accepted.Failed → HasRisen (faults self.old) (faults self.new) }
        ensures never_falls { faults self.old ≤ faults self.new }
        ensures steady { result ≢ Accepted.Failed → faults self.new ≡ faults self.old }
        ensures by_one { result ≡ Accepted.Failed → faults self.new ≡ raise (faults self.old) }
        ensures broken { result ≡ Accepted.Failed → broken self.new ≡ true }
        ensures whole { result ≢ Accepted.Failed → broken self.new ≡ false };

    // If it tells which connections are still to come, it tells how many.
    ghost waiting_is_length: { (listener : Self) → IfSome (queue listener) (λ told. waiting listener ≡ Some (length told)) };
}

/// A listener that gives connections from memory, in the order in which they were added, and is over if none is left.
/// It fails exactly at the calls, of `listen` and `accept` together, that are to fail, which give no connection.
#[derive(Debug, Drop)]
pub struct MemoryListener {
    queue: VecDeque<(MemorySource, MemorySink)>,
    plan: CallPlan,
}

impl Model for MemoryListener {
    ghost use Rattle.pcfs_ports.specs.MemoryListener.{MemoryListenerView};

    ghost Value = { MemoryListenerView };

    ghost view = { λ s. record { queue = s.queue.items; calls = s.plan } };
}

impl MemoryListener {
    /// A listener without connections. `failing` lists the numbers, from 0, of the calls that fail. It takes no memory.
    pub fn new(alloc: Global, failing: Numbers) -> Self
        ensures { result ≡ record { queue = []; calls = no_calls failing } }
    {
        MemoryListener {
            queue: VecDeque::new(alloc),
            plan: CallPlan::new(failing),
        }
    }

    /// Adds a connection as the last.
    pub fn add(&mut self, input: MemorySource, output: MemorySink) -> Result<(), NoMemory>
        ensures ok { OnOk result (self.new ≡ record self.old { queue = self.old.queue ++ (input, output) ∷ [] }) }
        ensures err { OnErr result (self.new ≡ self.old) }
    {
        self.queue.push_back((input, output))?;
        Ok(())
    }
}

impl Listener for MemoryListener {
    type In = MemorySource;

    type Out = MemorySink;

    ghost queue = { λ s. Some s.queue };

    ghost waiting = { λ s. Some (length s.queue) };

    ghost over = { λ s. s.queue ≡ [] };

    ghost faults = { λ s. s.calls.faults };

    ghost broken = { λ s. s.calls.broken };

    ghost waiting_is_length = { λ _. refl };

    fn listen(&mut self, _port: u16) -> Result<(), Failed>
        ensures planned { IsErr result ↔ FailsNext self.old.calls }
        ensures failed { OnErr result (self.new ≡ record self.old { calls = after_failed_call self.old.calls }) }
        ensures ok { OnOk result (self.new ≡ record self.old { calls = after_call self.old.calls }) }
        ensures never_falls { self.old.calls.faults ≤ self.new.calls.faults }
    {
        if self.plan.is_next_to_fail() {
            self.plan.count_failed();
            return Err(Failed);
        }
        self.plan.count();
        Ok(())
    }

    fn accept(&mut self, _alloc: Global) -> Accepted<MemorySource, MemorySink>
        ensures planned { (result ≡ Accepted.Failed) ↔ FailsNext self.old.calls }
        ensures failed { result ≡ Accepted.Failed →
            self.new ≡ record self.old { calls = after_failed_call self.old.calls } }

        // Else it gives the first connection, and is closed if there is none.
        ensures closed { result ≡ Accepted.Closed → self.old.queue ≡ [] }
        ensures taken { self.old.queue ≡ connections_of result ++ self.new.queue }
        ensures calls { result ≢ Accepted.Failed → self.new.calls ≡ after_call self.old.calls }
        ensures memory { result ≢ Accepted.NoMemory }

        ensures never_falls { self.old.calls.faults ≤ self.new.calls.faults }
    {
        if self.plan.is_next_to_fail() {
            self.plan.count_failed();
            return Accepted::Failed;
        }
        self.plan.count();
        match self.queue.pop_front() {
            Some((input, output)) => Accepted::Conn(input, output),
            None => Accepted::Closed,
        }
    }
}
