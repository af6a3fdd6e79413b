//! How a lock is made and closed, and how passes are made and taken in.
ghost use Rattle.std.specs.Prelude.{◌≡◌, ◌+◌, ◌<◌, ◌^◌, ◌-◌, [], ◌∷◌, length, slice_index, Some, IfOk, IfErr};
ghost use mathlib.Core.List.{IsPrefix};
ghost use Rattle.tree_lock.specs.Entries.{AllOfNumber};
ghost use Rattle.tree_lock.specs.Closing.{TakesIn, IsClosed};

use crate::parts::{Doorman, Pass, TreeLock};
use crate::recorded::Recorded;
use crate::rule::{LockTable, LookStep, MakeStep, RetireStep, TICKETS};
use atomic_table::Refused;
use std::alloc::{AllocFailed, Global};
use std::snapshot::Snapshot;

// The words of the table before a ticket is drawn.
fn first_words() -> [u64; 64]
    ensures { (length result ≡ 64) × (slice_index result 0 ≡ 0) × (slice_index result 16 ≡ 0) }
{
    [0; 64]
}

// The slot of a new table, or else the value.
fn one_slot<T>(alloc: Global, value: T) -> Result<Vec<Option<T>>, T>
    ensures ok { IfOk result (λ v. v.items ≡ Some value ∷ []) }
    ensures err { IfErr result (λ v. v ≡ value) }
{
    let mut slots = Vec::new(alloc);
    match slots.push(Some(value)) {
        Ok(()) => Ok(slots),
        Err(failed) => {
            let AllocFailed { value } = failed;
            let Some(value) = value else { unreachable!() };
            slots.destroy_empty();
            Err(value)
        }
    }
}

// The value of the one slot.
fn from_slot<T>(mut slots: Vec<Option<T>>) -> T
    requires { (value : T) × (slots.items ≡ Some value ∷ []) }
    ensures { slots.items ≡ Some result ∷ [] }
{
    let Some(Some(value)) = slots.pop() else {
        unreachable!()
    };
    slots.destroy_empty();
    value
}

impl<V: Recorded> TreeLock<V> {
    /// A lock over a value, and its doorman. If memory runs out, the value comes back.
    pub fn new(alloc: Global, value: V) -> Result<(TreeLock<V>, Doorman<V>), V>
        requires { AllOfNumber 0 (V.entries value) }
        ensures ok { IfOk result (λ r. r.1 ≡ record { lock = r.0; seen = V.entries value; opening = V.entries value; made = 0; out = 0; retired = [] }) }
        ensures err { IfErr result (λ v. v ≡ value) }
    {
        let about = Snapshot::of(&value);
        let slots = one_slot(alloc, value)?;
        match LockTable::<V>::new(alloc, &first_words(), slots, &about) {
            Ok((table, seat)) => Ok((
                TreeLock { table },
                Doorman {
                    seat,
                    made: 0,
                    out: 0,
                },
            )),
            Err(Refused { slots }) => Err(from_slot(slots)),
        }
    }

    /// A pass with a new number, from 1. It has seen what the doorman has.
    pub fn pass(&self, door: &mut Doorman<V>) -> Pass<V>
        requires lock { door.old.lock ≡ self.now }
        requires room { door.old.made < 2 ^ 64 - 1 }
        ensures pass { result ≡ record { lock = self.now; number = door.old.made + 1; seen = door.old.seen; own = []; turns = 0 } }
        ensures opened { IsPrefix door.old.opening door.old.seen }
        ensures door { door.new ≡ record door.old { made = door.old.made + 1; out = door.old.out + 1 } }
    {
        let seat = self.table.shared.split_seat::<MakeStep>(&mut door.seat);
        door.made += 1;
        door.out += 1;
        Pass {
            seat,
            number: door.made,
            turns: 0,
        }
    }

    /// Takes a pass in. The doorman has then seen all that it had seen, and knows its own entries.
    pub fn retire(&self, door: &mut Doorman<V>, pass: Pass<V>)
        requires door { door.old.lock ≡ self.now }
        requires pass { pass.lock ≡ self.now }
        ensures { TakesIn pass door.old door.new }
    {
        self.table
            .shared
            .join_seat::<RetireStep>(&mut door.seat, pass.into_seat());
        self.table.shared.load::<LookStep>(&mut door.seat, TICKETS);
        door.out -= 1;
    }

    /// The value of a lock whose passes were all taken in.
    pub fn close(self, door: Doorman<V>) -> V
        requires lock { door.lock ≡ self }
        requires all { door.out ≡ 0 }
        ensures { IsClosed door (V.entries result) }
    {
        let TreeLock { table } = self;
        let mut closed = table.close_with(door.into_seat());
        let Some(value) = closed.take(0) else {
            unreachable!()
        };
        closed.free();
        value
    }
}

impl<V: Recorded> Doorman<V> {
    /// How many passes were made and not taken in.
    pub fn out(&self) -> u64
        ensures { result ≡ self.now.out }
    {
        self.out
    }

    /// How many passes were made.
    pub fn pass_count(&self) -> u64
        ensures { result ≡ self.now.made }
    {
        self.made
    }
}

impl<V: Recorded> Pass<V> {
    pub fn number(&self) -> u64
        ensures { result ≡ self.now.number }
    {
        self.number
    }
}
