//! What the connections of a case say and are told, in one order for all of them.

use bl_syntax::{Bytes, NoMemory};
use pcfs_ports::SetClock;
use std::alloc::Global;
use std::sync::atomic::{AtomicBool, AtomicUsize, Ordering};

/// What becomes of a connection at a step.
#[derive(Clone, Copy, PartialEq, Eq)]
pub enum Turn {
    /// It says its line, and is told the reply.
    Replied,
    /// It says its line, and the write of the reply fails.
    WriteFails,
    /// Its read fails.
    ReadFails,
    /// Its input ends.
    Ends,
}

impl Turn {
    /// Whether its session is over then, by a fault.
    pub fn is_fault(self) -> bool {
        self == Turn::WriteFails || self == Turn::ReadFails
    }
}

/// What one connection says, and what it is told then.
#[derive(Drop)]
pub struct Step {
    /// The number of the connection, from 1.
    pub connection: u64,
    /// What the clock shows from here on.
    pub second: i64,
    /// The line with its end, or nothing if it only is told something.
    pub line: Bytes,
    /// What it is told, with its end.
    pub reply: Bytes,
    /// What becomes of the connection.
    pub turn: Turn,
}

/// What becomes of bytes that a connection is told.
#[derive(Clone, Copy, PartialEq, Eq)]
pub enum Taken {
    /// They were taken.
    Replied,
    /// Their write fails.
    Fails,
    /// It is not the connection's step.
    NotYet,
}

/// How the connections did.
#[derive(Clone, Copy, PartialEq, Eq)]
pub enum Outcome {
    /// Each was told what it was to be told.
    AsWanted,
    /// At the step of this number, from 1, something else was told.
    Differs(usize),
    /// A connection waited in vain for its step. So many steps were made.
    InVain(usize),
}

/// The steps of all connections, how many were made, and the clock.
#[derive(Drop)]
pub struct Board {
    pub clock: SetClock,
    steps: Vec<Step>,
    made: AtomicUsize,
    first_wrong: AtomicUsize,
    is_in_vain: AtomicBool,
}

impl Board {
    /// There is no step.
    pub fn new(alloc: Global) -> Board {
        Board {
            clock: SetClock::new(0),
            steps: Vec::new(alloc),
            made: AtomicUsize::new(0),
            first_wrong: AtomicUsize::new(0),
            is_in_vain: AtomicBool::new(false),
        }
    }

    /// Adds a step after the others.
    pub fn add(&mut self, step: Step) -> Result<(), NoMemory> {
        self.steps.push(step)?;
        Ok(())
    }

    /// The next step, with how many come before it; none if all were made.
    pub fn next_step(&self) -> Option<(usize, &Step)> {
        let made = self.made.load(Ordering::SeqCst);
        match self.steps.get(made) {
            Some(step) => Some((made, step)),
            None => None,
        }
    }

    /// The next step was made.
    pub fn advance(&self) {
        self.made.fetch_add(1, Ordering::SeqCst);
    }

    /// Somebody waited in vain.
    pub fn give_up(&self) {
        self.is_in_vain.store(true, Ordering::SeqCst);
    }

    // Notes that the step after so many is not as wanted.
    fn note_wrong(&self, made: usize) {
        if self.first_wrong.load(Ordering::SeqCst) == 0 {
            self.first_wrong
                .store(made.saturating_add(1), Ordering::SeqCst);
        }
    }

    /// Whether a session of this connection goes on after a fault. It is noted.
    pub fn goes_on_after_fault(&self, connection: u64) -> bool {
        let made = self.made.load(Ordering::SeqCst);
        let goes_on = self.steps.iter().take(made).any(|step| step.connection == connection
            && step.turn.is_fault());
        if goes_on {
            self.note_wrong(made);
        }
        goes_on
    }

    // Makes a step at which a connection is told something.
    fn make_step(&self, made: usize, step: &Step, reply: &[u8]) -> Taken {
        match step.turn {
            Turn::WriteFails => {
                self.advance();
                return Taken::Fails;
            }
            Turn::Replied => {}
            Turn::ReadFails | Turn::Ends => self.note_wrong(made),
        }
        if step.reply.as_slice() != reply {
            self.note_wrong(made);
        }
        self.advance();
        Taken::Replied
    }

    /// Takes what a connection is told, if it is its step, or if no step is left, when it is told too much.
    pub fn take_reply(&self, connection: u64, reply: &[u8]) -> Taken {
        match self.next_step() {
            Some((made, step)) => {
                if step.connection != connection {
                    return Taken::NotYet;
                }
                self.make_step(made, step, reply)
            }
            None => {
                self.note_wrong(self.steps.len());
                Taken::Replied
            }
        }
    }

    /// How the connections did.
    pub fn outcome(&self) -> Outcome {
        let first_wrong = self.first_wrong.load(Ordering::SeqCst);
        let made = self.made.load(Ordering::SeqCst);
        if first_wrong != 0 {
            return Outcome::Differs(first_wrong);
        }
        if self.is_in_vain.load(Ordering::SeqCst) || made != self.steps.len() {
            return Outcome::InVain(made);
        }
        Outcome::AsWanted
    }
}
