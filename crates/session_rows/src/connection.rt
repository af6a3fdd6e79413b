//! Connections that say the steps of a board.

ghost use Rattle.std.specs.Prelude.{◌≡◌, ◌≤◌, None, IfOk, OnOk, OnErr, length, is_err};
ghost use Rattle.pcfs_ports.specs.Faults.{HasRisen, raise};

use crate::board::{Board, Taken, Turn};
use bl_syntax::Numbers;
use pcfs_ports::{Accepted, Failed, Listener, Sink, Source};
use std::alloc::Global;
use std::thread;

/// How often a connection looks whether it is its step, before it gives up.
const LOOKS: u32 = 20_000_000;

// Puts the first of the bytes into the buffer, and returns how many.
fn give(bytes: &[u8], buf: &mut [u8]) -> usize
    ensures some { result ≤ length bytes.now }
    ensures fits { result ≤ length buf.new }
{
    let count = bytes.len().min(buf.len());
    buf[..count].copy_from_slice(&bytes[..count]);
    count
}

/// Gives the lines of one connection, each when it is its step. It does not tell what it has.
#[derive(Drop)]
pub struct RowSource<'b> {
    board: &'b Board,
    connection: u64,
    step: usize,
    given: usize,
    faults: u64,
    // Whether the last read failed.
    broken: bool,
}

impl<'b> RowSource<'b> {
    // How many bytes of the line of the step after so many were given.
    fn given_of(&self, made: usize) -> usize {
        if self.step == made { self.given } else { 0 }
    }

    // Whether it is its step and the line was not all given, or the step has no line; or no step is left.
    fn is_ready(&self) -> bool {
        match self.board.next_step() {
            Some((made, step)) => {
                if step.connection != self.connection {
                    return false;
                }
                step.turn == Turn::ReadFails
                    || step.turn == Turn::Ends
                    || self.given_of(made) < step.line.len()
            }
            None => true,
        }
    }

    // Waits until it is ready, and returns whether it is.
    fn waits(&self) -> bool {
        for _ in 0..LOOKS {
            if self.is_ready() {
                return true;
            }
            thread::yield_now();
        }
        false
    }

    // Gives bytes of the line of the step after so many.
    fn give_line(&mut self, made: usize, line: &[u8], buf: &mut [u8]) -> usize
        ensures some { result ≤ length buf.new }
        ensures same { self.new.faults ≡ self.old.faults }
        ensures broken { self.new.broken ≡ self.old.broken }
    {
        let at = self.given_of(made).min(line.len());
        let count = give(&line[at..], buf);
        self.step = made;
        self.given = at + count;
        count
    }

    // Gives bytes of its line, or tells that there are none, or fails.
    fn take_step(&mut self, buf: &mut [u8]) -> Result<usize, Failed>
        ensures bound { IfOk result (λ count. count ≤ length buf.new) }
        ensures steady { OnOk result (self.new.faults ≡ self.old.faults) }
        ensures risen { OnErr result (HasRisen self.old.faults self.new.faults) }
        ensures never_falls { self.old.faults ≤ self.new.faults }
        ensures by_one { OnErr result (self.new.faults ≡ raise self.old.faults) }
        ensures broken { self.new.broken ≡ is_err result }
    {
        self.broken = false;
        let board = self.board;
        let (made, step) = match board.next_step() {
            Some((made, step)) => (made, step),
            None => return Ok(0),
        };
        match step.turn {
            Turn::ReadFails => {
                board.advance();
                self.faults = self.faults.saturating_add(1);
                self.broken = true;
                Err(Failed)
            }
            Turn::Ends => {
                board.advance();
                Ok(0)
            }
            Turn::Replied | Turn::WriteFails => {
                board.clock.set(step.second);
                Ok(self.give_line(made, step.line.as_slice(), buf))
            }
        }
    }
}

impl<'b> Source for RowSource<'b> {
    ghost left = { λ _. None };

    ghost faults = { λ s. s.faults };

    ghost broken = { λ s. s.broken };

    fn read(&mut self, buf: &mut [u8]) -> Result<usize, Failed> {
        self.broken = false;
        if self.board.goes_on_after_fault(self.connection) {
            return Ok(0);
        }
        if !self.waits() {
            self.board.give_up();
            return Ok(0);
        }
        self.take_step(buf)
    }
}

/// Compares what a connection is told with what it is to be told. It does not tell what it holds.
#[derive(Drop)]
pub struct RowSink<'b> {
    board: &'b Board,
    connection: u64,
    faults: u64,
    // Whether the last write failed.
    broken: bool,
}

impl<'b> RowSink<'b> {
    // Waits until it is its step, and returns what becomes of the bytes.
    fn offer(&self, piece: &[u8]) -> Taken {
        for _ in 0..LOOKS {
            let taken = self.board.take_reply(self.connection, piece);
            if taken != Taken::NotYet {
                return taken;
            }
            thread::yield_now();
        }
        Taken::NotYet
    }
}

impl<'b> Sink for RowSink<'b> {
    ghost held = { λ _. None };

    ghost faults = { λ s. s.faults };

    ghost broken = { λ s. s.broken };

    fn write(&mut self, piece: &[u8]) -> Result<usize, Failed> {
        self.broken = false;
        if self.board.goes_on_after_fault(self.connection) {
            return Ok(piece.len());
        }
        match self.offer(piece) {
            Taken::Replied => Ok(piece.len()),
            Taken::Fails => {
                self.faults = self.faults.saturating_add(1);
                self.broken = true;
                Err(Failed)
            }
            Taken::NotYet => {
                self.board.give_up();
                Ok(piece.len())
            }
        }
    }
}

/// The connections of a board, by their numbers. It fails at the calls, of `listen` and `accept` together, that are to fail.
#[derive(Drop)]
pub struct RowListener<'b> {
    board: &'b Board,
    accepted: u64,
    count: u64,
    failing: Numbers,
    calls: u32,
    faults: u64,
    // Whether the last call failed.
    broken: bool,
}

impl<'b> RowListener<'b> {
    /// So many connections, and the numbers, from 0, of the calls that fail.
    pub fn new(board: &'b Board, count: u64, failing: Numbers) -> RowListener<'b> {
        RowListener {
            board,
            accepted: 0,
            count,
            failing,
            calls: 0,
            faults: 0,
            broken: false,
        }
    }

    // Whether the next call fails. It is counted.
    fn is_to_fail(&mut self) -> bool
        ensures same { self.new.faults ≡ self.old.faults }
        ensures broken { self.new.broken ≡ result }
    {
        let fails = self.failing.as_slice().contains(&self.calls);
        self.calls = self.calls.saturating_add(1);
        self.broken = fails;
        fails
    }
}

impl<'b> Listener for RowListener<'b> {
    type In = RowSource<'b>;

    type Out = RowSink<'b>;

    ghost queue = { λ _. None };

    ghost waiting = { λ _. None };

    ghost over = { λ _. Unit {0} };

    ghost faults = { λ s. s.faults };

    ghost broken = { λ s. s.broken };

    ghost waiting_is_length = { λ _. tt };

    fn listen(&mut self, _port: u16) -> Result<(), Failed> {
        if self.is_to_fail() {
            self.faults = self.faults.saturating_add(1);
            return Err(Failed);
        }
        Ok(())
    }

    fn accept(&mut self, _alloc: Global) -> Accepted<RowSource<'b>, RowSink<'b>> {
        if self.is_to_fail() {
            self.faults = self.faults.saturating_add(1);
            return Accepted::Failed;
        }
        if self.count <= self.accepted {
            return Accepted::Closed;
        }
        self.accepted += 1;
        let input = RowSource {
            board: self.board,
            connection: self.accepted,
            step: 0,
            given: 0,
            faults: 0,
            broken: false,
        };
        let output = RowSink {
            board: self.board,
            connection: self.accepted,
            faults: 0,
            broken: false,
        };
        Accepted::Conn(input, output)
    }
}
