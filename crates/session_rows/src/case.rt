//! What the rows of a case give and want: an operator's script, what connections say and are told, and what another script
//! finds then.

use crate::board::{Board, Step, Turn};
use crate::command::Command;
use crate::plans::Plans;
use bl_syntax::{Bytes, NoMemory, copy_bytes};
use std::alloc::{AllocError, AllocFailed, Global};

/// Why a case was not run.
#[derive(Clone, Copy, Debug, PartialEq, Eq)]
pub enum RowFault {
    /// A row is none of the rows, or the secrets are bad.
    BadRow,
    /// There was no memory.
    NoMemory,
}

impl From<NoMemory> for RowFault {
    fn from(_refused: NoMemory) -> RowFault {
        RowFault::NoMemory
    }
}

impl From<AllocError> for RowFault {
    fn from(_refused: AllocError) -> RowFault {
        RowFault::NoMemory
    }
}

impl<T: Drop> From<AllocFailed<T>> for RowFault {
    fn from(_refused: AllocFailed<T>) -> RowFault {
        RowFault::NoMemory
    }
}

/// What the rows of a case give and want.
#[derive(Drop)]
pub struct Case {
    pub secrets: Bytes,
    pub script: Bytes,
    pub command: Command,
    pub plans: Plans,
    pub nonces: Bytes,
    pub connections: u64,
    pub board: Board,
    /// The script that comes at last, and what it is to be told.
    pub checks: Bytes,
    pub wanted: Bytes,
    /// What the next step has so far.
    second: i64,
    connection: u64,
    line: Bytes,
}

// The number that a word writes.
fn number_of(word: &str) -> Result<u64, RowFault> {
    match word.parse::<u64>() {
        Ok(number) => Ok(number),
        Err(_) => Err(RowFault::BadRow),
    }
}

// Adds the bytes of hexadecimal digits.
fn add_bytes(alloc: Global, digits: &str, out: &mut Bytes) -> Result<(), RowFault> {
    match hex::decode(alloc, digits) {
        Ok(bytes) => Ok(out.extend(bytes.as_slice())?),
        Err(_) => Err(RowFault::BadRow),
    }
}

// The bytes of hexadecimal digits.
fn bytes_of(alloc: Global, digits: &str) -> Result<Bytes, RowFault> {
    match hex::decode(alloc, digits) {
        Ok(bytes) => Ok(Bytes::from_vec(bytes)),
        Err(_) => Err(RowFault::BadRow),
    }
}

// Adds the text as a line with its end.
fn add_line(text: &str, out: &mut Bytes) -> Result<(), RowFault> {
    out.extend(text.as_bytes())?;
    out.push(b'\n')?;
    Ok(())
}

// The text as a line with its end.
fn line_of(alloc: Global, text: &str) -> Result<Bytes, RowFault> {
    let mut line = Bytes::new(alloc);
    match add_line(text, &mut line) {
        Ok(()) => Ok(line),
        Err(fault) => Err(fault),
    }
}

impl Case {
    /// A case that gives nothing and wants nothing.
    pub fn new(alloc: Global) -> Case {
        Case {
            secrets: Bytes::new(alloc),
            script: Bytes::new(alloc),
            command: Command::new(alloc),
            plans: Plans::new(alloc),
            nonces: Bytes::new(alloc),
            connections: 0,
            board: Board::new(alloc),
            checks: Bytes::new(alloc),
            wanted: Bytes::new(alloc),
            second: 0,
            connection: 0,
            line: Bytes::new(alloc),
        }
    }

    // One connection more. Its nonce has this number in each of its bytes.
    fn add_connection(&mut self, number: &str) -> Result<(), RowFault> {
        match number.parse::<u8>() {
            Ok(byte) => self.nonces.extend(&[byte; 16])?,
            Err(_) => return Err(RowFault::BadRow),
        }
        self.connections = self.connections.saturating_add(1);
        Ok(())
    }

    // The next step is of this connection, which says no line.
    fn begin_step(&mut self, number: &str) -> Result<(), RowFault> {
        self.connection = number_of(number)?;
        self.line.clear();
        Ok(())
    }

    // The next step is of this connection, which says a line.
    fn begin_line(&mut self, number: &str, line: &str) -> Result<(), RowFault> {
        self.begin_step(number)?;
        add_line(line, &mut self.line)
    }

    // The next step is of this connection, which says a line of so many bytes.
    fn begin_long_line(&mut self, text: &str) -> Result<(), RowFault> {
        let (number, count) = text.split_once(' ').ok_or(RowFault::BadRow)?;
        self.begin_step(number)?;
        for _ in 0..number_of(count)? {
            self.line.push(b'x')?;
        }
        self.line.push(b'\n')?;
        Ok(())
    }

    // The next step is of this connection, which says bytes.
    fn begin_bytes(&mut self, alloc: Global, text: &str) -> Result<(), RowFault> {
        let (number, digits) = text.split_once(' ').ok_or(RowFault::BadRow)?;
        self.begin_step(number)?;
        add_bytes(alloc, digits, &mut self.line)
    }

    // Adds the step, with the bytes that are told.
    fn add_told(&mut self, alloc: Global, digits: &str) -> Result<(), RowFault> {
        match bytes_of(alloc, digits) {
            Ok(reply) => self.add_step(alloc, reply, Turn::Replied),
            Err(fault) => Err(fault),
        }
    }

    // Adds the step, with the line that is told.
    fn add_reply(&mut self, alloc: Global, text: &str) -> Result<(), RowFault> {
        match line_of(alloc, text) {
            Ok(reply) => self.add_step(alloc, reply, Turn::Replied),
            Err(fault) => Err(fault),
        }
    }

    // Adds the step at which a connection reads no line.
    fn add_last(&mut self, alloc: Global, number: &str, turn: Turn) -> Result<(), RowFault> {
        self.begin_step(number)?;
        self.add_step(alloc, Bytes::new(alloc), turn)
    }

    // Adds the step.
    fn add_step(&mut self, alloc: Global, reply: Bytes, turn: Turn) -> Result<(), RowFault> {
        match copy_bytes(alloc, self.line.as_slice()) {
            Ok(line) => Ok(
                self.board.add(Step {
                    connection: self.connection,
                    second: self.second,
                    line,
                    reply,
                    turn,
                })?,
            ),
            Err(_) => Err(RowFault::NoMemory),
        }
    }

    // Sets what the clock shows from the next step on.
    fn set_clock(&mut self, text: &str) -> Result<(), RowFault> {
        match text.parse::<i64>() {
            Ok(second) => {
                self.second = second;
                Ok(())
            }
            Err(_) => Err(RowFault::BadRow),
        }
    }

    // Adds what a row of a step says, by what it begins with.
    fn add_said(&mut self, alloc: Global, kind: &str, text: &str) -> Result<(), RowFault> {
        match kind {
            "+" => self.begin_step(text),
            "long" => self.begin_long_line(text),
            "say" => self.begin_bytes(alloc, text),
            _ => self.begin_line(kind, text),
        }
    }

    // Adds the step that a row ends, or what a row of the connections says.
    fn add_ended(&mut self, alloc: Global, kind: &str, text: &str) -> Result<(), RowFault> {
        match kind {
            "nonce" => self.add_connection(text),
            "at" => self.set_clock(text),
            "." => self.add_last(alloc, text, Turn::Ends),
            "!" => self.add_last(alloc, text, Turn::ReadFails),
            "<" => self.add_reply(alloc, text),
            "told" => self.add_told(alloc, text),
            "<!" => self.add_step(alloc, Bytes::new(alloc), Turn::WriteFails),
            _ => self.add_said(alloc, kind, text),
        }
    }

    /// Adds what a row gives or wants.
    pub fn add_row(&mut self, alloc: Global, row: &str) -> Result<(), RowFault> {
        let (kind, text) = row.split_once(' ').unwrap_or((row, ""));
        match kind {
            "secret" => add_line(text, &mut self.secrets),
            ">" => add_line(text, &mut self.script),
            "words" => self.command.add_words(alloc, text),
            "status" => self.command.set_status(text),
            "tells" => self.command.add_told(text),
            "fails" => self.plans.set(text),
            "then" => add_line(text, &mut self.checks),
            "is" => add_line(text, &mut self.wanted),
            "" | "#" => Ok(()),
            _ => self.add_ended(alloc, kind, text),
        }
    }

    /// Adds what no row says of the command.
    pub fn complete(&mut self, alloc: Global) -> Result<(), NoMemory> {
        match self.command.complete(alloc, self.connections) {
            Ok(()) => Ok(()),
            Err(_) => Err(NoMemory),
        }
    }
}
