//! Why a command ends early: its status, and one line that says what is wrong and where.

use bl_syntax::NoMemory;
use std::alloc::{AllocError, AllocFailed};

/// All was done.
pub const DONE: u8 = 0;

/// A procap was denied, or there is no proof.
pub const NO_RIGHT: u8 = 1;

/// It cannot be done as things are: no such file, it exists, ..
pub const REFUSED: u8 = 2;

/// The words are wrong.
pub const BAD_WORDS: u8 = 3;

/// A file of this machine cannot be read or written.
pub const NO_FILE: u8 = 4;

/// A line of a file is wrong, or a text is no statement.
pub const BAD_LINE: u8 = 5;

/// The output failed.
pub const WRITE_FAULT: u8 = 6;

/// The server was not reached, broke off, or is none of PCFS.
pub const NO_SERVER: u8 = 7;

/// There is no login, or the server does not accept it.
pub const NO_LOGIN: u8 = 8;

/// The server is full, stopped or without memory; or this machine is without memory.
pub const SERVER_FAILS: u8 = 9;

/// It was interrupted.
pub const INTERRUPTED: u8 = 130;

/// That the server refuses an operation: by which number, and whether the operation may have been done before, in a session
/// that broke off.
#[derive(Drop)]
pub struct Refusal {
    pub number: u8,
    pub again: bool,
    pub words: String,
}

/// Why a command ends early.
#[derive(Drop)]
pub enum Stop {
    /// There is no right to it, as these words say.
    NoRight(String),
    /// The server refuses it.
    Refused(Refusal),
    /// It ends with this status, and these words.
    Ended(u8, String),
    /// There is no memory here.
    NoMemory,
}

impl Stop {
    /// The status with which the command ends.
    pub fn status(&self) -> u8 {
        match self {
            Stop::NoRight(_) => NO_RIGHT,
            Stop::Refused(_) => REFUSED,
            Stop::Ended(status, _) => *status,
            Stop::NoMemory => SERVER_FAILS,
        }
    }

    /// What is wrong, and where.
    pub fn words(&self) -> &str {
        match self {
            Stop::NoRight(words) => words.as_str(),
            Stop::Refused(refusal) => refusal.words.as_str(),
            Stop::Ended(_, words) => words.as_str(),
            Stop::NoMemory => "out of memory",
        }
    }

    /// The same, with more words at the end, if there is memory for them.
    pub fn with(self, more: &str) -> Stop {
        match self {
            Stop::NoRight(words) => Stop::NoRight(longer(words, more)),
            Stop::Refused(refusal) => Stop::Refused(Refusal {
                number: refusal.number,
                again: refusal.again,
                words: longer(refusal.words, more),
            }),
            Stop::Ended(status, words) => Stop::Ended(status, longer(words, more)),
            Stop::NoMemory => Stop::NoMemory,
        }
    }

    /// Whether the server refuses by this number.
    pub fn is_refused(&self, number: u8) -> bool {
        match self {
            Stop::Refused(refusal) => refusal.number == number,
            _ => false,
        }
    }

    /// Whether the server refuses by this number what may have been done before.
    pub fn is_refused_again(&self, number: u8) -> bool {
        match self {
            Stop::Refused(refusal) => refusal.number == number && refusal.again,
            _ => false,
        }
    }

    /// Whether there is no right to it.
    pub fn is_no_right(&self) -> bool {
        matches!(self, Stop::NoRight(_))
    }
}

fn longer(words: String, more: &str) -> String {
    let mut words = words;
    let _ = words.push_str(more);
    words
}

impl From<NoMemory> for Stop {
    fn from(_refused: NoMemory) -> Stop {
        Stop::NoMemory
    }
}

impl From<AllocError> for Stop {
    fn from(_refused: AllocError) -> Stop {
        Stop::NoMemory
    }
}

impl<T: Drop> From<AllocFailed<T>> for Stop {
    fn from(_refused: AllocFailed<T>) -> Stop {
        Stop::NoMemory
    }
}
