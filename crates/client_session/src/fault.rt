//! Why a session does not go on.

use bl_syntax::NoMemory;
use client_words::{NO_SERVER, Stop};
use std::alloc::{AllocError, AllocFailed, Global};
use std::io::{Error, ErrorKind};

/// Why a session does not go on.
#[derive(Drop)]
pub enum Fault {
    /// The connection failed, or ended before a reply did, as these words say.
    Broken(String),
    /// The command ends.
    Stop(Stop),
}

impl From<Stop> for Fault {
    fn from(stop: Stop) -> Fault {
        Fault::Stop(stop)
    }
}

impl From<NoMemory> for Fault {
    fn from(_refused: NoMemory) -> Fault {
        Fault::Stop(Stop::NoMemory)
    }
}

impl From<AllocError> for Fault {
    fn from(_refused: AllocError) -> Fault {
        Fault::Stop(Stop::NoMemory)
    }
}

impl<T: Drop> From<AllocFailed<T>> for Fault {
    fn from(_refused: AllocFailed<T>) -> Fault {
        Fault::Stop(Stop::NoMemory)
    }
}

/// What the system says of a fault, without its number.
pub fn system_words(alloc: Global, fault: &Error) -> Result<String, AllocError> {
    let text = fault.to_string(alloc)?;
    match text.as_str().split_once(" (os error ") {
        Some((words, _)) => String::from_str(alloc, words),
        None => String::from_str(alloc, text.as_str()),
    }
}

/// That the connection broke off by this.
pub fn broken(alloc: Global, words: &str) -> Fault {
    match String::from_str(alloc, words) {
        Ok(words) => Fault::Broken(words),
        Err(_) => Fault::Stop(Stop::NoMemory),
    }
}

fn three(alloc: Global, before: &str, middle: &str, after: &str) -> Result<String, AllocError> {
    let mut words = String::from_str(alloc, before)?;
    words.push_str(middle)?;
    words.push_str(after)?;
    Ok(words)
}

/// That the connection broke off by a fault of the system; `before` and `after` stand round the seconds that a call may take, if
/// it took longer.
pub fn broken_by(alloc: Global, fault: &Error, before: &str, seconds: &str, after: &str) -> Fault {
    let words = match fault.kind() {
        ErrorKind::WouldBlock | ErrorKind::TimedOut => three(alloc, before, seconds, after),
        _ => system_words(alloc, fault),
    };
    match words {
        Ok(words) => Fault::Broken(words),
        Err(_) => Fault::Stop(Stop::NoMemory),
    }
}

/// That the command ends, since what answers there is no server of PCFS.
pub fn no_server(alloc: Global, before: &str, middle: &str, after: &str) -> Stop {
    match three(alloc, before, middle, after) {
        Ok(words) => Stop::Ended(NO_SERVER, words),
        Err(_) => Stop::NoMemory,
    }
}
