//! Canonical bytes as data: each file of rows that a word names is read, and for each row it is printed what reading its bytes
//! comes to, and whether they are written again. `stdout` was made by hand from the formats. `README.md` beside `src/` says what
//! the rows are.
#![tactic(auto)]

mod kinds;
mod rows;

use bl_syntax::NoMemory;
use hex::FromHexError;
use rows::run_row;
use std::alloc::{AllocError, AllocFailed};
use std::io::{self, ErrorKind};
use std::process::ExitCode;
use std::rt::Files;
use std::{env, fs};

/// Why not all rows were run.
#[derive(Debug, Drop)]
pub(crate) enum Stop {
    /// A file, the words or a row cannot be read, or the output failed.
    Failed,
    /// There was no memory.
    NoMemory,
}

impl From<io::Error> for Stop {
    fn from(fault: io::Error) -> Stop {
        match fault.kind() {
            ErrorKind::OutOfMemory => Stop::NoMemory,
            _ => Stop::Failed,
        }
    }
}

impl From<FromHexError> for Stop {
    fn from(_fault: FromHexError) -> Stop {
        Stop::Failed
    }
}

impl From<AllocError> for Stop {
    fn from(_refused: AllocError) -> Stop {
        Stop::NoMemory
    }
}

impl<T: Drop> From<AllocFailed<T>> for Stop {
    fn from(_refused: AllocFailed<T>) -> Stop {
        Stop::NoMemory
    }
}

impl From<NoMemory> for Stop {
    fn from(_refused: NoMemory) -> Stop {
        Stop::NoMemory
    }
}

// Runs the rows of the file of this name.
fn run_file<R: Files + Print + AllocGlobal>(rt: &R, name: &str) -> Result<(), Stop> {
    let rows = fs::read_to_string(rt, name)?;
    for row in rows.as_str().lines() {
        run_row(rt, row)?;
    }
    Ok(())
}

// Runs the files that the words name.
fn run_files<R: env::Env + Files + Print + AllocGlobal>(rt: &R) -> Result<(), Stop> {
    for name in env::args(rt)?.skip(1) {
        run_file(rt, name.as_str())?;
    }
    Ok(())
}

fn main(rt: HostRuntime) -> ExitCode {
    match run_files(&rt) {
        Ok(()) => ExitCode::from(0),
        Err(Stop::Failed) => ExitCode::from(2),
        Err(Stop::NoMemory) => ExitCode::from(9),
    }
}
