//! Tables of modes as data: what each table of a file comes to. `tests/modes.py` compares it with a plain model.
//!
//! For each table it prints its statements, or its fault, and then each permission that the table allows, for which the verifier
//! has to accept the proof that is given.
#![tactic(auto)]

mod tables;

use bl_syntax::{Bytes, NoMemory};
use pcfs_ports::{StdSink, write_all};
use std::io::{self, ErrorKind};
use std::process::ExitCode;
use std::rt::Files;
use std::{env, fs};
use tables::write_tables;

/// Why the files were not all read.
#[derive(Debug, Drop)]
enum Stop {
    /// A file or the words cannot be read, or the output failed.
    Failed,
    /// There was no memory.
    NoMemory,
}

impl From<io::Error> for Stop {
    fn from(fault: io::Error) -> Stop {
        match fault.kind() {
            ErrorKind::OutOfMemory => Stop::NoMemory,
            _ => Stop::Failed,
        }
    }
}

impl From<NoMemory> for Stop {
    fn from(_refused: NoMemory) -> Stop {
        Stop::NoMemory
    }
}

// Writes to the standard output.
fn write_out<R: Print>(rt: &R, text: &[u8]) -> Result<(), Stop> {
    match write_all(&mut StdSink::new(io::writer(rt)), text) {
        Ok(()) => Ok(()),
        Err(_) => Err(Stop::Failed),
    }
}

// Tells what the tables of the files that the words name come to.
fn run_files<R: env::Env + Files + Print + AllocGlobal>(rt: &R) -> Result<(), Stop> {
    for name in env::args(rt)?.skip(1) {
        let text = fs::read_to_string(rt, name.as_str())?;
        let mut out = Bytes::new(rt.alloc());
        write_tables(rt.alloc(), text.as_bytes(), &mut out)?;
        write_out(rt, out.as_slice())?;
    }
    Ok(())
}

fn main(rt: HostRuntime) -> ExitCode {
    match run_files(&rt) {
        Ok(()) => ExitCode::from(0),
        Err(Stop::Failed) => ExitCode::from(2),
        Err(Stop::NoMemory) => ExitCode::from(9),
    }
}
