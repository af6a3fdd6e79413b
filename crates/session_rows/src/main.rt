//! Sessions over one store, as data: each file of rows that a word names is read. Of each of its cases an operator's script makes
//! the store, `pcfs_run::run` serves connections over it, which say their lines in the order of the rows, and another script
//! looks at what is kept.
//!
//! For each case it prints that it agrees, or where it differs, and it ends with status 1 if any differs. `README.md` beside
//! `src/` says what the rows are.
#![tactic(auto)]

mod board;
mod case;
mod command;
mod connection;
mod plans;
mod rows;
mod running;

use bl_syntax::Bytes;
use pcfs_ports::{StdSink, write_all};
use rows::run_rows;
use std::io::{self, Eprint, ErrorKind};
use std::process::ExitCode;
use std::rt::Files;
use std::sync::Wait;
use std::thread::Threads;
use std::{env, fs};

/// Why the files were not all run.
#[derive(Clone, Copy, Debug)]
enum Stop {
    /// A file or the words cannot be read, or the output failed.
    Failed,
    /// There was no memory.
    NoMemory,
}

impl From<io::Error> for Stop {
    fn from(fault: io::Error) -> Stop {
        match fault.kind() {
            ErrorKind::OutOfMemory => Stop::NoMemory,
            _ => Stop::Failed,
        }
    }
}

// Writes what was found to the standard output, and returns whether all agree.
fn write_out<R: Print>(rt: &R, text: &[u8], agree: bool) -> Result<bool, Stop> {
    match write_all(&mut StdSink::new(io::writer(rt)), text) {
        Ok(()) => Ok(agree),
        Err(_) => Err(Stop::Failed),
    }
}

// Runs the cases of these rows, and returns whether they all agree.
fn run_text<R: Print + Eprint + Threads + Wait + Sync + AllocGlobal>(
    rt: &R,
    rows: &str,
) -> Result<bool, Stop> {
    let mut report = Bytes::new(rt.alloc());
    match run_rows(rt, rows, &mut report) {
        Ok(agree) => write_out(rt, report.as_slice(), agree),
        Err(_) => Err(Stop::NoMemory),
    }
}

// Runs the cases of the file of this name, and returns whether they all agree.
fn run_file<R: Files + Print + Eprint + Threads + Wait + Sync + AllocGlobal>(
    rt: &R,
    name: &str,
) -> Result<bool, Stop> {
    let rows = fs::read_to_string(rt, name)?;
    run_text(rt, rows.as_str())
}

// The words after the program's name.
fn given_words<R: env::Env + AllocGlobal>(rt: &R) -> io::Result<Vec<String>> {
    Ok(env::args(rt)?.skip(1).collect(rt.alloc())?)
}

// Runs the files of these names, and returns whether all cases agree.
fn run_named<R: Files + Print + Eprint + Threads + Wait + Sync + AllocGlobal>(
    rt: &R,
    names: &Vec<String>,
) -> Result<bool, Stop> {
    let mut agree = true;
    for name in names.as_slice() {
        agree &= run_file(rt, name.as_str())?;
    }
    Ok(agree)
}

// Runs the files that the words name, and returns whether all cases agree.
fn run_files<R: env::Env + Files + Print + Eprint + Threads + Wait + Sync + AllocGlobal>(
    rt: &R,
) -> Result<bool, Stop> {
    let names = given_words(rt)?;
    run_named(rt, &names)
}

fn main(rt: HostRuntime) -> ExitCode {
    match run_files(&rt) {
        Ok(true) => ExitCode::from(0),
        Ok(false) => ExitCode::from(1),
        Err(Stop::Failed) => ExitCode::from(2),
        Err(Stop::NoMemory) => ExitCode::from(9),
    }
}
