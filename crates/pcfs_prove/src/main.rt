//! A prover for a user: `pcfs_prove STATEMENTS WHO FILE PERMISSION` finds a proof from the numbered statements in a file, and
//! writes the line that asks the server for its procap on the standard output, and what it is worth on the standard error.
//! If there is no proof, it says what is missing.
//!
//! It ends with status 0 if a proof was found; 1, there is none; 2, none was found within the limits; 3, the words are wrong;
//! 4, a file cannot be read; 5, a line of a file is wrong; 6, the output failed; 9, out of memory. What is written was read
//! again and checked by `proof_search`, whose contract says what it is.
#![tactic(auto)]

mod help;
mod reading;
mod remarks;
mod verify_line;
mod words;

use crate::help::{HELP, VERSION};
use crate::reading::{FileFault, read_facts, read_statements};
use crate::remarks::{put_cause, put_grant, put_suggestion};
use crate::verify_line::{VerifyLine, line_of};
use crate::words::{Task, Wish, WordFault, wish_of};
use bl_syntax::{Bytes, NoMemory, StatePreds};
use pcfs_ports::{Clock, StdSink, StdSource, SystemClock, read_to_end, write_all};
use proof_search::{Answer, Asked, Cause, Moments, Proved, find_missing, find_proof};
use proof_verifier::Cite;
use std::alloc::Global;
use std::io::{self, ErrorKind, Read};
use std::process::ExitCode;
use std::rt::{Files, Runtime};
use std::{env, fs};

/// A proof was found.
const FOUND: u8 = 0;

/// There is no proof.
const NONE: u8 = 1;

/// No proof was found within the limits.
const LIMITS: u8 = 2;

/// The words are wrong.
const BAD_WORDS: u8 = 3;

/// A file cannot be read.
const UNREADABLE: u8 = 4;

/// A line of a file is wrong.
const BAD_LINE: u8 = 5;

/// The output failed.
const WRITE_FAULT: u8 = 6;

/// There was no memory.
const OUT_OF_MEMORY: u8 = 9;

/// Why the run ends early.
#[derive(Clone, Copy, Debug)]
enum Stop {
    /// With this status, and nothing more to say.
    Status(u8),
    NoMemory,
}

impl From<NoMemory> for Stop {
    fn from(_refused: NoMemory) -> Stop {
        Stop::NoMemory
    }
}

// Writes a text to the standard output.
fn put_out<R: Print>(rt: &R, text: &[u8]) -> Result<(), Stop> {
    match write_all(&mut StdSink::new(io::writer(rt)), text) {
        Ok(()) => Ok(()),
        Err(_) => Err(Stop::Status(WRITE_FAULT)),
    }
}

// Writes a remark to the standard error. If that fails, it is dropped.
fn remark<R: Eprint>(rt: &R, text: &Bytes) {
    let _ = match std::str::from_utf8(text.as_slice()) {
        Ok(text) => eprintln!(rt; "{text}"),
        Err(_) => Ok(()),
    };
}

// The words after the program's name.
fn given_words<R: env::Env + AllocGlobal>(rt: &R) -> io::Result<Vec<String>> {
    Ok(env::args(rt)?.skip(1).collect(rt.alloc())?)
}

// The words after the program's name; none if they cannot be read.
fn words_of<R: env::Env + AllocGlobal>(rt: &R) -> Result<Vec<String>, Stop> {
    match given_words(rt) {
        Ok(words) => Ok(words),
        Err(fault) => match fault.kind() {
            ErrorKind::OutOfMemory => Err(Stop::NoMemory),
            _ => Ok(Vec::new(rt.alloc())),
        },
    }
}

// Says that a file cannot be read, unless there was no memory.
fn refuse_open<R: Eprint>(rt: &R, path: &str, kind: ErrorKind) -> Stop {
    match kind {
        ErrorKind::OutOfMemory => Stop::NoMemory,
        _ => {
            let _ = eprintln!(rt; "pcfs-prove: {path}: cannot be read");
            Stop::Status(UNREADABLE)
        }
    }
}

// The bytes of an open file.
fn bytes_in<R: Eprint + AllocGlobal, F: Read + Drop>(
    rt: &R,
    path: &str,
    file: F,
) -> Result<Bytes, Stop> {
    match read_to_end(rt.alloc(), &mut StdSource::new(file)) {
        Ok(bytes) => Ok(bytes),
        Err(_) => {
            let _ = eprintln!(rt; "pcfs-prove: {path}: cannot be read to its end");
            Err(Stop::Status(UNREADABLE))
        }
    }
}

// The bytes of a file.
fn bytes_of<R: Files + Eprint + AllocGlobal>(rt: &R, path: &str) -> Result<Bytes, Stop> {
    match fs::open(rt, path) {
        Ok(file) => bytes_in(rt, path, file),
        Err(fault) => Err(refuse_open(rt, path, fault.kind())),
    }
}

// Says which line of a file is wrong, and how.
fn refuse_file<R: Eprint>(rt: &R, path: &str, fault: FileFault) -> Stop {
    match fault {
        FileFault::Bad(_, _) => {
            let _ = eprintln!(rt; "pcfs-prove: {path} {fault}");
            Stop::Status(BAD_LINE)
        }
        FileFault::NoMemory => Stop::NoMemory,
    }
}

fn statements_of<R: Files + Eprint + AllocGlobal>(rt: &R, path: &str) -> Result<Vec<Cite>, Stop> {
    let bytes = bytes_of(rt, path)?;
    match read_statements(rt.alloc(), bytes.as_slice()) {
        Ok(statements) => Ok(statements),
        Err(fault) => Err(refuse_file(rt, path, fault)),
    }
}

fn facts_in<R: Files + Eprint + AllocGlobal>(rt: &R, path: &str) -> Result<StatePreds, Stop> {
    let bytes = bytes_of(rt, path)?;
    match read_facts(rt.alloc(), bytes.as_slice()) {
        Ok(facts) => Ok(facts),
        Err(fault) => Err(refuse_file(rt, path, fault)),
    }
}

fn facts_of<R: Files + Eprint + AllocGlobal>(
    rt: &R,
    path: Option<&str>,
) -> Result<StatePreds, Stop> {
    match path {
        Some(path) => facts_in(rt, path),
        None => Ok(StatePreds::new(rt.alloc())),
    }
}

// When the conditions have to hold: from the first moment that was asked for, or from now, to the last one.
fn moments_of<R: std::rt::Clock>(rt: &R, task: &Task<'_>) -> Moments {
    if task.any {
        return Moments::Some;
    }
    let from = match task.at {
        Some(second) => second,
        None => SystemClock::new(rt).now(),
    };
    match task.until {
        Some(second) => Moments::Each(from, second),
        None => Moments::Each(from, from),
    }
}

// Adds the line with its end.
fn add_line(told: &VerifyLine, out: &mut Bytes) -> Result<(), NoMemory> {
    out.extend(told.line.as_slice())?;
    out.push(b'\n')
}

// Writes the line.
fn put_line<R: Print + AllocGlobal>(rt: &R, told: &VerifyLine) -> Result<(), Stop> {
    let mut line = Bytes::new(rt.alloc());
    match add_line(told, &mut line) {
        Ok(()) => put_out(rt, line.as_slice()),
        Err(_) => Err(Stop::NoMemory),
    }
}

// Writes the line, and what its grant is worth.
fn write_found<R: Print + Eprint + AllocGlobal>(rt: &R, told: &VerifyLine) -> Result<u8, Stop> {
    put_line(rt, told)?;
    let mut text = Bytes::new(rt.alloc());
    match put_grant(&mut text, told.proved.checked.grant()) {
        Ok(()) => {
            remark(rt, &text);
            Ok(FOUND)
        }
        Err(_) => Err(Stop::NoMemory),
    }
}

// Adds why there is no proof, and what is missing.
fn put_missing(
    alloc: Global,
    out: &mut Bytes,
    statements: &Vec<Cite>,
    asked: &Asked,
    cause: Cause,
    steps: u64,
) -> Result<(), NoMemory> {
    put_cause(out, cause)?;
    match find_missing(alloc, statements.as_slice(), asked, steps)? {
        Some(suggestion) => put_suggestion(out, &suggestion),
        None => Ok(()),
    }
}

// The status if there is no proof.
fn status_of(cause: Cause) -> u8 {
    match cause {
        Cause::Exhausted => NONE,
        _ => LIMITS,
    }
}

// Says why there is no proof, and what is missing.
fn write_missing<R: Eprint + AllocGlobal>(
    rt: &R,
    statements: &Vec<Cite>,
    asked: &Asked,
    cause: Cause,
    steps: u64,
) -> Result<u8, Stop> {
    let mut text = Bytes::new(rt.alloc());
    match put_missing(rt.alloc(), &mut text, statements, asked, cause, steps) {
        Ok(()) => {
            remark(rt, &text);
            Ok(status_of(cause))
        }
        Err(_) => Err(Stop::NoMemory),
    }
}

// Writes the line of a proof; that there is none within the limits, if it does not read back.
fn write_proved<R: Print + Eprint + AllocGlobal>(
    rt: &R,
    statements: &Vec<Cite>,
    asked: &Asked,
    proved: &Proved,
    steps: u64,
) -> Result<u8, Stop> {
    match line_of(rt.alloc(), statements.as_slice(), asked, proved)? {
        Some(told) => write_found(rt, &told),
        None => write_missing(rt, statements, asked, Cause::Refused, steps),
    }
}

// Finds a proof, and writes what was found.
fn prove_asked<R: Print + Eprint + AllocGlobal>(
    rt: &R,
    statements: &Vec<Cite>,
    asked: &Asked,
    steps: u64,
) -> Result<u8, Stop> {
    match find_proof(rt.alloc(), statements.as_slice(), asked, steps)? {
        Answer::Found(proved) => write_proved(rt, statements, asked, &proved, steps),
        Answer::NotFound(cause) => write_missing(rt, statements, asked, cause, steps),
    }
}

fn prove_from<R: Runtime + AllocGlobal>(
    rt: &R,
    task: &Task<'_>,
    statements: &Vec<Cite>,
) -> Result<u8, Stop> {
    let facts = facts_of(rt, task.facts)?;
    let asked = Asked {
        goal: task.goal,
        moments: moments_of(rt, task),
        facts,
        leaves: !task.known,
    };
    prove_asked(rt, statements, &asked, task.steps)
}

fn prove<R: Runtime + AllocGlobal>(rt: &R, task: &Task<'_>) -> Result<u8, Stop> {
    let statements = statements_of(rt, task.statements)?;
    prove_from(rt, task, &statements)
}

// Says which word is wrong, and how. If that cannot be written, it is dropped.
fn refuse_words<R: Eprint>(rt: &R, fault: WordFault<'_>) -> u8 {
    let _ = match fault {
        WordFault::Lacks(wanted) => eprintln!(rt; "pcfs-prove: wanted {wanted}"),
        WordFault::Wrong(word, wanted) => eprintln!(rt; "pcfs-prove: {word}: wanted {wanted}"),
    };
    BAD_WORDS
}

// Does what the words ask for.
fn fulfil<R: Runtime + AllocGlobal>(rt: &R, wish: &Wish<'_>) -> Result<u8, Stop> {
    match wish {
        Wish::Help => {
            put_out(rt, HELP.as_bytes())?;
            Ok(FOUND)
        }
        Wish::Version => {
            put_out(rt, VERSION.as_bytes())?;
            Ok(FOUND)
        }
        Wish::Prove(task) => prove(rt, task),
        Wish::Bad(fault) => Ok(refuse_words(rt, *fault)),
    }
}

fn run<R: Runtime + AllocGlobal>(rt: &R) -> Result<u8, Stop> {
    let words = words_of(rt)?;
    match wish_of(rt.alloc(), &words) {
        Ok(wish) => fulfil(rt, &wish),
        Err(_) => Err(Stop::NoMemory),
    }
}

fn main(rt: HostRuntime) -> ExitCode {
    match run(&rt) {
        Ok(status) => ExitCode::from(status),
        Err(Stop::Status(status)) => ExitCode::from(status),
        Err(Stop::NoMemory) => ExitCode::from(OUT_OF_MEMORY),
    }
}
