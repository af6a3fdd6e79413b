//! A history for auditors: `pcfs_history AREA..` writes the events of areas and archives of a store, each with what its procaps
//! rest on: the issue, its proof, and the statements with who signed them.
//!
//! It ends with status 0 if all was written; 1, an area does not go on from the one before; 2, an area is damaged or not open;
//! 3, the words are wrong; 4, a file cannot be read; 5, a line of the secrets is wrong; 6, the output failed; 9, out of memory.
//! What is written is a definition of `history_text` over the history that was opened. The files are read, and nothing is
//! written or locked.
#![tactic(auto)]

ghost use Rattle.std.specs.Prelude.{◌≡◌, IfOk};

mod areas;
mod chain;
mod help;
mod words;
mod writing;

use crate::areas::{AreaFault, Opened, open_area, put_area_fault};
use crate::chain::{Seam, seam_between};
use crate::help::{HELP, VERSION};
use crate::words::{Asked, Question, Task, Wish, WordFault, put_word_fault, wish_of};
use crate::writing::{WriteFault, write_history, write_resting, write_who_may};
use access_history::History;
use bl_syntax::decimal::{put_counted, put_text};
use bl_syntax::{Bytes, NoMemory};
use pcfs_ports::{Clock, StdSink, SystemClock, write_all};
use std::env;
use std::io::{self, ErrorKind};
use std::process::ExitCode;
use std::rt::{Files, Runtime};

/// All was written.
const DONE: u8 = 0;

/// An area does not go on from the one before.
const BROKEN: u8 = 1;

/// An area is damaged or not open.
const UNOPENED: u8 = 2;

/// The words are wrong.
const BAD_WORDS: u8 = 3;

/// A file cannot be read.
const UNREADABLE: u8 = 4;

/// A line of the secrets is wrong.
const BAD_SECRETS: u8 = 5;

/// The output failed.
const WRITE_FAULT: u8 = 6;

/// There was no memory.
const OUT_OF_MEMORY: u8 = 9;

/// Why the run ends early.
#[derive(Debug, Drop)]
enum Stop {
    /// With this status; what there is to report was written.
    Status(u8),
    NoMemory,
}

impl From<NoMemory> for Stop {
    fn from(_refused: NoMemory) -> Stop {
        Stop::NoMemory
    }
}

impl From<WriteFault> for Stop {
    fn from(fault: WriteFault) -> Stop {
        match fault {
            WriteFault::Output => Stop::Status(WRITE_FAULT),
            WriteFault::NoMemory => Stop::NoMemory,
        }
    }
}

// Writes a text to the standard output.
fn put_out<R: Print>(rt: &R, text: &[u8]) -> Result<(), Stop> {
    match write_all(&mut StdSink::new(io::writer(rt)), text) {
        Ok(()) => Ok(()),
        Err(_) => Err(Stop::Status(WRITE_FAULT)),
    }
}

// Writes a remark to the standard error. If that fails, it is dropped.
fn remark<R: Eprint>(rt: &R, text: &Bytes) {
    let _ = match std::str::from_utf8(text.as_slice()) {
        Ok(text) => eprintln!(rt; "{text}"),
        Err(_) => Ok(()),
    };
}

// The words after the program's name.
fn words_of<R: env::Env + AllocGlobal>(rt: &R) -> Result<Vec<String>, Stop> {
    let mut words = Vec::new(rt.alloc());
    let given = match env::args(rt) {
        Ok(given) => given,
        Err(fault) if fault.kind() == ErrorKind::OutOfMemory => return Err(Stop::NoMemory),
        Err(_) => return Ok(words),
    };
    for word in given.skip(1) {
        match words.push(word) {
            Ok(()) => {}
            Err(_) => return Err(Stop::NoMemory),
        }
    }
    Ok(words)
}

// The status for a fault of an area.
fn status_of(fault: &AreaFault) -> u8 {
    match fault {
        AreaFault::Unreadable(_) | AreaFault::Marked(_) => UNREADABLE,
        AreaFault::BadSecrets(_, _) => BAD_SECRETS,
        AreaFault::Unopened(_) => UNOPENED,
        AreaFault::NoMemory => OUT_OF_MEMORY,
    }
}

// Reports why an area was not opened.
fn refuse_area<R: Eprint + AllocGlobal>(rt: &R, path: &str, fault: &AreaFault) -> Stop {
    let mut text = Bytes::new(rt.alloc());
    match put_area_fault(&mut text, path, fault) {
        Ok(true) => {
            remark(rt, &text);
            Stop::Status(status_of(fault))
        }
        _ => Stop::NoMemory,
    }
}

// Opens an area.
fn opened<R: Files + Eprint + AllocGlobal>(rt: &R, task: &Task, path: &str) -> Result<Opened, Stop>
    ensures { IfOk result (λ opened. opened.key ≡ opened.store.key) }
{
    let secrets = match &task.secrets {
        Some(path) => Some(path.as_str()),
        None => None,
    };
    match open_area(rt, path, secrets) {
        Ok(opened) => Ok(opened),
        Err(fault) => Err(refuse_area(rt, path, &fault)),
    }
}

// Writes how an area stands to the one before it, if it does not go on from it.
fn put_seam(
    out: &mut Bytes,
    path: &str,
    seam: Seam,
    before: &History,
    next: &History,
) -> Result<bool, NoMemory> {
    put_text(out, "pcfs-history: ")?;
    put_text(out, path)?;
    put_counted(out, ": it begins after event ", next.base().count())?;
    put_counted(out, ", the area before it ends with event ", before.count())?;
    match seam {
        Seam::GoesOn => Ok(false),
        Seam::Gap => {
            put_text(out, ": events are missing")?;
            Ok(true)
        }
        Seam::Overlap => {
            put_text(out, ": it does not go on from there")?;
            Ok(true)
        }
        Seam::Differs => {
            put_text(out, ", with another state")?;
            Ok(true)
        }
    }
}

// Whether an area goes on from the one before; if not, that is reported.
fn does_go_on<R: Eprint + AllocGlobal>(
    rt: &R,
    path: &str,
    before: &History,
    next: &History,
) -> Result<bool, Stop> {
    let mut text = Bytes::new(rt.alloc());
    let found = seam_between(rt.alloc(), before, next)?;
    if put_seam(&mut text, path, found, before, next)? {
        remark(rt, &text);
        return Ok(false);
    }
    Ok(true)
}

// Writes who may do what is asked.
fn answer_who_may<R: Print + std::rt::Clock + AllocGlobal>(
    rt: &R,
    task: &Task,
    question: &Question,
    history: &History,
) -> Result<(), Stop> {
    let clock = match task.at {
        Some(second) => second,
        None => SystemClock::new(rt).now(),
    };
    let mut output = StdSink::new(io::writer(rt));
    write_who_may(rt.alloc(), history, question, clock, task.json, &mut output)?;
    Ok(())
}

// Reports that no statement has the number.
fn refuse_statement<R: Eprint + AllocGlobal>(
    rt: &R,
    history: &History,
    statement: u32,
) -> Result<(), Stop> {
    let mut text = Bytes::new(rt.alloc());
    put_counted(
        &mut text,
        "pcfs-history: no statement has the number ",
        u64::from(statement),
    )?;
    put_counted(
        &mut text,
        " of --rests-on: there are ",
        history.statements().len() as u64,
    )?;
    remark(rt, &text);
    Err(Stop::Status(BAD_WORDS))
}

// Writes which issues rest on a statement.
fn answer_resting<R: Print + Eprint + AllocGlobal>(
    rt: &R,
    task: &Task,
    statement: u32,
    history: &History,
) -> Result<(), Stop> {
    if history.statement(statement).is_none() {
        return refuse_statement(rt, history, statement);
    }
    let mut output = StdSink::new(io::writer(rt));
    write_resting(rt.alloc(), history, statement, task.json, &mut output)?;
    Ok(())
}

// Writes what is asked of the last state.
fn answer<R: Runtime + AllocGlobal>(rt: &R, task: &Task, history: &History) -> Result<(), Stop> {
    match &task.asked {
        Asked::Events => Ok(()),
        Asked::WhoMay(question) => answer_who_may(rt, task, question, history),
        Asked::RestsOn(statement) => answer_resting(rt, task, *statement, history),
    }
}

// Whether the events are asked for.
fn are_events_asked(task: &Task) -> bool {
    match &task.asked {
        Asked::Events => true,
        _ => false,
    }
}

// Writes the rows of an area that are asked for.
fn write_rows<R: Print + AllocGlobal>(rt: &R, task: &Task, opened: &Opened) -> Result<(), Stop>
    requires { opened.now.key ≡ opened.now.store.key }
{
    if !are_events_asked(task) {
        return Ok(());
    }
    let mut output = StdSink::new(io::writer(rt));
    let history = opened.store.gate().history();
    write_history(
        rt.alloc(),
        history,
        opened.key.as_slice(),
        &task.filter,
        task.json,
        &mut output,
    )?;
    Ok(())
}

fn write_asked<R: Runtime + AllocGlobal>(rt: &R, task: &Task) -> Result<u8, Stop> {
    let mut status = DONE;
    let mut last: Option<Opened> = None;
    for path in task.areas.as_slice() {
        let next = opened(rt, task, path.as_str())?;
        if let Some(before) = &last {
            let end = before.store.gate().history();
            let begin = next.store.gate().history();
            if !does_go_on(rt, path.as_str(), end, begin)? {
                status = BROKEN;
            }
        }
        write_rows(rt, task, &next)?;
        last = Some(next);
    }
    if let Some(end) = &last {
        answer(rt, task, end.store.gate().history())?;
    }
    Ok(status)
}

// Reports which word is wrong, and how.
fn refuse_words<R: Eprint + AllocGlobal>(rt: &R, fault: &WordFault) -> Result<u8, Stop> {
    let mut text = Bytes::new(rt.alloc());
    put_word_fault(&mut text, fault)?;
    remark(rt, &text);
    Ok(BAD_WORDS)
}

fn run<R: Runtime + AllocGlobal>(rt: &R) -> Result<u8, Stop> {
    let words = words_of(rt)?;
    match wish_of(rt.alloc(), &words)? {
        Wish::Help => {
            put_out(rt, HELP.as_bytes())?;
            Ok(DONE)
        }
        Wish::Version => {
            put_out(rt, VERSION.as_bytes())?;
            Ok(DONE)
        }
        Wish::Write(task) => write_asked(rt, &task),
        Wish::Bad(fault) => refuse_words(rt, &fault),
    }
}

fn main(rt: HostRuntime) -> ExitCode {
    match run(&rt) {
        Ok(status) => ExitCode::from(status),
        Err(Stop::Status(status)) => ExitCode::from(status),
        Err(Stop::NoMemory) => ExitCode::from(OUT_OF_MEMORY),
    }
}
