//! The client for users: files on a server by their paths, procaps that are won when they are needed, and refusals in words.
//!
//! It ends with status 0 if all was done; else with one line on the standard error that says what is wrong and where, and the
//! status of that: 1, there is no right to it; 2, it cannot be done as things are; 3, the words are wrong; 4, a file of this machine
//! cannot be used; 5, a line of a file is wrong; 6, the output failed; 7, no server; 8, no login; 9, the server is full or fails, or
//! there is no memory; 130, it was interrupted.
//!
//! An interrupt ends the program at once. Whoever started it then runs it again with `PCFS_CLIENT_INTERRUPTED` in the environment: it
//! removes what was left in the middle.
#![tactic(auto)]

mod describing;
mod dialing;
mod files;
mod nodes;
mod others;
mod policies;
mod running;
mod user;

use crate::running::{clear_unfinished, run};
use client_commands::{Asked, Command, Options, asked_of};
use client_folder::messages::{ended, put};
use client_words::{BAD_WORDS, DONE, INTERRUPTED, Stop, without_controls};
use std::io::IsTerminal;
use std::process::ExitCode;
use std::{env, fs};

/// The variable that says that a command was interrupted.
const INTERRUPTED_RUN: &str = "PCFS_CLIENT_INTERRUPTED";

/// How long a reply may take after an interrupt, in milliseconds.
const CLEARING: u64 = 5_000;

// The words after the program's name.
fn words_of(rt: &HostRuntime) -> Result<Vec<String>, Stop> {
    let mut words = Vec::new(rt.alloc());
    let given = match env::args(rt) {
        Ok(given) => given,
        Err(_) => return Err(ended(rt.alloc(), BAD_WORDS, &["the words are no text"])),
    };
    for word in given.skip(1) {
        words.push(word)?;
    }
    Ok(words)
}

fn is_interrupted(rt: &HostRuntime) -> bool {
    match env::var(rt, INTERRUPTED_RUN) {
        Ok(value) => !value.is_empty(),
        Err(_) => false,
    }
}

// Removes what an interrupted command left. The line that said how much is done is taken away.
fn clear_interrupted(rt: &HostRuntime, options: Options, is_watched: bool) -> Stop {
    if is_watched {
        let _ = eprint!(rt; "\r\x1b[K");
    }
    let mut options = options;
    options.timeout.milliseconds = options.timeout.milliseconds.min(CLEARING);
    let _ = clear_unfinished(rt, &options);
    ended(rt.alloc(), INTERRUPTED, &["interrupted"])
}

// Does what is asked for; or, after an interrupt, removes what was left.
fn run_command(
    rt: &HostRuntime,
    options: Options,
    command: &Command,
    is_watched: bool,
) -> Result<(), Stop> {
    if is_interrupted(rt) {
        return Err(clear_interrupted(rt, options, is_watched));
    }
    match command {
        Command::Put { .. } => {
            let _ = clear_unfinished(rt, &options);
        }
        _ => {}
    }
    run(rt, &options, command, is_watched)
}

fn run_words(rt: &HostRuntime, is_watched: bool) -> Result<(), Stop> {
    let words = words_of(rt)?;
    match asked_of(rt.alloc(), &words)? {
        Asked::Run(options, command) => run_command(rt, options, &command, is_watched),
        Asked::Text(text) => put(rt, text.as_bytes()),
        Asked::Wrong(fault) => Err(Stop::Ended(BAD_WORDS, fault)),
    }
}

// Says what is wrong, in one line. If that fails, it is dropped.
fn report(rt: &HostRuntime, stop: &Stop) {
    let _ = match without_controls(rt.alloc(), stop.words()) {
        Ok(words) => eprintln!(rt; "pcfs-client: {words}"),
        Err(_) => eprintln!(rt; "pcfs-client: out of memory"),
    };
}

fn main(rt: HostRuntime) -> ExitCode {
    // A standard stream that was closed leaves its descriptor to the next file or connection that is opened, and in that the output
    // would be written. So these hold the descriptors; of a folder each read and each write fails.
    let _first = fs::open(&rt, "/");
    let _second = fs::open(&rt, "/");
    let _third = fs::open(&rt, "/");
    let is_watched = rt.stderr().is_terminal();
    match run_words(&rt, is_watched) {
        Ok(()) => ExitCode::from(DONE),
        Err(stop) => {
            report(&rt, &stop);
            ExitCode::from(stop.status())
        }
    }
}
