//! The file server as a program: `pcfs script` answers the lines of its standard input on its standard output, over a
//! store in memory, or with `--stored` over the one in the files `pcfs.a` and `pcfs.b` of the current folder, which
//! `pcfs init` makes, and of which `pcfs checkpoint` makes a checkpoint. `pcfs serve PORT COUNT` gives each of so many
//! connections to that port of 127.0.0.1 a session over that store, and `pcfs serve9 PORT COUNT` each 9P2000.
//!
//! It ends with the status that `pcfs_run::run` returns, or with 19, if the secrets file is bad or cannot be read. If there is
//! no memory for its words or its secrets, that is 9. Words that are not UTF-8 count as none. The secrets stand in the file
//! `pcfs.secrets` of the current folder; if there is no such file, the key of the seal is empty and nobody has a key to
//! sign with. A status of `run` other than 0 is reported on the standard error, with the fault that it stands for if it is that
//! of one alone, and before it each error of the system with the name of what it met.
//!
//! A sync of an area that failed leaves the file `pcfs.fault`. While it is there the store is not opened but by
//! `pcfs checkpoint` and `pcfs init`, which write the whole state anew, and then remove it.
#![tactic(auto)]

mod named;

use crate::named::Named;
use bl_syntax::Bytes;
use file_disk::{FileDisk, remove_mark};
use log::{Log, warn};
use pcfs_ports::{StdSink, StdSource, SystemClock, TakeFault, TcpPort, UrandomNonces, read_to_end};
use pcfs_run::run;
use pcfs_secrets::{SecretFault, Secrets};
use recover::OpenFault;
use std::fs::File;
use std::io::{self, Eprint, ErrorKind};
use std::process::ExitCode;
use std::rt::Files;
use std::{env, fs};

/// All was done.
const DONE: u8 = 0;

/// Neither area is open.
const NO_STORE: u8 = 4;

/// A disk failed.
const DISK_FAULT: u8 = 5;

/// There was no memory.
const OUT_OF_MEMORY: u8 = 9;

/// The secrets file is bad, or cannot be read.
const BAD_SECRETS: u8 = 19;

/// The file with the secrets.
const SECRETS_FILE: &str = "pcfs.secrets";

/// The files of the two areas.
const FIRST_FILE: &str = "pcfs.a";

const SECOND_FILE: &str = "pcfs.b";

/// The file that marks that a sync of an area failed.
const FAULT_MARK: &str = "pcfs.fault";

/// Why there are no secrets.
#[derive(Debug, Drop)]
enum Lacking {
    /// The file cannot be read.
    Unreadable,
    /// The line of this number is bad.
    BadLine(usize),
    /// There was no memory for them.
    NoMemory,
}

// The words after the program's name.
fn words_of<R: env::Env + AllocGlobal>(rt: &R) -> io::Result<Vec<String>> {
    Ok(env::args(rt)?.skip(1).collect(rt.alloc())?)
}

// The bytes of the secrets file; none if there is no such file.
fn secrets_text<R: Files + AllocGlobal + Eprint>(rt: &R) -> Result<Option<Bytes>, Lacking> {
    let file = match fs::open(rt, SECRETS_FILE) {
        Ok(file) => file,
        Err(fault) if fault.kind() == ErrorKind::NotFound => return Ok(None),
        Err(fault) if fault.kind() == ErrorKind::OutOfMemory => return Err(Lacking::NoMemory),
        Err(fault) => {
            let _ = eprintln!(rt; "{SECRETS_FILE}: {fault}");
            return Err(Lacking::Unreadable);
        }
    };
    let mut source = StdSource::new(Named::new(rt, SECRETS_FILE, file));
    match read_to_end(rt.alloc(), &mut source) {
        Ok(text) => Ok(Some(text)),
        Err(TakeFault::NoMemory) => Err(Lacking::NoMemory),
        Err(_) => Err(Lacking::Unreadable),
    }
}

// The secrets of the file, or an empty key and ring if there is no such file.
fn secrets_of<R: Files + AllocGlobal + Eprint>(rt: &R) -> Result<Secrets, Lacking> {
    match secrets_text(rt)? {
        Some(text) => match Secrets::parse(rt.alloc(), text.as_slice()) {
            Ok(secrets) => Ok(secrets),
            Err(SecretFault::BadLine(number)) => Err(Lacking::BadLine(number)),
            Err(SecretFault::NoMemory) => Err(Lacking::NoMemory),
        },
        None => Ok(Secrets::none(rt.alloc())),
    }
}

// Says why there are no secrets, and returns the status to end with. A line that cannot be written is dropped.
fn refuse<R: Print + Eprint>(rt: &R, lacking: Lacking) -> u8 {
    match lacking {
        Lacking::Unreadable => {
            let _ = println!(rt; "secrets");
            BAD_SECRETS
        }
        Lacking::BadLine(number) => {
            let fault = SecretFault::BadLine(number);
            let _ = println!(rt; "secrets line {number}");
            let _ = eprintln!(rt; "{SECRETS_FILE}: {fault}");
            BAD_SECRETS
        }
        Lacking::NoMemory => OUT_OF_MEMORY,
    }
}

// What stands in the place of an area, if no store is open.
fn found_at<R: Files>(rt: &R, path: &str) -> &'static str {
    match fs::symlink_metadata(rt, path) {
        Ok(_) => "is no open area",
        Err(_) => "is not there",
    }
}

// Says that there is no store, and what there is. A line that cannot be written is dropped.
fn write_no_store<R: Files + Eprint>(rt: &R) {
    let first = found_at(rt, FIRST_FILE);
    let second = found_at(rt, SECOND_FILE);
    let _ = eprintln!(rt; "no store: {FIRST_FILE} {first}, {SECOND_FILE} {second}");
}

// Whether the words ask for what writes the whole state anew: a checkpoint, or a store before its first event.
fn are_remedy(words: &Vec<String>) -> bool {
    words.len() == 1 && (words[0].as_str() == "checkpoint" || words[0].as_str() == "init")
}

// Removes the mark of a failed sync, after the whole state was written anew.
fn unmark<R: Files<File = File> + Eprint>(rt: &R) {
    if let Err(error) = remove_mark(rt, FAULT_MARK) {
        let _ = eprintln!(rt; "{FAULT_MARK}: {error}");
    }
}

// The fault that a status stands for, if it is that of one alone.
fn fault_of(status: u8) -> Option<OpenFault> {
    match status {
        NO_STORE => Some(OpenFault::NoStore),
        DISK_FAULT => Some(OpenFault::Disk),
        OUT_OF_MEMORY => Some(OpenFault::NoMemory),
        _ => None,
    }
}

// Reports a status other than 0 in one line on the standard error, with its fault in words. A line that cannot be written is
// dropped.
fn report<R: Log>(rt: &R, status: u8) {
    if status == DONE {
        return;
    }
    match fault_of(status) {
        Some(fault) => warn!(rt; "status {status}: {fault}"),
        None => warn!(rt; "status {status}"),
    }
}

fn main(rt: HostRuntime) -> ExitCode {
    // A standard stream that was closed leaves its descriptor to the next file that is opened, and in that of a disk
    // replies would be written. So these hold the descriptors; of a folder each read and each write fails.
    let _first = fs::open(&rt, "/");
    let _second = fs::open(&rt, "/");
    let _third = fs::open(&rt, "/");
    let words = match words_of(&rt) {
        Ok(words) => words,
        Err(fault) if fault.kind() == ErrorKind::OutOfMemory => return ExitCode::from(
            OUT_OF_MEMORY,
        ),
        Err(_) => Vec::new(rt.alloc()),
    };
    let secrets = match secrets_of(&rt) {
        Ok(secrets) => secrets,
        Err(lacking) => return ExitCode::from(refuse(&rt, lacking)),
    };
    let mut input = StdSource::new(Named::new(&rt, "standard input", rt.reader()));
    let mut output = StdSink::new(Named::new(&rt, "standard output", io::writer(&rt)));
    let is_remedy = are_remedy(&words);
    let a = FileDisk::marked(&rt, FIRST_FILE, FAULT_MARK, is_remedy);
    let b = FileDisk::marked(&rt, SECOND_FILE, FAULT_MARK, is_remedy);
    let clock = SystemClock::new(&rt);
    let mut net = TcpPort::new(&rt);
    let mut nonces = UrandomNonces::new(&rt);
    let ended = run(
        &rt,
        rt.alloc(),
        &words,
        &secrets,
        &mut input,
        &mut output,
        a,
        b,
        &clock,
        &mut net,
        &mut nonces,
    );
    if is_remedy && ended.status == DONE {
        unmark(&rt);
    }
    if ended.status == NO_STORE {
        write_no_store(&rt);
    }
    report(&rt, ended.status);
    ExitCode::from(ended.status)
}
