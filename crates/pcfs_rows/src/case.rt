//! A case: what a run is given, and what is wanted of it.

use crate::case_input::CaseInput;
use crate::short_form::{RowFault, Texts, add_numbered, add_written_out, number_of, parts_at};
use crate::values::add_value;
use bl_syntax::decimal::put_counted;
use bl_syntax::{Bytes, NoMemory, Numbers, copy_numbers};
use line_text::write_hex;
use pcfs_ports::{MemoryDisk, MemorySink};
use pcfs_secrets::Secrets;
use pcfs_top::run::{Ended, run_alone};
use std::alloc::Global;
use std::sync::Wait;
use std::thread::Threads;

/// What the rows of a case give and want.
#[derive(Drop)]
pub struct Case {
    texts: Texts,
    secrets: Bytes,
    words: Vec<String>,
    input: CaseInput,
    failing_writes: Numbers,
    first: Area,
    second: Area,
    stop: Option<Stop>,
    shows: Shows,
    /// What its calls said, and after the run what that wrote too; and what is wanted.
    pub found: Bytes,
    pub wanted: Bytes,
    /// The status that is wanted.
    pub status: u8,
}

/// A disk of a case: its bytes, and the calls of it that fail, or the number from which on all fail.
#[derive(Drop)]
struct Area {
    bytes: Bytes,
    failing: Numbers,
    fuse: Option<u64>,
}

/// A crash after a run: the byte that it leaves where something was written and not synced, and whether a
/// single byte that was written is there.
#[derive(Clone, Copy)]
struct Stop {
    fill: u8,
    kept: bool,
}

/// What is shown of the disks after a run.
#[derive(Clone, Copy, PartialEq, Eq)]
enum Shows {
    Nothing,
    Lengths,
    Bytes,
}

/// The bytes of the disks as a case left them.
#[derive(Drop)]
pub struct Left {
    first: Bytes,
    second: Bytes,
}

impl Left {
    /// Disks without bytes.
    pub fn new(alloc: Global) -> Left {
        Left {
            first: Bytes::new(alloc),
            second: Bytes::new(alloc),
        }
    }

    // Keeps the bytes of the disks that a run gave back, after a crash if there is one, and returns its
    // status.
    fn keep(&mut self, ended: Ended<MemoryDisk>, stop: Option<Stop>) -> Result<u8, RowFault> {
        let Ended { status, a, b } = ended;
        let first = keep_disk(a, stop, &mut self.first);
        let second = keep_disk(b, stop, &mut self.second);
        first.and(second)?;
        Ok(status)
    }

    // Adds the line that shows the disks.
    fn show(&self, alloc: Global, shows: Shows, out: &mut Bytes) -> Result<(), NoMemory> {
        match shows {
            Shows::Nothing => Ok(()),
            Shows::Lengths => {
                put_counted(out, "lengths ", self.first.len() as u64)?;
                put_counted(out, " ", self.second.len() as u64)?;
                out.push(b'\n')
            }
            Shows::Bytes => {
                out.extend(b"bytes ")?;
                write_hex(alloc, self.first.as_slice(), out)?;
                out.push(b' ')?;
                write_hex(alloc, self.second.as_slice(), out)?;
                out.push(b'\n')
            }
        }
    }
}

// Keeps the bytes of a disk, after a crash if there is one.
fn keep_disk(disk: MemoryDisk, stop: Option<Stop>, bytes: &mut Bytes) -> Result<(), NoMemory> {
    bytes.clear();
    match stop {
        None => bytes.extend(disk.image()),
        Some(stop) => match disk.stopped(stop.fill, stop.kept) {
            Ok(left) => bytes.extend(left.image()),
            Err(_) => Err(NoMemory),
        },
    }
}

// Sets the numbers to those of the words.
fn set_numbers(words: &str, numbers: &mut Numbers) -> Result<(), RowFault> {
    numbers.clear();
    for word in words.split(' ') {
        numbers.push(number_of(word)?)?;
    }
    Ok(())
}

// Sets the number to that of the word.
fn set_number(word: &str, number: &mut u32) -> Result<(), RowFault> {
    *number = number_of(word)?;
    Ok(())
}

// Sets the words to those of the text.
fn set_words(alloc: Global, text: &str, words: &mut Vec<String>) -> Result<(), RowFault> {
    words.clear();
    for word in text.split(' ') {
        if !word.is_empty() {
            words.push(word.to_string(alloc)?)?;
        }
    }
    Ok(())
}

impl Area {
    // A disk without bytes, of which no call fails.
    fn new(alloc: Global) -> Area {
        Area {
            bytes: Bytes::new(alloc),
            failing: Numbers::new(alloc),
            fuse: None,
        }
    }

    // The disk in memory, if all calls from a number on fail.
    fn fused(&self, alloc: Global, calls: u64) -> Result<MemoryDisk, RowFault> {
        let bytes = self.bytes.copy(alloc)?;
        Ok(MemoryDisk::fused(alloc, bytes, calls))
    }

    // The disk in memory, if these calls fail.
    fn unfused(&self, alloc: Global, failing: Numbers) -> Result<MemoryDisk, RowFault> {
        match self.bytes.copy(alloc) {
            Ok(bytes) => Ok(MemoryDisk::new(alloc, bytes, failing)?),
            Err(_) => Err(RowFault::NoMemory),
        }
    }

    // The disk in memory.
    fn disk(&self, alloc: Global) -> Result<MemoryDisk, RowFault> {
        if let Some(calls) = self.fuse {
            return self.fused(alloc, calls);
        }
        let failing = copy_numbers(alloc, self.failing.as_slice())?;
        self.unfused(alloc, failing)
    }
}

// Sets the number from which on all calls fail.
fn set_fuse(word: &str, fuse: &mut Option<u64>) -> Result<(), RowFault> {
    *fuse = Some(u64::from(number_of(word)?));
    Ok(())
}

// Sets the crash after the run: a byte, and `kept` or `lost`.
fn set_stop(text: &str, stop: &mut Option<Stop>) -> Result<(), RowFault> {
    let (byte, word) = parts_at(text, ' ')?;
    let kept = match word {
        "kept" => true,
        "lost" => false,
        _ => return Err(RowFault::BadRow),
    };
    match byte.parse::<u8>() {
        Ok(fill) => {
            *stop = Some(Stop { fill, kept });
            Ok(())
        }
        Err(_) => Err(RowFault::BadRow),
    }
}

// Sets the bytes to those of the text.
fn set_bytes(alloc: Global, texts: &Texts, text: &str, bytes: &mut Bytes) -> Result<(), RowFault> {
    bytes.clear();
    add_written_out(alloc, texts, text, bytes)
}

// Sets the bytes to those, but no more than this many.
fn set_front(left: &[u8], text: &str, bytes: &mut Bytes) -> Result<(), RowFault> {
    bytes.clear();
    let count = match text {
        "" => left.len(),
        _ => (number_of(text)? as usize).min(left.len()),
    };
    bytes.extend(&left[..count])?;
    Ok(())
}

// Adds the text as a line with its end.
fn add_line(alloc: Global, texts: &Texts, text: &str, out: &mut Bytes) -> Result<(), RowFault> {
    add_written_out(alloc, texts, text, out)?;
    out.push(b'\n')?;
    Ok(())
}

// Adds a line for each number from the first to the last, with the number where a `%` stands.
fn add_lines(alloc: Global, text: &str, out: &mut Bytes) -> Result<(), RowFault> {
    let (first, others) = parts_at(text, ' ')?;
    let (last, line) = parts_at(others, ' ')?;
    for number in number_of(first)?..=number_of(last)? {
        add_numbered(alloc, line, number, out)?;
        out.push(b'\n')?;
    }
    Ok(())
}

impl Case {
    /// A case that gives nothing and wants nothing.
    pub fn new(alloc: Global) -> Case {
        Case {
            texts: Texts::new(alloc),
            secrets: Bytes::new(alloc),
            words: Vec::new(alloc),
            input: CaseInput::new(alloc),
            failing_writes: Numbers::new(alloc),
            first: Area::new(alloc),
            second: Area::new(alloc),
            stop: None,
            shows: Shows::Nothing,
            found: Bytes::new(alloc),
            wanted: Bytes::new(alloc),
            status: 0,
        }
    }

    // Names a text.
    fn name_text(&mut self, alloc: Global, row: &str) -> Result<(), RowFault> {
        let (name, text) = parts_at(row, ' ')?;
        let mut out = Bytes::new(alloc);
        match add_written_out(alloc, &self.texts, text, &mut out) {
            Ok(()) => self.texts.add(alloc, name, out),
            Err(fault) => Err(fault),
        }
    }

    // Sets the wanted status.
    fn set_status(&mut self, word: &str) -> Result<(), RowFault> {
        match word.parse::<u8>() {
            Ok(status) => {
                self.status = status;
                Ok(())
            }
            Err(_) => Err(RowFault::BadRow),
        }
    }

    // Begins with the disks as the case before left them, of the first no more than this many bytes.
    fn go_on(&mut self, left: &Left, text: &str) -> Result<(), RowFault> {
        set_front(left.first.as_slice(), text, &mut self.first.bytes)?;
        set_front(left.second.as_slice(), "", &mut self.second.bytes)
    }

    // Sets what is shown of the disks.
    fn set_shows(&mut self, text: &str) -> Result<(), RowFault> {
        match text {
            "lengths" => {
                self.shows = Shows::Lengths;
                Ok(())
            }
            "bytes" => {
                self.shows = Shows::Bytes;
                Ok(())
            }
            _ => Err(RowFault::BadRow),
        }
    }

    // Adds what a row of a disk gives, of how the input is given, or of a call.
    fn add_other(
        &mut self,
        alloc: Global,
        left: &Left,
        kind: &str,
        text: &str,
    ) -> Result<(), RowFault> {
        match kind {
            "a" => set_bytes(alloc, &self.texts, text, &mut self.first.bytes),
            "b" => set_bytes(alloc, &self.texts, text, &mut self.second.bytes),
            "calls.a" => set_numbers(text, &mut self.first.failing),
            "calls.b" => set_numbers(text, &mut self.second.failing),
            "fuse.a" => set_fuse(text, &mut self.first.fuse),
            "fuse.b" => set_fuse(text, &mut self.second.fuse),
            "stops" => set_stop(text, &mut self.stop),
            "again" => self.go_on(left, text),
            "shows" => self.set_shows(text),
            "pieces" => set_number(text, &mut self.input.piece),
            "times" => set_number(text, &mut self.input.times),
            "" | "#" => Ok(()),
            _ => self.add_found(alloc, kind, text),
        }
    }

    // Adds what a row of a call says.
    fn add_found(&mut self, alloc: Global, kind: &str, text: &str) -> Result<(), RowFault> {
        let mut written_out = Bytes::new(alloc);
        match add_written_out(alloc, &self.texts, text, &mut written_out) {
            Ok(()) => add_value(alloc, kind, text, written_out.as_slice(), &mut self.found),
            Err(fault) => Err(fault),
        }
    }

    /// Adds what a row gives or wants.
    pub fn add_row(&mut self, alloc: Global, left: &Left, row: &str) -> Result<(), RowFault> {
        let (kind, text) = row.split_once(' ').unwrap_or((row, ""));
        match kind {
            ">" => add_line(alloc, &self.texts, text, &mut self.input.bytes),
            "<" => add_line(alloc, &self.texts, text, &mut self.wanted),
            ">>" => add_lines(alloc, text, &mut self.input.bytes),
            "<<" => add_lines(alloc, text, &mut self.wanted),
            ">." => add_written_out(alloc, &self.texts, text, &mut self.input.bytes),
            "<." => add_written_out(alloc, &self.texts, text, &mut self.wanted),
            "let" => self.name_text(alloc, text),
            "secret" => add_line(alloc, &self.texts, text, &mut self.secrets),
            "words" => set_words(alloc, text, &mut self.words),
            "reads" => set_numbers(text, &mut self.input.failing),
            "writes" => set_numbers(text, &mut self.failing_writes),
            "status" => self.set_status(text),
            _ => self.add_other(alloc, left, kind, text),
        }
    }

    // Runs the case. Returns its disks and the status.
    fn run_on<R: Threads + Wait + Sync>(
        &mut self,
        rt: &R,
        alloc: Global,
        secrets: &Secrets,
        output: &mut MemorySink,
    ) -> Result<Ended<MemoryDisk>, RowFault> {
        let a = self.first.disk(alloc)?;
        match self.second.disk(alloc) {
            Ok(b) => Ok(run_alone(
                rt,
                alloc,
                &self.words,
                secrets,
                &mut self.input,
                output,
                a,
                b,
            )),
            Err(fault) => Err(fault),
        }
    }

    // Keeps how a run left its disks, and what it wrote, and returns its status.
    fn keep(
        &mut self,
        alloc: Global,
        ended: Ended<MemoryDisk>,
        written: &[u8],
        left: &mut Left,
    ) -> Result<u8, RowFault> {
        let status = left.keep(ended, self.stop)?;
        self.found.extend(written)?;
        left.show(alloc, self.shows, &mut self.found)?;
        Ok(status)
    }

    // Runs the case under these secrets.
    fn run_under<R: Threads + Wait + Sync>(
        &mut self,
        rt: &R,
        alloc: Global,
        secrets: &Secrets,
        left: &mut Left,
    ) -> Result<u8, RowFault> {
        let failing = copy_numbers(alloc, self.failing_writes.as_slice())?;
        let mut output = MemorySink::new(alloc, failing);
        match self.run_on(rt, alloc, secrets, &mut output) {
            Ok(ended) => self.keep(alloc, ended, output.held(), left),
            Err(fault) => Err(fault),
        }
    }

    /// Runs the case, keeps how it left its disks, and returns its status. Bad secrets count as a bad row.
    pub fn run<R: Threads + Wait + Sync>(
        &mut self,
        rt: &R,
        alloc: Global,
        left: &mut Left,
    ) -> Result<u8, RowFault> {
        match Secrets::parse(alloc, self.secrets.as_slice()) {
            Ok(secrets) => self.run_under(rt, alloc, &secrets, left),
            Err(_) => Err(RowFault::BadRow),
        }
    }
}
