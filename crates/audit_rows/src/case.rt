//! A case: a history, the keys it is audited under, and the report that is wanted.

use access_history::Base;
use bl_syntax::{Bytes, NoMemory, Principal};
use journal_records::{Event, read_event};
use line_text::read_hex;
use pcfs_audit::{Report, audit, audit_pieces, write_report};
use policy_statement::Keyring;
use std::alloc::{AllocError, AllocFailed, Global};
use std::thread::Threads;

/// The most events of a history.
const MOST_EVENTS: usize = 1_000_000;

/// How many pieces a history is audited in.
const PIECES: [usize; 5] = [1, 2, 3, 7, 64];

/// Why a row was not read.
#[derive(Clone, Copy, Debug, PartialEq, Eq)]
pub enum RowFault {
    /// It is none of the rows.
    BadRow,
    /// There was no memory.
    NoMemory,
}

impl From<NoMemory> for RowFault {
    fn from(_refused: NoMemory) -> RowFault {
        RowFault::NoMemory
    }
}

impl From<AllocError> for RowFault {
    fn from(_refused: AllocError) -> RowFault {
        RowFault::NoMemory
    }
}

impl<T: Drop> From<AllocFailed<T>> for RowFault {
    fn from(_refused: AllocFailed<T>) -> RowFault {
        RowFault::NoMemory
    }
}

/// The bytes of a record that has a name.
#[derive(Drop)]
struct Named {
    name: String,
    bytes: Bytes,
}

/// What the rows of a case give and want.
#[derive(Drop)]
pub struct Case {
    named: Vec<Named>,
    key: Bytes,
    ring: Keyring,
    records: Vec<Bytes>,
    wanted: Bytes,
}

/// How a case ended.
#[derive(Drop)]
pub enum CaseEnd {
    /// All reports are the one that is wanted.
    Agrees,
    /// This report differs: in so many pieces, or at once if they are 0.
    Differs(usize, Bytes),
}

// The bytes of the word in hexadecimal digits.
fn bytes_of(alloc: Global, word: &str) -> Result<Bytes, RowFault> {
    match read_hex(alloc, word.as_bytes()) {
        Ok(Some(bytes)) => Ok(bytes),
        Ok(None) => Err(RowFault::BadRow),
        Err(_) => Err(RowFault::NoMemory),
    }
}

// The two parts of the text around its first space.
fn parts_of(text: &str) -> Result<(&str, &str), RowFault> {
    match text.split_once(' ') {
        Some(parts) => Ok(parts),
        None => Err(RowFault::BadRow),
    }
}

// The number that the word is.
fn number_of(word: &str) -> Result<usize, RowFault> {
    match word.parse::<usize>() {
        Ok(number) => Ok(number),
        Err(_) => Err(RowFault::BadRow),
    }
}

// The byte that the word is.
fn byte_of(word: &str) -> Result<u8, RowFault> {
    match word.parse::<u8>() {
        Ok(byte) => Ok(byte),
        Err(_) => Err(RowFault::BadRow),
    }
}

// The text of the report.
fn text_of(alloc: Global, report: Result<Report, NoMemory>) -> Result<Bytes, RowFault> {
    let mut text = Bytes::new(alloc);
    match report {
        Ok(report) => {
            write_report(&mut text, &report)?;
            text.push(b'\n')?;
            Ok(text)
        }
        Err(_) => Err(RowFault::NoMemory),
    }
}

impl Case {
    /// A case that gives nothing and wants nothing.
    pub fn new(alloc: Global) -> Case {
        Case {
            named: Vec::new(alloc),
            key: Bytes::new(alloc),
            ring: Keyring::new(alloc),
            records: Vec::new(alloc),
            wanted: Bytes::new(alloc),
        }
    }

    // Names the bytes of a record.
    fn name_record(&mut self, alloc: Global, text: &str) -> Result<(), RowFault> {
        let (name, word) = parts_of(text)?;
        let bytes = bytes_of(alloc, word)?;
        let name = name.to_string(alloc)?;
        self.named.push(Named { name, bytes })?;
        Ok(())
    }

    // Gives a name its key.
    fn add_key(&mut self, alloc: Global, text: &str) -> Result<(), RowFault> {
        let (name, word) = parts_of(text)?;
        let key = bytes_of(alloc, word)?;
        match Principal::new(name.as_bytes()) {
            Some(who) => match self.ring.add(who, key.as_slice()) {
                Ok(()) => Ok(()),
                Err(_) => Err(RowFault::BadRow),
            },
            None => Err(RowFault::BadRow),
        }
    }

    // Adds the record of this name to the history.
    fn add_record(&mut self, alloc: Global, name: &str) -> Result<(), RowFault> {
        for named in &self.named {
            if named.name.as_str() == name {
                self.records.push(named.bytes.copy(alloc)?)?;
                return Ok(());
            }
        }
        Err(RowFault::BadRow)
    }

    // Adds the record of these bytes to the history.
    fn add_event(&mut self, alloc: Global, word: &str) -> Result<(), RowFault> {
        let record = bytes_of(alloc, word)?;
        self.records.push(record)?;
        Ok(())
    }

    // Adds the records of these names.
    fn add_records(&mut self, alloc: Global, names: &str) -> Result<(), RowFault> {
        for name in names.split(' ') {
            self.add_record(alloc, name)?;
        }
        Ok(())
    }

    // Gives a byte of a record another value: the record's number from 1, the byte's place from 0, and the value.
    fn change(&mut self, text: &str) -> Result<(), RowFault> {
        let (number, others) = parts_of(text)?;
        let (place, value) = parts_of(others)?;
        let number = number_of(number)?;
        let place = number_of(place)?;
        let value = byte_of(value)?;
        match self.records.get_mut(number.wrapping_sub(1)) {
            Some(record) if place < record.len() => {
                record.overwrite(place, &[value]);
                Ok(())
            }
            _ => Err(RowFault::BadRow),
        }
    }

    // Adds a line that is wanted.
    fn add_wanted(&mut self, text: &str) -> Result<(), RowFault> {
        self.wanted.extend(text.as_bytes())?;
        self.wanted.push(b'\n')?;
        Ok(())
    }

    /// Adds what a row gives or wants.
    pub fn add_row(&mut self, alloc: Global, row: &str) -> Result<(), RowFault> {
        let (kind, text) = row.split_once(' ').unwrap_or((row, ""));
        match kind {
            "record" => self.name_record(alloc, text),
            "seal" => {
                self.key = bytes_of(alloc, text)?;
                Ok(())
            }
            "key" => self.add_key(alloc, text),
            "event" => self.add_event(alloc, text),
            "events" => self.add_records(alloc, text),
            "change" => self.change(text),
            "<" => self.add_wanted(text),
            "" | "#" => Ok(()),
            _ => Err(RowFault::BadRow),
        }
    }

    // The events of the history.
    fn events(&self, alloc: Global) -> Result<Vec<Event>, RowFault> {
        let mut events = Vec::new(alloc);
        for record in &self.records {
            match read_event(alloc, record.as_slice()) {
                Ok(event) => events.push(event)?,
                Err(_) => return Err(RowFault::BadRow),
            }
        }
        Ok(events)
    }

    /// Audits the history at once and in pieces.
    pub fn run<R: Threads + Sync + AllocGlobal>(&self, rt: &R) -> Result<CaseEnd, RowFault> {
        let alloc = rt.alloc();
        let events = self.events(alloc)?;
        if MOST_EVENTS < events.len() {
            return Err(RowFault::BadRow);
        }
        let base = Base::fresh(alloc)?;
        let key = self.key.as_slice();
        let found = text_of(
            alloc,
            audit(alloc, &base, events.as_slice(), key, &self.ring),
        )?;
        if found.as_slice() != self.wanted.as_slice() {
            return Ok(CaseEnd::Differs(0, found));
        }
        for pieces in PIECES {
            let report = audit_pieces(rt, alloc, &base, events.as_slice(), key, &self.ring, pieces);
            let found = text_of(alloc, report)?;
            if found.as_slice() != self.wanted.as_slice() {
                return Ok(CaseEnd::Differs(pieces, found));
            }
        }
        Ok(CaseEnd::Agrees)
    }
}
