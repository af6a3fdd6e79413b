//! Short forms in the texts of rows: what stands between `{` and `}` is written out.

use bl_syntax::{Bytes, NoMemory};
use line_text::read_hex;
use std::alloc::{AllocError, AllocFailed, Global};

/// Why a row was not read.
#[derive(Clone, Copy, Debug, PartialEq, Eq)]
pub enum RowFault {
    /// It is none of the rows.
    BadRow,
    /// There was no memory.
    NoMemory,
}

impl From<NoMemory> for RowFault {
    fn from(_refused: NoMemory) -> RowFault {
        RowFault::NoMemory
    }
}

impl From<AllocError> for RowFault {
    fn from(_refused: AllocError) -> RowFault {
        RowFault::NoMemory
    }
}

impl<T: Drop> From<AllocFailed<T>> for RowFault {
    fn from(_refused: AllocFailed<T>) -> RowFault {
        RowFault::NoMemory
    }
}

/// A text that has a name.
#[derive(Drop)]
struct Named {
    name: String,
    text: Bytes,
}

/// The texts that have names.
#[derive(Drop)]
pub struct Texts {
    texts: Vec<Named>,
}

impl Texts {
    pub fn new(alloc: Global) -> Texts {
        Texts {
            texts: Vec::new(alloc),
        }
    }

    /// Adds a text under a name.
    pub fn add(&mut self, alloc: Global, name: &str, text: Bytes) -> Result<(), RowFault> {
        match name.to_string(alloc) {
            Ok(name) => match self.texts.push(Named { name, text }) {
                Ok(()) => Ok(()),
                Err(_) => Err(RowFault::NoMemory),
            },
            Err(_) => Err(RowFault::NoMemory),
        }
    }

    /// The first text of this name.
    fn find(&self, name: &str) -> Option<&[u8]> {
        for named in &self.texts {
            if named.name.as_str() == name {
                return Some(named.text.as_slice());
            }
        }
        None
    }
}

/// The number that a word writes.
pub fn number_of(word: &str) -> Result<u32, RowFault> {
    match word.parse::<u32>() {
        Ok(number) => Ok(number),
        Err(_) => Err(RowFault::BadRow),
    }
}

/// The parts of a text before and after this byte.
pub fn parts_at(text: &str, stop: char) -> Result<(&str, &str), RowFault> {
    text.split_once(stop).ok_or(RowFault::BadRow)
}

/// Adds the text with the number where a `%` stands.
pub fn add_numbered(
    alloc: Global,
    text: &str,
    number: u32,
    out: &mut Bytes,
) -> Result<(), RowFault> {
    let digits = number.to_string(alloc)?;
    for (place, piece) in text.split('%').enumerate() {
        if place > 0 {
            out.extend(digits.as_bytes())?;
        }
        out.extend(piece.as_bytes())?;
    }
    Ok(())
}

// Adds the text once for each number from the first to the last.
fn add_counted(alloc: Global, range: &str, text: &str, out: &mut Bytes) -> Result<(), RowFault> {
    let (first, last) = range.split_once("..").ok_or(RowFault::BadRow)?;
    for number in number_of(first)?..=number_of(last)? {
        add_numbered(alloc, text, number, out)?;
    }
    Ok(())
}

// Adds the text so many times.
fn add_repeated(count: &str, text: &str, out: &mut Bytes) -> Result<(), RowFault> {
    for _ in 0..number_of(count)? {
        out.extend(text.as_bytes())?;
    }
    Ok(())
}

// Adds the bytes that the word of hexadecimal writes.
fn add_bytes(alloc: Global, word: &str, out: &mut Bytes) -> Result<(), RowFault> {
    match read_hex(alloc, word.as_bytes())? {
        Some(bytes) => {
            out.extend(bytes.as_slice())?;
            Ok(())
        }
        None => Err(RowFault::BadRow),
    }
}

// Adds what a short form stands for.
fn add_form(alloc: Global, texts: &Texts, form: &str, out: &mut Bytes) -> Result<(), RowFault> {
    if let Some(word) = form.strip_prefix("x ") {
        return add_bytes(alloc, word, out);
    }
    if let Some((range, text)) = form.split_once('|') {
        return add_counted(alloc, range, text, out);
    }
    if let Some((count, text)) = form.split_once('*') {
        return add_repeated(count, text, out);
    }
    match texts.find(form) {
        Some(text) => {
            out.extend(text)?;
            Ok(())
        }
        None => Err(RowFault::BadRow),
    }
}

/// Adds the text with its short forms written out.
pub fn add_written_out(
    alloc: Global,
    texts: &Texts,
    text: &str,
    out: &mut Bytes,
) -> Result<(), RowFault> {
    for (place, piece) in text.split('{').enumerate() {
        if place > 0 {
            let (form, rest) = parts_at(piece, '}')?;
            add_form(alloc, texts, form, out)?;
            out.extend(rest.as_bytes())?;
        } else {
            out.extend(piece.as_bytes())?;
        }
    }
    Ok(())
}
