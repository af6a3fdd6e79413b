//! Lists of statements: by numbers, and signed ones that have no number yet.

ghost use Rattle.std.specs.Prelude.{◌≤◌, ◌<◌, length, vec_len, IsTrue};

use crate::words::{copied, is_hex, is_printed};
use bl_syntax::NoMemory;
use client_words::statement_number;
use std::alloc::Global;

/// A statement with the number that the server gave it.
#[derive(Drop)]
pub struct Numbered {
    pub number: u32,
    pub text: String,
}

/// A list of statements, by rising numbers, and lines `register ..` of signed ones.
#[derive(Drop)]
pub struct Statements {
    pub numbered: Vec<Numbered>,
    pub signed: Vec<String>,
}

/// The text of a statement in a line `register SIGNATURE STATEMENT`; none if the line is none.
pub fn signed_text(line: &str) -> Option<&str> {
    let rest = line.strip_prefix("register ")?;
    let (signature, text) = rest.split_once(' ')?;
    if is_hex(signature) && is_printed(text) {
        Some(text)
    } else {
        None
    }
}

// The number and the text of a line.
fn numbered_in(line: &str) -> Option<(u32, &str)> {
    let (digits, text) = line.split_once(' ')?;
    let number = statement_number(digits.as_bytes())?;
    if is_printed(text) {
        Some((number, text))
    } else {
        None
    }
}

// The place of the first statement whose number is not below this one.
fn place_of(list: &[Numbered], number: u32) -> usize
    ensures { result ≤ length list.now }
{
    match list.iter().position(|one| number <= one.number) {
        Some(place) => place,
        None => list.len(),
    }
}

// Whether the statement at this place has this number.
fn is_at(list: &[Numbered], place: usize, number: u32) -> bool
    ensures { IsTrue result → place < length list.now }
{
    place < list.len() && list[place].number == number
}

// Puts a statement at a place, instead of one that stands there under the same number.
fn put_at(list: &mut Vec<Numbered>, place: usize, one: Numbered) -> Result<(), NoMemory>
    requires { place ≤ vec_len list.old }
{
    if is_at(list.as_slice(), place, one.number) {
        let _ = list.remove(place);
        list.insert(place, one)?;
        return Ok(());
    }
    list.insert(place, one)?;
    Ok(())
}

/// Puts a statement into the list under its number, instead of one that has the same.
pub fn put(
    alloc: Global,
    list: &mut Vec<Numbered>,
    number: u32,
    text: &str,
) -> Result<(), NoMemory> {
    let text = copied(alloc, text)?;
    let place = place_of(list.as_slice(), number);
    put_at(list, place, Numbered { number, text })
}

/// Puts these statements into the list.
pub fn put_all(alloc: Global, list: &mut Vec<Numbered>, more: &[Numbered]) -> Result<(), NoMemory> {
    for one in more {
        put(alloc, list, one.number, one.text.as_str())?;
    }
    Ok(())
}

/// The statements of a list whose numbers are none of these.
pub fn without(
    alloc: Global,
    list: &[Numbered],
    dropped: &[u32],
) -> Result<Vec<Numbered>, NoMemory> {
    let mut kept = Vec::new(alloc);
    for one in list {
        if !dropped.contains(&one.number) {
            kept.push(Numbered {
                number: one.number,
                text: copied(alloc, one.text.as_str())?,
            })?;
        }
    }
    Ok(kept)
}

// Takes a line into a list; false if it is none.
fn take_line(alloc: Global, list: &mut Statements, line: &str) -> Result<bool, NoMemory> {
    match numbered_in(line) {
        Some((number, text)) => {
            put(alloc, &mut list.numbered, number, text)?;
            return Ok(true);
        }
        None => {}
    }
    match signed_text(line) {
        Some(_) => {
            list.signed.push(copied(alloc, line)?)?;
            Ok(true)
        }
        None => Ok(line.trim().is_empty()),
    }
}

/// The statements of a text; or the number of its first line that is none.
pub fn read_statements(alloc: Global, text: &str) -> Result<Result<Statements, usize>, NoMemory> {
    let mut list = Statements {
        numbered: Vec::new(alloc),
        signed: Vec::new(alloc),
    };
    let mut place = 0usize;
    for line in text.lines() {
        place = place.saturating_add(1);
        if !take_line(alloc, &mut list, line)? {
            return Ok(Err(place));
        }
    }
    Ok(Ok(list))
}

/// The text of a list: a line for each statement, with its number.
pub fn statements_text(alloc: Global, list: &[Numbered]) -> Result<String, NoMemory> {
    let mut text = String::new(alloc);
    for one in list {
        let number = one.number;
        write!(text, "{number} ")?;
        text.push_str(one.text.as_str())?;
        text.push('\n')?;
    }
    Ok(text)
}
