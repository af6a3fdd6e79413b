//! The key in a file.

use crate::words::is_hex;
use bl_syntax::{Bytes, NoMemory};
use line_text::read_hex;
use std::alloc::Global;

/// The most hexadecimal digits of a key.
const LONGEST: usize = 2048;

// The digits of a key in a line: alone, or after `key NAME`.
fn digits_in<'a>(line: &'a str, name: &str) -> Option<&'a str> {
    match line.strip_prefix("key ") {
        Some(rest) => {
            let (who, digits) = rest.split_once(' ')?;
            if who == name { Some(digits) } else { None }
        }
        None => Some(line),
    }
}

/// The key of a name in the text of a file: of the first line that has hexadecimal digits, two a byte, alone or as `key NAME HEX`;
/// none if no line has one.
pub fn key_in(alloc: Global, text: &str, name: &str) -> Result<Option<Bytes>, NoMemory> {
    for line in text.lines() {
        match digits_in(line.trim(), name) {
            Some(digits) if is_hex(digits) && digits.len() <= LONGEST => {
                match read_hex(alloc, digits.as_bytes())? {
                    Some(key) => return Ok(Some(key)),
                    None => {}
                }
            }
            _ => {}
        }
    }
    Ok(None)
}
