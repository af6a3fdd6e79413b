//! Rows of tables: bytes in hexadecimal, and what comes of reading them.

use bl_syntax::{Bytes, CodecFault};
use line_text::read_hex;
use std::alloc::Global;
use std::test::Fail;

/// The bytes that the word writes in hexadecimal, none for `-`.
pub fn bytes_of(alloc: Global, word: &str) -> Result<Bytes, Fail> {
    match read_hex(alloc, word.as_bytes())? {
        Some(bytes) => Ok(bytes),
        None => Err(Fail::from("no hexadecimal")),
    }
}

/// The word before the first space of a row, and what stands after it.
pub fn word_and_rest(row: &str) -> Result<(&str, &str), Fail> {
    Ok(row.split_once(' ').ok_or("no second word")?)
}

/// Whether the text is the lead and then the number.
fn is_numbered(text: &str, lead: &str, number: usize) -> bool {
    match text.strip_prefix(lead) {
        Some(digits) => match digits.parse::<usize>() {
            Ok(written) => written == number,
            Err(_) => false,
        },
        None => false,
    }
}

/// Whether the text says what a reading came to: how many bytes were read, or the fault and its place.
pub fn is_end(text: &str, end: Result<usize, CodecFault>) -> bool {
    match end {
        Ok(count) => is_numbered(text, "ok ", count),
        Err(CodecFault::Short) => text == "short",
        Err(CodecFault::BadTag(at)) => is_numbered(text, "bad tag ", at),
        Err(CodecFault::NotCanonical(at)) => is_numbered(text, "not canonical ", at),
        Err(CodecFault::TooLarge(at)) => is_numbered(text, "too large ", at),
        Err(CodecFault::NoMemory) => text == "no memory",
    }
}
