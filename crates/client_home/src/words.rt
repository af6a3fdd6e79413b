//! Words in the lines of files.

use bl_syntax::NoMemory;
use std::alloc::Global;

/// The text in memory of its own.
pub fn copied(alloc: Global, text: &str) -> Result<String, NoMemory> {
    Ok(String::from_str(alloc, text)?)
}

/// Whether the text is one of printed signs of ASCII and spaces, and not empty.
pub fn is_printed(text: &str) -> bool {
    !text.is_empty()
        && text
            .as_bytes()
            .iter()
            .all(|byte| b' ' <= *byte && *byte <= b'~')
}

/// Whether the word is not empty, and has no space.
pub fn is_word(text: &str) -> bool {
    is_printed(text) && !text.contains(' ')
}

fn is_hex_digit(byte: u8) -> bool {
    b'0' <= byte && byte <= b'9' || b'a' <= byte && byte <= b'f'
}

/// Whether the word has hexadecimal digits alone, at least one.
pub fn is_hex(text: &str) -> bool {
    !text.is_empty() && text.as_bytes().iter().all(|byte| is_hex_digit(*byte))
}
