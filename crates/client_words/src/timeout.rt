//! How long a reply may take.

use bl_syntax::NoMemory;
use bl_syntax::byte_classes::is_digit;
use std::alloc::Global;

/// The most seconds.
const MOST: u64 = 86_400;

/// How long a reply may take, and how the user wrote it, in seconds.
#[derive(Drop)]
pub struct Timeout {
    pub milliseconds: u64,
    pub shown: String,
}

// The number that these digits write; none if there is another byte.
fn digits_value(digits: &[u8]) -> Option<u64> {
    let mut value = 0u64;
    for byte in digits {
        if !is_digit(*byte) {
            return None;
        }
        value = value.checked_mul(10)?.checked_add(u64::from(*byte - b'0'))?;
    }
    Some(value)
}

// The milliseconds that the digits after a point write.
fn fraction_value(digits: &[u8]) -> Option<u64> {
    let mut value = 0u64;
    let mut worth = 100u64;
    for byte in digits {
        if !is_digit(*byte) {
            return None;
        }
        value = value.checked_add(worth.checked_mul(u64::from(*byte - b'0'))?)?;
        worth /= 10;
    }
    Some(value)
}

fn milliseconds_of(word: &str) -> Option<u64> {
    let (whole, fraction) = match word.split_once('.') {
        Some(parts) => parts,
        None => (word, ""),
    };
    if whole.is_empty() && fraction.is_empty() {
        return None;
    }
    let seconds = digits_value(whole.as_bytes())?;
    let part = fraction_value(fraction.as_bytes())?;
    if seconds > MOST || seconds == MOST && part > 0 {
        return None;
    }
    seconds.checked_mul(1000)?.checked_add(part)
}

impl Timeout {
    /// What a word says: a number of seconds above 0 and up to 86,400; none if it says none.
    pub fn of(alloc: Global, word: &str) -> Result<Option<Timeout>, NoMemory> {
        match milliseconds_of(word) {
            Some(0) | None => Ok(None),
            Some(milliseconds) => Ok(Some(Timeout {
                milliseconds,
                shown: String::from_str(alloc, word)?,
            })),
        }
    }
}
