//! Words of messages.

use bl_syntax::NoMemory;
use client_words::{REFUSED, Stop};
use std::alloc::Global;

/// The texts one after another.
pub fn joined(alloc: Global, parts: &[&str]) -> Result<String, NoMemory> {
    let mut text = String::new(alloc);
    for part in parts {
        text.push_str(part)?;
    }
    Ok(text)
}

/// The same text in memory of its own.
pub fn copied(alloc: Global, text: &str) -> Result<String, NoMemory> {
    Ok(String::from_str(alloc, text)?)
}

/// That there is no right, as these say.
pub fn no_right(alloc: Global, parts: &[&str]) -> Stop {
    match joined(alloc, parts) {
        Ok(words) => Stop::NoRight(words),
        Err(_) => Stop::NoMemory,
    }
}

/// That it cannot be done as things are, as these say.
pub fn refused(alloc: Global, parts: &[&str]) -> Stop {
    match joined(alloc, parts) {
        Ok(words) => Stop::Ended(REFUSED, words),
        Err(_) => Stop::NoMemory,
    }
}
