//! Messages, the output, and remarks for whoever looks on.

use crate::system::System;
use bl_syntax::NoMemory;
use client_session::system_words;
use client_words::{Stop, WRITE_FAULT};
use std::alloc::Global;
use std::io::Error;

/// The texts one after another.
pub fn joined(alloc: Global, parts: &[&str]) -> Result<String, NoMemory> {
    let mut text = String::new(alloc);
    for part in parts {
        text.push_str(part)?;
    }
    Ok(text)
}

/// That the command ends with this status, and these words.
pub fn ended(alloc: Global, status: u8, parts: &[&str]) -> Stop {
    match joined(alloc, parts) {
        Ok(words) => Stop::Ended(status, words),
        Err(_) => Stop::NoMemory,
    }
}

/// That the command ends with this status, by a fault of the system at what stands before.
pub fn system_fault(alloc: Global, status: u8, what: &str, fault: &Error) -> Stop {
    match system_words(alloc, fault) {
        Ok(words) => ended(alloc, status, &[what, ": ", words.as_str()]),
        Err(_) => Stop::NoMemory,
    }
}

/// Writes bytes to the output.
pub fn put<R: System>(rt: &R, bytes: &[u8]) -> Result<(), Stop> {
    match rt.write_all(bytes) {
        Ok(()) => Ok(()),
        Err(fault) => Err(system_fault(rt.alloc(), WRITE_FAULT, "output", &fault)),
    }
}

/// Writes a line to the output.
pub fn put_line<R: System>(rt: &R, text: &str) -> Result<(), Stop> {
    let line = joined(rt.alloc(), &[text, "\n"])?;
    put(rt, line.as_bytes())
}

/// Tells whoever looks on what is no fault.
pub fn remark<R: System>(rt: &R, is_watched: bool, words: &str) {
    if is_watched {
        let _ = eprintln!(rt; "pcfs-client: {words}");
    }
}
