//! Files of this machine.

use crate::messages::{ended, joined, system_fault};
use crate::system::System;
use bl_syntax::{Bytes, NoMemory};
use client_words::{BAD_LINE, NO_FILE, Stop};
use std::fs::{self, OpenOptions, Permissions};
use std::io::{self, Error, ErrorKind, Read, Write};
use std::os::unix::fs::{OpenOptionsExt, PermissionsExt};

/// The most bytes of a file on the server.
pub const LARGEST: usize = 1_048_576;

/// How many bytes are read at once.
const PIECE: usize = 65_536;

/// The bits of a mode that let others in.
pub const OTHERS: u32 = 0o077;

/// The mode of a file for the user alone.
pub const PRIVATE: u32 = 0o600;

fn no_file<R: System>(rt: &R, path: &str, fault: &Error) -> Stop {
    system_fault(rt.alloc(), NO_FILE, path, fault)
}

/// The text of a file, which is called so in messages.
pub fn read_text<R: System>(rt: &R, path: &str, what: &str) -> Result<String, Stop> {
    let alloc = rt.alloc();
    let called = joined(alloc, &[what, " ", path])?;
    let bytes = match fs::read(rt, path) {
        Ok(bytes) => bytes,
        Err(fault) => return Err(no_file(rt, called.as_str(), &fault)),
    };
    ascii_text(rt, bytes.as_slice(), called.as_str())
}

/// The bytes as a text of ASCII.
pub fn ascii_text<R: System>(rt: &R, bytes: &[u8], called: &str) -> Result<String, Stop> {
    let alloc = rt.alloc();
    if bytes.iter().all(|byte| *byte < 128) {
        match std::str::from_utf8(bytes) {
            Ok(text) => return Ok(String::from_str(alloc, text)?),
            Err(_) => {}
        }
    }
    Err(ended(
        alloc,
        BAD_LINE,
        &[called, ": has bytes that are no ASCII text"],
    ))
}

/// Whether there is something at a path.
pub fn is_there<R: System>(rt: &R, path: &str) -> Result<bool, Stop> {
    match fs::metadata(rt, path) {
        Ok(_) => Ok(true),
        Err(fault) if fault.kind() == ErrorKind::NotFound => Ok(false),
        Err(fault) => Err(no_file(rt, path, &fault)),
    }
}

/// Sixteen hexadecimal digits that are drawn.
pub fn drawn_digits<R: System>(rt: &R) -> Result<String, Stop> {
    let alloc = rt.alloc();
    let mut bytes = [0u8; 8];
    match rt.fill_bytes(&mut bytes) {
        Ok(()) => {}
        Err(fault) => return Err(system_fault(alloc, NO_FILE, "random bytes", &fault)),
    }
    let number = u64::from_be_bytes(bytes);
    Ok(format!(in alloc; "{number:016x}")?)
}

// How a new file is written: its mode, of which the system takes bits off if it is not kept from an old file, and whether it is on
// the disk then.
#[derive(Clone, Copy)]
struct Writing {
    mode: u32,
    is_kept: bool,
    is_lasting: bool,
}

// Writes a new file.
fn write_new<R: System>(rt: &R, path: &str, bytes: &[u8], how: Writing) -> io::Result<()> {
    let mut options = OpenOptions::new();
    options.write(true).create_new(true).mode(how.mode);
    let mut file = options.open(rt, path)?;
    if how.is_kept {
        fs::set_permissions(rt, path, Permissions::from_mode(how.mode))?;
    }
    file.write_all(bytes)?;
    if how.is_lasting {
        file.sync_all()?;
    }
    Ok(())
}

// Puts a new file in the place of the one at a path. What was written is removed after a failure.
fn put_in_place<R: System>(
    rt: &R,
    new: &str,
    path: &str,
    bytes: &[u8],
    how: Writing,
) -> io::Result<()> {
    let written = match write_new(rt, new, bytes, how) {
        Ok(()) => fs::rename(rt, new, path),
        Err(fault) => Err(fault),
    };
    if written.is_err() {
        let _ = fs::remove_file(rt, new);
    }
    written
}

/// Puts a new file with this text, of mode 0600, in the place of the one at a path; one that lasts is on the disk then. One program at
/// a time may do that. What one left that was ended in the middle is removed.
pub fn write_private<R: System>(
    rt: &R,
    path: &str,
    text: &str,
    is_lasting: bool,
) -> Result<(), Stop> {
    let new = joined(rt.alloc(), &[path, ".new"])?;
    let _ = fs::remove_file(rt, new.as_str());
    let how = Writing {
        mode: PRIVATE,
        is_kept: false,
        is_lasting,
    };
    match put_in_place(rt, new.as_str(), path, text.as_bytes(), how) {
        Ok(()) => Ok(()),
        Err(fault) => Err(no_file(rt, path, &fault)),
    }
}

/// The mode of what is at a path; none if nothing is there, or it is not known.
pub fn mode_of<R: System>(rt: &R, path: &str) -> Option<u32> {
    match fs::metadata(rt, path) {
        Ok(found) => Some(found.permissions().mode()),
        Err(_) => None,
    }
}

/// Lets nobody but the user in, if others are let in now: the mode becomes this one.
pub fn keep_private<R: System>(rt: &R, path: &str, mode: u32) -> io::Result<()> {
    match mode_of(rt, path) {
        Some(found) if found & OTHERS != 0 => fs::set_permissions(
            rt,
            path,
            Permissions::from_mode(mode),
        ),
        _ => Ok(()),
    }
}

// Whether what is at a path is written to, as a device: it is there, and no plain file.
fn is_written_to<R: System>(rt: &R, path: &str) -> bool {
    match fs::symlink_metadata(rt, path) {
        Ok(found) => !found.is_file(),
        Err(_) => false,
    }
}

// The name of a new file beside the one at a path.
fn beside<R: System>(rt: &R, path: &str) -> Result<String, Stop> {
    let alloc = rt.alloc();
    let digits = drawn_digits(rt)?;
    match path.rsplit_once('/') {
        Some((folder, name)) => Ok(joined(
            alloc,
            &[folder, "/.", name, ".", digits.as_str(), ".part"],
        )?),
        None => Ok(joined(alloc, &[".", path, ".", digits.as_str(), ".part"])?),
    }
}

/// Puts a new file in the place of the one at a path; what is no plain file, as a device, is written to.
pub fn write_file<R: System>(rt: &R, path: &str, bytes: &[u8]) -> Result<(), Stop> {
    if is_written_to(rt, path) {
        return match fs::write(rt, path, bytes) {
            Ok(()) => Ok(()),
            Err(fault) => Err(no_file(rt, path, &fault)),
        };
    }
    let new = beside(rt, path)?;
    let how = match mode_of(rt, path) {
        Some(mode) => Writing {
            mode: mode & 0o777,
            is_kept: true,
            is_lasting: true,
        },
        None => Writing {
            mode: 0o666,
            is_kept: false,
            is_lasting: true,
        },
    };
    match put_in_place(rt, new.as_str(), path, bytes, how) {
        Ok(()) => Ok(()),
        Err(fault) => Err(no_file(rt, path, &fault)),
    }
}

// Reads all there is, or one byte more than the most.
fn read_up_to<I: Read>(alloc: std::alloc::Global, input: &mut I) -> io::Result<Bytes> {
    let mut all = Bytes::new(alloc);
    let mut piece: Vec<u8> = Vec::new(alloc);
    piece.resize(PIECE, 0)?;
    for _ in 0..u64::MAX {
        if LARGEST < all.len() {
            break;
        }
        match input.read(piece.as_mut_slice()) {
            Ok(0) => break,
            Ok(count) => add(&mut all, piece.as_slice(), count)?,
            Err(fault) if fault.kind() == ErrorKind::Interrupted => {}
            Err(fault) => return Err(fault),
        }
    }
    Ok(all)
}

fn add(all: &mut Bytes, piece: &[u8], count: usize) -> io::Result<()> {
    match piece.get(..count) {
        Some(read) => match all.extend(read) {
            Ok(()) => Ok(()),
            Err(NoMemory) => Err(Error::from(ErrorKind::OutOfMemory)),
        },
        None => Ok(()),
    }
}

fn read_any<R: System>(rt: &R, path: &str) -> io::Result<Bytes> {
    let alloc = rt.alloc();
    if path == "-" {
        return read_up_to(alloc, &mut rt.reader());
    }
    let mut file = fs::open(rt, path)?;
    read_up_to(alloc, &mut file)
}

/// The bytes of a file, or of the input if the path is `-`.
pub fn read_file<R: System>(rt: &R, path: &str) -> Result<Bytes, Stop> {
    let called = if path == "-" { "input" } else { path };
    let bytes = match read_any(rt, path) {
        Ok(bytes) => bytes,
        Err(fault) => return Err(no_file(rt, called, &fault)),
    };
    if bytes.len() <= LARGEST {
        return Ok(bytes);
    }
    Err(ended(
        rt.alloc(),
        NO_FILE,
        &[
            called,
            ": has more than 1048576 bytes, which is the most that a file holds there",
        ],
    ))
}

/// Whether there is a folder at a path.
pub fn is_folder<R: System>(rt: &R, path: &str) -> bool {
    match fs::metadata(rt, path) {
        Ok(found) => found.is_dir(),
        Err(_) => false,
    }
}
