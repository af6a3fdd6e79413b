//! The bytes of a disk in memory, and what a crash leaves of them.

ghost use Rattle.std.specs.Prelude.{◌≡◌, ◌+◌, ◌-◌, ◌≤◌, ◌++◌, OnOk, OnErr, IfOk, length, take, drop, replicate};
ghost use Rattle.pcfs_ports.specs.Disk.{written, written_after_gap};
ghost use Rattle.pcfs_ports.specs.MemoryDisk.{image_by, image_after};
ghost use Rattle.pcfs_ports.specs.Image.{unwritten};
ghost use Rattle.pcfs_ports.specs.Stopped.{stopped_piece, stopped_by, stopped_after};

use super::disk_call::DiskCall;
use bl_syntax::{Bytes, NoMemory};
use std::alloc::Global;
use std::marker::Model;

// Lets the bytes reach to the end of a range, with `gap` from their old end on.
fn reach(bytes: &mut Vec<u8>, gap: u8, at: u64, len: usize) -> Result<(), NoMemory>
    ensures ok { OnOk result (bytes.new.items ≡ bytes.old.items ++ replicate (at + len - length bytes.old.items) gap) }
    ensures err { OnErr result (bytes.new.items ≡ bytes.old.items) }
{
    let at = at as usize;
    let end = at.checked_add(len).ok_or(NoMemory)?;
    if bytes.len() < end {
        bytes.resize(end, gap)?;
    }
    Ok(())
}

// Puts a piece over the bytes from `at` on.
fn overwrite(bytes: &mut [u8], at: usize, piece: &[u8])
    requires { at + length piece.now ≤ length bytes.old }
    ensures { bytes.new ≡ take at bytes.old ++ (piece.now ++ drop (at + length piece.now) bytes.old) }
{
    let end = at + piece.len();
    bytes[at..end].copy_from_slice(piece);
}

// Puts this byte over `len` bytes from `at` on.
fn fill_range(bytes: &mut [u8], at: usize, len: usize, fill: u8)
    requires { at + len ≤ length bytes.old }
    ensures { bytes.new ≡ take at bytes.old ++ (replicate len fill ++ drop (at + len) bytes.old) }
{
    let end = at + len;
    bytes[at..end].fill(fill);
}

// Writes a piece, and `gap` from the old end to its place, or changes nothing.
fn write(bytes: &mut Vec<u8>, gap: u8, at: u64, piece: &[u8]) -> Result<(), NoMemory>
    ensures ok { OnOk result (bytes.new.items ≡ written_after_gap gap at piece.now bytes.old.items) }
    ensures err { OnErr result (bytes.new.items ≡ bytes.old.items) }
{
    reach(bytes, gap, at, piece.len())?;
    overwrite(bytes, at as usize, piece);
    Ok(())
}

/// The bytes of a disk in memory: those that it began with, and what a read gives. The first write
/// makes a copy of them, if there is none.
#[derive(Debug, Drop)]
pub struct Image {
    alloc: Global,
    start: Bytes,
    // What a read gives, if it was written.
    written: Vec<u8>,
    is_written: bool,
}

impl Model for Image {
    ghost use Rattle.std.specs.Prelude.{if◌then◌else◌};
    ghost use Rattle.pcfs_ports.specs.Image.{ImageView};

    ghost Value = { ImageView };

    ghost view = { λ s. record { start = s.start; now = if s.is_written then s.written.items else s.start } };
}

impl Image {
    /// Nothing was written. It takes no memory.
    pub fn new(alloc: Global, bytes: Bytes) -> Image
        ensures { result ≡ unwritten bytes }
    {
        Image {
            alloc,
            start: bytes,
            written: Vec::new(alloc),
            is_written: false,
        }
    }

    /// Nothing was written, and the copy is there.
    pub fn copied(alloc: Global, bytes: Bytes) -> Result<Image, NoMemory>
        ensures { IfOk result (λ image. image ≡ unwritten bytes) }
    {
        let written = bytes.copy(alloc)?.into_vec();
        Ok(Image {
            alloc,
            start: bytes,
            written,
            is_written: true,
        })
    }

    /// The bytes that it began with.
    pub fn start(&self) -> &[u8]
        ensures { result.now ≡ self.now.start }
    {
        self.start.as_slice()
    }

    /// What a read gives.
    pub fn now(&self) -> &[u8]
        ensures { result.now ≡ self.now.now }
    {
        if self.is_written {
            self.written.as_slice()
        } else {
            self.start.as_slice()
        }
    }

    /// Writes a piece, or changes nothing.
    pub fn write(&mut self, at: u64, piece: &[u8]) -> Result<(), NoMemory>
        ensures start { self.new.start ≡ self.old.start }
        ensures ok { OnOk result (self.new.now ≡ written at piece.now self.old.now) }
        ensures err { OnErr result (self.new.now ≡ self.old.now) }
    {
        if !self.is_written {
            self.written = self.start.copy(self.alloc)?.into_vec();
            self.is_written = true;
        }
        write(&mut self.written, 0, at, piece)
    }
}

// Writes `fill` into a range, and from the old end to its place.
fn write_filled(bytes: &mut Vec<u8>, fill: u8, at: u64, len: usize) -> Result<(), NoMemory>
    ensures { OnOk result (bytes.new.items ≡ written_after_gap fill at (replicate len fill) bytes.old.items) }
{
    reach(bytes, fill, at, len)?;
    fill_range(bytes, at as usize, len, fill);
    Ok(())
}

// Puts a piece in its place as a crash leaves it.
fn write_stopped(
    left: &mut Vec<u8>,
    fill: u8,
    kept: bool,
    at: u64,
    piece: &[u8],
) -> Result<(), NoMemory>
    ensures { OnOk result (left.new.items ≡ written_after_gap fill at (stopped_piece fill kept piece.now) left.old.items) }
{
    if piece.len() == 1 {
        let there = if kept { piece } else { &[] };
        write(left, fill, at, there)
    } else {
        write_filled(left, fill, at, piece.len())
    }
}

// Does a call to what a read gives, and to what a crash leaves.
fn do_both(
    image: &mut Vec<u8>,
    left: &mut Vec<u8>,
    fill: u8,
    kept: bool,
    call: &DiskCall,
) -> Result<(), NoMemory>
    ensures image { OnOk result (image.new.items ≡ image_by call.now image.old.items) }
    ensures left { OnOk result (left.new.items ≡ stopped_by fill kept call.now image.old.items left.old.items) }
{
    match call {
        DiskCall::Wrote(at, piece) => {
            write(image, 0, *at, piece.as_slice())?;
            write_stopped(left, fill, kept, *at, piece.as_slice())
        }
        DiskCall::Synced => {
            left.clear();
            left.extend_from_slice(image)?;
            Ok(())
        }
    }
}

/// What a crash leaves of a disk that began with these bytes, after these calls.
pub fn leave_stopped(
    alloc: Global,
    start: &[u8],
    made: &[DiskCall],
    fill: u8,
    kept: bool,
) -> Result<Bytes, NoMemory>
    ensures { IfOk result (λ left. left ≡ stopped_after fill kept start.now start.now made.now) }
{
    let mut image = start.to_vec(alloc)?;
    let mut left = start.to_vec(alloc)?;
    for call in made {
        do_both(&mut image, &mut left, fill, kept, call)?;
    }
    Ok(Bytes::from_vec(left))
}
