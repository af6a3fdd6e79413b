//! The disk.

ghost use Rattle.std.specs.Prelude.{◌≡◌, ℕ, ◌≤◌, None, IfOk, length};
ghost use Rattle.pcfs_ports.specs.DiskLaws.{untold};
ghost use Rattle.pcfs_ports.specs.Faults.{raise};

use crate::files::{make_held, open_held, open_to_write, sync_folder};
use crate::mark::{is_marked, make_mark};
use pcfs_ports::{Disk, Failed};
use std::fs::File;
use std::io::{self, Eprint, ErrorKind};
use std::marker::Model;
use std::os::unix::fs::FileExt;
use std::rt::Files;

// How far the file was opened.
#[derive(Clone, Copy, PartialEq, Eq)]
enum State {
    // Not yet.
    Unopened,
    // It is open, or it is not there.
    Opened,
    // It cannot be opened or made, or a sync of it failed.
    Broken,
}

// The file, if it is there and open.
#[derive(Drop)]
struct Handle {
    state: State,
    // Open for reading and held, if it was there when it was opened.
    held: Option<File>,
    // Open for writing, and held if it was made.
    writer: Option<File>,
    // Its folder was synced since it was opened or made.
    is_named: bool,
}

// The mark of a failed sync, if the disk has one, and whether the disk may be used while it is there.
#[derive(Clone, Copy)]
struct Mark<'a> {
    path: Option<&'a str>,
    is_remedy: bool,
}

/// A disk over one file, which is opened at the first call. As a disk it tells nothing of the bytes.
/// A file that is not there reads as empty, and the first write makes it, for its owner alone. It is opened for writing at
/// the first write.
///
/// From its opening on the file is held for this program alone, by a lock of the system: while another program or another
/// disk holds it, every call fails, and so it does at a link, or at what is no regular file.
///
/// A sync waits until the file's bytes and its length are on the device, and the first one of a file
/// that is there until its name is in its folder there, since an earlier program may have made it.
/// Each error of the system is a fault, but for a file that is not there. Every call fails if the
/// file cannot be opened for another reason, after it could not be made, and after a sync failed: the
/// system may have dropped what it could not write. The first fault is said on the standard error.
#[derive(Drop)]
pub struct FileDisk<'a, R: Files> {
    rt: &'a R,
    path: &'a str,
    mark: Mark<'a>,
    handle: Handle,
    faults: u64,
}

impl<'a, R: Files> Model for FileDisk<'a, R> {
    ghost use Rattle.std.specs.Prelude.{ℕ};

    // the count of faults
    ghost Value = { ℕ };

    ghost view = { λ s. s.faults };
}

impl<'a, R: Files> FileDisk<'a, R> {
    /// A disk over the file with this path, without a fault and without a mark. It opens no file yet.
    pub fn new(rt: &'a R, path: &'a str) -> Self
        ensures { result ≡ 0 }
    {
        FileDisk {
            rt,
            path,
            mark: Mark {
                path: None,
                is_remedy: false,
            },
            handle: Handle {
                state: State::Unopened,
                held: None,
                writer: None,
                is_named: false,
            },
            faults: 0,
        }
    }

    /// The same with a file that marks that a sync failed. A sync that fails makes it before it returns. While it is there,
    /// every call of a disk that is opened fails, unless the disk is for the remedy.
    pub fn marked(rt: &'a R, path: &'a str, mark: &'a str, is_remedy: bool) -> Self
        ensures { result ≡ 0 }
    {
        FileDisk {
            rt,
            path,
            mark: Mark {
                path: Some(mark),
                is_remedy,
            },
            handle: Handle {
                state: State::Unopened,
                held: None,
                writer: None,
                is_named: false,
            },
            faults: 0,
        }
    }
}

// Opens the file if it is there, and looks for the mark.
fn open_unmarked<R: Files<File = File>>(
    rt: &R,
    path: &str,
    mark: Mark<'_>,
) -> io::Result<Option<File>> {
    let held = open_held(rt, path)?;
    if let Some(name) = mark.path {
        if !mark.is_remedy && is_marked(rt, name)? {
            return Err(io::Error::other(
                "a sync of the store failed, see pcfs.fault; the remedy is: pcfs checkpoint",
            ));
        }
    }
    Ok(held)
}

// Opens the file if no call did so before.
fn open_once<R: Files<File = File>>(
    rt: &R,
    path: &str,
    mark: Mark<'_>,
    handle: &mut Handle,
) -> io::Result<()> {
    match handle.state {
        State::Opened => Ok(()),
        State::Broken => Err(ErrorKind::Other.into()),
        State::Unopened => match open_unmarked(rt, path, mark) {
            Ok(held) => {
                handle.state = State::Opened;
                handle.held = held;
                Ok(())
            }
            Err(error) => {
                handle.state = State::Broken;
                Err(error)
            }
        },
    }
}

// The file, open for writing. It is made if it was not there.
fn writer_of<R: Files<File = File>>(rt: &R, path: &str, held: &Option<File>) -> io::Result<File> {
    match held {
        Some(held) => open_to_write(rt, path, held),
        None => make_held(rt, path),
    }
}

// Opens the file for writing if no call did so before.
fn open_writer<R: Files<File = File>>(rt: &R, path: &str, handle: &mut Handle) -> io::Result<()> {
    if handle.writer.is_some() {
        return Ok(());
    }
    match writer_of(rt, path, &handle.held) {
        Ok(file) => {
            handle.writer = Some(file);
            Ok(())
        }
        Err(error) => {
            handle.state = State::Broken;
            Err(error)
        }
    }
}

impl Handle {
    // The file, if it is there.
    fn file(&self) -> Option<&File> {
        match &self.writer {
            Some(file) => Some(file),
            None => match &self.held {
                Some(file) => Some(file),
                None => None,
            },
        }
    }
}

// Reads from `at` until the buffer is full or the file ends.
fn fill(file: &File, at: u64, buf: &mut [u8]) -> io::Result<usize>
    ensures { IfOk result (λ count. count ≤ length buf.new) }
{
    let mut count: usize = 0;
    while count < buf.len() {
        let more = file.read_at(&mut buf[count..], at.saturating_add(count as u64))?;
        if more == 0 {
            return Ok(count);
        }
        count += more;
    }
    Ok(count)
}

// Writes a piece. An empty one makes the gap before it all the same.
fn put(file: &File, at: u64, piece: &[u8]) -> io::Result<()> {
    if piece.is_empty() {
        if file.metadata()?.len() < at {
            file.set_len(at)?;
        }
        return Ok(());
    }
    file.write_all_at(piece, at)
}

// Makes the file durable, and its name if that was not done. A medium that is only read may know no syncs: then nothing is
// pending.
fn sync_named<R: Files<File = File>>(rt: &R, path: &str, handle: &mut Handle) -> io::Result<()> {
    let Some(file) = handle.file() else {
        return Ok(());
    };
    let mut synced = file.sync_data();
    if synced.is_ok() && !handle.is_named {
        synced = sync_folder(rt, path);
    }
    match synced {
        Err(error) if error.kind() == ErrorKind::InvalidInput && handle.writer.is_none() => Ok(()),
        Ok(()) => {
            handle.is_named = true;
            Ok(())
        }
        Err(error) => Err(error),
    }
}

impl<'a, R: Files<File = File> + Eprint> FileDisk<'a, R> {
    fn open(&mut self) -> io::Result<()>
        ensures { self.new ≡ self.old }
    {
        open_once(self.rt, self.path, self.mark, &mut self.handle)
    }

    fn try_read(&mut self, at: u64, buf: &mut [u8]) -> io::Result<usize>
        ensures bound { IfOk result (λ count. count ≤ length buf.new) }
        ensures same { self.new ≡ self.old }
    {
        self.open()?;
        match self.handle.file() {
            Some(file) => fill(file, at, buf),
            None => Ok(0),
        }
    }

    fn try_len(&mut self) -> io::Result<u64>
        ensures { self.new ≡ self.old }
    {
        self.open()?;
        match self.handle.file() {
            Some(file) => Ok(file.metadata()?.len()),
            None => Ok(0),
        }
    }

    fn try_write(&mut self, at: u64, piece: &[u8]) -> io::Result<()>
        ensures { self.new ≡ self.old }
    {
        self.open()?;
        open_writer(self.rt, self.path, &mut self.handle)?;
        match &self.handle.writer {
            Some(file) => put(file, at, piece),
            None => Ok(()),
        }
    }

    // Syncs the file, if it is there. After it failed no call succeeds, and the mark is there.
    fn try_sync(&mut self) -> io::Result<()>
        ensures { self.new ≡ self.old }
    {
        self.open()?;
        if let Err(error) = sync_named(self.rt, self.path, &mut self.handle) {
            self.handle.state = State::Broken;
            if let Some(mark) = self.mark.path {
                make_mark(self.rt, mark, self.path, error);
            }
            return Err(error);
        }
        Ok(())
    }

    // Says an error, if it is the first. A line that cannot be written is dropped.
    fn write_error(&self, error: io::Error) {
        if self.faults == 0 {
            let path = self.path;
            let _ = eprintln!(self.rt; "{path}: {error}");
        }
    }

    // Counts a fault, and says the first.
    fn count(&mut self, error: io::Error) -> Failed
        ensures counted { self.new ≡ raise self.old }
        ensures never_falls { self.old ≤ self.new }
    {
        self.write_error(error);
        self.faults = self.faults.saturating_add(1);
        Failed
    }
}

impl<'a, R: Files<File = File> + Eprint> Disk for FileDisk<'a, R> {
    ghost image = { λ _. None };

    ghost clock = { λ _. 0 };

    ghost left_since = { λ _ _ _. ⊥ };

    ghost faults = { λ s. s };

    ghost since_earlier = { λ disk t u bytes le left. left };

    ghost image_may_stay = { λ disk bytes is. untold bytes is };

    fn read(&mut self, at: u64, buf: &mut [u8]) -> Result<usize, Failed> {
        match self.try_read(at, buf) {
            Ok(count) => Ok(count),
            Err(error) => Err(self.count(error)),
        }
    }

    fn len(&mut self) -> Result<u64, Failed> {
        match self.try_len() {
            Ok(count) => Ok(count),
            Err(error) => Err(self.count(error)),
        }
    }

    fn write_at(&mut self, at: u64, piece: &[u8]) -> Result<(), Failed> {
        match self.try_write(at, piece) {
            Ok(()) => Ok(()),
            Err(error) => Err(self.count(error)),
        }
    }

    fn sync(&mut self) -> Result<(), Failed> {
        match self.try_sync() {
            Ok(()) => Ok(()),
            Err(error) => Err(self.count(error)),
        }
    }
}
