//! What the system is asked of a file: to open it for one program alone, to make it, and to make its name durable.

use std::fs::{self, File, Metadata, OpenOptions, TryLockError};
use std::io::{self, ErrorKind};
use std::os::fd::AsRawFd;
use std::os::unix::fs::{MetadataExt, OpenOptionsExt};
use std::path::Path;
use std::rt::Files;

/// Who may read and write a file that is made: its owner.
const OWNER_ONLY: u32 = 0o600;

// Fails unless both are the same file.
fn require_same(one: &Metadata, other: &Metadata) -> io::Result<()> {
    if one.dev() == other.dev() && one.ino() == other.ino() {
        Ok(())
    } else {
        Err(io::Error::other("another file has this name now"))
    }
}

// Holds the file for this program alone, until it is closed.
fn hold(file: &File) -> io::Result<()> {
    match file.try_lock() {
        Ok(()) => Ok(()),
        Err(TryLockError::WouldBlock) => Err(io::Error::new(
            ErrorKind::ResourceBusy,
            "the store is in use, or both areas are one file",
        )),
        Err(TryLockError::Error(error)) => Err(error),
    }
}

// Lets the system drop its copies of what it has written. After a sync that failed in an earlier program they may differ
// from what the device has, which is what counts. It is advice: an error changes nothing.
fn drop_copies(file: &File) {
    let _ = libc::posix_fadvise(file.as_raw_fd(), 0, 0, libc::POSIX_FADV_DONTNEED);
}

/// The file with this path, open for reading and held for this program alone; none if there is none. A link and what is no
/// regular file are refused, and not opened.
pub fn open_held<R: Files<File = File>>(rt: &R, path: &str) -> io::Result<Option<File>> {
    let named = match fs::symlink_metadata(rt, path) {
        Ok(named) => named,
        Err(error) if error.kind() == ErrorKind::NotFound => return Ok(None),
        Err(error) => return Err(error),
    };
    if !named.is_file() {
        return Err(io::Error::other("not a regular file"));
    }
    let file = File::open(rt, path)?;
    require_same(&file.metadata()?, &named)?;
    hold(&file)?;
    drop_copies(&file);
    Ok(Some(file))
}

/// The same file as is held, open for writing too.
pub fn open_to_write<R: Files<File = File>>(rt: &R, path: &str, held: &File) -> io::Result<File> {
    let file = OpenOptions::new().read(true).write(true).open(rt, path)?;
    require_same(&file.metadata()?, &held.metadata()?)?;
    Ok(file)
}

/// A new file with this path, for its owner alone. It fails if anything has that name.
pub fn make<R: Files<File = File>>(rt: &R, path: &str) -> io::Result<File> {
    OpenOptions::new()
        .read(true)
        .write(true)
        .create_new(true)
        .mode(OWNER_ONLY)
        .open(rt, path)
}

/// A new file with this path, held for this program alone.
pub fn make_held<R: Files<File = File>>(rt: &R, path: &str) -> io::Result<File> {
    let file = make(rt, path)?;
    hold(&file)?;
    Ok(file)
}

/// Makes durable which names the folder of a path has.
pub fn sync_folder<R: Files<File = File>>(rt: &R, path: &str) -> io::Result<()> {
    let folder = match Path::new(path).parent() {
        Some(parent) => parent,
        None => Path::new("."),
    };
    let folder = if folder.as_str().is_empty() {
        Path::new(".")
    } else {
        folder
    };
    File::open(rt, folder)?.sync_all()
}
