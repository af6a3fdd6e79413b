//! The mark that a failed sync leaves: a file beside the areas.
//!
//! After a sync that failed the system may hold bytes that never reached the device, and a later sync is silent about them. So
//! what an opening reads then may be gone after the next loss of power.

use crate::files::{make, sync_folder};
use std::fs::{self, File};
use std::io::{self, Eprint, ErrorKind, Write};
use std::rt::Files;

// Makes the mark, with what it says, and makes it durable.
fn try_make<R: Files<File = File>>(
    rt: &R,
    mark: &str,
    path: &str,
    why: io::Error,
) -> io::Result<()> {
    let mut file = match make(rt, mark) {
        Ok(file) => file,
        Err(error) if error.kind() == ErrorKind::AlreadyExists => return Ok(()),
        Err(error) => return Err(error),
    };
    writeln!(file, "{path}: {why}")?;
    file.sync_all()?;
    sync_folder(rt, mark)
}

/// Makes the mark of a sync that failed, if there is none. If that fails too, it is said on the standard error.
pub fn make_mark<R: Files<File = File> + Eprint>(rt: &R, mark: &str, path: &str, why: io::Error) {
    if let Err(error) = try_make(rt, mark, path, why) {
        let _ = eprintln!(rt;
            "{mark}: {error}: the mark of a failed sync is missing or not durable"
        );
    }
}

/// Whether the mark is there.
pub fn is_marked<R: Files<File = File>>(rt: &R, mark: &str) -> io::Result<bool> {
    match fs::symlink_metadata(rt, mark) {
        Ok(_) => Ok(true),
        Err(error) if error.kind() == ErrorKind::NotFound => Ok(false),
        Err(error) => Err(error),
    }
}

/// Removes the mark, and makes that durable. It is for who has written the whole state anew and synced it.
pub fn remove_mark<R: Files<File = File>>(rt: &R, mark: &str) -> io::Result<()> {
    if is_marked(rt, mark)? {
        fs::remove_file(rt, mark)?;
        sync_folder(rt, mark)?;
    }
    Ok(())
}
