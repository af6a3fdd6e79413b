//! Areas in files.

ghost use Rattle.std.specs.Prelude.{◌≡◌, IfOk};

use bl_syntax::decimal::{put_counted, put_text};
use bl_syntax::{Bytes, NoMemory, Numbers};
use op_gate::Damage;
use pcfs_ports::{MemoryDisk, StdSource, TakeFault, read_to_end};
use pcfs_secrets::{SecretFault, Secrets};
use pcfs_store::Store;
use recover::{OpenFault, open_store};
use std::alloc::Global;
use std::fs;
use std::io::ErrorKind;
use std::rt::Files;

/// The files of a store.
const FIRST_FILE: &str = "pcfs.a";

const SECOND_FILE: &str = "pcfs.b";

const SECRETS_FILE: &str = "pcfs.secrets";

/// The file that marks that a sync of an area failed.
const FAULT_MARK: &str = "pcfs.fault";

/// Why an area was not opened.
#[derive(Debug, Drop)]
pub enum AreaFault {
    /// The file of that name cannot be read.
    Unreadable(String),
    /// The mark of that name is there.
    Marked(String),
    /// The line of this number of the secrets in this file is bad.
    BadSecrets(String, usize),
    /// What is read is no store, or a damaged one.
    Unopened(OpenFault),
    NoMemory,
}

impl From<NoMemory> for AreaFault {
    fn from(_refused: NoMemory) -> AreaFault {
        AreaFault::NoMemory
    }
}

/// A store that was opened, and the key of its seal.
#[derive(Drop)]
pub struct Opened {
    pub store: Store<MemoryDisk>,
    pub key: Bytes,
}

// The name of a file in a folder.
fn joined(alloc: Global, folder: &str, file: &str) -> Result<String, NoMemory> {
    let mut path = match String::from_str(alloc, folder) {
        Ok(path) => path,
        Err(_) => return Err(NoMemory),
    };
    if !folder.is_empty() && !folder.ends_with("/") {
        path.push_str("/")?;
    }
    path.push_str(file)?;
    Ok(path)
}

// The folder of a file.
fn folder_of(path: &str) -> &str {
    match path.rsplit_once("/") {
        Some((folder, _)) => { if folder.is_empty() { "/" } else { folder } }
        None => "",
    }
}

fn is_folder<R: Files>(rt: &R, path: &str) -> bool {
    match fs::metadata(rt, path) {
        Ok(metadata) => metadata.is_dir(),
        Err(_) => false,
    }
}

fn unreadable(alloc: Global, path: &str) -> AreaFault {
    match String::from_str(alloc, path) {
        Ok(path) => AreaFault::Unreadable(path),
        Err(_) => AreaFault::NoMemory,
    }
}

// The bytes of a file; none if it is not there.
fn bytes_of<R: Files + AllocGlobal>(rt: &R, path: &str) -> Result<Option<Bytes>, AreaFault> {
    let file = match fs::open(rt, path) {
        Ok(file) => file,
        Err(fault) if fault.kind() == ErrorKind::NotFound => return Ok(None),
        Err(fault) if fault.kind() == ErrorKind::OutOfMemory => return Err(AreaFault::NoMemory),
        Err(_) => return Err(unreadable(rt.alloc(), path)),
    };
    match read_to_end(rt.alloc(), &mut StdSource::new(file)) {
        Ok(bytes) => Ok(Some(bytes)),
        Err(TakeFault::NoMemory) => Err(AreaFault::NoMemory),
        Err(_) => Err(unreadable(rt.alloc(), path)),
    }
}

// A disk in memory with the bytes of a file; without bytes if it is not there.
fn disk_of<R: Files + AllocGlobal>(rt: &R, path: &str) -> Result<MemoryDisk, AreaFault> {
    let bytes = match bytes_of(rt, path)? {
        Some(bytes) => bytes,
        None => Bytes::new(rt.alloc()),
    };
    Ok(MemoryDisk::new(rt.alloc(), bytes, Numbers::new(rt.alloc()))?)
}

fn no_disk(alloc: Global) -> Result<MemoryDisk, NoMemory> {
    MemoryDisk::new(alloc, Bytes::new(alloc), Numbers::new(alloc))
}

// The secrets in a file, or an empty key and ring if it is not there.
fn secrets_of<R: Files + AllocGlobal>(rt: &R, path: &str) -> Result<Secrets, AreaFault> {
    let text = match bytes_of(rt, path)? {
        Some(text) => text,
        None => return Ok(Secrets::none(rt.alloc())),
    };
    match Secrets::parse(rt.alloc(), text.as_slice()) {
        Ok(secrets) => Ok(secrets),
        Err(SecretFault::BadLine(number)) => match String::from_str(rt.alloc(), path) {
            Ok(path) => Err(AreaFault::BadSecrets(path, number)),
            Err(_) => Err(AreaFault::NoMemory),
        },
        Err(SecretFault::NoMemory) => Err(AreaFault::NoMemory),
    }
}

// Refuses a folder in which a sync failed.
fn see_mark<R: Files + AllocGlobal>(rt: &R, folder: &str) -> Result<(), AreaFault> {
    let mark = joined(rt.alloc(), folder, FAULT_MARK)?;
    match fs::symlink_metadata(rt, mark.as_str()) {
        Ok(_) => Err(AreaFault::Marked(mark)),
        Err(_) => Ok(()),
    }
}

// The disks of an area: of a folder both files, of a file that one and an empty one.
fn disks_of<R: Files + AllocGlobal>(
    rt: &R,
    path: &str,
    is_folder: bool,
) -> Result<(MemoryDisk, MemoryDisk), AreaFault> {
    if is_folder {
        let first = joined(rt.alloc(), path, FIRST_FILE)?;
        let second = joined(rt.alloc(), path, SECOND_FILE)?;
        return Ok((disk_of(rt, first.as_str())?, disk_of(rt, second.as_str())?));
    }
    match bytes_of(rt, path)? {
        Some(bytes) => Ok((
            MemoryDisk::new(rt.alloc(), bytes, Numbers::new(rt.alloc()))?,
            no_disk(rt.alloc())?,
        )),
        None => Err(unreadable(rt.alloc(), path)),
    }
}

/// Opens the area that counts in a folder, or that of a file, for reading alone.
pub fn open_area<R: Files + AllocGlobal>(
    rt: &R,
    path: &str,
    secrets: Option<&str>,
) -> Result<Opened, AreaFault>
    ensures { IfOk result (λ opened. opened.key ≡ opened.store.key) }
{
    let is_folder = is_folder(rt, path);
    let folder = if is_folder { path } else { folder_of(path) };
    see_mark(rt, folder)?;
    let secrets = match secrets {
        Some(secrets) => secrets_of(rt, secrets)?,
        None => {
            let beside = joined(rt.alloc(), folder, SECRETS_FILE)?;
            secrets_of(rt, beside.as_str())?
        }
    };
    let (first, second) = disks_of(rt, path, is_folder)?;
    let Secrets { seal_key, ring } = secrets;
    match open_store(rt.alloc(), first, second, seal_key.as_slice(), ring) {
        Ok(store) => Ok(Opened {
            store,
            key: seal_key,
        }),
        Err((fault, _, _)) => Err(AreaFault::Unopened(fault)),
    }
}

// What is wrong with a record.
fn damage_text(damage: Damage) -> &'static str {
    match damage {
        Damage::Header => ": its header is wrong, or it is cut",
        Damage::Shape => ": its bytes are none of an image or an event",
        Damage::Unsigned => ": a signature is not accepted; are these the secrets of its day?",
        Damage::Unproved => ": a proof does not grant what was issued by it",
        Damage::NotAdmitted => {
            ": an operation is not admitted; is this the key of the seal of its day?"
        }
        Damage::MomentFalls => ": a moment is before the last one",
        Damage::Duplicate => ": a statement is there twice",
    }
}

/// Writes why an area was not opened. False, if there was no memory.
pub fn put_area_fault(out: &mut Bytes, path: &str, fault: &AreaFault) -> Result<bool, NoMemory> {
    put_text(out, "pcfs-history: ")?;
    match fault {
        AreaFault::Unreadable(file) => {
            put_text(out, file.as_str())?;
            put_text(out, ": cannot be read")?;
            Ok(true)
        }
        AreaFault::Marked(file) => {
            put_text(out, file.as_str())?;
            put_text(
                out,
                ": a sync of the store failed; the remedy is: pcfs checkpoint",
            )?;
            Ok(true)
        }
        AreaFault::BadSecrets(file, number) => {
            put_text(out, file.as_str())?;
            put_counted(out, ": line ", *number as u64)?;
            put_text(out, " is bad")?;
            Ok(true)
        }
        AreaFault::Unopened(OpenFault::NoStore) => {
            put_text(out, path)?;
            put_text(out, ": no open area is there")?;
            Ok(true)
        }
        AreaFault::Unopened(OpenFault::Damaged(number, damage)) => {
            put_text(out, path)?;
            put_counted(out, ": record ", *number)?;
            put_text(out, " is damaged")?;
            put_text(out, damage_text(*damage))?;
            Ok(true)
        }
        AreaFault::Unopened(_) => Ok(false),
        AreaFault::NoMemory => Ok(false),
    }
}
