//! A script over a store in memory.

ghost use Rattle.std.specs.Prelude.{◌≡◌, ◌⊎◌, IfOk};
ghost use Rattle.pcfs_store.specs.Formats.{IsNewStore};
ghost use Rattle.pcfs_tools.specs.Broken.{broken_of};
ghost use Rattle.pcfs_tools.specs.Memory.{MemoryEnds};
ghost use Rattle.pcfs_session.specs.Streams.{streams_of};

use crate::answering::{DISK_FAULT, OUT_OF_MEMORY, run_over};
use bl_syntax::{Bytes, NoMemory, Numbers};
use pcfs_ports::{MemoryDisk, Sink, Source};
use pcfs_secrets::Secrets;
use pcfs_store::{Store, format_store};
use std::alloc::Global;

/// By the order of the code replies of a script in memory are written once they have this many bytes or more, and before more
/// of the input is taken.
pub const ENOUGH: usize = 65_536;

/// A store before its first event on disks in memory.
pub fn memory_store(alloc: Global, secrets: &Secrets) -> Result<Store<MemoryDisk>, NoMemory>
    ensures { IfOk result (IsNewStore secrets.now.seal_key secrets.now.ring) }
{
    let a = MemoryDisk::new(alloc, Bytes::new(alloc), Numbers::new(alloc))?;
    let b = MemoryDisk::new(alloc, Bytes::new(alloc), Numbers::new(alloc))?;
    let ring = secrets.ring.copy(alloc)?;
    match format_store(alloc, a, b, secrets.seal_key.as_slice(), ring) {
        Ok(store) => Ok(store),
        Err(_) => Err(NoMemory),
    }
}

// The status of a script in memory: its disks fail only if memory runs out.
fn memory_status(status: u8) -> u8
    ensures { ((status ≡ 5) × (result ≡ 9)) ⊎ ((status ≡ 5 → ⊥) × (result ≡ status)) }
{
    if status == DISK_FAULT {
        OUT_OF_MEMORY
    } else {
        status
    }
}

/// Runs the script in the input over a store in memory, and returns the status to end with.
pub fn run_in_memory<I: Source, O: Sink>(
    alloc: Global,
    secrets: &Secrets,
    input: &mut I,
    output: &mut O,
) -> u8
    ensures { MemoryEnds secrets.now
        (streams_of I.left I.faults O.held O.faults input.old output.old)
        (streams_of I.left I.faults O.held O.faults input.new output.new)
        (broken_of I.broken O.broken input.new output.new) result }
{
    match memory_store(alloc, secrets) {
        Ok(store) => {
            let (status, _store) = run_over(alloc, store, input, ENOUGH, output);
            memory_status(status)
        }
        Err(_) => OUT_OF_MEMORY,
    }
}
