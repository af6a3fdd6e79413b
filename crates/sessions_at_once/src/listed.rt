//! Connections from memory, over `pcfs_run::run`: the listener tells which they are.

use crate::cases::ALICE_WRITES;
use crate::setting::{ALICE, Setting};
use bl_syntax::{Bytes, Numbers, copy_bytes};
use pcfs_ports::{MemoryDisk, MemoryListener, MemorySink, MemorySource, SetClock};
use pcfs_top::run::Ended;
use std::alloc::Global;
use std::io::Eprint;
use std::sync::Wait;
use std::thread::Threads;

const SCRIPT: &str = "at 100
register - admin says may(alice,#1,write) from -inf to +inf
verify alice #1 write 1 saysR(claim(0,init(1)))
";

/// The name is there, and the history has three events: the two of the script, and the one that alice asked for.
const CHECKS: &str = "as alice
do create #1 x @1
";

const FOUND: &[u8] = b"ok
refused 5 at 3
";

// Adds a connection that says this.
fn add_connection(alloc: Global, bytes: Bytes, net: &mut MemoryListener) -> Option<()> {
    let input = MemorySource::new(alloc, bytes, Numbers::new(alloc));
    let output = MemorySink::new(alloc, Numbers::new(alloc));
    net.add(input, output).ok()
}

// Adds two connections, of which the second says nothing.
fn add_connections(alloc: Global, first: &[u8], net: &mut MemoryListener) -> Option<()> {
    let first = copy_bytes(alloc, first).ok()?;
    add_connection(alloc, first, net)?;
    add_connection(alloc, Bytes::new(alloc), net)
}

// Serves two connections over the disks, of which the first says this. Returns the disks, and whether two were served; none if
// there is no memory.
fn serve_saying<R: Threads + Wait + Sync + Eprint>(
    rt: &R,
    alloc: Global,
    setting: &Setting,
    says: &[u8],
    disks: Ended<MemoryDisk>,
) -> Option<(Ended<MemoryDisk>, bool)> {
    let mut net = MemoryListener::new(alloc, Numbers::new(alloc));
    match add_connections(alloc, says, &mut net) {
        Some(()) => setting.serve(rt, alloc, &SetClock::new(100), &mut net, disks),
        None => None,
    }
}

// Serves two connections over the disks, of which the first is alice's.
fn serve_alice<R: Threads + Wait + Sync + Eprint>(
    rt: &R,
    alloc: Global,
    setting: &Setting,
    disks: Ended<MemoryDisk>,
) -> Option<(Ended<MemoryDisk>, bool)> {
    match format!(in alloc; "{ALICE}do create #1 x {ALICE_WRITES}\n") {
        Ok(says) => serve_saying(rt, alloc, setting, says.as_bytes(), disks),
        Err(_) => None,
    }
}

// Whether the last script finds on the disks what it has to.
fn is_kept<R: Threads + Wait + Sync>(
    rt: &R,
    alloc: Global,
    setting: &Setting,
    disks: Ended<MemoryDisk>,
) -> Option<bool> {
    let mut output = MemorySink::new(alloc, Numbers::new(alloc));
    match setting.add_script(rt, alloc, CHECKS, &mut output, disks) {
        Some(_) => Some(output.held() == FOUND),
        None => None,
    }
}

// Whether nothing was added for two that say nothing, and one event for what alice says; none if there is no memory.
fn agrees<R: Threads + Wait + Sync + Eprint>(
    rt: &R,
    alloc: Global,
    setting: &Setting,
) -> Option<bool> {
    let disks = setting.set_up(rt, alloc, SCRIPT)?;
    let (disks, is_silent) = serve_saying(rt, alloc, setting, &[], disks)?;
    let (disks, is_served) = serve_alice(rt, alloc, setting, disks)?;
    let is_kept = is_kept(rt, alloc, setting, disks)?;
    Some(is_silent && is_served && is_kept)
}

/// Whether connections that say nothing add nothing, and one that says a line adds what it asks for.
pub fn silence_adds_nothing<R: Threads + Wait + Sync + AllocGlobal + Eprint>(
    rt: &R,
    setting: &Setting,
) -> bool {
    agrees(rt, rt.alloc(), setting) == Some(true)
}
