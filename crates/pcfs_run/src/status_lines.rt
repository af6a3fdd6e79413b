//! The last line of a run that served, and the status to end with.

ghost use Rattle.std.specs.Prelude.{◌≡◌, ◌++◌, ℕ, Some, None, IfOk, codes};
ghost use Rattle.std.specs.Fmt.{decimal};
ghost use Rattle.pcfs_session.specs.ScriptEnds.{with_line_end};
ghost use Rattle.pcfs_tools.specs.LastLine.{Wrote};
ghost use Rattle.pcfs_run.specs.Served.{TellsServed};

use bl_syntax::decimal::put_counted;
use bl_syntax::{Bytes, NoMemory};
use pcfs_ports::{Disk, Sink};
use pcfs_server::ServeEnd;
use pcfs_store::Store;
use pcfs_tools::answering::{DISK_FAULT, DONE, OUT_OF_MEMORY, write_last_line};
use std::alloc::Global;

/// The listener failed, or there was no nonce.
const NET_FAULT: u8 = 8;

// The line that tells how many connections were attended.
fn served_line(alloc: Global, count: u64) -> Result<Bytes, NoMemory>
    ensures { IfOk result (λ line. line ≡ with_line_end (codes "served " ++ decimal count)) }
{
    let mut line = Bytes::new(alloc);
    put_counted(&mut line, "served ", count)?;
    line.push(b'\n')?;
    Ok(line)
}

// Writes how many connections were attended, and returns the status to end with.
fn write_count<O: Sink>(alloc: Global, output: &mut O, count: u64) -> u8
    ensures { TellsServed (ServeEnd.Done count) (O.held output.old) (O.faults output.old) result
        (O.held output.new) (O.faults output.new) (O.broken output.new) }
{
    match served_line(alloc, count) {
        Ok(line) => write_last_line(output, line.as_slice(), DONE),
        Err(_) => OUT_OF_MEMORY,
    }
}

// Writes the line at an end at which no disk failed, and returns the status to end with.
fn write_served<O: Sink>(alloc: Global, output: &mut O, end: ServeEnd) -> u8
    ensures { TellsServed end (O.held output.old) (O.faults output.old) result (O.held output.new) (O.faults output.new) (O.broken output.new) }
{
    match end {
        ServeEnd::Done(count) => write_count(alloc, output, count),
        ServeEnd::NetFault(_) => write_last_line(output, b"netfault\n", NET_FAULT),
        ServeEnd::NoMemory(_) => OUT_OF_MEMORY,
    }
}

/// Writes how the serving over this store ended, and returns the status to end with: that a disk failed comes first.
pub fn write_end<O: Sink, D: Disk>(
    alloc: Global,
    output: &mut O,
    end: ServeEnd,
    store: &Store<D>,
) -> u8
    ensures stopped { (pass : ℕ) → store.now.stop ≡ Some pass →
        Wrote 5 (codes "stopped") (O.held output.old) (O.faults output.old) result (O.held output.new) (O.faults output.new) (O.broken output.new) }
    ensures running { store.now.stop ≡ None →
        TellsServed end (O.held output.old) (O.faults output.old) result (O.held output.new) (O.faults output.new) (O.broken output.new) }
{
    if store.is_stopped() {
        return write_last_line(output, b"stopped\n", DISK_FAULT);
    }
    write_served(alloc, output, end)
}
