//! A file of rows: what stands before its first case begins each of its cases.

use crate::case::{Case, Left};
use crate::short_form::RowFault;
use bl_syntax::decimal::put_counted;
use bl_syntax::{Bytes, NoMemory};
use std::alloc::Global;
use std::sync::Wait;
use std::thread::Threads;

// Adds a line.
fn add_report(text: &str, name: &str, report: &mut Bytes) -> Result<(), NoMemory> {
    report.extend(text.as_bytes())?;
    report.extend(name.as_bytes())?;
    report.push(b'\n')
}

// Adds the reply at a place that differs.
fn add_differing(
    place: usize,
    found: &[u8],
    wanted: &[u8],
    report: &mut Bytes,
) -> Result<(), NoMemory> {
    put_counted(report, "  reply ", place as u64)?;
    report.extend(b", from 0, is: ")?;
    report.extend(found)?;
    report.extend(b"\n  and not: ")?;
    report.extend(wanted)?;
    report.push(b'\n')
}

// Adds the first reply that differs.
fn add_difference(found: &[u8], wanted: &[u8], report: &mut Bytes) -> Result<(), NoMemory> {
    let found = found.split(|byte| *byte == b'\n');
    let wanted = wanted.split(|byte| *byte == b'\n');
    for (place, (found, wanted)) in found.zip(wanted).enumerate() {
        if found != wanted {
            return add_differing(place, found, wanted, report);
        }
    }
    report.extend(b"  the one has more replies\n")
}

// Adds that the case agrees, in so many lines.
fn add_agrees(name: &str, wanted: &[u8], report: &mut Bytes) -> Result<(), NoMemory> {
    let lines = wanted.iter().filter(|byte| **byte == b'\n').count();
    put_counted(report, "agrees in ", lines as u64)?;
    add_report(" lines: ", name, report)
}

// Adds how the case ended, with this status, and returns whether it agrees.
fn judge(name: &str, case: &Case, status: u8, report: &mut Bytes) -> Result<bool, NoMemory> {
    let found = case.found.as_slice();
    let wanted = case.wanted.as_slice();
    if found != wanted {
        add_report("differs: ", name, report)?;
        add_difference(found, wanted, report)?;
        return Ok(false);
    }
    if status != case.status {
        add_report("another status: ", name, report)?;
        return Ok(false);
    }
    add_agrees(name, wanted, report)?;
    Ok(true)
}

// Adds which row is bad, unless there was no memory.
fn add_fault(fault: RowFault, row: &str, report: &mut Bytes) -> Result<bool, NoMemory> {
    match fault {
        RowFault::BadRow => {
            add_report("  a bad row: ", row, report)?;
            Ok(false)
        }
        RowFault::NoMemory => Err(NoMemory),
    }
}

// Reads the rows into the case, up to the first bad one, which is added. Returns whether there is none.
fn read_rows(
    alloc: Global,
    rows: &str,
    left: &Left,
    case: &mut Case,
    report: &mut Bytes,
) -> Result<bool, NoMemory> {
    for row in rows.lines() {
        match case.add_row(alloc, left, row) {
            Ok(()) => {}
            Err(fault) => return add_fault(fault, row, report),
        }
    }
    Ok(true)
}

// Reads the rows that begin each case and those of the case. Returns whether none is bad.
fn read_case(
    alloc: Global,
    beginning: &str,
    rows: &str,
    left: &Left,
    case: &mut Case,
    report: &mut Bytes,
) -> Result<bool, NoMemory> {
    let begins = read_rows(alloc, beginning, left, case, report)?;
    let goes_on = read_rows(alloc, rows, left, case, report)?;
    Ok(begins && goes_on)
}

// Runs the case of this name, and adds how it ended.
fn run_case<R: Threads + Wait + Sync + AllocGlobal>(
    rt: &R,
    name: &str,
    case: &mut Case,
    left: &mut Left,
    report: &mut Bytes,
) -> Result<bool, NoMemory> {
    match case.run(rt, rt.alloc(), left) {
        Ok(status) => judge(name, case, status, report),
        Err(fault) => add_fault(fault, name, report),
    }
}

// Reads and runs a case, which is empty yet and of which the first line is its name.
fn run_block<R: Threads + Wait + Sync + AllocGlobal>(
    rt: &R,
    beginning: &str,
    block: &str,
    case: &mut Case,
    left: &mut Left,
    report: &mut Bytes,
) -> Result<bool, NoMemory> {
    let (name, rows) = block.split_once('\n').unwrap_or((block, ""));
    if read_case(rt.alloc(), beginning, rows, left, case, report)? {
        return run_case(rt, name, case, left, report);
    }
    add_report("not run: ", name, report)?;
    Ok(false)
}

// Runs a case, of which the first line is its name.
fn run_new<R: Threads + Wait + Sync + AllocGlobal>(
    rt: &R,
    beginning: &str,
    block: &str,
    left: &mut Left,
    report: &mut Bytes,
) -> Result<bool, NoMemory> {
    let mut case = Case::new(rt.alloc());
    run_block(rt, beginning, block, &mut case, left, report)
}

// Runs each case, over the disks as the one before left them.
fn run_blocks<R: Threads + Wait + Sync + AllocGlobal>(
    rt: &R,
    text: &str,
    left: &mut Left,
    report: &mut Bytes,
) -> Result<bool, NoMemory> {
    let mut blocks = text.split("\n= ");
    let beginning = blocks.next().unwrap_or("");
    let mut agree = true;
    for block in blocks {
        agree &= run_new(rt, beginning, block, left, report)?;
    }
    Ok(agree)
}

/// Runs each case of a file of rows, adds to the report how it ended, and returns whether all agree.
pub fn run_rows<R: Threads + Wait + Sync + AllocGlobal>(
    rt: &R,
    name: &str,
    text: &str,
    report: &mut Bytes,
) -> Result<bool, NoMemory> {
    add_report("", name, report)?;
    let mut left = Left::new(rt.alloc());
    run_blocks(rt, text, &mut left, report)
}
