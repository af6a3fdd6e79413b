//! A file of rows: what stands before its first case begins each of its cases.

use crate::board::Outcome;
use crate::case::{Case, RowFault};
use crate::running::{self, CaseEnd};
use bl_syntax::decimal::put_counted;
use bl_syntax::{Bytes, NoMemory};
use std::alloc::Global;
use std::io::Eprint;
use std::sync::Wait;
use std::thread::Threads;

// Adds a line.
fn add_report(text: &str, name: &str, report: &mut Bytes) -> Result<(), NoMemory> {
    report.extend(text.as_bytes())?;
    report.extend(name.as_bytes())?;
    report.push(b'\n')
}

// Adds a line that ends with the number of what differs, and returns that the case does not agree.
fn add_counted(text: &str, number: usize, report: &mut Bytes) -> Result<bool, NoMemory> {
    put_counted(report, text, number as u64)?;
    report.push(b'\n')?;
    Ok(false)
}

// Adds in what the script was told something else than wanted, and returns that the case does not agree.
fn add_found(name: &str, ended: &CaseEnd, report: &mut Bytes) -> Result<bool, NoMemory> {
    add_report("another history: ", name, report)?;
    report.extend(ended.found.as_slice())?;
    Ok(false)
}

// Adds that the case agrees, whose connections did as wanted, or what differs, and returns whether it agrees.
fn judge_end(
    name: &str,
    wanted: &[u8],
    ended: &CaseEnd,
    report: &mut Bytes,
) -> Result<bool, NoMemory> {
    if !ended.is_served {
        add_report("ends otherwise: ", name, report)?;
        return Ok(false);
    }
    if ended.found.as_slice() != wanted {
        return add_found(name, ended, report);
    }
    add_report("agrees: ", name, report)?;
    Ok(true)
}

// Adds that the case agrees, or what differs, and returns whether it agrees.
fn judge(name: &str, wanted: &[u8], ended: &CaseEnd, report: &mut Bytes) -> Result<bool, NoMemory> {
    match ended.outcome {
        Outcome::AsWanted => judge_end(name, wanted, ended, report),
        Outcome::Differs(step) => {
            add_report("differs: ", name, report)?;
            add_counted("  at step ", step, report)
        }
        Outcome::InVain(made) => {
            add_report("waits in vain: ", name, report)?;
            add_counted("  after steps: ", made, report)
        }
    }
}

// Adds which row is bad, unless there was no memory.
fn add_fault(fault: RowFault, row: &str, report: &mut Bytes) -> Result<bool, NoMemory> {
    match fault {
        RowFault::BadRow => {
            add_report("  a bad row: ", row, report)?;
            Ok(false)
        }
        RowFault::NoMemory => Err(NoMemory),
    }
}

// Reads the rows into the case, up to the first bad one, which is added. Returns whether there is none.
fn read_rows(
    alloc: Global,
    rows: &str,
    case: &mut Case,
    report: &mut Bytes,
) -> Result<bool, NoMemory> {
    for row in rows.lines() {
        match case.add_row(alloc, row) {
            Ok(()) => {}
            Err(fault) => return add_fault(fault, row, report),
        }
    }
    Ok(true)
}

// Reads the rows that begin each case and those of the case. Returns whether none is bad.
fn read_case(
    alloc: Global,
    beginning: &str,
    rows: &str,
    case: &mut Case,
    report: &mut Bytes,
) -> Result<bool, NoMemory> {
    let begins = read_rows(alloc, beginning, case, report)?;
    let goes_on = read_rows(alloc, rows, case, report)?;
    case.complete(alloc)?;
    Ok(begins && goes_on)
}

// Runs the case of this name, and adds how it ended.
fn run_case<R: Threads + Wait + Sync + AllocGlobal + Eprint>(
    rt: &R,
    name: &str,
    case: &Case,
    report: &mut Bytes,
) -> Result<bool, NoMemory> {
    match running::run_case(rt, rt.alloc(), case) {
        Ok(ended) => judge(name, case.wanted.as_slice(), &ended, report),
        Err(fault) => add_fault(fault, name, report),
    }
}

// Reads and runs a case, which is empty yet and of which the first line is its name.
fn run_block<R: Threads + Wait + Sync + AllocGlobal + Eprint>(
    rt: &R,
    beginning: &str,
    block: &str,
    case: &mut Case,
    report: &mut Bytes,
) -> Result<bool, NoMemory> {
    let (name, rows) = block.split_once('\n').unwrap_or((block, ""));
    if read_case(rt.alloc(), beginning, rows, case, report)? {
        return run_case(rt, name, case, report);
    }
    add_report("not run: ", name, report)?;
    Ok(false)
}

// Runs a case, of which the first line is its name.
fn run_new<R: Threads + Wait + Sync + AllocGlobal + Eprint>(
    rt: &R,
    beginning: &str,
    block: &str,
    report: &mut Bytes,
) -> Result<bool, NoMemory> {
    let mut case = Case::new(rt.alloc());
    run_block(rt, beginning, block, &mut case, report)
}

/// Runs each case of a file of rows, adds to the report how it ended, and returns whether all agree.
pub fn run_rows<R: Threads + Wait + Sync + AllocGlobal + Eprint>(
    rt: &R,
    text: &str,
    report: &mut Bytes,
) -> Result<bool, NoMemory> {
    let mut blocks = text.split("\n= ");
    let beginning = blocks.next().unwrap_or("");
    let mut agree = true;
    for block in blocks {
        agree &= run_new(rt, beginning, block, report)?;
    }
    Ok(agree)
}
