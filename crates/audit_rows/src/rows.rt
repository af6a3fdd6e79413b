//! A file of rows: what stands before its first case begins each of its cases.

use crate::case::{Case, CaseEnd, RowFault};
use bl_syntax::decimal::put_counted;
use bl_syntax::{Bytes, NoMemory};
use std::alloc::Global;
use std::thread::Threads;

// Adds a line.
fn add_report(text: &str, name: &str, report: &mut Bytes) -> Result<(), NoMemory> {
    report.extend(text.as_bytes())?;
    report.extend(name.as_bytes())?;
    report.push(b'\n')
}

// Adds how the case ended, and returns whether it agrees.
fn judge(name: &str, ended: &CaseEnd, report: &mut Bytes) -> Result<bool, NoMemory> {
    match ended {
        CaseEnd::Agrees => {
            add_report("agrees: ", name, report)?;
            Ok(true)
        }
        CaseEnd::Differs(pieces, found) => {
            add_report("differs: ", name, report)?;
            put_counted(report, "  in pieces: ", *pieces as u64)?;
            report.push(b'\n')?;
            report.extend(found.as_slice())?;
            Ok(false)
        }
    }
}

// Adds which row is bad, unless there was no memory.
fn add_fault(fault: RowFault, row: &str, report: &mut Bytes) -> Result<bool, NoMemory> {
    match fault {
        RowFault::BadRow => {
            add_report("  a bad row: ", row, report)?;
            Ok(false)
        }
        RowFault::NoMemory => Err(NoMemory),
    }
}

// Reads the rows into the case, up to the first bad one, which is added. Returns whether there is none.
fn read_rows(
    alloc: Global,
    rows: &str,
    case: &mut Case,
    report: &mut Bytes,
) -> Result<bool, NoMemory> {
    for row in rows.lines() {
        match case.add_row(alloc, row) {
            Ok(()) => {}
            Err(fault) => return add_fault(fault, row, report),
        }
    }
    Ok(true)
}

// Audits the history of the case of this name, and adds how it ended.
fn run_case<R: Threads + Sync + AllocGlobal>(
    rt: &R,
    name: &str,
    case: &Case,
    report: &mut Bytes,
) -> Result<bool, NoMemory> {
    match case.run(rt) {
        Ok(ended) => judge(name, &ended, report),
        Err(fault) => add_fault(fault, name, report),
    }
}

// Reads and runs a case, of which the first line is its name.
fn run_block<R: Threads + Sync + AllocGlobal>(
    rt: &R,
    beginning: &str,
    block: &str,
    report: &mut Bytes,
) -> Result<bool, NoMemory> {
    let (name, rows) = block.split_once('\n').unwrap_or((block, ""));
    let mut case = Case::new(rt.alloc());
    let begins = read_rows(rt.alloc(), beginning, &mut case, report)?;
    let goes_on = read_rows(rt.alloc(), rows, &mut case, report)?;
    if begins && goes_on {
        run_case(rt, name, &case, report)
    } else {
        add_report("not run: ", name, report)?;
        Ok(false)
    }
}

/// Runs each case of a file of rows, adds to the report how it ended, and returns whether all agree.
pub fn run_rows<R: Threads + Sync + AllocGlobal>(
    rt: &R,
    text: &str,
    report: &mut Bytes,
) -> Result<bool, NoMemory> {
    let mut blocks = text.split("\n= ");
    let beginning = blocks.next().unwrap_or("");
    let mut agree = true;
    for block in blocks {
        agree &= run_block(rt, beginning, block, report)?;
    }
    Ok(agree)
}
