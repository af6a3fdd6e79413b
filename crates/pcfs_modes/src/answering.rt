//! What the table of modes in an input comes to.

ghost use Rattle.std.specs.Prelude.{◌≡◌, ◌≢◌, ◌≤◌, pos, length, IfOk, OnOk, OnErr};
ghost use Rattle.bl_syntax.specs.declared.limits.TheConstants.{MOST_STATEMENTS};
ghost use Rattle.bl_syntax.specs.TimeOrder.{IsInRange};
ghost use Rattle.bl_syntax.specs.declared.terms.TimePoint.TheVariants.{At};
ghost use Rattle.line_text.specs.Lines.{lines_of};
ghost use Rattle.pcfs_modes.specs.Answers.{ComesTo, ModesEnds, StatesTable};
ghost use Rattle.pcfs_modes.specs.ModesText.{fault_line, register_lines};

use crate::writing::{put_fault, put_statements};
use bl_syntax::decimal::put_text;
use bl_syntax::limits::LAST_MOMENT;
use bl_syntax::{Bytes, NoMemory, TimePoint};
use mode_policy::{ModeFault, ModeTable, Statements};
use pcfs_ports::{Source, TakeFault, read_to_end};
use std::alloc::Global;

/// The statements were written.
const DONE: u8 = 0;

/// The input failed.
const READ_FAULT: u8 = 6;

/// The input is too long.
const TOO_LONG: u8 = 13;

/// A line is wrong, or the statements are too many.
const BAD_MODES: u8 = 15;

/// The last second that a statement may name, as a number.
pub const LAST_SECOND: u64 = LAST_MOMENT as u64;

/// What the table in an input comes to: the status, and what is to be written.
#[derive(Debug, Drop)]
pub struct ModesEnd {
    pub status: u8,
    pub lines: Bytes,
}

// A second from 1970-01-01T00:00:00Z to the last one as a point in time.
fn point_at(second: u64) -> TimePoint
    requires { second ≤ LAST_SECOND }
    ensures same { result ≡ At (pos second) }
    ensures in_range { IsInRange result }
{
    TimePoint::At(second as i64)
}

// The end of a table with these statements.
fn stated_end(alloc: Global, statements: &Statements) -> Result<ModesEnd, NoMemory>
    ensures status { IfOk result (λ end. end.status ≡ 0) }
    ensures lines { IfOk result (λ end. end.lines ≡ register_lines statements.now) }
    ensures few { length statements.now ≤ MOST_STATEMENTS }
{
    let mut lines = Bytes::new(alloc);
    put_statements(&mut lines, statements.as_slice())?;
    Ok(ModesEnd {
        status: DONE,
        lines,
    })
}

// The end of a text that is no table, or of a table with too many statements; an error also if memory had run out.
fn faulty_end(alloc: Global, fault: ModeFault) -> Result<ModesEnd, NoMemory>
    ensures status { IfOk result (λ end. end.status ≡ 15) }
    ensures lines { IfOk result (λ end. end.lines ≡ fault_line fault) }
    ensures not_memory { OnOk result (fault ≢ ModeFault.NoMemory) }
{
    let mut lines = Bytes::new(alloc);
    put_fault(&mut lines, fault)?;
    Ok(ModesEnd {
        status: BAD_MODES,
        lines,
    })
}

// The end of an input that was not read to its end.
fn unread_end(alloc: Global, status: u8, line: &str) -> Result<ModesEnd, NoMemory>
    ensures status { IfOk result (λ end. end.status ≡ status) }
    ensures lines { IfOk result (λ end. end.lines ≡ line.now) }
{
    let mut lines = Bytes::new(alloc);
    put_text(&mut lines, line)?;
    Ok(ModesEnd { status, lines })
}

// What a table comes to.
fn table_end(
    alloc: Global,
    from: TimePoint,
    to: TimePoint,
    table: &ModeTable,
) -> Result<ModesEnd, NoMemory>
    requires from { IsInRange from }
    requires to { IsInRange to }
    ensures { IfOk result (λ end. StatesTable from to table.now end.status end.lines) }
{
    match table.statements(alloc, from, to) {
        Ok(statements) => stated_end(alloc, &statements),
        Err(fault) => faulty_end(alloc, fault),
    }
}

// What the lines of a text come to.
fn text_end(
    alloc: Global,
    from: TimePoint,
    to: TimePoint,
    text: &[u8],
) -> Result<ModesEnd, NoMemory>
    requires from { IsInRange from }
    requires to { IsInRange to }
    ensures { IfOk result (λ end. ComesTo from to (lines_of text.now) end.status end.lines) }
{
    match ModeTable::parse(alloc, text) {
        Ok(table) => table_end(alloc, from, to, &table),
        Err(fault) => faulty_end(alloc, fault),
    }
}

/// Reads the input to its end, and answers with a line for each statement of the table of modes in it, which registers it from
/// one second to another. What ends it otherwise is told in one line, with its status: 6, the input failed; 13, the input has
/// 1 GiB or more; 15, a line is the first that is wrong, or there are more than 4,096 statements. After a read that failed
/// nothing is read, and if memory runs out no read has failed.
pub fn answer_table<I: Source>(
    alloc: Global,
    from: u64,
    to: u64,
    input: &mut I,
) -> Result<ModesEnd, NoMemory>
    requires from { from ≤ LAST_SECOND }
    requires to { to ≤ LAST_SECOND }
    ensures ends { IfOk result (λ end. ModesEnds from to (I.left input.old) (I.left input.new) (I.faults input.old) (I.faults input.new)
        (I.broken input.new) end.status end.lines) }
    ensures steady { OnErr result (I.faults input.new ≡ I.faults input.old) }
{
    let failed = unread_end(alloc, READ_FAULT, "readfault\n")?;
    match read_to_end(alloc, input) {
        Ok(bytes) => text_end(alloc, point_at(from), point_at(to), bytes.as_slice()),
        Err(TakeFault::Failed) => Ok(failed),
        Err(TakeFault::TooLong) => unread_end(alloc, TOO_LONG, "toolong\n"),
        Err(TakeFault::NoMemory) => Err(NoMemory),
    }
}
