//! What is written of a history.

ghost use Rattle.std.specs.Prelude.{◌≡◌, ◌≤◌, ◌++◌, [], Some, OnOk, OnErr, IsErrOf};
ghost use Rattle.std.specs.List.{slice_get};
ghost use Rattle.std.specs.Option.{option_map};
ghost use Rattle.bl_syntax.specs.TimeOrder.{IsMoment};
ghost use Rattle.pcfs_ports.specs.Faults.{HasRisen};
ghost use Rattle.pcfs_ports.specs.Observable.{HoldsSome, with_back};
ghost use Rattle.access_history.specs.History.{state_of};
ghost use Rattle.history_table.specs.Resting.{resting_on};
ghost use Rattle.history_table.specs.Cursor.{state_before};
ghost use Rattle.history_text.specs.IssueBasis.{issue_numbered, shown};
ghost use Rattle.pcfs_history.specs.declared.writing.WriteFault.TheVariants.{NoMemory as OutOfMemory, Output as OutputFailed};
ghost use Rattle.pcfs_history.specs.Outbox.{GoesOut};
ghost use Rattle.pcfs_history.specs.Written.{WritesSomeWhoMay, WritesWhoMay, admitting_text, admitting_texts, event_text, number_text, one_rest_text, rest_text, rests_text, shown_text, table_text};

use crate::words::Question;
use access_history::History;
use bl_syntax::{Bytes, NoMemory};
use history_table::{Filter, Rest, Row, RowCursor, resting_on, who_may};
use history_text::{
    Basis, issue_numbered, put_admitting_lines, put_admitting_object, put_event_lines,
    put_event_object, put_resting_lines, put_resting_object,
};
use journal_records::Event;
use pcfs_ports::{Failed, Sink, write_all};
use std::alloc::Global;

/// What was made is written once it has so many bytes.
const ENOUGH: usize = 65_536;

/// Why not all was written.
#[derive(Clone, Copy, Debug)]
pub enum WriteFault {
    /// The output failed.
    Output,
    NoMemory,
}

impl From<NoMemory> for WriteFault {
    ghost from_gives = { λ _ fault. fault ≡ OutOfMemory };

    fn from(_refused: NoMemory) -> WriteFault {
        WriteFault::NoMemory
    }
}

impl From<Failed> for WriteFault {
    ghost from_gives = { λ _ fault. fault ≡ OutputFailed };

    fn from(_failed: Failed) -> WriteFault {
        WriteFault::Output
    }
}

// Adds the text of an event with its row.
fn add_shown(
    alloc: Global,
    out: &mut Bytes,
    json: bool,
    before: &History,
    event: &Event,
    row: &Row,
) -> Result<(), NoMemory>
    requires { IsMoment row.now.second }
    ensures { OnOk result (out.new ≡ out.old ++ shown_text json (state_of before.now) event.now row.now) }
{
    if json {
        put_event_object(alloc, out, before, event, row)
    } else {
        put_event_lines(alloc, out, before, event, row)
    }
}

// Adds what is written of the next event: nothing, if it is not asked for.
fn add_event(
    alloc: Global,
    out: &mut Bytes,
    json: bool,
    filter: &Filter,
    cursor: &RowCursor,
    event: &Event,
) -> Result<(), NoMemory>
    requires { slice_get cursor.now.history.events cursor.now.passed ≡ Some event.now }
    ensures { OnOk result (out.new ≡ out.old ++ event_text json filter.now (state_before cursor.now) event.now) }
{
    if !cursor.may_be_asked(filter, event) {
        return Ok(());
    }
    let row = cursor.row(alloc, event)?;
    if filter.admits(&row) {
        add_shown(alloc, out, json, cursor.before(), event, &row)
    } else {
        Ok(())
    }
}

// Writes what was made. After a fault some first part of it was written.
fn flush<O: Sink>(made: &mut Bytes, output: &mut O) -> Result<(), Failed>
    ensures ok { OnOk result (O.held output.new ≡ with_back (O.held output.old) made.old) }
    ensures empty { OnOk result (made.new ≡ []) }
    ensures err { OnErr result (HoldsSome (O.held output.old) (O.held output.new) made.old) }
    ensures risen { OnErr result (HasRisen (O.faults output.old) (O.faults output.new)) }
    ensures never_falls { O.faults output.old ≤ O.faults output.new }
{
    write_all(output, made.as_slice())?;
    made.clear();
    Ok(())
}

// Writes what was made, if it is enough.
fn flush_if_enough<O: Sink>(made: &mut Bytes, enough: usize, output: &mut O) -> Result<(), Failed>
    ensures ok { OnOk result (GoesOut (O.held output.old) made.old (O.held output.new) made.new) }
    ensures err { OnErr result (HoldsSome (O.held output.old) (O.held output.new) made.old) }
    ensures risen { OnErr result (HasRisen (O.faults output.old) (O.faults output.new)) }
    ensures never_falls { O.faults output.old ≤ O.faults output.new }
{
    if enough <= made.len() {
        return flush(made, output);
    }
    Ok(())
}

// Adds what is written of the next event, and writes what was made, if it is enough.
fn write_event<O: Sink>(
    alloc: Global,
    made: &mut Bytes,
    json: bool,
    filter: &Filter,
    cursor: &RowCursor,
    event: &Event,
    output: &mut O,
) -> Result<(), WriteFault>
    requires { slice_get cursor.now.history.events cursor.now.passed ≡ Some event.now }
    ensures ok { OnOk result (GoesOut (O.held output.old) (made.old ++ event_text json filter.now
        (state_before cursor.now) event.now) (O.held output.new) made.new) }
    ensures err { OnErr result (HoldsSome (O.held output.old) (O.held output.new) (made.old
        ++ event_text json filter.now (state_before cursor.now) event.now)) }
    ensures risen { IsErrOf result WriteFault.Output →
        HasRisen (O.faults output.old) (O.faults output.new) }
    ensures never_falls { O.faults output.old ≤ O.faults output.new }
{
    add_event(alloc, made, json, filter, cursor, event)?;
    Ok(flush_if_enough(made, ENOUGH, output)?)
}

/// Writes the table of the history, whose key is this, as far as it is asked for. After a fault some first part of it was
/// written.
pub fn write_history<O: Sink>(
    alloc: Global,
    history: &History,
    key: &[u8],
    filter: &Filter,
    json: bool,
    output: &mut O,
) -> Result<(), WriteFault>
    requires { key.now ≡ history.now.key }
    ensures written { OnOk result (O.held output.new ≡ with_back (O.held output.old) (table_text json filter.now history.now.base history.now.events)) }
    ensures some { OnErr result (HoldsSome (O.held output.old) (O.held output.new) (table_text json filter.now history.now.base history.now.events)) }
    ensures risen { IsErrOf result WriteFault.Output →
        HasRisen (O.faults output.old) (O.faults output.new) }
    ensures never_falls { O.faults output.old ≤ O.faults output.new }
{
    let mut made = Bytes::new(alloc);
    let mut cursor = RowCursor::new(alloc, history, key)?;
    let events = history.events();
    for place in 0..events.len() {
        let kept = &events[place];
        let event = kept.event(alloc)?;
        write_event(alloc, &mut made, json, filter, &cursor, &event, output)?;
        cursor = cursor.pass(alloc)?;
    }
    Ok(flush(&mut made, output)?)
}

// Adds the text of an issue that would admit its principal, if there is one.
fn add_admitting(
    alloc: Global,
    out: &mut Bytes,
    json: bool,
    history: &History,
    basis: &Option<Basis>,
) -> Result<(), NoMemory>
    ensures { OnOk result (out.new ≡ out.old ++ admitting_text json (state_of history.now) (option_map shown basis.now)) }
{
    match basis {
        Some(basis) => {
            if json {
                put_admitting_object(alloc, out, history, basis)
            } else {
                put_admitting_lines(out, history, basis)
            }
        }
        None => Ok(()),
    }
}

// Adds the text of the issue of that number, and writes what was made, if it is enough.
fn write_number<O: Sink>(
    alloc: Global,
    made: &mut Bytes,
    json: bool,
    history: &History,
    number: u64,
    output: &mut O,
) -> Result<(), WriteFault>
    ensures ok { OnOk result (GoesOut (O.held output.old) (made.old ++ number_text json (state_of history.now) number) (O.held output.new) made.new) }
    ensures err { OnErr result (HoldsSome (O.held output.old) (O.held output.new) (made.old ++ number_text json (state_of history.now) number)) }
    ensures risen { IsErrOf result WriteFault.Output →
        HasRisen (O.faults output.old) (O.faults output.new) }
    ensures never_falls { O.faults output.old ≤ O.faults output.new }
{
    let basis = issue_numbered(alloc, history, number)?;
    add_admitting(alloc, made, json, history, &basis)?;
    Ok(flush_if_enough(made, ENOUGH, output)?)
}

// Writes the texts of the issues of these numbers.
fn write_numbers<O: Sink>(
    alloc: Global,
    history: &History,
    numbers: &[u64],
    json: bool,
    output: &mut O,
) -> Result<(), WriteFault>
    ensures written { OnOk result (O.held output.new ≡ with_back (O.held output.old) (admitting_texts json (state_of history.now) numbers.now)) }
    ensures some { OnErr result (HoldsSome (O.held output.old) (O.held output.new) (admitting_texts json (state_of history.now) numbers.now)) }
    ensures risen { IsErrOf result WriteFault.Output →
        HasRisen (O.faults output.old) (O.faults output.new) }
    ensures never_falls { O.faults output.old ≤ O.faults output.new }
{
    let mut made = Bytes::new(alloc);
    for number in numbers {
        write_number(alloc, &mut made, json, history, *number, output)?;
    }
    Ok(flush(&mut made, output)?)
}

/// Writes the issues of the history that would admit their principals, when the clock shows that second. After a fault some
/// first part of that was written.
pub fn write_who_may<O: Sink>(
    alloc: Global,
    history: &History,
    question: &Question,
    clock: i64,
    json: bool,
    output: &mut O,
) -> Result<(), WriteFault>
    ensures written { OnOk result (WritesWhoMay (state_of history.now) question.now.file
        question.now.permission clock json (O.held output.old) (O.held output.new)) }
    ensures some { OnErr result (WritesSomeWhoMay (state_of history.now) question.now.file
        question.now.permission clock json (O.held output.old) (O.held output.new)) }
    ensures risen { IsErrOf result WriteFault.Output →
        HasRisen (O.faults output.old) (O.faults output.new) }
    ensures never_falls { O.faults output.old ≤ O.faults output.new }
{
    let numbers = who_may(alloc, history, question.file, question.permission, clock)?;
    write_numbers(alloc, history, numbers.as_slice(), json, output)
}

// Adds the text of an issue that rests on a statement, if there is one.
fn add_rest(
    alloc: Global,
    out: &mut Bytes,
    json: bool,
    history: &History,
    gone: Option<u32>,
    basis: &Option<Basis>,
) -> Result<(), NoMemory>
    ensures { OnOk result (out.new ≡ out.old ++ rest_text json (state_of history.now) gone (option_map shown basis.now)) }
{
    match basis {
        Some(basis) => {
            if json {
                put_resting_object(alloc, out, history, gone, basis)
            } else {
                put_resting_lines(out, history, gone, basis)
            }
        }
        None => Ok(()),
    }
}

// Adds the text of an issue that rests on a statement, and writes what was made, if it is enough.
fn write_rest<O: Sink>(
    alloc: Global,
    made: &mut Bytes,
    json: bool,
    history: &History,
    rest: Rest,
    output: &mut O,
) -> Result<(), WriteFault>
    ensures ok { OnOk result (GoesOut (O.held output.old) (made.old ++ one_rest_text json (state_of history.now) rest) (O.held output.new) made.new) }
    ensures err { OnErr result (HoldsSome (O.held output.old) (O.held output.new) (made.old ++ one_rest_text json (state_of history.now) rest)) }
    ensures risen { IsErrOf result WriteFault.Output →
        HasRisen (O.faults output.old) (O.faults output.new) }
    ensures never_falls { O.faults output.old ≤ O.faults output.new }
{
    let basis = issue_numbered(alloc, history, rest.issue)?;
    add_rest(alloc, made, json, history, rest.gone, &basis)?;
    Ok(flush_if_enough(made, ENOUGH, output)?)
}

// Writes the texts of these issues that rest on a statement.
fn write_rests<O: Sink>(
    alloc: Global,
    history: &History,
    rests: &[Rest],
    json: bool,
    output: &mut O,
) -> Result<(), WriteFault>
    ensures written { OnOk result (O.held output.new ≡ with_back (O.held output.old) (rests_text json (state_of history.now) rests.now)) }
    ensures some { OnErr result (HoldsSome (O.held output.old) (O.held output.new) (rests_text json (state_of history.now) rests.now)) }
    ensures risen { IsErrOf result WriteFault.Output →
        HasRisen (O.faults output.old) (O.faults output.new) }
    ensures never_falls { O.faults output.old ≤ O.faults output.new }
{
    let mut made = Bytes::new(alloc);
    for rest in rests {
        write_rest(alloc, &mut made, json, history, *rest, output)?;
    }
    Ok(flush(&mut made, output)?)
}

/// Writes the issues of the history that rest on the statement of that number, and how their procaps stand. After a fault some
/// first part of that was written.
pub fn write_resting<O: Sink>(
    alloc: Global,
    history: &History,
    statement: u32,
    json: bool,
    output: &mut O,
) -> Result<(), WriteFault>
    ensures written { OnOk result (O.held output.new ≡ with_back (O.held output.old)
        (rests_text json (state_of history.now) (resting_on (state_of history.now) statement))) }
    ensures some { OnErr result (HoldsSome (O.held output.old) (O.held output.new)
        (rests_text json (state_of history.now) (resting_on (state_of history.now) statement))) }
    ensures risen { IsErrOf result WriteFault.Output →
        HasRisen (O.faults output.old) (O.faults output.new) }
    ensures never_falls { O.faults output.old ≤ O.faults output.new }
{
    let rests = resting_on(alloc, history, statement)?;
    write_rests(alloc, history, rests.as_slice(), json, output)
}
