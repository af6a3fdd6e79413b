//! The audit of a history, and what is reported of it.

ghost use Rattle.std.specs.Prelude.{◌≡◌, ◌≤◌, ◌⊎◌, IfOk, IfSome};
ghost use Rattle.pcfs_audit.specs.Report.{IsReport};
ghost use Rattle.pcfs_audit.specs.ReportText.{report_text};
ghost use Rattle.pcfs_session.specs.LineAnswer.{authority_under};
ghost use Rattle.pcfs_session.specs.ScriptEnds.{with_line_end};
ghost use Rattle.pcfs_tools.specs.Audited.{TellsAudit, audit_status};
ghost use Rattle.pcfs_tools.specs.LastLine.{Wrote, WroteNothing};

use crate::answering::{DONE, OUT_OF_MEMORY, write_last_line};
use access_history::History;
use bl_syntax::{Bytes, NoMemory};
use journal_records::events_of;
use pcfs_audit::{Report, audit, audit_pieces, events_in_pieces, write_report};
use pcfs_ports::Sink;
use pcfs_secrets::Secrets;
use std::alloc::Global;
use std::thread::Threads;

/// The report has a row.
const AUDIT_FOUND: u8 = 11;

// The report on a history, made at once.
fn report_at_once(alloc: Global, secrets: &Secrets, history: &History) -> Result<Report, NoMemory>
    ensures { IfOk result (IsReport (authority_under secrets.now) history.now.base history.now.events) }
{
    history.lemma_is_lawful();
    let base = history.base();
    let decoded = events_of(alloc, history.events())?;
    let events = decoded.as_slice();
    let key = secrets.seal_key.as_slice();
    audit(alloc, base, events, key, &secrets.ring)
}

// The report on a history, made in so many pieces.
fn report_in_pieces<R: Threads + Sync>(
    rt: &R,
    alloc: Global,
    secrets: &Secrets,
    history: &History,
    pieces: usize,
) -> Result<Report, NoMemory>
    requires { 1 ≤ pieces }
    ensures { IfOk result (IsReport (authority_under secrets.now) history.now.base history.now.events) }
{
    history.lemma_is_lawful();
    let base = history.base();
    let decoded = events_in_pieces(rt, alloc, history.events(), pieces)?;
    let events = decoded.as_slice();
    let key = secrets.seal_key.as_slice();
    audit_pieces(rt, alloc, base, events, key, &secrets.ring, pieces)
}

// The report on a history, made at once or in so many pieces.
fn report_on<R: Threads + Sync>(
    rt: &R,
    alloc: Global,
    secrets: &Secrets,
    history: &History,
    pieces: Option<usize>,
) -> Result<Report, NoMemory>
    requires { IfSome pieces (λ n. 1 ≤ n) }
    ensures { IfOk result (IsReport (authority_under secrets.now) history.now.base history.now.events) }
{
    match pieces {
        None => report_at_once(alloc, secrets, history),
        Some(pieces) => report_in_pieces(rt, alloc, secrets, history, pieces),
    }
}

// The lines of a report.
fn report_lines(alloc: Global, report: &Report) -> Result<Bytes, NoMemory>
    ensures { IfOk result (λ lines. lines ≡ with_line_end (report_text report.now)) }
{
    let mut lines = Bytes::new(alloc);
    write_report(&mut lines, report)?;
    lines.push(b'\n')?;
    Ok(lines)
}

// The status to end with after a report.
fn status_of(report: &Report) -> u8
    ensures { result ≡ audit_status report.now.rows }
{
    match report.rows.as_slice() {
        [] => DONE,
        _ => AUDIT_FOUND,
    }
}

// Writes the report, and returns the status to end with.
fn write_report_lines<O: Sink>(alloc: Global, output: &mut O, report: &Report) -> u8
    ensures { Wrote (audit_status report.now.rows) (report_text report.now) (O.held output.old)
        (O.faults output.old) result (O.held output.new) (O.faults output.new) (O.broken output.new)
        ⊎ WroteNothing (O.held output.old) (O.faults output.old) result (O.held output.new) (O.faults output.new) }
{
    match report_lines(alloc, report) {
        Ok(lines) => write_last_line(output, lines.as_slice(), status_of(report)),
        Err(_) => OUT_OF_MEMORY,
    }
}

/// Audits the history, at once or in so many pieces, writes the report, and returns the status to end with: 0 if it has no
/// row, else 11.
pub fn audit_history<R: Threads + Sync, O: Sink>(
    rt: &R,
    alloc: Global,
    secrets: &Secrets,
    history: &History,
    pieces: Option<usize>,
    output: &mut O,
) -> u8
    requires { IfSome pieces (λ n. 1 ≤ n) }
    ensures { TellsAudit (authority_under secrets.now) history.now.base history.now.events
        (O.held output.old) (O.faults output.old) result (O.held output.new) (O.faults output.new) (O.broken output.new) }
{
    match report_on(rt, alloc, secrets, history, pieces) {
        Ok(report) => write_report_lines(alloc, output, &report),
        Err(_) => OUT_OF_MEMORY,
    }
}
