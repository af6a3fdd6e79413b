//! The text of a report.
#![tactic(auto, using(bl_syntax::proofs::BeginsWithLemmas::writing))]

ghost use Rattle.std.specs.Prelude.{◌≡◌, ◌++◌, OnOk, OnErr};
ghost use Rattle.bl_syntax.specs.BeginsWith.{BeginsWith};
ghost use Rattle.pcfs_audit.specs.ReportText.{finding_text, report_text, row_text, rows_text, summary_text};

use crate::report::{Finding, Report, ReportRow};
use bl_syntax::decimal::put_counted;
use bl_syntax::{Bytes, NoMemory};

// Writes the first line.
fn write_summary(out: &mut Bytes, report: &Report) -> Result<(), NoMemory>
    ensures ok { OnOk result (out.new ≡ out.old ++ summary_text report.now) }
    ensures err { OnErr result (BeginsWith out.new out.old) }
{
    put_counted(out, "events ", report.events)?;
    put_counted(out, " statements ", report.statements)?;
    put_counted(out, " issues ", report.issues)?;
    put_counted(out, " unissued ", report.unissued)
}

// The word for a finding, and a space.
fn finding_text(finding: Finding) -> &'static str
    ensures { result.now ≡ finding_text finding }
{
    match finding {
        Finding::Unsigned => "unsigned ",
        Finding::Unproved => "unproved ",
        Finding::NotAdmitted => "notadmitted ",
        Finding::MomentFalls => "momentfalls ",
        Finding::Unissued => "unissued ",
    }
}

// Writes a row after the end of the line before it.
fn write_row(out: &mut Bytes, row: &ReportRow) -> Result<(), NoMemory>
    ensures ok { OnOk result (out.new ≡ out.old ++ row_text row.now) }
    ensures err { OnErr result (BeginsWith out.new out.old) }
{
    out.push(b'\n')?;
    put_counted(out, finding_text(row.finding), row.event)
}

// Writes the rows, each after the end of the line before it.
fn write_rows(out: &mut Bytes, rows: &[ReportRow]) -> Result<(), NoMemory>
    ensures ok { OnOk result (out.new ≡ out.old ++ rows_text rows.now) }
    ensures err { OnErr result (BeginsWith out.new out.old) }
{
    for row in rows {
        write_row(out, row)?;
    }
    Ok(())
}

/// Writes the report: its numbers in one line, and then a line for each row, all but the end of the last line.
pub fn write_report(out: &mut Bytes, report: &Report) -> Result<(), NoMemory>
    ensures ok { OnOk result (out.new ≡ out.old ++ report_text report.now) }
    ensures err { OnErr result (BeginsWith out.new out.old) }
{
    write_summary(out, report)?;
    write_rows(out, report.rows.as_slice())
}
