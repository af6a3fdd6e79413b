//! Statements, both ways.

ghost use Rattle.std.specs.Prelude.{◌≡◌, ◌++◌, OnOk, OnErr};
ghost use Rattle.bl_syntax.specs.BeginsWith.{BeginsWith};
ghost use Rattle.bl_syntax.specs.Reading.{reading};
ghost use Rattle.bl_syntax.specs.FormulaSpelling.{IsSpellableStatement, statement_spelling};
ghost use Rattle.bl_syntax.specs.FormulaReading.{statement_at};
ghost use Rattle.bl_syntax.specs.Codec.{GivesReadingOrReports, ReadsFront};
ghost use Rattle.bl_codec.specs.StatementBody.{body_at};

use crate::formula_reading::whole_formula_at;
use crate::formula_writing::write_formula;
use bl_syntax::fields::{name_at, place, time_at};
use bl_syntax::{Bytes, CodecFault, NoMemory, Principal, Statement, write_name, write_time};
use std::alloc::Global;

/// Adds the spelling of a statement, or nothing.
pub fn write_statement(s: &Statement, out: &mut Bytes) -> Result<(), NoMemory>
    ensures ok { OnOk result (out.new ≡ out.old ++ statement_spelling s.now) }
    ensures spelled { OnOk result (IsSpellableStatement s.now) }
    ensures err { OnErr result (out.new ≡ out.old) }
{
    let len = out.len();
    let added = put_statement(s, out);
    if added.is_err() {
        out.truncate(len);
    }
    added
}

/// Adds the spelling of a statement, or a front of it where there is no memory for more.
#[tactic(auto, using(bl_syntax::proofs::BeginsWithLemmas::writing), unfolding(bl_syntax::specs::FormulaSpelling::statement_spelling))]
fn put_statement(s: &Statement, out: &mut Bytes) -> Result<(), NoMemory>
    ensures ok { OnOk result (out.new ≡ out.old ++ statement_spelling s.now) }
    ensures spelled { OnOk result (IsSpellableStatement s.now) }
    ensures err { OnErr result (BeginsWith out.new out.old) }
{
    write_name(s.who(), out)?;
    write_formula(s.body(), out)?;
    write_time(&s.from(), out)?;
    write_time(&s.to(), out)
}

/// The formula and the interval of what a principal says, in a statement that begins at `start`.
#[tactic(auto, using(bl_syntax::proofs::ReportsFaultLemmas::hands_on, bl_syntax::proofs::ReportsFaultLemmas::stops), unfolding(crate::specs::StatementBody::body_at))]
fn body_at(
    alloc: Global,
    input: usize,
    start: usize,
    who: Principal,
    bytes: &[u8],
) -> Result<(Statement, &[u8]), CodecFault>
    ensures { GivesReadingOrReports (λ x. (x.0, x.1.now)) result (body_at input start who bytes.now) }
{
    match whole_formula_at(alloc, input, bytes) {
        Err(fault) => Err(fault),
        Ok((body, behind_body)) => {
            let (from, behind_from) = time_at(input, behind_body)?;
            let (to, rest) = time_at(input, behind_from)?;
            match Statement::new(who, body, from, to) {
                Some(statement) => Ok((statement, rest)),
                None => Err(CodecFault::NotCanonical(start)),
            }
        }
    }
}

/// A statement: the reader that formats with statements in them are made of. It reads at the front of `bytes`, the rest
/// of an input of `input` bytes, and gives the statement and the bytes after it, or the first fault. A statement whose
/// bytes are whole, but that may not be made, has its fault at its first byte.
#[tactic(auto, using(bl_syntax::proofs::ReportsFaultLemmas::hands_on, bl_syntax::proofs::ReportsFaultLemmas::stops), unfolding(bl_syntax::specs::FormulaReading::statement_at, crate::specs::StatementBody::body_at))]
pub fn statement_at(
    alloc: Global,
    input: usize,
    bytes: &[u8],
) -> Result<(Statement, &[u8]), CodecFault>
    ensures { GivesReadingOrReports (λ x. (x.0, x.1.now)) result (statement_at input bytes.now) }
{
    match name_at(input, bytes) {
        Err(fault) => Err(fault),
        Ok((who, rest)) => body_at(alloc, input, place(input, bytes), who, rest),
    }
}

/// The statement whose spelling begins the bytes, and how many bytes it takes, or the first fault. Bytes may follow it.
/// `NotCanonical(0)` comes also where the bytes are whole and the statement is not closed or not well sorted, or holds a
/// parameter or the current time.
#[tactic(auto, using(bl_syntax::proofs::ReportsFaultLemmas::hands_on))]
pub fn read_statement(alloc: Global, bytes: &[u8]) -> Result<(Statement, usize), CodecFault>
    ensures exact { GivesReadingOrReports (λ x. x) result (reading statement_at bytes.now) }
    ensures front { ReadsFront (λ s. s) IsSpellableStatement statement_spelling bytes.now result }
{
    match statement_at(alloc, bytes.len(), bytes) {
        Err(fault) => Err(fault),
        Ok((statement, rest)) => Ok((statement, place(bytes.len(), rest))),
    }
}
