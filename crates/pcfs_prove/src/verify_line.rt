//! The line that is written.

ghost use Rattle.std.specs.Prelude.{IfOk, IfSome};
ghost use Rattle.pcfs_prove.specs.VerifyLine.{IsVerifyLine};

use bl_syntax::{Bytes, NoMemory};
use line_forms::{Command, Line, LineFault, read_line};
use line_writing::write_line;
use proof_search::{Asked, Proved, confirm};
use proof_verifier::Cite;
use std::alloc::Global;

/// A line that was written, without its end, and the proof that it was read as.
#[derive(Drop)]
pub struct VerifyLine {
    pub line: Bytes,
    pub proved: Proved,
}

// The line that asks for the procap of a proof.
fn written(alloc: Global, asked: &Asked, proved: &Proved) -> Result<Bytes, NoMemory> {
    let numbers = proved.numbers.copy(alloc)?;
    let proof = proved.checked.proof().copy(alloc)?;
    let line = Line::Command(Command::Verify(asked.goal, numbers, proof));
    let mut out = Bytes::new(alloc);
    write_line(alloc, &line, &mut out)?;
    Ok(out)
}

// The line, if it reads back as a proof of what is asked for from these statements.
fn read_back(
    alloc: Global,
    statements: &[Cite],
    asked: &Asked,
    line: Bytes,
) -> Result<Option<VerifyLine>, NoMemory>
    ensures { IfOk result (λ found. IfSome found (IsVerifyLine statements.now asked.now)) }
{
    let (goal, numbers, proof) = match read_line(alloc, line.as_slice()) {
        Ok(Command::Verify(goal, numbers, proof)) => (goal, numbers, proof),
        Ok(_) => return Ok(None),
        Err(LineFault::NoMemory) => return Err(NoMemory),
        Err(_) => return Ok(None),
    };
    if !goal.is_same(&asked.goal) {
        return Ok(None);
    }
    match confirm(alloc, statements, asked, numbers, proof)? {
        Some(proved) => Ok(Some(VerifyLine { line, proved })),
        None => Ok(None),
    }
}

/// The line that asks for the procap of a proof of what is asked for from these statements. It is read again, and its proof
/// checked: none, if it does not read back as such a line.
pub fn line_of(
    alloc: Global,
    statements: &[Cite],
    asked: &Asked,
    proved: &Proved,
) -> Result<Option<VerifyLine>, NoMemory>
    ensures { IfOk result (λ found. IfSome found (IsVerifyLine statements.now asked.now)) }
{
    let line = written(alloc, asked, proved)?;
    read_back(alloc, statements, asked, line)
}
