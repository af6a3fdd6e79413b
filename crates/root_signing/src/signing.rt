//! Statements, signed one after the other.
#![tactic(auto, using(bl_syntax::proofs::BeginsWithLemmas::writing))]

ghost use Rattle.std.specs.Prelude.{◌≡◌, ◌≢◌, ◌++◌, ◌∷◌, ◌^◌, [], List, ℕ, Some, codes, IfOk, OnOk};
ghost use Rattle.std.specs.Fmt.{decimal};
ghost use Rattle.line_forms.specs.declared.fault.LineFault.TheVariants as faults;
ghost use Rattle.line_text.specs.HexWord.{hex_word};
ghost use Rattle.line_text.specs.Lines.{lines_of};
ghost use Rattle.root_signing.specs.Reading.{SignsLine, SignsStatement};
ghost use Rattle.root_signing.specs.Signed.{SignsLines, fault_line};

use crate::reading::after_word;
use bl_syntax::decimal::{put_counted, put_text};
use bl_syntax::{Bytes, NoMemory, Statement};
use bl_text::{TextFault, parse_statement};
use line_faults::bad_line;
use line_forms::LineFault;
use line_text::{first_line, write_hex};
use merkle_sig::{SignFault, Signer};
use policy_statement::statement_message;
use std::alloc::Global;

/// All lines were signed.
const DONE: u8 = 0;

/// A line is wrong.
const BAD_INPUT: u8 = 12;

/// There is no leaf for a statement.
const LEAVES_SPENT: u8 = 18;

/// The number of the first line that says a statement.
const FIRST_NUMBER: usize = 2;

// Writes the line that registers the statement of this text.
fn put_register(
    alloc: Global,
    signature: &[u8],
    text: &[u8],
    out: &mut Bytes,
) -> Result<(), NoMemory>
    ensures { OnOk result (out.new ≡ out.old ++ (codes "register " ++ (hex_word signature.now ++ 32 ∷ (text.now ++ 10 ∷ [])))) }
{
    put_text(out, "register ")?;
    write_hex(alloc, signature, out)?;
    out.push(b' ')?;
    out.extend(text)?;
    out.push(b'\n')
}

// Writes the line that tells that all of so many leaves are spent.
fn put_spent(leaves: u32, out: &mut Bytes) -> Result<(), NoMemory>
    ensures { OnOk result (out.new ≡ out.old ++ (codes "leaves " ++ (decimal leaves ++ 10 ∷ []))) }
{
    put_counted(out, "leaves ", leaves as u64)?;
    out.push(b'\n')
}

// Writes what is wrong with the line of this number, which decides the status.
fn decide(
    alloc: Global,
    number: usize,
    fault: LineFault,
    out: &mut Bytes,
) -> Result<Option<u8>, NoMemory>
    ensures decided { IfOk result (λ status. status ≡ Some 12) }
    ensures line { OnOk result (out.new ≡ out.old ++ fault_line number fault) }
{
    let line = bad_line(alloc, number, fault)?;
    out.extend(line.as_slice())?;
    Ok(Some(BAD_INPUT))
}

// Writes what is wrong with the text of that line, likewise; an error also if memory had run out, which is no fault of it.
fn decide_by_text(
    alloc: Global,
    number: usize,
    fault: TextFault,
    out: &mut Bytes,
) -> Result<Option<u8>, NoMemory>
    ensures decided { IfOk result (λ status. status ≡ Some 12) }
    ensures line { OnOk result (out.new ≡ out.old ++ fault_line number (faults.BadText fault)) }
    ensures not_memory { OnOk result (fault ≢ TextFault.NoMemory) }
{
    match fault {
        TextFault::NoMemory => Err(NoMemory),
        _ => decide(alloc, number, LineFault::BadText(fault), out),
    }
}

// Signs the statement of this text, if a leaf is left.
fn sign_statement(
    alloc: Global,
    signer: &mut Signer,
    leaves: u32,
    text: &[u8],
    statement: &Statement,
    out: &mut Bytes,
) -> Result<Option<u8>, NoMemory>
    requires { leaves ≡ 2 ^ signer.old.height }
    ensures { IfOk result (λ status. (written : List ℕ) × SignsStatement signer.old text.now statement.now status signer.new written
        × (out.new ≡ out.old ++ written)) }
{
    let message = statement_message(alloc, statement)?;
    match signer.sign(alloc, message.as_slice()) {
        Ok(signature) => {
            put_register(alloc, signature.as_slice(), text, out)?;
            Ok(None)
        }
        Err(SignFault::Spent) => {
            put_spent(leaves, out)?;
            Ok(Some(LEAVES_SPENT))
        }
        Err(SignFault::NoMemory) => Err(NoMemory),
    }
}

// Signs the line of this number that says a statement in this text, or decides the status.
fn sign_text(
    alloc: Global,
    signer: &mut Signer,
    leaves: u32,
    number: usize,
    text: &[u8],
    out: &mut Bytes,
) -> Result<Option<u8>, NoMemory>
    requires { leaves ≡ 2 ^ signer.old.height }
    ensures { (line : List ℕ) → line ≡ codes "statement" ++ 32 ∷ text.now
        → IfOk result (λ status. (written : List ℕ) × SignsLine signer.old number line status signer.new written × (out.new ≡ out.old ++ written)) }
{
    match parse_statement(alloc, text) {
        Ok(statement) => sign_statement(alloc, signer, leaves, text, &statement, out),
        Err(fault) => decide_by_text(alloc, number, fault, out),
    }
}

// Signs the line of this number, or decides the status.
fn sign_line(
    alloc: Global,
    signer: &mut Signer,
    leaves: u32,
    number: usize,
    line: &[u8],
    out: &mut Bytes,
) -> Result<Option<u8>, NoMemory>
    requires { leaves ≡ 2 ^ signer.old.height }
    ensures { IfOk result (λ status. (written : List ℕ) × SignsLine signer.old number line.now status signer.new written
        × (out.new ≡ out.old ++ written)) }
{
    match after_word(line, b"statement") {
        Ok(text) => sign_text(alloc, signer, leaves, number, text, out),
        Err(fault) => decide(alloc, number, fault, out),
    }
}

/// Signs the lines by the leaves from the next one on, up to the first that is wrong or finds no leaf, and returns the status.
pub fn sign_lines(
    alloc: Global,
    signer: &mut Signer,
    leaves: u32,
    lines: &[u8],
    out: &mut Bytes,
) -> Result<u8, NoMemory>
    requires { leaves ≡ 2 ^ signer.old.height }
    ensures { IfOk result (λ status. (written : List ℕ)
        × SignsLines signer.old.seed signer.old.height signer.old.next 2 (lines_of lines.now) status written × (out.new ≡ out.old ++ written)) }
{
    let mut rest = lines;
    let mut number = FIRST_NUMBER;
    while let Some((line, others)) = first_line(rest) {
        if let Some(status) = sign_line(alloc, signer, leaves, number, line, out)? {
            return Ok(status);
        }
        rest = others;
        number += 1;
    }
    Ok(DONE)
}
