//! Rows that call the crates below directly, for what no line shows: written texts, and values that have no text.

ghost use Rattle.std.specs.Prelude.{IfOk, IfSome};
ghost use Rattle.proof_verifier.specs.Cited.{AreCited};

use crate::asked::add_read;
use crate::short_form::{RowFault, parts_at};
use bl_codec::{read_formula, read_statement};
use bl_syntax::{Bytes, Goal, NoMemory, NodeId, Perm, Principal, Statement, Term};
use bl_text::{
    TextFault, parse_formula, parse_statement, parse_time, print_formula, print_statement,
    print_term,
};
use line_forms::LineFault;
use line_text::read_hex;
use line_wire::{LineReply, write_reply};
use proof_term::{ProofTree, read_proof};
use proof_text::{parse_proof, print_proof};
use proof_verifier::{CheckFault, Checked, Cite, Cites, check, verdict};
use std::alloc::Global;

/// The same outcome, as that of a row.
pub fn value_end(outcome: Result<(), NoMemory>) -> Result<(), RowFault> {
    match outcome {
        Ok(()) => Ok(()),
        Err(_) => Err(RowFault::NoMemory),
    }
}

// Adds the line's end after what was printed, if there was memory for that.
fn end_line(printed: Result<(), NoMemory>, out: &mut Bytes) -> Result<(), RowFault> {
    printed?;
    value_end(out.push(b'\n'))
}

// Adds the line `bad 4` of a text with this fault.
fn add_fault(alloc: Global, fault: TextFault, out: &mut Bytes) -> Result<(), RowFault> {
    match fault {
        TextFault::NoMemory => Err(RowFault::NoMemory),
        _ => {
            let reply = LineReply::Faulty(LineFault::BadText(fault));
            value_end(write_reply(alloc, out, &reply))
        }
    }
}

fn add_formula(alloc: Global, text: &[u8], out: &mut Bytes) -> Result<(), RowFault> {
    match parse_formula(alloc, text) {
        Ok(formula) => end_line(print_formula(&formula, out), out),
        Err(fault) => add_fault(alloc, fault, out),
    }
}

fn add_statement(alloc: Global, text: &[u8], out: &mut Bytes) -> Result<(), RowFault> {
    match parse_statement(alloc, text) {
        Ok(statement) => end_line(print_statement(&statement, out), out),
        Err(fault) => add_fault(alloc, fault, out),
    }
}

fn add_proof(alloc: Global, text: &[u8], out: &mut Bytes) -> Result<(), RowFault> {
    match parse_proof(alloc, text) {
        Ok(proof) => end_line(print_proof(&proof, out), out),
        Err(fault) => add_fault(alloc, fault, out),
    }
}

fn add_time(alloc: Global, text: &[u8], out: &mut Bytes) -> Result<(), RowFault> {
    match parse_time(text) {
        Ok(time) => end_line(print_term(&Term::Time(time), out), out),
        Err(fault) => add_fault(alloc, fault, out),
    }
}

// The bytes of a word of hexadecimal.
fn bytes_of(alloc: Global, word: &str) -> Result<Bytes, RowFault> {
    match read_hex(alloc, word.as_bytes()) {
        Ok(Some(bytes)) => Ok(bytes),
        Ok(None) => Err(RowFault::BadRow),
        Err(_) => Err(RowFault::NoMemory),
    }
}

// Adds the text of the formula with these bytes.
fn add_written(alloc: Global, word: &str, out: &mut Bytes) -> Result<(), RowFault> {
    let bytes = bytes_of(alloc, word)?;
    match read_formula(alloc, bytes.as_slice()) {
        Ok((formula, _)) => end_line(print_formula(&formula, out), out),
        Err(_) => Err(RowFault::BadRow),
    }
}

// The statement alone, cited as number 1.
fn cited_statements(alloc: Global, statement: Statement) -> Option<Cites>
    ensures { IfSome result AreCited }
{
    let mut cites = Vec::new(alloc);
    match cites.push(Cite {
        number: 1,
        statement,
    }) {
        Ok(()) => citable(Cites::new(cites)),
        Err(_) => None,
    }
}

// The same, if a proof may be checked from them.
fn citable(cites: Cites) -> Option<Cites>
    ensures { IfSome result AreCited }
{
    if cites.are_cited() { Some(cites) } else { None }
}

// Adds the fault of a proof.
fn add_refused(alloc: Global, fault: CheckFault, out: &mut Bytes) -> Result<(), RowFault> {
    match fault {
        CheckFault::NoMemory => Err(RowFault::NoMemory),
        _ => value_end(write_reply(alloc, out, &LineReply::Unproved(fault))),
    }
}

// Adds what the proof grants, or its fault.
fn add_verified(
    alloc: Global,
    cites: &Cites,
    goal: &Goal,
    proof: &ProofTree,
    out: &mut Bytes,
) -> Result<(), RowFault>
    requires { AreCited cites.now }
{
    match verdict(alloc, cites, goal, proof) {
        Ok(grant) => value_end(write_reply(alloc, out, &LineReply::Checked(grant))),
        Err(fault) => add_refused(alloc, fault, out),
    }
}

// Adds what was granted, and what the proof that was kept grants.
fn add_kept(alloc: Global, checked: &Checked, out: &mut Bytes) -> Result<(), RowFault> {
    match checked.grant().copy(alloc) {
        Ok(grant) => value_end(write_reply(alloc, out, &LineReply::Checked(grant)))?,
        Err(_) => return Err(RowFault::NoMemory),
    }
    add_verified(
        alloc,
        checked.cited(),
        &checked.goal(),
        checked.proof(),
        out,
    )
}

// Adds what a copy of the checked proof says.
fn add_copied(alloc: Global, checked: &Checked, out: &mut Bytes) -> Result<(), RowFault> {
    match checked.copy(alloc) {
        Ok(copied) => add_kept(alloc, &copied, out),
        Err(_) => Err(RowFault::NoMemory),
    }
}

// Adds what the check of the proof comes to.
fn add_checked(
    alloc: Global,
    cites: &Cites,
    goal: &Goal,
    proof: &ProofTree,
    out: &mut Bytes,
) -> Result<(), RowFault>
    requires { AreCited cites.now }
{
    match check(alloc, cites, goal, proof) {
        Ok(checked) => add_copied(alloc, &checked, out),
        Err(fault) => add_refused(alloc, fault, out),
    }
}

// Adds what `verdict` and what `check` say of the proof.
fn add_both(
    alloc: Global,
    cites: &Cites,
    goal: &Goal,
    proof: &ProofTree,
    out: &mut Bytes,
) -> Result<(), RowFault>
    requires { AreCited cites.now }
{
    match add_verified(alloc, cites, goal, proof, out) {
        Ok(()) => add_checked(alloc, cites, goal, proof, out),
        Err(fault) => Err(fault),
    }
}

// The statement of these bytes, cited as number 1.
fn cites_of(alloc: Global, word: &str) -> Result<Cites, RowFault>
    ensures { IfOk result AreCited }
{
    let bytes = bytes_of(alloc, word)?;
    match read_statement(alloc, bytes.as_slice()) {
        Ok((statement, _)) => match cited_statements(alloc, statement) {
            Some(cites) => Ok(cites),
            None => Err(RowFault::NoMemory),
        },
        Err(_) => Err(RowFault::BadRow),
    }
}

// The proof of these bytes.
fn proof_of(alloc: Global, word: &str) -> Result<ProofTree, RowFault> {
    let bytes = bytes_of(alloc, word)?;
    match read_proof(alloc, bytes.as_slice()) {
        Ok((proof, _)) => Ok(proof),
        Err(_) => Err(RowFault::BadRow),
    }
}

// Adds what the proof says of the statement of these bytes.
fn add_judged_from(
    alloc: Global,
    statement: &str,
    goal: &Goal,
    proof: &ProofTree,
    out: &mut Bytes,
) -> Result<(), RowFault> {
    match cites_of(alloc, statement) {
        Ok(cites) => add_both(alloc, &cites, goal, proof, out),
        Err(fault) => Err(fault),
    }
}

// Adds what the proof of these bytes says of the statement of these bytes: that alice may write in node 1.
fn add_judged(alloc: Global, text: &str, out: &mut Bytes) -> Result<(), RowFault> {
    let (statement, proof) = parts_at(text, ' ')?;
    let who = Principal::new(b"alice").ok_or(RowFault::BadRow)?;
    let goal = Goal {
        who,
        file: NodeId(1),
        perm: Perm::Write,
    };
    match proof_of(alloc, proof) {
        Ok(proof) => add_judged_from(alloc, statement, &goal, &proof, out),
        Err(fault) => Err(fault),
    }
}

/// Adds what the calls of this kind of row say of the text, of which the short forms are also written out.
pub fn add_value(
    alloc: Global,
    kind: &str,
    text: &str,
    written_out: &[u8],
    out: &mut Bytes,
) -> Result<(), RowFault> {
    match kind {
        "formula" => add_formula(alloc, written_out, out),
        "statement" => add_statement(alloc, written_out, out),
        "proof" => add_proof(alloc, written_out, out),
        "time" => add_time(alloc, written_out, out),
        "written" => add_written(alloc, text, out),
        "judged" => add_judged(alloc, text, out),
        "nomemory" => value_end(write_reply(alloc, out, &LineReply::NoMemory)),
        _ => add_read(alloc, kind, written_out, out),
    }
}
