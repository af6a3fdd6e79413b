//! What the tables of a text come to. A line `=` ends a table.

use bl_syntax::decimal::{put_counted, put_text};
use bl_syntax::{Bytes, Goal, NoMemory, NodeId, Perm, TimePoint};
use bl_text::print_statement;
use line_text::first_line;
use mode_policy::{ModeFault, ModeProof, ModeTable, Statements, proof_of};
use proof_verifier::{Cite, Cites, check};
use std::alloc::Global;

/// The end of a table.
const END: &[u8; 1] = b"=";

/// The interval of the statements.
const FROM: TimePoint = TimePoint::At(0);

const TO: TimePoint = TimePoint::At(200);

/// The permissions of modes, and two that no mode allows.
const PERMISSIONS: [Perm; 5] = [
    Perm::Read,
    Perm::Write,
    Perm::Execute,
    Perm::Identity,
    Perm::Govern,
];

// Tells why there is no table, or why it has no statements.
fn write_fault(out: &mut Bytes, fault: ModeFault) -> Result<(), NoMemory> {
    match fault {
        ModeFault::BadLine(number) => {
            put_counted(out, "line ", number as u64)?;
            put_text(out, " mode 1\n")
        }
        ModeFault::Twice(number) => {
            put_counted(out, "line ", number as u64)?;
            put_text(out, " mode 2\n")
        }
        ModeFault::TooMany => put_text(out, "mode 3\n"),
        ModeFault::NoMemory => Err(NoMemory),
    }
}

// Tells the statements, each in a line that registers it.
fn write_statements(out: &mut Bytes, statements: &Statements) -> Result<(), NoMemory> {
    for statement in statements.as_slice() {
        put_text(out, "register - ")?;
        print_statement(statement, out)?;
        put_text(out, "\n")?;
    }
    Ok(())
}

// The name of the permission.
fn name_of(perm: Perm) -> &'static str {
    match perm {
        Perm::Read => " read",
        Perm::Write => " write",
        Perm::Execute => " execute",
        Perm::Identity => " identity",
        Perm::Govern => " govern",
    }
}

// Puts the statement of that number among those that are cited, if there is one.
fn cite(
    alloc: Global,
    cites: &mut Vec<Cite>,
    statements: &Statements,
    number: usize,
) -> Result<(), NoMemory> {
    let Some(place) = number.checked_sub(1) else {
        return Ok(());
    };
    let Some(statement) = statements.as_slice().get(place) else {
        return Ok(());
    };
    cites.push(Cite {
        number: u32::try_from(number).unwrap_or(0),
        statement: statement.copy(alloc)?,
    })?;
    Ok(())
}

// Tells which statements the proof cites, and how many conditions it leaves, or that it is not accepted.
fn write_proof(
    alloc: Global,
    out: &mut Bytes,
    statements: &Statements,
    goal: &Goal,
    proof: &ModeProof,
) -> Result<(), NoMemory> {
    put_counted(out, " by ", proof.class_number as u64)?;
    put_counted(out, ",", proof.rule_number as u64)?;
    let mut cites = Vec::new(alloc);
    cite(alloc, &mut cites, statements, proof.class_number)?;
    cite(alloc, &mut cites, statements, proof.rule_number)?;
    let cites = Cites::new(cites);
    if !cites.are_cited() {
        return put_text(out, " uncited\n");
    }
    match check(alloc, &cites, goal, &proof.proof) {
        Ok(checked) => {
            put_counted(out, " time ", checked.grant().times().len() as u64)?;
            put_counted(out, " state ", checked.grant().states().len() as u64)?;
            put_text(out, "\n")
        }
        Err(_) => put_text(out, " unproved\n"),
    }
}

// Tells that the goal is allowed, or proved, if it is one of both.
fn write_goal(
    alloc: Global,
    out: &mut Bytes,
    table: &ModeTable,
    statements: &Statements,
    goal: &Goal,
) -> Result<(), NoMemory> {
    let allowed = table.allows(&goal.who, goal.file, goal.perm);
    let proof = proof_of(alloc, table, &goal.who, goal.file, goal.perm)?;
    if !allowed && proof.is_none() {
        return Ok(());
    }
    put_text(out, if allowed { "allowed " } else { "not allowed " })?;
    out.extend(goal.who.bytes())?;
    put_counted(out, " #", goal.file.0)?;
    put_text(out, name_of(goal.perm))?;
    match proof {
        Some(proof) => write_proof(alloc, out, statements, goal, &proof),
        None => put_text(out, " without a proof\n"),
    }
}

// Tells what is allowed of the file of that number.
fn write_file(
    alloc: Global,
    out: &mut Bytes,
    table: &ModeTable,
    statements: &Statements,
    file: NodeId,
) -> Result<(), NoMemory> {
    for who in table.principals() {
        for perm in PERMISSIONS {
            let goal = Goal {
                who: *who,
                file,
                perm,
            };
            write_goal(alloc, out, table, statements, &goal)?;
        }
    }
    Ok(())
}

// Tells the statements of the table, and what it allows.
fn write_table(alloc: Global, out: &mut Bytes, table: &ModeTable) -> Result<(), NoMemory> {
    match table.statements(alloc, FROM, TO) {
        Ok(statements) => {
            write_statements(out, &statements)?;
            for place in 0..table.file_count() {
                let file = table.file(place).node;
                write_file(alloc, out, table, &statements, file)?;
            }
            Ok(())
        }
        Err(fault) => write_fault(out, fault),
    }
}

// Tells what the lines come to.
fn write_lines(alloc: Global, out: &mut Bytes, lines: &[u8]) -> Result<(), NoMemory> {
    match ModeTable::parse(alloc, lines) {
        Ok(table) => write_table(alloc, out, &table)?,
        Err(fault) => write_fault(out, fault)?,
    }
    put_text(out, "=\n")
}

/// Tells what each table of the text comes to.
pub fn write_tables(alloc: Global, text: &[u8], out: &mut Bytes) -> Result<(), NoMemory> {
    let mut lines = Bytes::new(alloc);
    let mut rest = text;
    while let Some((line, others)) = first_line(rest) {
        if line == END.as_slice() {
            write_lines(alloc, out, lines.as_slice())?;
            lines.clear();
        } else {
            lines.extend(line)?;
            lines.push(b'\n')?;
        }
        rest = others;
    }
    Ok(())
}
