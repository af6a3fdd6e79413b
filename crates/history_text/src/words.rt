//! What an event is, in words.
#![tactic(auto, using(bl_syntax::proofs::BeginsWithLemmas::writing))]

ghost use Rattle.std.specs.Prelude.{◌≡◌, ◌++◌, OnOk};
ghost use Rattle.std.specs.Option.{option_copied};
ghost use Rattle.bl_text.specs.Printed.{permission_text};
ghost use Rattle.access_history.specs.History.{state_of};
ghost use Rattle.history_text.specs.Words.{goal_words, node_text, operation_words, spaced_statement, words_text};

use access_history::History;
use bl_syntax::decimal::{put_counted, put_text};
use bl_syntax::{Bytes, Grant, NoMemory, NodeId, Perm, Statement, Term};
use bl_text::{print_statement, print_term};
use file_world::Op;
use journal_records::Event;
use line_forms::{Command, Line};
use line_words::ProcapWords;
use line_writing::write_line;
use std::alloc::Global;

// Writes an operation as it was asked for, without its procaps; of what is written into a file, how many bytes it is.
fn put_operation(alloc: Global, out: &mut Bytes, op: &Op) -> Result<(), NoMemory>
    ensures { OnOk result (out.new ≡ out.old ++ operation_words op.now) }
{
    match op {
        Op::Write(node, offset, bytes) => {
            put_counted(out, "do write #", node.0)?;
            put_counted(out, " ", *offset)?;
            put_counted(out, " bytes ", bytes.len() as u64)
        }
        _ => {
            let line = Line::Command(Command::Do(op.copy(alloc)?, ProcapWords::new(alloc)));
            write_line(alloc, &line, out)
        }
    }
}

/// Writes the name of a permission.
pub fn put_permission(out: &mut Bytes, permission: Perm) -> Result<(), NoMemory>
    ensures { OnOk result (out.new ≡ out.old ++ permission_text permission) }
{
    print_term(&Term::Perm(permission), out)
}

// Writes for what a procap was asked.
fn put_goal(out: &mut Bytes, grant: &Grant) -> Result<(), NoMemory>
    ensures { OnOk result (out.new ≡ out.old ++ goal_words grant.now) }
{
    let goal = grant.goal();
    put_counted(out, "verify #", goal.file.0)?;
    put_text(out, " ")?;
    put_permission(out, goal.perm)
}

/// Writes a statement after a space, if there is one.
pub fn put_spaced_statement(out: &mut Bytes, found: Option<&Statement>) -> Result<(), NoMemory>
    ensures { OnOk result (out.new ≡ out.old ++ spaced_statement (option_copied found.entry)) }
{
    match found {
        Some(statement) => {
            put_text(out, " ")?;
            print_statement(statement, out)
        }
        None => Ok(()),
    }
}

// Writes the node that is made, if one is.
fn put_node(out: &mut Bytes, about: Option<NodeId>) -> Result<(), NoMemory>
    ensures { OnOk result (out.new ≡ out.old ++ node_text about) }
{
    match about {
        Some(node) => put_counted(out, " node #", node.0),
        None => Ok(()),
    }
}

/// Writes what an event after that history is, in words.
pub fn put_words(
    alloc: Global,
    out: &mut Bytes,
    before: &History,
    event: &Event,
    about: Option<NodeId>,
) -> Result<(), NoMemory>
    ensures { OnOk result (out.new ≡ out.old ++ words_text (state_of before.now) event.now about) }
{
    match event {
        Event::Registered { statement, .. } => {
            let number = before.statements().len() as u64 + 1;
            put_counted(out, "register ", number)?;
            put_text(out, " ")?;
            print_statement(statement, out)
        }
        Event::Withdrawn { number, .. } => {
            put_counted(out, "withdraw ", u64::from(*number))?;
            put_spaced_statement(out, before.registry().get(*number))
        }
        Event::Issued { grant, .. } => put_goal(out, grant),
        Event::Acted { op, .. } => {
            put_operation(alloc, out, op)?;
            put_node(out, about)
        }
    }
}
