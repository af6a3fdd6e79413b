//! The table for people: an event a line, and below it a line for each procap and each statement.
#![tactic(auto, using(bl_syntax::proofs::BeginsWithLemmas::writing))]

ghost use Rattle.std.specs.Prelude.{◌≡◌, ◌++◌, OnOk};
ghost use Rattle.std.specs.List.{flat_map};
ghost use Rattle.std.specs.Option.{option_map};
ghost use Rattle.bl_syntax.specs.TimeOrder.{IsMoment};
ghost use Rattle.access_history.specs.History.{state_of};
ghost use Rattle.history_text.specs.IssueBasis.{shown};
ghost use Rattle.history_text.specs.Lines.{admitting_lines, cited_line, cited_lines, event_lines, found_line, front_text, goal_text, basis_text, issue_line, known_text, made_text, moment_word, need_text, proof_line, resting_lines, standing_text, use_text};

use crate::dates::put_date;
use crate::issue_basis::{Basis, issue_made, issue_numbered};
use crate::words::{put_permission, put_spaced_statement, put_words};
use access_history::History;
use bl_syntax::decimal::{put_counted, put_decimal, put_text};
use bl_syntax::{Bytes, Grant, NoMemory, Principal};
use history_table::{Row, Use};
use journal_records::Event;
use proof_text::print_proof;
use std::alloc::Global;

// Writes a statement that is cited, on a line of its own.
fn put_cited(out: &mut Bytes, history: &History, number: u32) -> Result<(), NoMemory>
    ensures { OnOk result (out.new ≡ out.old ++ cited_line (state_of history.now).statements number) }
{
    put_counted(out, "    ", u64::from(number))?;
    put_spaced_statement(out, history.registry().get(number))?;
    put_text(out, "\n")
}

// Writes statements that are cited, each on a line of its own.
fn put_all_cited(out: &mut Bytes, history: &History, numbers: &[u32]) -> Result<(), NoMemory>
    ensures { OnOk result (out.new ≡ out.old ++ cited_lines (state_of history.now).statements numbers.now) }
{
    for number in numbers {
        put_cited(out, history, *number)?;
    }
    Ok(())
}

// Writes an issue with its proof, to the end of a line.
fn put_proof_line(out: &mut Bytes, basis: &Basis) -> Result<(), NoMemory>
    ensures { OnOk result (out.new ≡ out.old ++ proof_line (shown basis.now)) }
{
    put_counted(out, "issue ", basis.number)?;
    put_text(out, " ")?;
    print_proof(&basis.proof, out)?;
    put_text(out, "\n")
}

// Writes an issue with its proof, and each statement that it cites on a line of its own.
fn put_basis(out: &mut Bytes, history: &History, basis: &Basis) -> Result<(), NoMemory>
    ensures { OnOk result (out.new ≡ out.old ++ basis_text (state_of history.now).statements (shown basis.now)) }
{
    put_proof_line(out, basis)?;
    put_all_cited(out, history, basis.cited.as_slice())
}

// Writes the issue that was found, or that there is none.
fn put_found(out: &mut Bytes, basis: &Option<Basis>) -> Result<(), NoMemory>
    ensures { OnOk result (out.new ≡ out.old ++ found_line (option_map shown basis.now)) }
{
    match basis {
        Some(basis) => put_proof_line(out, basis),
        None => put_text(out, "unissued\n"),
    }
}

// Writes the issue of that number, or that there is none.
fn put_issue(
    alloc: Global,
    out: &mut Bytes,
    history: &History,
    issue: Option<u64>,
) -> Result<(), NoMemory>
    ensures { OnOk result (out.new ≡ out.old ++ issue_line (state_of history.now).issues issue) }
{
    match issue {
        Some(number) => {
            let basis = issue_numbered(alloc, history, number)?;
            put_found(out, &basis)
        }
        None => put_text(out, "unissued\n"),
    }
}

// Writes a path, or that there is none.
fn put_path(out: &mut Bytes, path: &Option<Bytes>) -> Result<(), NoMemory>
    ensures { OnOk result (out.new ≡ out.old ++ known_text path.now) }
{
    match path {
        Some(path) => out.extend(path.as_slice()),
        None => put_text(out, "-"),
    }
}

// Writes a principal, or that there is none.
fn put_who(out: &mut Bytes, who: &Option<Principal>) -> Result<(), NoMemory>
    ensures { OnOk result (out.new ≡ out.old ++ known_text who.now) }
{
    match who {
        Some(who) => out.extend(who.bytes()),
        None => put_text(out, "-"),
    }
}

// Writes what a procap was brought for.
fn put_need(out: &mut Bytes, one: &Use) -> Result<(), NoMemory>
    ensures { OnOk result (out.new ≡ out.old ++ need_text one.now) }
{
    put_text(out, "  ")?;
    put_permission(out, one.permission)?;
    put_counted(out, " #", one.file.0)?;
    put_text(out, " ")?;
    put_path(out, &one.path)
}

// Writes what a procap was brought for, and what it rests on.
fn put_use(alloc: Global, out: &mut Bytes, history: &History, one: &Use) -> Result<(), NoMemory>
    ensures { OnOk result (out.new ≡ out.old ++ use_text (state_of history.now) one.now) }
{
    put_need(out, one)?;
    put_text(out, " ")?;
    put_issue(alloc, out, history, one.issue)?;
    put_all_cited(out, history, one.cited.as_slice())
}

// Writes what all procaps were brought for.
fn put_uses(alloc: Global, out: &mut Bytes, history: &History, uses: &[Use]) -> Result<(), NoMemory>
    ensures { OnOk result (out.new ≡ out.old ++ flat_map (use_text (state_of history.now)) uses.now) }
{
    for one in uses {
        put_use(alloc, out, history, one)?;
    }
    Ok(())
}

// Writes what stands before a second.
fn put_moment_word(out: &mut Bytes, event: &Event) -> Result<(), NoMemory>
    ensures { OnOk result (out.new ≡ out.old ++ moment_word event.now) }
{
    match event {
        Event::Registered { .. } => put_text(out, " since "),
        Event::Withdrawn { .. } => put_text(out, " since "),
        Event::Issued { .. } => put_text(out, " since "),
        Event::Acted { .. } => put_text(out, " at "),
    }
}

// Writes the number of an event, its second, and whose it is.
fn put_front(out: &mut Bytes, event: &Event, row: &Row) -> Result<(), NoMemory>
    requires { IsMoment row.now.second }
    ensures { OnOk result (out.new ≡ out.old ++ front_text event.now row.now) }
{
    put_decimal(out, row.number)?;
    put_moment_word(out, event)?;
    put_date(out, row.second)?;
    put_text(out, " ")?;
    put_who(out, &row.who)
}

// Writes the issue that an event makes, if it makes one.
fn put_made(out: &mut Bytes, history: &History, made: &Option<Basis>) -> Result<(), NoMemory>
    ensures { OnOk result (out.new ≡ out.old ++ made_text (state_of history.now).statements (option_map shown made.now)) }
{
    match made {
        Some(basis) => {
            put_text(out, "  ")?;
            put_basis(out, history, basis)
        }
        None => Ok(()),
    }
}

/// Writes the lines of an event after that history, with its row.
pub fn put_event_lines(
    alloc: Global,
    out: &mut Bytes,
    before: &History,
    event: &Event,
    row: &Row,
) -> Result<(), NoMemory>
    requires { IsMoment row.now.second }
    ensures { OnOk result (out.new ≡ out.old ++ event_lines (state_of before.now) event.now row.now) }
{
    put_front(out, event, row)?;
    put_text(out, " ")?;
    put_words(alloc, out, before, event, row.about)?;
    put_text(out, "\n")?;
    let made = issue_made(alloc, before, event)?;
    put_made(out, before, &made)?;
    put_uses(alloc, out, before, row.uses.as_slice())
}

/// Writes the lines of an issue that would admit its principal.
pub fn put_admitting_lines(
    out: &mut Bytes,
    history: &History,
    basis: &Basis,
) -> Result<(), NoMemory>
    ensures { OnOk result (out.new ≡ out.old ++ admitting_lines (state_of history.now) (shown basis.now)) }
{
    let goal = basis.grant.goal();
    out.extend(goal.who.bytes())?;
    put_text(out, " ")?;
    put_basis(out, history, basis)
}

// Writes how a procap stands: the withdrawn statement by which it is denied, if it is.
fn put_standing(out: &mut Bytes, gone: Option<u32>) -> Result<(), NoMemory>
    ensures { OnOk result (out.new ≡ out.old ++ standing_text gone) }
{
    match gone {
        Some(number) => put_counted(out, "withdrawn ", u64::from(number)),
        None => put_text(out, "stands"),
    }
}

// Writes what a procap allows to whom.
fn put_goal(out: &mut Bytes, grant: &Grant) -> Result<(), NoMemory>
    ensures { OnOk result (out.new ≡ out.old ++ goal_text grant.now) }
{
    let goal = grant.goal();
    out.extend(goal.who.bytes())?;
    put_text(out, " ")?;
    put_permission(out, goal.perm)?;
    put_counted(out, " #", goal.file.0)
}

/// Writes the lines of an issue that rests on a statement, and whose procap is denied by that withdrawn one, if it is.
pub fn put_resting_lines(
    out: &mut Bytes,
    history: &History,
    gone: Option<u32>,
    basis: &Basis,
) -> Result<(), NoMemory>
    ensures { OnOk result (out.new ≡ out.old ++ resting_lines (state_of history.now) gone (shown basis.now)) }
{
    put_goal(out, &basis.grant)?;
    put_text(out, " ")?;
    put_standing(out, gone)?;
    put_text(out, " ")?;
    put_basis(out, history, basis)
}
