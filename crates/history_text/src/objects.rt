//! The table for programs: an object of JSON a line.
#![tactic(auto, using(bl_syntax::proofs::BeginsWithLemmas::writing))]

ghost use Rattle.std.specs.Prelude.{◌≡◌, ◌++◌, OnOk};
ghost use Rattle.std.specs.Fmt.{signed_decimal};
ghost use Rattle.std.specs.Option.{option_map};
ghost use Rattle.bl_syntax.specs.TimeOrder.{IsMoment};
ghost use Rattle.access_history.specs.History.{state_of};
ghost use Rattle.bl_text.specs.Printed.{permission_text, statement_text};
ghost use Rattle.proof_text.specs.Printed.{proof_text};
ghost use Rattle.history_text.specs.Dates.{date_text};
ghost use Rattle.history_text.specs.IssueBasis.{shown};
ghost use Rattle.history_text.specs.Objects.{about_members, admitting_object, event_object, found_members, front_members, goal_members, basis_members, issue_members, kind_text, made_members, more_objects, more_uses, need_members, node_member, numbered_object, objects_of, proof_members, resting_object, statement_or_number, standing_members, statement_object, statements_text, text_member, use_object, use_objects, what_members};
ghost use Rattle.history_text.specs.Strings.{string_text};
ghost use Rattle.history_text.specs.Words.{words_text};

use crate::dates::put_date;
use crate::escape::put_string;
use crate::issue_basis::{Basis, issue_made, issue_numbered};
use crate::words::{put_permission, put_words};
use access_history::History;
use bl_syntax::decimal::{put_counted, put_text};
use bl_syntax::{Bytes, Grant, NoMemory, NodeId, Perm, Principal, Statement, Term, TimePoint};
use bl_text::{print_statement, print_term};
use history_table::{Row, Use};
use journal_records::Event;
use proof_term::ProofTree;
use proof_text::print_proof;
use std::alloc::Global;

// Writes a statement as a string.
fn put_statement_string(
    alloc: Global,
    out: &mut Bytes,
    statement: &Statement,
) -> Result<(), NoMemory>
    ensures { OnOk result (out.new ≡ out.old ++ string_text (statement_text statement.now)) }
{
    let mut text = Bytes::new(alloc);
    print_statement(statement, &mut text)?;
    put_string(out, text.as_slice())
}

// Writes a proof as a string.
fn put_proof_string(alloc: Global, out: &mut Bytes, proof: &ProofTree) -> Result<(), NoMemory>
    ensures { OnOk result (out.new ≡ out.old ++ string_text (proof_text proof.now)) }
{
    let mut text = Bytes::new(alloc);
    print_proof(proof, &mut text)?;
    put_string(out, text.as_slice())
}

// Writes a permission as a string.
fn put_permission_string(alloc: Global, out: &mut Bytes, permission: Perm) -> Result<(), NoMemory>
    ensures { OnOk result (out.new ≡ out.old ++ string_text (permission_text permission)) }
{
    let mut text = Bytes::new(alloc);
    put_permission(&mut text, permission)?;
    put_string(out, text.as_slice())
}

// Writes a date as a string.
fn put_date_string(alloc: Global, out: &mut Bytes, second: i64) -> Result<(), NoMemory>
    requires { IsMoment second }
    ensures { OnOk result (out.new ≡ out.old ++ string_text (date_text second)) }
{
    let mut text = Bytes::new(alloc);
    put_date(&mut text, second)?;
    put_string(out, text.as_slice())
}

// Writes a statement with its number and who says it.
fn put_statement(
    alloc: Global,
    out: &mut Bytes,
    number: u64,
    statement: &Statement,
) -> Result<(), NoMemory>
    ensures { OnOk result (out.new ≡ out.old ++ statement_object number statement.now) }
{
    put_counted(out, "{\"number\":", number)?;
    put_text(out, ",\"signer\":")?;
    put_string(out, statement.who().bytes())?;
    put_text(out, ",\"statement\":")?;
    put_statement_string(alloc, out, statement)?;
    put_text(out, "}")
}

// Writes the statement of that number; the number alone if there is none.
fn put_numbered(
    alloc: Global,
    out: &mut Bytes,
    history: &History,
    number: u32,
) -> Result<(), NoMemory>
    ensures { OnOk result (out.new ≡ out.old ++ numbered_object (state_of history.now).statements number) }
{
    match history.registry().get(number) {
        Some(statement) => put_statement(alloc, out, u64::from(number), statement),
        None => {
            put_counted(out, "{\"number\":", u64::from(number))?;
            put_text(out, "}")
        }
    }
}

// Writes statements after a first one.
fn put_more(
    alloc: Global,
    out: &mut Bytes,
    history: &History,
    numbers: &[u32],
) -> Result<(), NoMemory>
    ensures { OnOk result (out.new ≡ out.old ++ more_objects (state_of history.now).statements numbers.now) }
{
    match numbers {
        [] => Ok(()),
        [number, others @ ..] => {
            put_text(out, ",")?;
            put_numbered(alloc, out, history, *number)?;
            put_more(alloc, out, history, others)
        }
    }
}

// Writes statements with commas between them.
fn put_objects(
    alloc: Global,
    out: &mut Bytes,
    history: &History,
    numbers: &[u32],
) -> Result<(), NoMemory>
    ensures { OnOk result (out.new ≡ out.old ++ objects_of (state_of history.now).statements numbers.now) }
{
    match numbers {
        [] => Ok(()),
        [number, others @ ..] => {
            put_numbered(alloc, out, history, *number)?;
            put_more(alloc, out, history, others)
        }
    }
}

// Writes the statements of these numbers.
fn put_statements(
    alloc: Global,
    out: &mut Bytes,
    history: &History,
    numbers: &[u32],
) -> Result<(), NoMemory>
    ensures { OnOk result (out.new ≡ out.old ++ statements_text (state_of history.now).statements numbers.now) }
{
    put_text(out, ",\"statements\":[")?;
    put_objects(alloc, out, history, numbers)?;
    put_text(out, "]")
}

// Writes the number of an issue, and its proof.
fn put_issued_proof(alloc: Global, out: &mut Bytes, basis: &Basis) -> Result<(), NoMemory>
    ensures { OnOk result (out.new ≡ out.old ++ proof_members (shown basis.now)) }
{
    put_counted(out, ",\"issue\":", basis.number)?;
    put_text(out, ",\"proof\":")?;
    put_proof_string(alloc, out, &basis.proof)
}

// Writes the statements that an issue cites.
fn put_cited(
    alloc: Global,
    out: &mut Bytes,
    history: &History,
    basis: &Basis,
) -> Result<(), NoMemory>
    ensures { OnOk result (out.new ≡ out.old ++ statements_text (state_of history.now).statements (shown basis.now).cited) }
{
    put_statements(alloc, out, history, basis.cited.as_slice())
}

// Writes the members of an issue.
fn put_basis(
    alloc: Global,
    out: &mut Bytes,
    history: &History,
    basis: &Basis,
) -> Result<(), NoMemory>
    ensures { OnOk result (out.new ≡ out.old ++ basis_members (state_of history.now).statements (shown basis.now)) }
{
    put_issued_proof(alloc, out, basis)?;
    put_cited(alloc, out, history, basis)
}

// Writes the members of an issue, if there is one.
fn put_made(
    alloc: Global,
    out: &mut Bytes,
    history: &History,
    basis: &Option<Basis>,
) -> Result<(), NoMemory>
    ensures { OnOk result (out.new ≡ out.old ++ made_members (state_of history.now).statements (option_map shown basis.now)) }
{
    match basis {
        Some(basis) => put_basis(alloc, out, history, basis),
        None => Ok(()),
    }
}

// Writes the number of the issue that was found and its proof, if there is one.
fn put_found(alloc: Global, out: &mut Bytes, basis: &Option<Basis>) -> Result<(), NoMemory>
    ensures { OnOk result (out.new ≡ out.old ++ found_members (option_map shown basis.now)) }
{
    match basis {
        Some(basis) => put_issued_proof(alloc, out, basis),
        None => Ok(()),
    }
}

// Writes the issue of that number with its proof, if there is one.
fn put_issue(
    alloc: Global,
    out: &mut Bytes,
    history: &History,
    issue: Option<u64>,
) -> Result<(), NoMemory>
    ensures { OnOk result (out.new ≡ out.old ++ issue_members (state_of history.now).issues issue) }
{
    match issue {
        Some(number) => {
            let basis = issue_numbered(alloc, history, number)?;
            put_found(alloc, out, &basis)
        }
        None => Ok(()),
    }
}

// Writes a path as a member, if there is one.
fn put_path(out: &mut Bytes, name: &str, path: &Option<Bytes>) -> Result<(), NoMemory>
    ensures { OnOk result (out.new ≡ out.old ++ text_member name.now path.now) }
{
    match path {
        Some(path) => {
            put_text(out, name)?;
            put_string(out, path.as_slice())
        }
        None => Ok(()),
    }
}

// Writes a principal as a member, if there is one.
fn put_who(out: &mut Bytes, name: &str, who: &Option<Principal>) -> Result<(), NoMemory>
    ensures { OnOk result (out.new ≡ out.old ++ text_member name.now who.now) }
{
    match who {
        Some(who) => {
            put_text(out, name)?;
            put_string(out, who.bytes())
        }
        None => Ok(()),
    }
}

// Writes what a procap was brought for.
fn put_need(alloc: Global, out: &mut Bytes, one: &Use) -> Result<(), NoMemory>
    ensures { OnOk result (out.new ≡ out.old ++ need_members one.now) }
{
    put_text(out, "{\"permission\":")?;
    put_permission_string(alloc, out, one.permission)?;
    put_counted(out, ",\"file\":", one.file.0)?;
    put_path(out, ",\"path\":", &one.path)
}

// Writes what a procap was brought for, and what it rests on.
fn put_use(alloc: Global, out: &mut Bytes, history: &History, one: &Use) -> Result<(), NoMemory>
    ensures { OnOk result (out.new ≡ out.old ++ use_object (state_of history.now) one.now) }
{
    put_need(alloc, out, one)?;
    put_issue(alloc, out, history, one.issue)?;
    put_statements(alloc, out, history, one.cited.as_slice())?;
    put_text(out, "}")
}

// Writes what procaps after a first one were brought for.
fn put_more_uses(
    alloc: Global,
    out: &mut Bytes,
    history: &History,
    uses: &[Use],
) -> Result<(), NoMemory>
    ensures { OnOk result (out.new ≡ out.old ++ more_uses (state_of history.now) uses.now) }
{
    match uses {
        [] => Ok(()),
        [one, others @ ..] => {
            put_text(out, ",")?;
            put_use(alloc, out, history, one)?;
            put_more_uses(alloc, out, history, others)
        }
    }
}

// Writes what all procaps were brought for, with commas between them.
fn put_uses(alloc: Global, out: &mut Bytes, history: &History, uses: &[Use]) -> Result<(), NoMemory>
    ensures { OnOk result (out.new ≡ out.old ++ use_objects (state_of history.now) uses.now) }
{
    match uses {
        [] => Ok(()),
        [one, others @ ..] => {
            put_use(alloc, out, history, one)?;
            put_more_uses(alloc, out, history, others)
        }
    }
}

// Writes the kind of an event as a string.
fn put_kind(out: &mut Bytes, event: &Event) -> Result<(), NoMemory>
    ensures { OnOk result (out.new ≡ out.old ++ string_text (kind_text event.now)) }
{
    match event {
        Event::Registered { .. } => put_string(out, b"registered"),
        Event::Withdrawn { .. } => put_string(out, b"withdrawn"),
        Event::Issued { .. } => put_string(out, b"issued"),
        Event::Acted { .. } => put_string(out, b"acted"),
    }
}

// Writes a second.
fn put_second(out: &mut Bytes, second: i64) -> Result<(), NoMemory>
    ensures { OnOk result (out.new ≡ out.old ++ signed_decimal second) }
{
    print_term(&Term::Time(TimePoint::At(second)), out)
}

// Writes the number of an event, its kind, its second, and whose it is.
fn put_front(alloc: Global, out: &mut Bytes, event: &Event, row: &Row) -> Result<(), NoMemory>
    requires { IsMoment row.now.second }
    ensures { OnOk result (out.new ≡ out.old ++ front_members event.now row.now) }
{
    put_counted(out, "{\"event\":", row.number)?;
    put_text(out, ",\"kind\":")?;
    put_kind(out, event)?;
    put_text(out, ",\"second\":")?;
    put_second(out, row.second)?;
    put_text(out, ",\"date\":")?;
    put_date_string(alloc, out, row.second)?;
    put_who(out, ",\"who\":", &row.who)
}

// Writes a node as a member, if there is one.
fn put_node(out: &mut Bytes, about: Option<NodeId>) -> Result<(), NoMemory>
    ensures { OnOk result (out.new ≡ out.old ++ node_member about) }
{
    match about {
        Some(node) => put_counted(out, ",\"node\":", node.0),
        None => Ok(()),
    }
}

// Writes the words of an event as a string.
fn put_words_string(
    alloc: Global,
    out: &mut Bytes,
    before: &History,
    event: &Event,
    about: Option<NodeId>,
) -> Result<(), NoMemory>
    ensures { OnOk result (out.new ≡ out.old ++ string_text (words_text (state_of before.now) event.now about)) }
{
    let mut words = Bytes::new(alloc);
    put_words(alloc, &mut words, before, event, about)?;
    put_string(out, words.as_slice())
}

// Writes what an event is, in words.
fn put_what(
    alloc: Global,
    out: &mut Bytes,
    before: &History,
    event: &Event,
    row: &Row,
) -> Result<(), NoMemory>
    ensures { OnOk result (out.new ≡ out.old ++ what_members (state_of before.now) event.now row.now) }
{
    put_text(out, ",\"what\":")?;
    put_words_string(alloc, out, before, event, row.about)?;
    put_node(out, row.about)
}

// Writes on which statements an event is.
fn put_about(
    alloc: Global,
    out: &mut Bytes,
    before: &History,
    event: &Event,
    row: &Row,
) -> Result<(), NoMemory>
    ensures { OnOk result (out.new ≡ out.old ++ about_members (state_of before.now) event.now row.now) }
{
    match event {
        Event::Registered { statement, .. } => {
            put_text(out, ",\"statements\":[")?;
            let number = before.statements().len() as u64 + 1;
            put_statement(alloc, out, number, statement)?;
            put_text(out, "]")
        }
        Event::Withdrawn { number, .. } => put_statements(alloc, out, before, &[*number]),
        Event::Issued { .. } => {
            let made = issue_made(alloc, before, event)?;
            put_made(alloc, out, before, &made)
        }
        Event::Acted { .. } => {
            put_text(out, ",\"uses\":[")?;
            put_uses(alloc, out, before, row.uses.as_slice())?;
            put_text(out, "]")
        }
    }
}

/// Writes the object of an event after that history, with its row, on a line.
pub fn put_event_object(
    alloc: Global,
    out: &mut Bytes,
    before: &History,
    event: &Event,
    row: &Row,
) -> Result<(), NoMemory>
    requires { IsMoment row.now.second }
    ensures { OnOk result (out.new ≡ out.old ++ event_object (state_of before.now) event.now row.now) }
{
    put_front(alloc, out, event, row)?;
    put_what(alloc, out, before, event, row)?;
    put_about(alloc, out, before, event, row)?;
    put_text(out, "}\n")
}

/// Writes the object of an issue that would admit its principal, on a line.
pub fn put_admitting_object(
    alloc: Global,
    out: &mut Bytes,
    history: &History,
    basis: &Basis,
) -> Result<(), NoMemory>
    ensures { OnOk result (out.new ≡ out.old ++ admitting_object (state_of history.now) (shown basis.now)) }
{
    let goal = basis.grant.goal();
    put_text(out, "{\"who\":")?;
    put_string(out, goal.who.bytes())?;
    put_basis(alloc, out, history, basis)?;
    put_text(out, "}\n")
}

// Writes how a procap stands: the withdrawn statement by which it is denied, if it is.
fn put_standing(out: &mut Bytes, gone: Option<u32>) -> Result<(), NoMemory>
    ensures { OnOk result (out.new ≡ out.old ++ standing_members gone) }
{
    match gone {
        Some(number) => put_counted(out, ",\"stands\":false,\"withdrawn\":", u64::from(number)),
        None => put_text(out, ",\"stands\":true"),
    }
}

// Writes what a procap allows to whom.
fn put_goal(alloc: Global, out: &mut Bytes, grant: &Grant) -> Result<(), NoMemory>
    ensures { OnOk result (out.new ≡ out.old ++ goal_members grant.now) }
{
    let goal = grant.goal();
    put_text(out, "{\"who\":")?;
    put_string(out, goal.who.bytes())?;
    put_text(out, ",\"permission\":")?;
    put_permission_string(alloc, out, goal.perm)?;
    put_counted(out, ",\"file\":", goal.file.0)
}

/// Writes the object of an issue that rests on a statement, and whose procap is denied by that withdrawn one, if it is.
pub fn put_resting_object(
    alloc: Global,
    out: &mut Bytes,
    history: &History,
    gone: Option<u32>,
    basis: &Basis,
) -> Result<(), NoMemory>
    ensures { OnOk result (out.new ≡ out.old ++ resting_object (state_of history.now) gone (shown basis.now)) }
{
    put_goal(alloc, out, &basis.grant)?;
    put_standing(out, gone)?;
    put_basis(alloc, out, history, basis)?;
    put_text(out, "}\n")
}
