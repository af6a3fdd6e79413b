//! The rows of a table.

ghost use Rattle.std.specs.Prelude.{◌≡◌, ◌<◌, ◌++◌, ◌-◌, ◌^◌, ℕ, IfOk, OnOk};
ghost use Rattle.file_world.specs.Needs.{need};
ghost use Rattle.access_history.specs.History.{state_of};
ghost use Rattle.access_history.specs.Replay.{moment_next};
ghost use Rattle.world_state.specs.Needed.{placed};
ghost use Rattle.history_table.specs.Index.{IsIndexOf, digests_of};
ghost use Rattle.history_table.specs.Table.{event_about, event_uses, event_who, made_by, row_of, use_of, uses_of};

use crate::issues::{IssueIndex, rests_on};
use crate::places::{Guesses, path_of};
use access_history::History;
use bl_syntax::{Bytes, NoMemory, NodeId, Numbers, Perm, Principal, Sequence};
use file_world::Op;
use journal_records::Event;
use procap::Procap;
use std::alloc::Global;

/// What a procap was brought for, and what it rests on.
#[derive(Debug, Drop)]
pub struct Use {
    pub permission: Perm,
    pub file: NodeId,
    /// The path of the file at that time; none if there is no such file.
    pub path: Option<Bytes>,
    /// The number of the last issue of its grant that stood then; none if there is none.
    pub issue: Option<u64>,
    /// The numbers of the statements that it rests on: those that its grant names; if it names none, those of the issue.
    pub cited: Numbers,
}

/// What procaps were brought for, in order.
pub type Uses = Sequence<Use>;

/// What the table has of an event beside the event.
#[derive(Debug, Drop)]
pub struct Row {
    /// Its number.
    pub number: u64,
    /// The second of an operation; of another event the last operation's before it.
    pub second: i64,
    /// Whose it is: who called, who asked for the procap, who says the statement.
    pub who: Option<Principal>,
    /// The node that it makes, or on which it allows something.
    pub about: Option<NodeId>,
    pub uses: Uses,
}

// What a procap was brought for, and what it rests on.
fn use_of(
    alloc: Global,
    before: &History,
    guesses: &Guesses,
    issues: &IssueIndex,
    file: NodeId,
    permission: Perm,
    procap: &Procap,
) -> Result<Use, NoMemory>
    requires { IsIndexOf (digests_of before.now.key (state_of before.now).issues) issues.now }
    ensures { IfOk result (λ one. one ≡ use_of (state_of before.now) (need 0 file permission) procap.now) }
{
    let path = path_of(alloc, before.world(), guesses, file.0)?;
    let issue = issues.last_ground(
        before.key(),
        before.registry(),
        before.issues(),
        &procap.grant,
    );
    let cited = rests_on(alloc, before.issues(), &procap.grant, issue)?;
    Ok(Use {
        permission,
        file,
        path,
        issue,
        cited,
    })
}

// Adds what each of the procaps was brought for.
fn add_uses(
    alloc: Global,
    before: &History,
    guesses: &Guesses,
    issues: &IssueIndex,
    pairs: &[(NodeId, Perm)],
    procaps: &[Procap],
    uses: &mut Uses,
) -> Result<(), NoMemory>
    requires { IsIndexOf (digests_of before.now.key (state_of before.now).issues) issues.now }
    ensures { OnOk result ((place : ℕ) → uses.new ≡ uses.old ++ uses_of (state_of before.now) (placed place pairs.now) procaps.now) }
{
    match pairs {
        [] => Ok(()),
        [pair, others @ ..] => match procaps {
            [] => Ok(()),
            [procap, rest @ ..] => {
                let one = use_of(alloc, before, guesses, issues, pair.0, pair.1, procap)?;
                uses.push(one)?;
                add_uses(alloc, before, guesses, issues, others, rest, uses)
            }
        },
    }
}

// The node that an operation makes.
fn made_by(before: &History, op: &Op) -> Option<NodeId>
    ensures { result ≡ made_by (state_of before.now).world op.now }
{
    match op {
        Op::Create(_, _) | Op::Mkdir(_, _) => Some(NodeId(before.world().tree().next_number())),
        _ => None,
    }
}

/// Whose an event after that history is.
pub fn who_of(before: &History, event: &Event) -> Option<Principal>
    ensures { result ≡ event_who (state_of before.now) event.now }
{
    match event {
        Event::Registered { statement, .. } => Some(*statement.who()),
        Event::Withdrawn { number, .. } => match before.registry().get(*number) {
            Some(statement) => Some(*statement.who()),
            None => None,
        },
        Event::Issued { grant, .. } => Some(grant.goal().who),
        Event::Acted { caller, .. } => Some(*caller),
    }
}

// The node that an event makes, or on which it allows something.
fn about_of(before: &History, event: &Event) -> Option<NodeId>
    ensures { result ≡ event_about (state_of before.now) event.now }
{
    match event {
        Event::Registered { .. } => None,
        Event::Withdrawn { .. } => None,
        Event::Issued { grant, .. } => Some(grant.goal().file),
        Event::Acted { op, .. } => made_by(before, op),
    }
}

/// The second of an operation; of another event the last operation's before it.
pub fn second_of(before: &History, event: &Event) -> i64
    ensures { result ≡ moment_next (state_of before.now).moment event.now }
{
    match event {
        Event::Acted { moment, .. } => *moment,
        _ => before.moment(),
    }
}

// What the procaps of an event were brought for.
fn uses_of(
    alloc: Global,
    before: &History,
    guesses: &Guesses,
    issues: &IssueIndex,
    event: &Event,
) -> Result<Uses, NoMemory>
    requires { IsIndexOf (digests_of before.now.key (state_of before.now).issues) issues.now }
    ensures { IfOk result (λ uses. uses ≡ event_uses (state_of before.now) event.now) }
{
    let mut uses = Uses::new(alloc);
    match event {
        Event::Acted { op, procaps, .. } => {
            let needs = before.world().needs(op);
            add_uses(
                alloc,
                before,
                guesses,
                issues,
                needs.as_slice(),
                procaps.as_slice(),
                &mut uses,
            )?;
            Ok(uses)
        }
        _ => Ok(uses),
    }
}

/// The row of an event after that history.
pub fn row_of(
    alloc: Global,
    before: &History,
    guesses: &Guesses,
    issues: &IssueIndex,
    event: &Event,
) -> Result<Row, NoMemory>
    requires index { IsIndexOf (digests_of before.now.key (state_of before.now).issues) issues.now }
    requires counted { (state_of before.now).count < 2 ^ 64 - 1 }
    ensures { IfOk result (λ row. row ≡ row_of (state_of before.now) event.now) }
{
    let uses = uses_of(alloc, before, guesses, issues, event)?;
    Ok(Row {
        number: before.count() + 1,
        second: second_of(before, event),
        who: who_of(before, event),
        about: about_of(before, event),
        uses,
    })
}
