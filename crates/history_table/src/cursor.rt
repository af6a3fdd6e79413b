//! The cursor: it goes through a history event by event, and has the row of the next one.

ghost use Rattle.std.specs.Prelude.{◌≡◌, ◌≤◌, ◌<◌, ◌+◌, Some, IfOk, length};
ghost use Rattle.std.specs.List.{slice_get};
ghost use Rattle.bl_syntax.specs.TimeOrder.{IsMoment};
ghost use Rattle.access_history.specs.History.{state_of};
ghost use Rattle.access_history.specs.Replay.{moment_next, next_state};
ghost use Rattle.history_table.specs.Filtering.{may_admit};
ghost use Rattle.history_table.specs.Following.{Keeps, MayKeep};
ghost use Rattle.history_table.specs.Index.{IsIndexOf, digests_of};
ghost use Rattle.history_table.specs.Table.{event_who, row_of};
ghost use Rattle.history_table.specs.Cursor.{state_before};

use crate::filter::Filter;
use crate::following::follow;
use crate::issues::IssueIndex;
use crate::places::Guesses;
use crate::rows::{Row, row_of, second_of, who_of};
use access_history::History;
use bl_syntax::NoMemory;
use file_world::Op;
use journal_records::{Event, EventRecord};
use procap::SealKey;
use std::alloc::Global;
use std::marker::Model;

/// A history, how many of its events were passed, the history before the next one, and where its nodes and issues are found.
#[derive(Drop)]
pub struct RowCursor<'a> {
    whole: &'a History,
    passed: usize,
    before: History,
    guesses: Guesses,
    issues: IssueIndex,
}

impl<'a> Model for RowCursor<'a> {
    ghost use Rattle.history_table.specs.Cursor.{IsAt, CursorView};
    ghost use Rattle.history_table.specs.CursorCode.{cursor_code};

    ghost Value = { CursorView };

    ghost coded = { cursor_code };

    ghost view = { λ t. record { history = t.whole.now; passed = t.passed } };

    ghost invariant = { λ t. IsAt t.whole.now t.passed t.before t.issues };
}

// Expects nodes where an operation puts them.
fn expect_places(before: &History, guesses: &mut Guesses, event: &Event) -> Result<(), NoMemory> {
    match event {
        Event::Acted { op, .. } => match op {
            Op::Create(directory, name) | Op::Mkdir(directory, name) => {
                let number = before.world().tree().next_number();
                guesses.expect(number, directory.0, name.as_slice())
            }
            Op::Rename(directory, name, target, renamed) => {
                match before.world().tree().child(*directory, name.as_slice()) {
                    Some(child) => guesses.expect(child.0, target.0, renamed.as_slice()),
                    None => Ok(()),
                }
            }
            _ => Ok(()),
        },
        _ => Ok(()),
    }
}

// The index with the issue that the event makes.
fn with_issue(issues: IssueIndex, before: &History, event: &Event) -> Result<IssueIndex, NoMemory>
    requires { IsIndexOf (digests_of before.now.key (state_of before.now).issues) issues }
    ensures { IfOk result (IsIndexOf (digests_of before.now.key (next_state (state_of before.now) event.now).issues)) }
{
    match event {
        Event::Issued { grant, .. } => issues.with(before.key(), grant),
        _ => Ok(issues),
    }
}

// The history with one more event.
fn with_event(alloc: Global, before: History, event: &EventRecord) -> Result<History, NoMemory>
    requires { MayKeep before event.now }
    ensures { IfOk result (Keeps before event.now) }
{
    let mut history = before;
    follow(alloc, &mut history, event)?;
    Ok(history)
}

impl<'a> RowCursor<'a> {
    /// A cursor before the first event of a history, whose procaps are sealed under this key.
    pub fn new(alloc: Global, history: &'a History, key: &[u8]) -> Result<RowCursor<'a>, NoMemory>
        requires { key.now ≡ history.now.key }
        ensures { IfOk result (λ t. t ≡ record { history = history.now; passed = 0 }) }
    {
        let base = history.base().copy(alloc)?;
        let ring = history.ring().copy(alloc)?;
        let guesses = Guesses::of_world(alloc, base.world())?;
        let issues = IssueIndex::of_issues(alloc, history.key(), base.issues())?;
        history.lemma_is_lawful();
        let before = History::from_base(alloc, SealKey::new(key), ring, base)?;
        Ok(RowCursor {
            whole: history,
            passed: 0,
            before,
            guesses,
            issues,
        })
    }

    /// The history before the next event.
    pub fn before(&self) -> &History
        ensures { state_of result.now ≡ state_before self.now }
    {
        &self.before
    }

    /// Whether the row of the next event is asked for, if its file is. It takes no memory.
    pub fn may_be_asked(&self, filter: &Filter, event: &Event) -> bool
        ensures { result ≡ may_admit filter.now (event_who (state_before self.now) event.now) (moment_next (state_before self.now).moment event.now) }
    {
        filter.may_admit(&who_of(&self.before, event), second_of(&self.before, event))
    }

    /// The row of the next event.
    pub fn row(&self, alloc: Global, event: &Event) -> Result<Row, NoMemory>
        requires { slice_get self.now.history.events self.now.passed ≡ Some event.now }
        ensures row { IfOk result (λ row. row ≡ row_of (state_before self.now) event.now) }
        ensures second { IfOk result (λ row. IsMoment row.second) }
    {
        self.whole.lemma_is_lawful();
        row_of(alloc, &self.before, &self.guesses, &self.issues, event)
    }

    /// Goes on past the next event.
    pub fn pass(self, alloc: Global) -> Result<RowCursor<'a>, NoMemory>
        requires { self.passed < length self.history.events }
        ensures { IfOk result (λ t. t ≡ record self.entry { passed = self.entry.passed + 1 }) }
    {
        let RowCursor {
            whole,
            passed,
            before,
            guesses,
            issues,
        } = self;
        let mut guesses = guesses;
        let kept = &whole.events()[passed];
        let event = kept.event(alloc)?;
        whole.lemma_is_lawful();
        expect_places(&before, &mut guesses, &event)?;
        let issues = with_issue(issues, &before, &event)?;
        let before = with_event(alloc, before, kept)?;
        Ok(RowCursor {
            whole,
            passed: passed + 1,
            before,
            guesses,
            issues,
        })
    }
}
