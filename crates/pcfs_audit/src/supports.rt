//! Until when grants that were issued have support: an issue of whose statements none was withdrawn. A grant that was issued
//! and has lost its support is gone, unless it names statements: then these tell.

ghost use Rattle.std.specs.Prelude.{◌≡◌, ◌<◌, ◌+◌, [], true, Some, IfOk, OnOk, length, not, replicate};
ghost use Rattle.std.specs.List.{slice_get};
ghost use Rattle.pcfs_audit.specs.Dossier.{IsDossier};
ghost use Rattle.pcfs_audit.specs.Supports.{AreSupportsOf, CountsIssue, FollowIssues, FollowsEvent, FollowsIssue, TellsStanding, TellsStandingByIssues, has_lost, supported};

use crate::digests::front_of;
use crate::dossier::Dossier;
use crate::ends::{first_end, is_past};
use crate::grants::row_of;
use bl_syntax::{Grant, NoMemory};
use issue_standings::Bearing;
use journal_records::Event;
use procap::Procap;
use std::alloc::Global;

/// Until when a grant has support.
#[derive(Clone, Copy, Debug, PartialEq, Eq)]
pub enum Support {
    /// It was not issued.
    Unissued,
    /// Each of its issues cites a statement that is withdrawn before the event at this place, from 0, or earlier.
    Until(usize),
    /// One of its issues cites no statement that is ever withdrawn.
    Always,
}

impl Support {
    // The support with that of one more issue, of whose statements the first ends there.
    fn with_issue(self, end: Option<usize>) -> Support
        ensures { result ≡ supported self end }
    {
        match self {
            Support::Always => Support::Always,
            Support::Unissued => match end {
                None => Support::Always,
                Some(place) => Support::Until(place),
            },
            Support::Until(before) => match end {
                None => Support::Always,
                Some(place) => Support::Until(before.max(place)),
            },
        }
    }

    // Whether it is lost before the event at that place.
    fn has_lost(self, place: usize) -> bool
        ensures { result ≡ has_lost self place }
    {
        match self {
            Support::Until(end) => end <= place,
            Support::Unissued | Support::Always => false,
        }
    }
}

/// The support of each grant by the issues before the event at a place: it stands in the row of the grant's first place among
/// all that are ever issued. Nothing is counted in a history in which no statement is withdrawn.
#[derive(Drop)]
pub struct Supports {
    pub rows: Vec<Support>,
    pub place: usize,
}

// So many rows without support.
fn rows_without_support(alloc: Global, count: usize) -> Result<Vec<Support>, NoMemory>
    ensures { IfOk result (λ rows. rows.items ≡ replicate count Support.Unissued) }
{
    let mut rows = Vec::new(alloc);
    for _ in 0..count {
        rows.push(Support::Unissued)?;
    }
    Ok(rows)
}

// Counts one more issue for its grant.
fn count_issue(rows: &mut Vec<Support>, dossier: &Dossier, grant: &Grant, cited: &[u32])
    requires dossier { IsDossier dossier.now }
    requires sized { length rows.old.items ≡ length dossier.now.papers.grants.items }
    ensures rows { CountsIssue dossier.now grant.now cited.now rows.old.items rows.new.items }
    ensures sized { length rows.new.items ≡ length rows.old.items }
{
    let tag = dossier.key.tag(grant);
    if let Some(row) = row_of(dossier, front_of(&tag), grant) {
        let end = first_end(dossier.papers.ends.as_slice(), cited);
        let support = rows[row].with_issue(end);
        rows[row] = support;
    }
}

// Counts the issues of the base. Of each the grant and the numbers are read.
fn count_base(alloc: Global, rows: &mut Vec<Support>, dossier: &Dossier) -> Result<(), NoMemory>
    requires dossier { IsDossier dossier.now }
    requires sized { length rows.old.items ≡ length dossier.now.papers.grants.items }
    ensures rows { OnOk result (AreSupportsOf dossier.now [] rows.old.items
        → AreSupportsOf dossier.now dossier.now.base.now.issues rows.new.items) }
    ensures sized { length rows.new.items ≡ length rows.old.items }
{
    let issues = dossier.base.issues();
    for issue in issues {
        let grant = issue.grant(alloc)?;
        let cited = issue.cited(alloc)?;
        count_issue(rows, dossier, &grant, cited.as_slice());
    }
    Ok(())
}

// The rows with the issues of the base counted, if some statement is ever withdrawn.
fn with_base(alloc: Global, rows: Vec<Support>, dossier: &Dossier) -> Result<Vec<Support>, NoMemory>
    requires dossier { IsDossier dossier.now }
    requires sized { length rows.items ≡ length dossier.now.papers.grants.items }
    ensures rows { IfOk result (λ counted. dossier.now.papers.has_ended ≡ true → AreSupportsOf dossier.now [] rows.items
        → AreSupportsOf dossier.now dossier.now.base.now.issues counted.items) }
    ensures sized { IfOk result (λ counted. length counted.items ≡ length dossier.now.papers.grants.items) }
{
    let counts = dossier.papers.has_ended;
    if !counts {
        return Ok(rows);
    }
    let mut rows = rows;
    count_base(alloc, &mut rows, dossier)?;
    Ok(rows)
}

/// The supports by the issues of the base, before the first event.
pub fn base_supports(alloc: Global, dossier: &Dossier) -> Result<Supports, NoMemory>
    requires { IsDossier dossier.now }
    ensures follow { IfOk result (FollowIssues dossier.now dossier.now.base.now.issues) }
    ensures place { IfOk result (λ supports. supports.place ≡ 0) }
{
    let grants = dossier.papers.grants.as_slice();
    let empty = rows_without_support(alloc, grants.len())?;
    let rows = with_base(alloc, empty, dossier)?;
    Ok(Supports { rows, place: 0 })
}

impl Supports {
    /// Goes on to the place after the event, with the issue that it made.
    pub fn follow(&mut self, dossier: &Dossier, event: &Event)
        requires dossier { IsDossier dossier.now }
        requires sized { length self.old.rows.items ≡ length dossier.now.papers.grants.items }
        requires within { self.old.place < length dossier.now.events.now }
        ensures follow { FollowsEvent dossier.now event.now self.old self.new }
        ensures place { self.new.place ≡ self.old.place + 1 }
    {
        self.place += 1;
        match event {
            Event::Registered { .. } => {}
            Event::Withdrawn { .. } => {}
            Event::Issued { cited, grant, .. } => {
                self.follow_issue(dossier, grant, cited.as_slice());
            }
            Event::Acted { .. } => {}
        }
    }

    // Counts one more issue for its grant, if some statement is ever withdrawn.
    fn follow_issue(&mut self, dossier: &Dossier, grant: &Grant, cited: &[u32])
        requires dossier { IsDossier dossier.now }
        requires sized { length self.old.rows.items ≡ length dossier.now.papers.grants.items }
        ensures follow { FollowsIssue dossier.now grant.now cited.now self.old self.new }
        ensures place { self.new.place ≡ self.old.place }
    {
        let counts = dossier.papers.has_ended;
        if counts {
            count_issue(&mut self.rows, dossier, grant, cited);
        }
    }

    /// Whether the grant of a sealed procap is not gone: by the statements that it names, or else by its issues.
    pub fn does_stand(&self, dossier: &Dossier, procap: &Procap) -> bool
        requires { IsDossier dossier.now }
        ensures { TellsStanding dossier.now self.now procap.now result }
    {
        let counts = dossier.papers.has_ended;
        if !counts {
            return true;
        }
        let named = procap.grant.cited();
        if named.is_empty() {
            return self.does_stand_by_issues(dossier, procap);
        }
        !is_past(first_end(dossier.papers.ends.as_slice(), named), self.place)
    }

    // Whether the grant of a sealed procap is not gone by its issues.
    fn does_stand_by_issues(&self, dossier: &Dossier, procap: &Procap) -> bool
        requires dossier { IsDossier dossier.now }
        requires ended { dossier.now.papers.has_ended ≡ true }
        ensures { TellsStandingByIssues dossier.now self.now procap.now result }
    {
        match row_of(dossier, front_of(&procap.tag), &procap.grant) {
            None => true,
            Some(row) => self.has_support(row),
        }
    }

    // Whether the support in that row is not lost.
    fn has_support(&self, row: usize) -> bool
        ensures { (support : Support) → slice_get self.now.rows.items row ≡ Some support
            → result ≡ not (has_lost support self.now.place) }
    {
        match self.rows.get(row) {
            None => true,
            Some(support) => {
                let support = *support;
                !support.has_lost(self.place)
            }
        }
    }
}
