//! The papers of a history: its statements, before which event each was withdrawn, the grants that were issued, and how many
//! statements and issues there were before each event. Of these only the grants of a base are copied, which it keeps as bytes.

ghost use Rattle.std.specs.Prelude.{◌≡◌, ◌∷◌, ◌++◌, [], List, IfOk};
ghost use Rattle.journal_records.specs.declared.event.Event.{Event as EventView};
ghost use Rattle.policy_statement.specs.Registry.{sayings};
ghost use Rattle.access_history.specs.Base.{BaseView};
ghost use Rattle.pcfs_audit.specs.Papers.{ArePapers, grants_in, shown};

use crate::ends::{Ends, add_open_end, base_ends, end_statement, has_ended};
use access_history::Base;
use bl_syntax::{Grant, NoMemory, Sequence, Statement};
use issue_standings::Bearing;
use journal_records::Event;
use std::alloc::Global;

/// How many statements and issues there are.
#[derive(Clone, Copy, Debug)]
pub struct Before {
    pub statements: usize,
    pub issues: usize,
}

/// The statements and the grants of issues, by their numbers from 1, and how many of each there were before each event;
/// before which event each statement was withdrawn, and whether one was.
#[derive(Drop)]
pub struct Papers<'a> {
    pub statements: Vec<&'a Statement>,
    pub grants: Vec<&'a Grant>,
    pub before: Vec<Before>,
    pub ends: Ends,
    pub has_ended: bool,
}

// The statements of a base.
fn base_statements<'a>(alloc: Global, base: &'a Base) -> Result<Vec<&'a Statement>, NoMemory>
    ensures { IfOk result (λ statements. shown statements.items ≡ sayings base.now.statements) }
{
    let mut statements = Vec::new(alloc);
    let entries = base.statements();
    for entry in entries {
        statements.push(entry.statement())?;
    }
    Ok(statements)
}

/// The grants of the issues of a base, in memory of their own.
pub fn base_grants(alloc: Global, base: &Base) -> Result<Sequence<Grant>, NoMemory>
    ensures { IfOk result (λ grants. grants ≡ grants_in base.now.issues) }
{
    let mut grants = Sequence::new(alloc);
    let issues = base.issues();
    grants.reserve(issues.len())?;
    for issue in issues {
        grants.push(issue.grant(alloc)?)?;
    }
    Ok(grants)
}

// References to the grants.
fn references<'a>(alloc: Global, grants: &'a [Grant]) -> Result<Vec<&'a Grant>, NoMemory>
    ensures { IfOk result (λ references. shown references.items ≡ grants.now) }
{
    let mut references = Vec::new(alloc);
    for grant in grants {
        references.push(grant)?;
    }
    Ok(references)
}

// The papers of a base, whose issues have these grants.
fn base_papers<'a>(
    alloc: Global,
    base: &'a Base,
    granted: &'a [Grant],
) -> Result<Papers<'a>, NoMemory>
    requires { granted.now ≡ grants_in base.now.issues }
    ensures { IfOk result (ArePapers base.now []) }
{
    let statements = base_statements(alloc, base)?;
    let grants = references(alloc, granted)?;
    let ends = base_ends(alloc, base)?;
    let has_ended = has_ended(ends.as_slice());
    Ok(Papers {
        statements,
        grants,
        before: Vec::new(alloc),
        ends,
        has_ended,
    })
}

// The papers with those of one more event.
fn with_event<'a>(papers: Papers<'a>, event: &'a Event) -> Result<Papers<'a>, NoMemory>
    ensures { IfOk result (λ after. (base : BaseView) (events : List EventView) →
        ArePapers base events papers.entry → ArePapers base (events ++ event.now ∷ []) after) }
{
    let mut papers = papers;
    let before = Before {
        statements: papers.statements.as_slice().len(),
        issues: papers.grants.as_slice().len(),
    };
    papers.before.push(before)?;
    match event {
        Event::Registered { statement, .. } => {
            papers.statements.push(statement)?;
            add_open_end(&mut papers.ends)?;
            Ok(papers)
        }
        Event::Withdrawn { number, .. } => {
            let place = papers.before.len();
            end_statement(&mut papers.ends, *number, place);
            papers.has_ended = true;
            Ok(papers)
        }
        Event::Issued { grant, .. } => {
            papers.grants.push(grant)?;
            Ok(papers)
        }
        Event::Acted { .. } => Ok(papers),
    }
}

/// The papers of the base, whose issues have these grants, and the events.
pub fn papers_of<'a>(
    alloc: Global,
    base: &'a Base,
    granted: &'a [Grant],
    events: &'a [Event],
) -> Result<Papers<'a>, NoMemory>
    requires { granted.now ≡ grants_in base.now.issues }
    ensures { IfOk result (ArePapers base.now events.now) }
{
    let mut papers = base_papers(alloc, base, granted)?;
    for event in events {
        papers = with_event(papers, event)?;
    }
    Ok(papers)
}
