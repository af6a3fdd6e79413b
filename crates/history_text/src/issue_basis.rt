//! What an issue rests on.

ghost use Rattle.std.specs.Prelude.{◌≡◌, IfOk};
ghost use Rattle.std.specs.Option.{option_map};
ghost use Rattle.access_history.specs.History.{state_of};
ghost use Rattle.history_text.specs.IssueBasis.{issue_made, issue_numbered, shown};

use access_history::{History, Issue};
use bl_syntax::{Grant, NoMemory, Numbers};
use journal_records::Event;
use proof_term::ProofTree;
use std::alloc::Global;

/// An issue: its number, its grant, its proof, and the numbers of the statements that it cites.
#[derive(Drop)]
pub struct Basis {
    pub number: u64,
    pub grant: Grant,
    pub proof: ProofTree,
    pub cited: Numbers,
}

/// The issue of that number, which is read; none exactly if there is no such issue.
pub fn issue_numbered(
    alloc: Global,
    history: &History,
    number: u64,
) -> Result<Option<Basis>, NoMemory>
    ensures { IfOk result (λ basis. option_map shown basis ≡ issue_numbered (state_of history.now).issues number) }
{
    let issues = history.issues();
    if number == 0 || (issues.len() as u64) < number {
        return Ok(None);
    }
    let Issue {
        cited,
        proof,
        grant,
    } = issues[number as usize - 1].issue(alloc)?;
    Ok(Some(Basis {
        number,
        grant,
        proof,
        cited,
    }))
}

/// The issue that an event makes, in memory of its own; none if it makes none.
pub fn issue_made(alloc: Global, before: &History, event: &Event) -> Result<Option<Basis>, NoMemory>
    ensures { IfOk result (λ basis. option_map shown basis ≡ issue_made (state_of before.now) event.now) }
{
    match event {
        Event::Issued {
            cited,
            proof,
            grant,
            ..
        } => Ok(Some(Basis {
            number: before.issues().len() as u64 + 1,
            grant: grant.copy(alloc)?,
            proof: proof.copy(alloc)?,
            cited: cited.copy(alloc)?,
        })),
        _ => Ok(None),
    }
}
