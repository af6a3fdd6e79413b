//! What rests on a statement.

ghost use Rattle.std.specs.Prelude.{◌≡◌, ◌++◌, IfOk, OnOk};
ghost use Rattle.access_history.specs.Gone.{gone};
ghost use Rattle.access_history.specs.History.{state_of};
ghost use Rattle.history_table.specs.Resting.{does_cite, resting_on, rests_added};

use access_history::{History, IssueRecord};
use bl_syntax::{NoMemory, Sequence};
use issue_standings::Bearing;
use std::alloc::Global;

/// An issue that cites a statement, and how its procap stands.
#[derive(Clone, Copy, Debug)]
pub struct Rest {
    /// The number of the issue.
    pub issue: u64,
    /// The number of the withdrawn statement by which the procap is denied; none if it is not denied by any.
    pub gone: Option<u32>,
}

// Whether the issue cites the statement of that number.
fn does_cite(issue: &IssueRecord, statement: u32) -> bool
    ensures { result ≡ does_cite statement issue.now }
{
    issue.cites(statement)
}

// The number of the withdrawn statement by which the procap of the issue is denied. Its grant is read.
fn gone_of(alloc: Global, history: &History, issue: &IssueRecord) -> Result<Option<u32>, NoMemory>
    ensures { IfOk result (λ found. found ≡ gone (state_of history.now) issue.now.grant) }
{
    let grant = issue.grant(alloc)?;
    let procap = history.key().seal(grant);
    Ok(history.gone(&procap))
}

// Adds the issue of that number, if it cites the statement.
fn add_rest(
    alloc: Global,
    history: &History,
    statement: u32,
    number: u64,
    issue: &IssueRecord,
    rests: &mut Sequence<Rest>,
) -> Result<(), NoMemory>
    ensures { OnOk result (rests.new ≡ rests.old ++ rests_added (state_of history.now) statement number issue.now) }
{
    if !does_cite(issue, statement) {
        return Ok(());
    }
    let gone = gone_of(alloc, history, issue)?;
    rests.push(Rest {
        issue: number,
        gone,
    })
}

/// The issues of the history that cite the statement of that number, in order, and how their procaps stand.
pub fn resting_on(
    alloc: Global,
    history: &History,
    statement: u32,
) -> Result<Sequence<Rest>, NoMemory>
    ensures { IfOk result (λ rests. rests ≡ resting_on (state_of history.now) statement) }
{
    let mut rests = Sequence::new(alloc);
    let issues = history.issues();
    for place in 0..issues.len() {
        add_rest(
            alloc,
            history,
            statement,
            place as u64 + 1,
            &issues[place],
            &mut rests,
        )?;
    }
    Ok(rests)
}
