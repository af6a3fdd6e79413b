//! What an event changes of the state.

ghost use Rattle.std.specs.Prelude.{◌≡◌, ◌≤◌, ◌∷◌, ◌++◌, []};
ghost use Rattle.issue_standings.specs.Index.{IsIndexOf, room_of};
ghost use Rattle.access_history.specs.Gone.{bearing, bearings};
ghost use Rattle.access_history.specs.History.{IsReadyIn, spare};
ghost use Rattle.access_history.specs.Keeping.{HasMomentInRange, HasPlaceAmong};
ghost use Rattle.access_history.specs.Replay.{addition_of, world_next, moment_next, statements_with, issues_with};

use crate::event::Addition;
use crate::issue_record::IssueRecord;
use issue_standings::Standings;
use journal_records::Event;
use policy_statement::Registry;
use procap::SealKey;
use world_state::World;

/// Makes the change of an operation, for which the world is ready, and takes its moment; another event changes neither.
/// The event is given back. It takes no memory.
pub fn apply_event(world: &mut World, last: &mut i64, event: Event) -> Event
    requires ready { IsReadyIn world.old event }
    requires in_range { HasMomentInRange event }
    ensures world { world.new.world ≡ world_next world.old.world event }
    ensures moment { last.new ≡ moment_next last.old event }
    ensures event { result ≡ event }
{
    match event {
        Event::Acted {
            pass,
            caller,
            op,
            procaps,
            moment,
        } => {
            let op = world.apply(&caller, op);
            *last = moment;
            Event::Acted {
                pass,
                caller,
                op,
                procaps,
                moment,
            }
        }
        other => other,
    }
}

// Adds an issue after these to the index of how each issued grant stands. The event has its grant.
fn add_standing(
    key: &SealKey,
    statements: &Registry,
    issues: &[IssueRecord],
    standings: &mut Standings,
    event: &Event,
    issue: &IssueRecord,
)
    requires issued { Addition.Issue issue.now ≡ addition_of event.now }
    requires room { 1 ≤ room_of standings.old }
    requires index { IsIndexOf key.now statements.now.entries (bearings issues.now) standings.old }
    ensures { IsIndexOf key.now statements.now.entries (bearings issues.now ++ bearing issue.now ∷ []) standings.new }
{
    match event {
        Event::Registered { .. } => {}
        Event::Withdrawn { .. } => {}
        Event::Issued { grant, .. } => standings.add(key, statements, issues, issue, grant),
        Event::Acted { .. } => {}
    }
}

/// Adds what the state keeps of this event, for which there has to be room, to the statements, the issues, and the index of
/// how each issued grant stands, whose procaps are sealed under this key. It takes no memory.
pub fn add_to_state(
    key: &SealKey,
    statements: &mut Registry,
    issues: &mut Vec<IssueRecord>,
    standings: &mut Standings,
    event: &Event,
    addition: Addition,
)
    requires addition { addition ≡ addition_of event.now }
    requires place { HasPlaceAmong statements.old.entries addition }
    requires statements_room { 1 ≤ statements.old.spare }
    requires issues_room { 1 ≤ spare issues.old }
    requires standings_room { 1 ≤ room_of standings.old }
    requires standings { IsIndexOf key.now statements.old.entries (bearings issues.old.items) standings.old }
    ensures statements { statements.new.entries ≡ statements_with statements.old.entries addition }
    ensures issues { issues.new.items ≡ issues_with issues.old.items addition }
    ensures standings { IsIndexOf key.now statements.new.entries (bearings issues.new.items) standings.new }
{
    match addition {
        Addition::Statement(statement, signature) => {
            let _ = statements.keep(statement, signature);
        }
        Addition::Withdrawal(number) => {
            statements.end(number);
            standings.recount(statements, issues.as_slice(), number);
        }
        Addition::Issue(issue) => {
            add_standing(key, statements, issues.as_slice(), standings, event, &issue);
            issues.push(issue).unwrap();
        }
        Addition::Operation => {}
    }
}
