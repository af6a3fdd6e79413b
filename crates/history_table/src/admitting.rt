//! Who may do something now.

ghost use Rattle.std.specs.Prelude.{◌≡◌, ◌↔◌, IfOk, IsTrue, OnOk};
ghost use Rattle.access_history.specs.Answer.{moment_of};
ghost use Rattle.access_history.specs.History.{state_of};
ghost use Rattle.history_table.specs.WhoMay.{AddsAdmitting, AreAdmitting, WouldAdmit};

use crate::issues::does_stand;
use access_history::{History, IssueRecord};
use bl_syntax::{Goal, Grant, NoMemory, NodeId, Perm, Sequence};
use condition_set::{first_failing_state, first_failing_time};
use issue_standings::Bearing;
use std::alloc::Global;

// Whether the issue, whose grant is this one, would admit its principal to the permission on the file at that moment.
fn would_admit(
    history: &History,
    issue: &IssueRecord,
    grant: &Grant,
    file: NodeId,
    permission: Perm,
    moment: i64,
) -> bool
    requires { grant.now ≡ issue.now.grant }
    ensures { IsTrue result ↔ WouldAdmit (state_of history.now) file permission moment issue.now }
{
    let goal = grant.goal();
    let wanted = Goal {
        who: goal.who,
        file,
        perm: permission,
    };
    if !goal.is_same(&wanted) {
        return false;
    }
    if !does_stand(history.registry(), issue) {
        return false;
    }
    if first_failing_time(grant, moment).is_some() {
        return false;
    }
    first_failing_state(grant, history.world()).is_none()
}

// Adds the number of an issue, if it would admit its principal. Its grant is read.
fn add_admitting(
    alloc: Global,
    history: &History,
    issue: &IssueRecord,
    number: u64,
    file: NodeId,
    permission: Perm,
    moment: i64,
    numbers: &mut Sequence<u64>,
) -> Result<(), NoMemory>
    ensures { OnOk result (AddsAdmitting (state_of history.now) file permission moment number issue.now numbers.old numbers.new) }
{
    let grant = issue.grant(alloc)?;
    if would_admit(history, issue, &grant, file, permission, moment) {
        return numbers.push(number);
    }
    Ok(())
}

// The numbers of the issues that would admit their principals at that moment.
fn admitting_at(
    alloc: Global,
    history: &History,
    file: NodeId,
    permission: Perm,
    moment: i64,
) -> Result<Sequence<u64>, NoMemory>
    ensures { IfOk result (AreAdmitting (state_of history.now) file permission moment) }
{
    let mut numbers = Sequence::new(alloc);
    let issues = history.issues();
    for place in 0..issues.len() {
        let number = place as u64 + 1;
        add_admitting(
            alloc,
            history,
            &issues[place],
            number,
            file,
            permission,
            moment,
            &mut numbers,
        )?;
    }
    Ok(numbers)
}

// The moment when the clock shows that second: not before the last operation's.
fn moment_at(history: &History, clock: i64) -> i64
    ensures { result ≡ moment_of (state_of history.now) clock }
{
    clock.max(history.moment())
}

/// The numbers of the issues that would admit their principals to the permission on the file after the history, when the clock
/// shows that second. The moment is not before the last operation's.
pub fn who_may(
    alloc: Global,
    history: &History,
    file: NodeId,
    permission: Perm,
    clock: i64,
) -> Result<Sequence<u64>, NoMemory>
    ensures { IfOk result (AreAdmitting (state_of history.now) file permission (moment_of (state_of history.now) clock)) }
{
    let moment = moment_at(history, clock);
    admitting_at(alloc, history, file, permission, moment)
}
