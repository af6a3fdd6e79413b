//! Why a procap does not give what is needed.

ghost use Rattle.std.specs.Prelude.{ℕ, ℤ, List, MatchOption};
ghost use Rattle.std.specs.List.{AllByRecursion};
ghost use Rattle.bl_syntax.specs.declared.grant.Goal.{Goal as GoalView};
ghost use Rattle.access_history.specs.Base.{BaseView};
ghost use Rattle.access_history.specs.Admission.{Admits, Denies, Passes, condition_causes};
ghost use Rattle.access_history.specs.History.{state_of};
ghost use Rattle.op_gate.specs.Checks.{FailsAt, name_checks};

use access_history::{DenialCause, History};
use bl_syntax::{Goal, Term};
use condition_set::{first_failing_state, first_failing_time};
use procap::Procap;

/// The first test that the procap does not pass for what is wanted, in the history's state at the moment: its seal, the
/// names in its grant, its conditions, and then that its grant is not gone; none exactly if it passes all. It takes no
/// memory, and goes over no issues.
pub fn denial_cause(
    history: &History,
    procap: &Procap,
    wanted: &Goal,
    moment: i64,
) -> Option<DenialCause>
    ensures { MatchOption result (Admits history.now.key (state_of history.now) moment wanted.now
        procap.now) (Denies history.now.key (state_of history.now) moment wanted.now procap.now) }
{
    if !history.key().is_genuine(procap) {
        return Some(DenialCause::Seal);
    }
    if let Some(cause) = other_name(procap, wanted) {
        return Some(cause);
    }
    if let Some(cause) = failing_condition(history, procap, moment) {
        return Some(cause);
    }
    match history.gone(procap) {
        Some(number) => Some(DenialCause::Withdrawn(number)),
        None => None,
    }
}

// The first name that the procap does not have as it is wanted.
fn other_name(procap: &Procap, wanted: &Goal) -> Option<DenialCause>
    ensures { (key : List ℕ) (state : BaseView) (moment : ℤ) →
        MatchOption result (AllByRecursion (Passes key state moment wanted.now procap.now)
        name_checks) (FailsAt (Passes key state moment wanted.now procap.now) name_checks) }
{
    let goal = procap.grant.goal();
    if !goal.who.is_same(&wanted.who) {
        Some(DenialCause::Principal)
    } else if !Term::File(goal.file).is_same(&Term::File(wanted.file)) {
        Some(DenialCause::File)
    } else if !Term::Perm(goal.perm).is_same(&Term::Perm(wanted.perm)) {
        Some(DenialCause::Permission)
    } else {
        None
    }
}

// The first condition of the procap that does not hold in the history's state at the moment.
fn failing_condition(history: &History, procap: &Procap, moment: i64) -> Option<DenialCause>
    ensures { (wanted : GoalView) →
        MatchOption result (AllByRecursion (Passes history.now.key (state_of history.now) moment
        wanted procap.now) (condition_causes procap.now.grant))
        (FailsAt (Passes history.now.key (state_of history.now) moment wanted procap.now)
        (condition_causes procap.now.grant)) }
{
    let grant = &procap.grant;
    let times = grant.times();
    if let Some(place) = first_failing_time(grant, moment) {
        return Some(DenialCause::Time(place as u32 + 1, times[place]));
    }
    let states = grant.states();
    if let Some(place) = first_failing_state(grant, history.world()) {
        return Some(DenialCause::State(place as u32 + 1, states[place]));
    }
    None
}
