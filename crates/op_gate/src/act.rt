//! The answer to an operation.

ghost use Rattle.std.specs.Prelude.{◌≡◌, length, MatchOption};
ghost use Rattle.file_world.specs.Needs.{slots};
ghost use Rattle.access_history.specs.declared.request.StepRequest.TheVariants.{Act};
ghost use Rattle.access_history.specs.Admission.{IsAdmitted};
ghost use Rattle.access_history.specs.Answer.{moment_of};
ghost use Rattle.access_history.specs.History.{state_of};
ghost use Rattle.op_gate.specs.Decision.{IsPlanned, IsDenial, plan_of_fault};

use crate::cause::denial_cause;
use crate::planned::{DecisionPlan, Pending};
use access_history::{Addition, Denial, History, StepReply};
use bl_syntax::{Goal, Principal};
use file_world::{Op, OpFault};
use journal_records::{Event, Procaps};
use procap::Procap;
use std::alloc::Global;

// The moment of a step: the clock's, but not before the last one.
fn step_moment(history: &History, clock: i64) -> i64
    ensures { result ≡ moment_of (state_of history.now) clock }
{
    clock.max(history.moment())
}

// The first need of the caller's operation whose procap fails a test, with the first test that it fails; none exactly
// if the operation is admitted.
fn first_denial(
    history: &History,
    caller: &Principal,
    op: &Op,
    procaps: &[Procap],
    moment: i64,
) -> Option<Denial>
    requires { length procaps.now ≡ slots op.now }
    ensures { MatchOption result (IsAdmitted history.now.key (state_of history.now) caller.now
        op.now procaps.now moment) (IsDenial history.now.key (state_of history.now) caller.now
        op.now procaps.now moment) }
{
    let needs = history.world().needs(op);
    let pairs = needs.as_slice();
    for place in 0..pairs.len() {
        let (file, perm) = pairs[place];
        let wanted = Goal {
            who: *caller,
            file,
            perm,
        };
        let procap = &procaps[place];
        if let Some(cause) = denial_cause(history, procap, &wanted, moment) {
            return Some(Denial {
                need: place as u32 + 1,
                cause,
                at: history.count(),
            });
        }
    }
    None
}

/// The denial of the caller's operation at the moment that the clock shows; none exactly if it is admitted. There is one
/// procap for each slot. It takes no memory.
pub fn deny(
    history: &History,
    caller: &Principal,
    op: &Op,
    procaps: &Procaps,
    clock: i64,
) -> Option<Denial>
    requires { length procaps.now ≡ slots op.now }
    ensures { MatchOption result (IsAdmitted history.now.key (state_of history.now) caller.now
        op.now procaps.now (moment_of (state_of history.now) clock))
        (IsDenial history.now.key (state_of history.now) caller.now op.now procaps.now
        (moment_of (state_of history.now) clock)) }
{
    let moment = step_moment(history, clock);
    first_denial(history, caller, op, procaps.as_slice(), moment)
}

// The event of an operation, of which the state keeps nothing beside it.
fn pend_act(pass: u64, caller: Principal, op: Op, procaps: Procaps, moment: i64) -> Pending
    ensures { result ≡ record { event = Event.Acted pass caller op procaps moment; addition = Addition.Operation } }
{
    Pending {
        event: Event::Acted {
            pass,
            caller,
            op,
            procaps,
            moment,
        },
        addition: Addition::Operation,
    }
}

// What is reported of an operation without effect, after that many events.
fn plan_of_refusal(fault: OpFault, count: u64) -> DecisionPlan
    ensures { result ≡ plan_of_fault count fault }
{
    match fault {
        OpFault::Refused(refusal) => DecisionPlan::Answer(StepReply::Refused(refusal, count)),
        OpFault::NoMemory => DecisionPlan::NoMemory,
    }
}

/// What the caller's admitted operation does, with all memory taken for it.
pub fn act(
    alloc: Global,
    history: &mut History,
    pass: u64,
    caller: Principal,
    op: Op,
    procaps: Procaps,
    clock: i64,
) -> DecisionPlan
    requires { IsAdmitted history.old.key (state_of history.old) caller op procaps (moment_of (state_of history.old) clock) }
    ensures same { history.new ≡ record history.old { ready = history.new.ready } }
    ensures planned { IsPlanned history.old pass clock (Act caller op procaps) result history.new }
{
    let moment = step_moment(history, clock);
    let count = history.count();
    let (op, answer) = history.prepare(alloc, &caller, op);
    match answer {
        Ok(reply) => DecisionPlan::Keep(
            StepReply::Operation(reply),
            pend_act(pass, caller, op, procaps, moment),
        ),
        Err(fault) => plan_of_refusal(fault, count),
    }
}

/// Whether an operation is admitted, and what it does. There is one procap for each place.
pub fn decide_act(
    alloc: Global,
    history: &mut History,
    pass: u64,
    caller: Principal,
    op: Op,
    procaps: Procaps,
    clock: i64,
) -> DecisionPlan
    requires { length procaps ≡ slots op }
    ensures same { history.new ≡ record history.old { ready = history.new.ready } }
    ensures planned { IsPlanned history.old pass clock (Act caller op procaps) result history.new }
{
    match deny(history, &caller, &op, &procaps, clock) {
        Some(denial) => DecisionPlan::Answer(StepReply::Denied(denial)),
        None => act(alloc, history, pass, caller, op, procaps, clock),
    }
}
