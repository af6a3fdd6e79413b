//! The gate: what may happen is decided, and what was decided is kept.

ghost use Rattle.std.specs.Prelude.{◌≡◌, ◌<◌, ◌++◌, ◌∷◌, [], Some, None, IfOk, IfSome, IsSome, MatchOption, OnOk, OnErr, MatchResult, length};
ghost use Rattle.bl_syntax.specs.declared.limits.TheConstants.{MOST_EVENTS};
ghost use Rattle.op_gate.specs.Decision.{IsPlanned};
ghost use Rattle.access_history.specs.WellFormed.{IsWellFormed};
ghost use Rattle.journal_records.specs.EventSpelling.{HasFittingFields};

use crate::act::{decide_act, deny};
use crate::admit::{admit, reserve_next};
use crate::base::test_base;
use crate::cite::{Among, Citation, cite};
use crate::damage::AdmitFault;
use crate::decide::{decide_issue, decide_register, decide_show, decide_withdraw, issued_procap};
use crate::planned::{DecisionPlan, Pending, Recorded};
use access_history::{Base, Denial, History, StepReply, StepRequest};
use bl_syntax::{NoMemory, Principal};
use file_world::Op;
use journal_records::{Event, EventRecord, Procaps};
use policy_statement::Keyring;
use procap::{Procap, SealKey};
use std::alloc::Global;
use std::marker::Model;

/// What the gate decided.
#[derive(Debug, Drop)]
pub enum Decision {
    /// The answer, with nothing to keep.
    Answer(StepReply),
    /// The answer, and an event is pending.
    Keep(StepReply),
    /// There was no memory, and nothing is pending.
    NoMemory,
}

/// A history, and the event that was decided and is not kept yet.
#[derive(Drop)]
pub struct Gate {
    history: History,
    pending: Option<Recorded>,
}

impl Model for Gate {
    ghost use Rattle.std.specs.Prelude.{⊤, MatchOption};
    ghost use Rattle.std.specs.Option.{option_map};
    ghost use Rattle.op_gate.specs.Decision.{GateView};
    ghost use Rattle.op_gate.specs.DecisionCode.{gate_code};
    ghost use Rattle.op_gate.specs.Recording.{CanKeepRecorded};

    ghost Value = { GateView };

    ghost coded = { gate_code };

    ghost view = { λ g. record { key = g.history.key; ring = g.history.ring; base = g.history.base; events = g.history.events; pending = option_map (λ p. p.kept) g.pending } };

    ghost invariant = { λ g. MatchOption g.pending ⊤ (CanKeepRecorded g.history) };
}

// Replaces what was pending by the event.
fn put(place: &mut Option<Recorded>, pending: Recorded)
    ensures { place.new ≡ Some pending }
{
    *place = Some(pending);
}

// The event with its record.
fn with_record(alloc: Global, pending: Pending) -> Result<Recorded, NoMemory>
    requires { HasFittingFields pending.event }
    ensures { IfOk result (λ recorded. recorded ≡ record { pending = pending; kept = pending.event }) }
{
    match EventRecord::of(alloc, &pending.event) {
        Ok(kept) => Ok(Recorded { pending, kept }),
        Err(refused) => Err(refused),
    }
}

// The answer, or out of memory.
fn plan_of_answer(reply: Result<StepReply, NoMemory>) -> DecisionPlan
    ensures { MatchResult reply (λ told. result ≡ DecisionPlan.Answer told) (λ _. result ≡ DecisionPlan.NoMemory) }
{
    match reply {
        Ok(reply) => DecisionPlan::Answer(reply),
        Err(_) => DecisionPlan::NoMemory,
    }
}

// What is decided on a request.
fn decide_request(
    alloc: Global,
    history: &mut History,
    pass: u64,
    request: StepRequest,
    clock: i64,
) -> DecisionPlan
    requires { IsWellFormed request }
    ensures same { history.new ≡ record history.old { ready = history.new.ready } }
    ensures planned { IsPlanned history.old pass clock request result history.new }
{
    match request {
        StepRequest::Register(statement, signature) => {
            decide_register(alloc, history, pass, statement, signature)
        }
        StepRequest::Withdraw(number, signature) => {
            decide_withdraw(alloc, history, pass, number, signature)
        }
        StepRequest::Issue(checked) => decide_issue(alloc, history, pass, checked),
        StepRequest::Act(caller, op, procaps) => {
            decide_act(alloc, history, pass, caller, op, procaps, clock)
        }
        StepRequest::ShowProcap(number, who) => {
            plan_of_answer(decide_show(alloc, history, number, &who))
        }
    }
}

impl Gate {
    ghost use Rattle.bl_syntax.specs.TimeOrder.{IsMoment};
    ghost use Rattle.file_world.specs.Needs.{slots};
    ghost use Rattle.access_history.specs.Admission.{IsAdmitted};
    ghost use Rattle.access_history.specs.Answer.{moment_of};
    ghost use Rattle.access_history.specs.Replay.{replay, fresh};
    ghost use Rattle.op_gate.specs.BaseDamage.{TellsBase};
    ghost use Rattle.op_gate.specs.Decides.{Decides};
    ghost use Rattle.op_gate.specs.Damage.{TellsDamage};
    ghost use Rattle.op_gate.specs.Decision.{IsDenial};
    ghost use Rattle.access_history.specs.Books.{book_of};
    ghost use Rattle.bl_syntax.specs.Citable.{AreCitable};
    ghost use Rattle.access_history.specs.History.{authority_with};
    ghost use Rattle.access_history.specs.Numbered.{HasNone};
    ghost use Rattle.op_gate.specs.Issued.{IsProcapOf};
    ghost use Rattle.op_gate.specs.Citations.{GivesCitation as AreStatements};
    ghost use Rattle.access_history.specs.Lawful.{MayFollow};

    /// A gate over a store before its first event, which seals procaps under this key and accepts the signatures that
    /// this ring accepts.
    pub fn fresh(alloc: Global, key: &[u8], ring: Keyring) -> Result<Gate, NoMemory>
        ensures { IfOk result (λ gate. gate ≡ record { key = key.now; ring = ring; base = fresh; events = []; pending = None }) }
    {
        Ok(Gate {
            history: History::fresh(alloc, SealKey::new(key), ring)?,
            pending: None,
        })
    }

    /// A gate over the history that begins with this state, if one may begin with it under this key and this ring;
    /// otherwise the state's first damage. Its signatures, its proofs, and whether its statements are new are tested
    /// again, each over the whole of it.
    pub fn from_base(
        alloc: Global,
        key: &[u8],
        ring: Keyring,
        base: Base,
    ) -> Result<Gate, AdmitFault>
        ensures gate { IfOk result (λ gate. gate ≡ record { key = key.now; ring = ring; base = base; events = []; pending = None }) }
        ensures answer { TellsBase (authority_with key.now ring) base result }
    {
        match test_base(alloc, &ring, &base) {
            Ok(()) => match History::from_base(alloc, SealKey::new(key), ring, base) {
                Ok(history) => Ok(Gate {
                    history,
                    pending: None,
                }),
                Err(_) => Err(AdmitFault::NoMemory),
            },
            Err(fault) => Err(fault),
        }
    }

    /// The ring of those whose signatures are accepted.
    pub fn ring(&self) -> &Keyring
        ensures { result.now ≡ self.now.ring }
    {
        self.history.ring()
    }

    /// The history of what was kept. It says that it is lawful, and what is promised of it.
    pub fn history(&self) -> &History
        ensures key { result.now.key ≡ self.now.key }
        ensures ring { result.now.ring ≡ self.now.ring }
        ensures base { result.now.base ≡ self.now.base }
        ensures events { result.now.events ≡ self.now.events }
    {
        &self.history
    }

    /// The procap of the issue of that number; none exactly if there is no such issue.
    pub fn procap(&self, alloc: Global, number: u64) -> Result<Option<Procap>, NoMemory>
        ensures { IfOk result (λ found.
            MatchOption found (HasNone (replay self.now.base self.now.events).issues number)
            (IsProcapOf self.now.key (replay self.now.base self.now.events).issues number)) }
    {
        issued_procap(alloc, &self.history, number)
    }

    /// The statements of these numbers that stand, in memory of their own. The numbers strictly rise and are 1 to 64.
    pub fn cite(&self, alloc: Global, numbers: &[u32]) -> Result<Citation, NoMemory>
        requires { AreCitable numbers.now }
        ensures { IfOk result (λ citation. AreStatements (book_of (replay self.now.base self.now.events)) numbers.now citation) }
    {
        cite(alloc, self.history.statements(), Among::Live, numbers)
    }

    /// The denial of the caller's operation at the moment that the clock shows; none exactly if it is admitted. There is
    /// one procap for each place of its needs. It takes no memory.
    pub fn deny(&self, caller: &Principal, op: &Op, procaps: &Procaps, clock: i64) -> Option<Denial>
        requires { length procaps.now ≡ slots op.now }
        ensures { let state = replay self.now.base self.now.events
            in MatchOption result (IsAdmitted self.now.key state caller.now op.now procaps.now
            (moment_of state clock)) (IsDenial self.now.key state caller.now op.now procaps.now
            (moment_of state clock)) }
    {
        deny(&self.history, caller, op, procaps, clock)
    }

    /// Decides the request at the moment that the clock shows, in whole seconds from 1970-01-01T00:00:00Z. What was
    /// pending is dropped, and an event that is to be kept is pending then; nothing that is kept changes.
    pub fn decide(&mut self, alloc: Global, pass: u64, request: StepRequest, clock: i64) -> Decision
        requires in_range { IsMoment clock }
        requires well_formed { IsWellFormed request }
        ensures key { self.new.key ≡ self.old.key }
        ensures ring { self.new.ring ≡ self.old.ring }
        ensures base { self.new.base ≡ self.old.base }
        ensures events { self.new.events ≡ self.old.events }
        ensures answer { Decides (authority_with self.old.key self.old.ring) (replay self.old.base self.old.events) pass clock request result self.new.pending }
    {
        self.forget();
        if self.history.reserve().is_err() {
            return Decision::NoMemory;
        }
        self.history.lemma_is_lawful();
        match decide_request(alloc, &mut self.history, pass, request, clock) {
            DecisionPlan::Answer(reply) => Decision::Answer(reply),
            DecisionPlan::Keep(reply, pending) => match with_record(alloc, pending) {
                Ok(recorded) => {
                    put(&mut self.pending, recorded);
                    Decision::Keep(reply)
                }
                Err(_) => Decision::NoMemory,
            },
            DecisionPlan::NoMemory => Decision::NoMemory,
        }
    }

    /// Tests an event that came from outside, as if it came now. It is pending then exactly if it may come next; otherwise its
    /// first damage is reported, and nothing is pending. Its signature, its proof, its procaps with their seals and
    /// conditions, its effect, and which statements stand are tested again. What was pending is dropped; nothing that is
    /// kept changes.
    pub fn prepare(&mut self, alloc: Global, event: Event) -> Result<(), AdmitFault>
        ensures key { self.new.key ≡ self.old.key }
        ensures ring { self.new.ring ≡ self.old.ring }
        ensures base { self.new.base ≡ self.old.base }
        ensures events { self.new.events ≡ self.old.events }
        ensures answer { TellsDamage (authority_with self.old.key self.old.ring) (replay self.old.base self.old.events) event result }
        ensures pending { OnOk result (self.new.pending ≡ Some event) }
        ensures none_pending { OnErr result (self.new.pending ≡ None) }
    {
        self.forget();
        match reserve_next(&mut self.history) {
            Ok(()) => match admit(alloc, &mut self.history, event) {
                Ok(pending) => match with_record(alloc, pending) {
                    Ok(recorded) => {
                        put(&mut self.pending, recorded);
                        Ok(())
                    }
                    Err(_) => Err(AdmitFault::NoMemory),
                },
                Err(fault) => Err(fault),
            },
            Err(fault) => Err(fault),
        }
    }

    /// Keeps an event that was read from an area, exactly if it may come next; otherwise it reports the event's first damage.
    /// Its signature, its proof, its procaps with their seals and conditions, its effect, and which statements stand are
    /// tested again. What was pending is dropped.
    pub fn admit_event(&mut self, alloc: Global, event: Event) -> Result<(), AdmitFault>
        ensures key { self.new.key ≡ self.old.key }
        ensures ring { self.new.ring ≡ self.old.ring }
        ensures base { self.new.base ≡ self.old.base }
        ensures pending { self.new.pending ≡ None }
        ensures answer { TellsDamage (authority_with self.old.key self.old.ring) (replay self.old.base self.old.events) event result }
        ensures kept { OnOk result (self.new.events ≡ self.old.events ++ event ∷ []) }
        ensures left_out { OnErr result (self.new.events ≡ self.old.events) }
    {
        match self.prepare(alloc, event) {
            Ok(()) => {
                self.commit();
                Ok(())
            }
            Err(fault) => Err(fault),
        }
    }

    /// The record of the event that was decided and is not kept yet; none exactly if nothing is pending. It may come next.
    pub fn pending(&self) -> Option<&EventRecord>
        ensures event { MatchOption result (self.now.pending ≡ None) (λ event. self.now.pending ≡ Some event.now) }
        ensures may_follow { IfSome result (λ event. MayFollow (authority_with self.now.key self.now.ring) (replay self.now.base self.now.events) event.now) }
    {
        match &self.pending {
            Some(recorded) => Some(&recorded.kept),
            None => None,
        }
    }

    /// Keeps the pending event. It takes no memory.
    pub fn commit(&mut self)
        requires pending { IsSome self.old.pending }
        requires counted { (replay self.old.base self.old.events).count < MOST_EVENTS }
        ensures kept { IfSome self.old.pending (λ event. self.new ≡ record self.old { events = self.old.events ++ event ∷ []; pending = None }) }
    {
        if let Some(recorded) = self.pending.take() {
            let Recorded { pending, kept } = recorded;
            let Pending { event, addition } = pending;
            self.history.keep(event, kept, addition);
        }
    }

    /// Drops the pending event, if there is one.
    pub fn forget(&mut self)
        ensures { self.new ≡ record self.old { pending = None } }
    {
        self.pending = None;
    }
}
