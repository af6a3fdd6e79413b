//! A store, and how it was opened.

ghost use Rattle.std.specs.Prelude.{◌≡◌, ℕ, ℤ, [], None};
ghost use Rattle.bl_syntax.specs.Citable.{AreCitable};
ghost use Rattle.bl_syntax.specs.TimeOrder.{IsMoment};
ghost use Rattle.access_history.specs.WellFormed.{IsWellFormed};
ghost use Rattle.pcfs_store.specs.Entries.{entries_of};
ghost use Rattle.session_history.specs.Turn.{Turn};
ghost use Rattle.access_history.specs.Replay.{replay};
ghost use Rattle.shared_store.specs.Looking.{names_directory};
ghost use Rattle.shared_store.specs.Turning.{turn_reply, checkpoint_reply, pass_at, HasTurned};

use crate::formed::FormedRequest;
use crate::looking::node_named;
use access_history::{Rejection, StepReply, StepRequest};
use bl_syntax::{Bytes, Numbers, Principal};
use op_gate::Citation;
use pcfs_ports::{Disk, Signatures};
use pcfs_store::{CheckpointReply, Store, StoreReply};
use policy_statement::login_message;
use session_history::{TurnReply, TurnRequest};
use std::alloc::Global;
use std::marker::Model;
use std::snapshot::Snapshot;

/// A store and, for contracts alone, the store as it was opened. It has gone on from there by steps and checkpoints:
/// events were added at the end, and with each checkpoint the disks changed their places.
#[derive(Drop)]
pub struct OpenedStore<D: Disk> {
    store: Store<D>,
    opening: Snapshot<Store<D>>,
}

impl<D: Disk> Model for OpenedStore<D> {
    ghost use Rattle.shared_store.specs.OpenedView.{OpenedView};
    ghost use Rattle.shared_store.specs.OpenedCode.{opened_code};
    ghost use Rattle.shared_store.specs.GoesOn.{HasGoneOn};

    ghost Value = { OpenedView D };

    ghost coded = { opened_code D.code };

    ghost view = { λ s. record { store = s.store; opening = s.opening.value } };

    ghost invariant = { λ s. HasGoneOn D.clock D.left_since D.image D.faults s.opening.value s.store };
}

// What a turn replies for which the store says this.
fn reply_of(reply: StoreReply) -> TurnReply
    ensures { result ≡ turn_reply reply }
{
    match reply {
        StoreReply::Step(reply) => TurnReply::Step(reply),
        StoreReply::Full => TurnReply::Full,
        StoreReply::Stopped => TurnReply::Stopped,
        StoreReply::NoMemory => TurnReply::NoMemory,
    }
}

// What a turn replies for which a checkpoint of the store says this.
fn reply_of_checkpoint(reply: CheckpointReply) -> TurnReply
    ensures { result ≡ checkpoint_reply reply }
{
    match reply {
        CheckpointReply::Checkpointed => TurnReply::Checkpointed,
        CheckpointReply::Full => TurnReply::Full,
        CheckpointReply::Stopped => TurnReply::Stopped,
        CheckpointReply::NoMemory => TurnReply::NoMemory,
    }
}

impl<D: Disk> OpenedStore<D> {
    ghost use Rattle.std.specs.List.{AllByRecursion};
    ghost use Rattle.journal_records.specs.EventSpelling.{IsReadEvent};
    ghost use Rattle.tree_lock.specs.Entries.{AllOfNumber};
    ghost use Rattle.shared_store.specs.GoesOn.{HasGoneOn};
    ghost use Rattle.shared_store.specs.LockHistory.{lock_entries};

    /// A store that was opened just now.
    pub fn new(store: Store<D>) -> OpenedStore<D>
        requires running { store.stop ≡ None }
        ensures opened { result ≡ record { store = store; opening = store } }

        // Of a store that was read no entry has a pass.
        ensures numbers { AllByRecursion IsReadEvent store.events → store.checkpoints ≡ [] →
            AllOfNumber 0 (lock_entries result) }
    {
        let opening = Snapshot::of(&store);
        OpenedStore { store, opening }
    }

    // What it keeps at every moment.
    pub(crate) fn lemma_has_gone_on(&self)
        ensures { HasGoneOn D.clock D.left_since D.image D.faults self.now.opening self.now.store }
    {
        let _ = &self.store;
    }

    /// The store.
    pub fn into_store(self) -> Store<D>
        ensures same { result ≡ self.store }
        ensures gone_on { HasGoneOn D.clock D.left_since D.image D.faults self.opening self.store }
    {
        let OpenedStore { store, opening: _ } = self;
        store
    }

    /// The store, to look at.
    pub(crate) fn store(&self) -> &Store<D>
        ensures { result.now ≡ self.now.store }
    {
        &self.store
    }

    /// Whether the node that a reply names, if it names one, is a directory.
    pub(crate) fn names_directory(&self, reply: &TurnReply) -> bool
        ensures { result ≡ names_directory (replay self.now.store.base self.now.store.events) reply.now }
    {
        match node_named(reply) {
            None => false,
            Some(node) => {
                let world = self.store.gate().history().world();
                world.tree().is_directory(node)
            }
        }
    }

    // Has the step decided and kept.
    fn step(&mut self, alloc: Global, pass: u64, request: StepRequest, clock: i64) -> TurnReply
        requires in_range { IsMoment clock }
        requires well_formed { IsWellFormed request }
        ensures { HasTurned D.faults (λ _ moment. moment ≡ clock) (TurnRequest.Step request) self.old pass self.new result }
    {
        self.store.lemma_is_store();
        let reply = self.store.step(alloc, pass, request, clock);
        reply_of(reply)
    }

    // Makes a checkpoint.
    fn checkpoint(&mut self, alloc: Global, pass: u64) -> TurnReply
        ensures { (clock : ℤ) → HasTurned D.faults (λ _ moment. moment ≡ clock) TurnRequest.Checkpoint self.old pass self.new result }
    {
        self.store.lemma_is_store();
        let reply = self.store.checkpoint(alloc, pass);
        reply_of_checkpoint(reply)
    }

    // The statements of these numbers.
    fn cite(&self, alloc: Global, numbers: &Numbers) -> TurnReply
        requires { AreCitable numbers.now }
        ensures { (pass : ℕ) (clock : ℤ) →
            Turn (λ _ moment. moment ≡ clock) (pass_at self.now.opening pass) (entries_of self.now.store) (TurnRequest.Cite numbers.now) result [] }
    {
        if self.store.is_stopped() {
            return TurnReply::Stopped;
        }
        match self.store.gate().cite(alloc, numbers.as_slice()) {
            Ok(Citation::Cited(cites)) => TurnReply::Cited(cites),
            Ok(Citation::Absent(number)) => TurnReply::Step(StepReply::Absent(number as u64)),
            Err(_) => TurnReply::NoMemory,
        }
    }

    // Whether the ring accepts the signature over the login message.
    fn log_in(
        &self,
        alloc: Global,
        who: &Principal,
        nonce: &[u8; 16],
        signature: &Bytes,
    ) -> TurnReply
        ensures { (pass : ℕ) (clock : ℤ) → Turn (λ _ moment. moment ≡ clock)
            (pass_at self.now.opening pass) (entries_of self.now.store)
            (TurnRequest.Login who.now nonce.now signature.now) result [] }
    {
        if self.store.is_stopped() {
            return TurnReply::Stopped;
        }
        match login_message(alloc, who, nonce) {
            Ok(message) => {
                let ring = self.store.gate().ring();
                if ring.accepts(who.bytes(), message.as_slice(), signature.as_slice()) {
                    TurnReply::LoggedIn
                } else {
                    TurnReply::Step(StepReply::Rejected(Rejection::BadSignature))
                }
            }
            Err(_) => TurnReply::NoMemory,
        }
    }

    /// Takes a turn of this pass, at the moment that the clock shows.
    pub(crate) fn answer(
        &mut self,
        alloc: Global,
        pass: u64,
        request: FormedRequest,
        clock: i64,
    ) -> TurnReply
        requires { IsMoment clock }
        ensures { HasTurned D.faults (λ _ moment. moment ≡ clock) request self.old pass self.new result }
    {
        match request.into_request() {
            TurnRequest::Step(request) => self.step(alloc, pass, request, clock),
            TurnRequest::Cite(numbers) => self.cite(alloc, &numbers),
            TurnRequest::Checkpoint => self.checkpoint(alloc, pass),
            TurnRequest::Login(who, nonce, signature) => {
                self.log_in(alloc, &who, &nonce, &signature)
            }
        }
    }
}
