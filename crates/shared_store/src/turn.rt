//! The entries of a shared store, and the job of one turn at it.

use crate::entry::LockEntry;
use crate::formed::FormedRequest;
use crate::opened::OpenedStore;
use pcfs_ports::Disk;
use session_history::{TurnClock, TurnReply};
use std::alloc::Global;
use tree_lock::{Job, Recorded};

impl<D: Disk> Recorded for OpenedStore<D> {
    type Entry = LockEntry<D>;

    ghost use Rattle.shared_store.specs.LockHistory.{lock_entries};

    ghost entries = { lock_entries };
}

/// One turn: the clock is read, and the store is asked.
pub struct StoreTurn<'c, C> {
    pub alloc: Global,
    pub clock: &'c C,
    pub request: FormedRequest,
}

impl<'c, D: Disk, C: TurnClock> Job<OpenedStore<D>> for StoreTurn<'c, C> {
    type Out = TurnReply;

    ghost use Rattle.shared_store.specs.Turning.{TakesTurn};

    ghost done = { λ turn before pass after reply. TakesTurn D.faults (C.gives turn.clock.now) turn.request before pass after reply };

    fn work(self, value: &mut OpenedStore<D>, pass: u64) -> TurnReply {
        let StoreTurn {
            alloc,
            clock,
            request,
        } = self;
        let moment = clock.now(value.store());
        let reply = value.answer(alloc, pass, request, moment);
        value.lemma_has_gone_on();
        reply
    }
}
