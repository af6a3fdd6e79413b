//! A session that talks: what it knows, and what came and is not answered.

ghost use Rattle.std.specs.Prelude.{◌≡◌, [], None, length};
ghost use Rattle.session_service.specs.LineTalking.{line_talking, line_laws, StandsAt};
ghost use Rattle.session_service.specs.Said.{session_of};

use crate::lines::{hear, hear_last};
use bl_syntax::{Bytes, NoMemory, Principal};
use line_framer::{FeedFault, Framer};
use line_wire::{LineReply, write_reply};
use pcfs_ports::Disk;
use session_history::TurnClock;
use session_lines::Checker;
use session_loop::{Heard, Talk};
use shared_store::OpenedStore;
use std::alloc::Global;
use std::sync::Wait;
use tree_lock::{Pass, TreeLock};

/// The nonce of a session, who is logged in, what came and belongs to no line that was answered, whether a line after it is
/// too long, and who checks proofs.
#[derive(Drop)]
pub(crate) struct LineTalk<'a, K> {
    nonce: [u8; 16],
    caller: Option<Principal>,
    framer: Framer,
    is_long: bool,
    checker: &'a mut K,
}

impl<'a, K> LineTalk<'a, K> {
    /// A session with this nonce, before anything came.
    pub(crate) fn new(alloc: Global, nonce: [u8; 16], checker: &'a mut K) -> LineTalk<'a, K>
        ensures { StandsAt result.nonce result.caller result.framer result.is_long (session_of nonce None) tt [] }
    {
        LineTalk {
            nonce,
            caller: None,
            framer: Framer::new(alloc),
            is_long: false,
            checker,
        }
    }
}

impl<'a, D: Disk, C: TurnClock, K: Checker> Talk<TreeLock<OpenedStore<D>>, Pass<OpenedStore<D>>, C>
    for LineTalk<'a, K> {
    ghost talking = { λ clock. line_talking D.faults (C.gives clock) };

    ghost stands = { λ clock talk. StandsAt talk.nonce talk.caller talk.framer talk.is_long };

    ghost size = { λ talk. length talk.framer.left };

    ghost fits = { λ lock pass. pass.lock ≡ lock };

    fn feed(&mut self, piece: &[u8]) -> Result<(), NoMemory> {
        match self.framer.feed(piece) {
            Ok(()) => Ok(()),
            Err(FeedFault::TooLong) => {
                self.is_long = true;
                Ok(())
            }
            Err(FeedFault::NoMemory) => Err(NoMemory),
        }
    }

    fn answer_next<R: Wait>(
        &mut self,
        rt: &R,
        alloc: Global,
        lock: &TreeLock<OpenedStore<D>>,
        pass: &mut Pass<OpenedStore<D>>,
        clock: &C,
        out: &mut Bytes,
    ) -> Heard {
        hear(
            rt,
            alloc,
            lock,
            pass,
            clock,
            &self.nonce,
            &mut self.caller,
            &mut self.framer,
            self.is_long,
            self.checker,
            out,
        )
    }

    fn answer_last<R: Wait>(
        &mut self,
        rt: &R,
        alloc: Global,
        lock: &TreeLock<OpenedStore<D>>,
        pass: &mut Pass<OpenedStore<D>>,
        clock: &C,
        out: &mut Bytes,
    ) -> Heard {
        hear_last(
            rt,
            alloc,
            lock,
            pass,
            clock,
            &self.nonce,
            &mut self.caller,
            &self.framer,
            self.checker,
            out,
        )
    }

    fn spell_bad(&self, alloc: Global, clock: &C, out: &mut Bytes) -> Result<(), NoMemory> {
        write_reply(alloc, out, &LineReply::TooLong)
    }

    ghost laws = { λ clock. line_laws D.faults (C.gives clock) };
}
