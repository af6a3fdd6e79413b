//! A connection that talks: what it knows, and what came and is not answered.

ghost use Rattle.std.specs.Prelude.{◌≡◌, [], IfOk, length};
ghost use Rattle.nine_messages.specs.declared.framing.TheConstants.{MOST_SIZE};
ghost use Rattle.nine_fids.specs.States.{begun_with};
ghost use Rattle.nine_front.specs.NineTalking.{nine_talking, nine_laws, StandsAt};

use crate::framer::MessageFramer;
use crate::messages::hear;
use bl_syntax::{Bytes, NoMemory};
use nine_fids::Connection;
use pcfs_ports::Disk;
use session_history::TurnClock;
use session_loop::{Heard, Talk};
use shared_store::OpenedStore;
use std::alloc::Global;
use std::sync::Wait;
use tree_lock::{Pass, TreeLock};

/// What a connection knows, and what came and belongs to no message that was answered.
#[derive(Debug, Drop)]
pub(crate) struct NineTalk {
    connection: Connection,
    framer: MessageFramer,
}

impl NineTalk {
    /// A connection with this nonce, before anything came.
    pub(crate) fn new(alloc: Global, nonce: &[u8; 16]) -> Result<NineTalk, NoMemory>
        ensures { IfOk result (λ talk. StandsAt talk.connection talk.framer (begun_with nonce.now) MOST_SIZE []) }
    {
        let connection = Connection::new(alloc, nonce)?;
        let framer = MessageFramer::new(alloc);
        Ok(NineTalk { connection, framer })
    }
}

impl<D: Disk, C: TurnClock> Talk<TreeLock<OpenedStore<D>>, Pass<OpenedStore<D>>, C> for NineTalk {
    ghost talking = { λ clock. nine_talking D.faults (C.gives clock) };

    ghost stands = { λ clock talk. StandsAt talk.connection talk.framer };

    ghost size = { λ talk. length talk.framer.left };

    ghost fits = { λ lock pass. pass.lock ≡ lock };

    fn feed(&mut self, piece: &[u8]) -> Result<(), NoMemory> {
        self.framer.feed(piece)
    }

    fn answer_next<R: Wait>(
        &mut self,
        rt: &R,
        alloc: Global,
        lock: &TreeLock<OpenedStore<D>>,
        pass: &mut Pass<OpenedStore<D>>,
        clock: &C,
        out: &mut Bytes,
    ) -> Heard {
        hear(
            rt,
            alloc,
            lock,
            pass,
            clock,
            &mut self.connection,
            &mut self.framer,
            out,
        )
    }

    fn answer_last<R: Wait>(
        &mut self,
        rt: &R,
        alloc: Global,
        lock: &TreeLock<OpenedStore<D>>,
        pass: &mut Pass<OpenedStore<D>>,
        clock: &C,
        out: &mut Bytes,
    ) -> Heard {
        if self.framer.len() == 0 {
            Heard::Open
        } else {
            Heard::Bad
        }
    }

    fn spell_bad(&self, alloc: Global, clock: &C, out: &mut Bytes) -> Result<(), NoMemory> {
        Ok(())
    }

    ghost laws = { λ clock. nine_laws D.faults (C.gives clock) };
}
