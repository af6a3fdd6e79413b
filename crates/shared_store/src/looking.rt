//! How a pass asks a shared store, and learns whether the node that the reply names is a directory.

ghost use Rattle.std.specs.Prelude.{◌≡◌};
ghost use Rattle.shared_store.specs.Asking.{HasSeenFault};
ghost use Rattle.shared_store.specs.Looking.{node_named, HasLooked};

use crate::formed::FormedRequest;
use crate::opened::OpenedStore;
use access_history::StepReply;
use bl_syntax::NodeId;
use file_world::{OpReply, TreeReply};
use pcfs_ports::Disk;
use session_history::{TurnClock, TurnReply};
use std::alloc::Global;
use std::sync::Wait;
use tree_lock::{Job, Pass, TreeLock};

/// The node that a reply names.
pub(crate) fn node_named(reply: &TurnReply) -> Option<NodeId>
    ensures { result ≡ node_named reply.now }
{
    match reply {
        TurnReply::Step(StepReply::Operation(OpReply::Tree(TreeReply::Node(node)))) => Some(*node),
        _ => None,
    }
}

/// One turn: the clock is read, the store is asked, and the kind of the node that it names is taken.
pub struct LookTurn<'c, C> {
    pub alloc: Global,
    pub clock: &'c C,
    pub request: FormedRequest,
}

impl<'c, D: Disk, C: TurnClock> Job<OpenedStore<D>> for LookTurn<'c, C> {
    type Out = (TurnReply, bool);

    ghost use Rattle.shared_store.specs.Looking.{Looks};

    ghost done = { λ turn before pass after out. Looks D.faults (C.gives turn.clock.now) turn.request before pass after out.0 out.1 };

    fn work(self, value: &mut OpenedStore<D>, pass: u64) -> (TurnReply, bool) {
        let LookTurn {
            alloc,
            clock,
            request,
        } = self;
        let moment = clock.now(value.store());
        let reply = value.answer(alloc, pass, request, moment);
        let kind = value.names_directory(&reply);
        value.lemma_has_gone_on();
        (reply, kind)
    }
}

/// Waits for the pass's turn, and asks the store in it, as `ask` does; and says whether the node that the reply names is a
/// directory then.
pub fn look<R: Wait, D: Disk, C: TurnClock>(
    rt: &R,
    alloc: Global,
    lock: &TreeLock<OpenedStore<D>>,
    pass: &mut Pass<OpenedStore<D>>,
    clock: &C,
    request: FormedRequest,
) -> (TurnReply, bool)
    requires { pass.old.lock ≡ lock.now }
    ensures looked { HasLooked (C.gives clock.now) request pass.old pass.new result.0 result.1 }
    ensures stopped { result.0 ≡ TurnReply.Stopped → HasSeenFault D.faults pass.new }
{
    lock.turn(
        rt,
        pass,
        LookTurn {
            alloc,
            clock,
            request,
        },
    )
}
