//! How a pass asks a shared store.

ghost use Rattle.std.specs.Prelude.{◌≡◌};
ghost use Rattle.shared_store.specs.Asking.{HasAsked, HasSeenFault};

use crate::formed::FormedRequest;
use crate::opened::OpenedStore;
use crate::turn::StoreTurn;
use pcfs_ports::Disk;
use session_history::{TurnClock, TurnReply};
use std::alloc::Global;
use std::sync::Wait;
use tree_lock::{Pass, TreeLock};

/// Waits for the pass's turn, and asks the store in it. Whatever others do, the reply is placed in each history that begins
/// with what the pass has seen then, and the pass's own entries grew by those that it was given.
///
/// `Stopped` comes only if a disk failed, in this turn or in an earlier one.
pub fn ask<R: Wait, D: Disk, C: TurnClock>(
    rt: &R,
    alloc: Global,
    lock: &TreeLock<OpenedStore<D>>,
    pass: &mut Pass<OpenedStore<D>>,
    clock: &C,
    request: FormedRequest,
) -> TurnReply
    requires { pass.old.lock ≡ lock.now }
    ensures asked { HasAsked (C.gives clock.now) request pass.old pass.new result }
    ensures stopped { result ≡ TurnReply.Stopped → HasSeenFault D.faults pass.new }
{
    lock.turn(
        rt,
        pass,
        StoreTurn {
            alloc,
            clock,
            request,
        },
    )
}
