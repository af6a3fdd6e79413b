//! How a proof is verified: a turn for the statements that it cites, a check outside the lock, and a turn that issues what
//! it grants.

ghost use Rattle.std.specs.Prelude.{◌≡◌};
ghost use Rattle.bl_syntax.specs.Citable.{AreCitable};
ghost use Rattle.proof_verifier.specs.Cited.{AreCited};
ghost use Rattle.shared_store.specs.Asking.{HasSeenFault};
ghost use Rattle.session_lines.specs.Replied.{HasDone, HasIssued};

use crate::checker::Checker;
use crate::line_replies::{reply_of, take_turn, unproved};
use access_history::StepRequest;
use bl_syntax::{Goal, Numbers};
use line_wire::LineReply;
use pcfs_ports::Disk;
use proof_term::ProofTree;
use proof_verifier::Cites;
use session_history::{LineTask, TurnClock, TurnReply, TurnRequest};
use shared_store::{FormedRequest, OpenedStore, ask};
use std::alloc::Global;
use std::sync::Wait;
use tree_lock::{Pass, TreeLock};

// Checks the proof from these statements, and takes a turn to issue what it grants.
fn issue<R: Wait, D: Disk, C: TurnClock, K: Checker>(
    rt: &R,
    alloc: Global,
    lock: &TreeLock<OpenedStore<D>>,
    pass: &mut Pass<OpenedStore<D>>,
    clock: &C,
    cites: &Cites,
    goal: &Goal,
    proof: &ProofTree,
    checker: &mut K,
) -> LineReply
    requires lock { pass.old.lock ≡ lock.now }
    requires cited { AreCited cites.now }
    ensures issued { HasIssued (C.gives clock.now) cites.now goal.now proof.now pass.old pass.new result }
    ensures stopped { result ≡ LineReply.Stopped → HasSeenFault D.faults pass.new }
{
    match checker.check(alloc, cites, goal, proof) {
        Ok(checked) => take_turn(
            rt,
            alloc,
            lock,
            pass,
            clock,
            TurnRequest::Step(StepRequest::Issue(checked)),
        ),
        Err(fault) => unproved(fault),
    }
}

/// Verifies the proof of the goal from the statements of these numbers.
pub fn prove<R: Wait, D: Disk, C: TurnClock, K: Checker>(
    rt: &R,
    alloc: Global,
    lock: &TreeLock<OpenedStore<D>>,
    pass: &mut Pass<OpenedStore<D>>,
    clock: &C,
    goal: Goal,
    numbers: Numbers,
    proof: ProofTree,
    checker: &mut K,
) -> LineReply
    requires lock { pass.old.lock ≡ lock.now }
    requires citable { AreCitable numbers }
    ensures done { HasDone (C.gives clock.now) (LineTask.Proof goal numbers proof) pass.old pass.new result }
    ensures stopped { result ≡ LineReply.Stopped → HasSeenFault D.faults pass.new }
{
    let request = FormedRequest::new(TurnRequest::Cite(numbers));
    match ask(rt, alloc, lock, pass, clock, request) {
        TurnReply::Cited(cites) => issue(
            rt, alloc, lock, pass, clock, &cites, &goal, &proof, checker,
        ),
        found => reply_of(found),
    }
}
