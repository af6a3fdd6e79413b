//! Walks: a turn for each name.

ghost use Rattle.std.specs.Prelude.{◌≡◌, ◌≤◌, ◌+◌, ◌∷◌, ◌++◌, [], ℕ, List, Some, None, length, IfOk, IfErr, IfSome};
ghost use Rattle.line_wire.specs.declared.reply.LineReply.TheVariants as lines;
ghost use Rattle.line_wire.specs.ReplyText.{reply_text};
ghost use Rattle.session_history.specs.Placed.{IsReplyOf};
ghost use Rattle.shared_store.specs.Asking.{HasSeenFault};
ghost use Rattle.shared_store.specs.Looking.{node_named};
ghost use Rattle.nine_messages.specs.Requests.{IsText};
ghost use Rattle.nine_fids.specs.declared.fid.FidFile.{FidFile as File};
ghost use Rattle.nine_fids.specs.declared.limits.TheConstants.{MOST_NAMES};
ghost use Rattle.bl_syntax.specs.declared.terms.Perm.TheVariants as perms;
ghost use Rattle.nine_fids.specs.Purse.{fitting};
ghost use Rattle.nine_front.specs.Short.{IsShortReply};
ghost use Rattle.nine_front.specs.Walked.{HasFound, HasWalked};
ghost use Rattle.nine_front.specs.Views.{walk_end, walk_error_text};

use crate::found::Found;
use crate::looking::look_up;
use crate::replying::{WalkError, line_of, node_named};
use bl_syntax::{NodeId, Perm, Principal};
use line_wire::LineReply;
use nine_fids::{Connection, FidFile, NineError};
use nine_messages::Names;
use pcfs_ports::Disk;
use procap::Procap;
use session_history::{TurnClock, TurnReply};
use shared_store::OpenedStore;
use std::alloc::Global;
use std::sync::Wait;
use tree_lock::{Pass, TreeLock};

// The node that a turn of a walk names, or the line of what it replies.
fn node_of(replied: TurnReply) -> Result<NodeId, LineReply>
    requires { IsShortReply 0 replied }
    ensures found { IfOk result (λ child. node_named replied ≡ Some child) }
    ensures none { IfErr result (λ line. node_named replied ≡ None) }
    ensures says { IfErr result (λ line. IsReplyOf replied line) }
    ensures writable { IfErr result (λ line. IsText (reply_text line)) }
{
    match node_named(&replied) {
        Some(child) => Ok(child),
        None => Err(line_of(replied)),
    }
}

// Walks a name from a node in a turn under this procap.
fn find_under<R: Wait, D: Disk, C: TurnClock>(
    rt: &R,
    alloc: Global,
    lock: &TreeLock<OpenedStore<D>>,
    pass: &mut Pass<OpenedStore<D>>,
    clock: &C,
    connection: &Connection,
    who: Principal,
    node: NodeId,
    name: &[u8],
    p: Procap,
) -> Result<(NodeId, bool), WalkError>
    requires lock { pass.old.lock ≡ lock.now }
    requires fits { fitting connection.now.purse who node perms.Execute ≡ Some p }
    ensures found { IfOk result (λ it. HasFound (C.gives clock.now) connection.now.purse who pass.old pass.new node name.now it.0 it.1) }
    ensures not_found { IfErr result (λ error. (names : List (List ℕ)) →
        HasWalked (C.gives clock.now) connection.now.purse who pass.old pass.new node (name.now ∷ names) [] (Some (walk_error_text error))) }
    ensures stopped { IfErr result (λ error. walk_error_text error ≡ reply_text lines.Stopped → HasSeenFault D.faults pass.new) }
    ensures writable { IfErr result (λ error. IsText (walk_error_text error)) }
    ensures same_lock { pass.new.lock ≡ lock.now }
{
    let (replied, kind) = look_up(rt, alloc, lock, pass, clock, who, node, name, p);
    match node_of(replied) {
        Ok(child) => Ok((child, kind)),
        Err(line) => Err(WalkError::Line(line)),
    }
}

// Walks a name from a node, in a turn under the first procap that fits: the node that it names, and whether that is a
// directory; or why the walk ends there.
fn find<R: Wait, D: Disk, C: TurnClock>(
    rt: &R,
    alloc: Global,
    lock: &TreeLock<OpenedStore<D>>,
    pass: &mut Pass<OpenedStore<D>>,
    clock: &C,
    connection: &Connection,
    who: Principal,
    node: NodeId,
    name: &[u8],
) -> Result<(NodeId, bool), WalkError>
    requires lock { pass.old.lock ≡ lock.now }
    requires caller { connection.now.caller ≡ Some who }
    ensures found { IfOk result (λ it. HasFound (C.gives clock.now) connection.now.purse who pass.old pass.new node name.now it.0 it.1) }
    ensures not_found { IfErr result (λ error. (names : List (List ℕ)) →
        HasWalked (C.gives clock.now) connection.now.purse who pass.old pass.new node (name.now ∷ names) [] (Some (walk_error_text error))) }
    ensures stopped { IfErr result (λ error. walk_error_text error ≡ reply_text lines.Stopped → HasSeenFault D.faults pass.new) }
    ensures writable { IfErr result (λ error. IsText (walk_error_text error)) }
    ensures same_lock { pass.new.lock ≡ lock.now }
{
    match connection.fitting(alloc, node, Perm::Execute) {
        Ok(Some(p)) => find_under(rt, alloc, lock, pass, clock, connection, who, node, name, p),
        Ok(None) => Err(WalkError::Refused(NineError::NoProcap)),
        Err(_) => Err(WalkError::Line(LineReply::NoMemory)),
    }
}

/// Walks the names from a node, each in a turn, and says why it ended early, if it did. The files that it found come after
/// those that are there.
pub(crate) fn walk_names<R: Wait, D: Disk, C: TurnClock>(
    rt: &R,
    alloc: Global,
    lock: &TreeLock<OpenedStore<D>>,
    pass: &mut Pass<OpenedStore<D>>,
    clock: &C,
    connection: &Connection,
    who: Principal,
    node: NodeId,
    names: &Names<'_>,
    found: &mut Found,
) -> Option<WalkError>
    requires lock { pass.old.lock ≡ lock.now }
    requires caller { connection.now.caller ≡ Some who }
    requires few { length found.old + length names.now ≤ MOST_NAMES }
    ensures walked { (files : List File) × (found.new ≡ found.old ++ files)
        × HasWalked (C.gives clock.now) connection.now.purse who pass.old pass.new node names.now files (walk_end result) }
    ensures stopped { walk_end result ≡ Some (reply_text lines.Stopped) →
        HasSeenFault D.faults pass.new }
    ensures writable { IfSome result (λ error. IsText (walk_error_text error)) }
    ensures few { length found.new ≤ MOST_NAMES }
    ensures same_lock { pass.new.lock ≡ lock.now }
{
    match names.split_first() {
        None => None,
        Some((name, others)) => {
            match find(rt, alloc, lock, pass, clock, connection, who, node, name) {
                Ok((child, kind)) => {
                    found.push(FidFile::Node(child, kind));
                    walk_names(
                        rt, alloc, lock, pass, clock, connection, who, child, &others, found,
                    )
                }
                Err(error) => Some(error),
            }
        }
    }
}
