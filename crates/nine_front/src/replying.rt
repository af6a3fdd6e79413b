//! Replies, and how they are written.

ghost use Rattle.std.specs.Prelude.{◌≡◌, ◌++◌, ℕ, List, [], map, true, IfOk, OnOk};
ghost use Rattle.nine_messages.specs.declared.framing.TheConstants.{MOST_SIZE};
ghost use Rattle.line_wire.specs.ReplyText.{reply_text};
ghost use Rattle.nine_messages.specs.Requests.{IsText};
ghost use Rattle.nine_messages.specs.Replies.{IsWritableReply, reply_spelling, rwalk, rerror};
ghost use Rattle.nine_fids.specs.Files.{qid_of};
ghost use Rattle.nine_front.specs.Placed.{walk_reply};
ghost use Rattle.session_history.specs.Placed.{IsReplyOf};
ghost use Rattle.shared_store.specs.Looking.{node_named};
ghost use Rattle.nine_front.specs.Asking.{IsReplyTo, step_reply_view, operation_reply_view, tree_reply_view};
ghost use Rattle.nine_front.specs.Short.{is_operation, IsShortReply, IsShortStep, IsShortOperation, IsShortTree};
ghost use Rattle.nine_front.specs.Views.{reply_view_of, walk_error_text, walk_end};

use crate::found::Found;
use crate::short::has_short_names;
use access_history::StepReply;
use bl_syntax::{Bytes, NoMemory, NodeId};
use file_world::{OpReply, TreeReply};
use line_wire::{LineReply, write_reply as write_line};
use nine_fids::{Answer, Connection, FidFile, NineError, qid_of};
use nine_messages::{Qid, Reply, write_reply};
use session_history::TurnReply;
use std::alloc::Global;

/// Why a walk ended early.
#[derive(Debug, Drop)]
pub enum WalkError {
    /// No procap fits where it had come to.
    Refused(NineError),
    /// What a turn said, or that memory ran out.
    Line(LineReply),
}

/// The reply to a request.
#[derive(Debug, Drop)]
pub enum NineReply {
    /// A test of the request holds.
    Refused(NineError),
    /// No turn was needed.
    Answered(Answer),
    /// So many bytes were written, or were a login that was accepted.
    Written(u32),
    /// These bytes were read.
    Read(Bytes),
    /// A walk found these files, and may have ended early.
    Walked(Found, Option<WalkError>),
    /// What a turn said otherwise, or that memory ran out.
    Line(LineReply),
}

// The qids of files.
fn qids(alloc: Global, found: &[FidFile]) -> Result<Vec<Qid>, NoMemory>
    ensures { IfOk result (λ qids. qids.items ≡ map qid_of found.now) }
{
    let mut qids = Vec::new(alloc);
    for file in found {
        qids.push(qid_of(*file))?;
    }
    Ok(qids)
}

// Adds an Rerror with the line of a session, without its end.
fn spell_line(alloc: Global, tag: u16, line: &LineReply, out: &mut Bytes) -> Result<(), NoMemory>
    requires { IsWritableReply (rerror (reply_text line.now)) }
    ensures ok { OnOk result (out.new ≡ out.old ++ reply_spelling tag (rerror (reply_text line.now))) }
{
    let mut text = Bytes::new(alloc);
    write_line(alloc, &mut text, line)?;
    let count = text.len() - 1;
    write_reply(tag, &Reply::Error(&text.as_slice()[..count]), out)
}

// Adds an Rerror with why a walk ended early.
fn spell_walk_error(
    alloc: Global,
    tag: u16,
    error: &WalkError,
    out: &mut Bytes,
) -> Result<(), NoMemory>
    requires { IsText (walk_error_text error.now) }
    ensures ok { OnOk result (out.new ≡ out.old ++ reply_spelling tag (rerror (walk_error_text error.now))) }
{
    match error {
        WalkError::Refused(error) => write_reply(tag, &Reply::Error(error.text()), out),
        WalkError::Line(line) => spell_line(alloc, tag, line, out),
    }
}

// Adds the reply to a walk that found nothing.
fn spell_end(
    alloc: Global,
    tag: u16,
    end: &Option<WalkError>,
    out: &mut Bytes,
) -> Result<(), NoMemory>
    requires { IsWritableReply (walk_reply [] (walk_end end.now)) }
    ensures ok { OnOk result (out.new ≡ out.old ++ reply_spelling tag (walk_reply [] (walk_end end.now))) }
{
    match end {
        Some(error) => spell_walk_error(alloc, tag, error, out),
        None => write_reply(tag, &Reply::Walk(&[]), out),
    }
}

// Adds the reply to a walk that found these files.
fn spell_found(alloc: Global, tag: u16, found: &[FidFile], out: &mut Bytes) -> Result<(), NoMemory>
    requires { IsWritableReply (rwalk (map qid_of found.now)) }
    ensures ok { OnOk result (out.new ≡ out.old ++ reply_spelling tag (rwalk (map qid_of found.now))) }
{
    let qids = qids(alloc, found)?;
    write_reply(tag, &Reply::Walk(qids.as_slice()), out)
}

// Adds the reply to a walk.
fn spell_walk(
    alloc: Global,
    tag: u16,
    found: &[FidFile],
    end: &Option<WalkError>,
    out: &mut Bytes,
) -> Result<(), NoMemory>
    requires { IsWritableReply (walk_reply found.now (walk_end end.now)) }
    ensures ok { OnOk result (out.new ≡ out.old ++ reply_spelling tag (walk_reply found.now (walk_end end.now))) }
{
    if found.is_empty() {
        spell_end(alloc, tag, end, out)
    } else {
        spell_found(alloc, tag, found, out)
    }
}

/// Adds a reply with this tag.
pub(crate) fn spell_reply(
    alloc: Global,
    connection: &Connection,
    tag: u16,
    reply: &NineReply,
    out: &mut Bytes,
) -> Result<(), NoMemory>
    requires { IsWritableReply (reply_view_of connection.now.nonce reply.now) }
    ensures ok { OnOk result (out.new ≡ out.old ++ reply_spelling tag (reply_view_of connection.now.nonce reply.now)) }
{
    match reply {
        NineReply::Refused(error) => write_reply(tag, &Reply::Error(error.text()), out),
        NineReply::Answered(answer) => write_reply(tag, &connection.reply(*answer), out),
        NineReply::Written(count) => write_reply(tag, &Reply::Write(*count), out),
        NineReply::Read(bytes) => write_reply(tag, &Reply::Read(bytes.as_slice()), out),
        NineReply::Walked(found, end) => spell_walk(alloc, tag, found.as_slice(), end, out),
        NineReply::Line(line) => spell_line(alloc, tag, line, out),
    }
}

// The reply to an operation on the tree: no list of names.
fn tree_reply(count: u32, replied: TreeReply) -> NineReply
    requires { IsShortTree MOST_SIZE replied }
    ensures says { (nonce : List ℕ) → reply_view_of nonce result ≡ tree_reply_view count replied }
    ensures writable { (nonce : List ℕ) → IsWritableReply (reply_view_of nonce result) }
{
    match replied {
        TreeReply::Done => NineReply::Written(count),
        TreeReply::Bytes(bytes) => NineReply::Read(bytes),
        TreeReply::Node(node) => NineReply::Line(LineReply::Step(StepReply::Operation(OpReply::Tree(
            TreeReply::Node(node),
        )))),
        TreeReply::Names(_) => unreachable!(),
    }
}

// The reply to an operation, which is one on the tree.
fn operation_reply(count: u32, replied: OpReply) -> NineReply
    requires { IsShortOperation MOST_SIZE replied }
    ensures says { (nonce : List ℕ) →
        reply_view_of nonce result ≡ operation_reply_view count replied }
    ensures writable { (nonce : List ℕ) → IsWritableReply (reply_view_of nonce result) }
{
    match replied {
        OpReply::Tree(replied) => tree_reply(count, replied),
        OpReply::Meta(_) => unreachable!(),
    }
}

// It is what an operation returns.
fn is_operation(replied: &StepReply) -> bool
    ensures { result ≡ is_operation replied.now }
{
    match replied {
        StepReply::Operation(_) => true,
        StepReply::Statement(_) => false,
        StepReply::Withdrawn => false,
        StepReply::Issue(_, _, _) => false,
        StepReply::Procap(_) => false,
        StepReply::Denied(_) => false,
        StepReply::Refused(_, _) => false,
        StepReply::Rejected(_) => false,
        StepReply::Absent(_) => false,
    }
}

// The reply for what an operation returns.
fn done_reply(count: u32, replied: StepReply) -> NineReply
    requires short { IsShortStep MOST_SIZE replied }
    requires operation { is_operation replied ≡ true }
    ensures says { (nonce : List ℕ) → reply_view_of nonce result ≡ step_reply_view count replied }
    ensures writable { (nonce : List ℕ) → IsWritableReply (reply_view_of nonce result) }
{
    match replied {
        StepReply::Operation(replied) => operation_reply(count, replied),
        _ => unreachable!(),
    }
}

// The reply for what a step replies.
fn step_reply(count: u32, replied: StepReply) -> NineReply
    requires { IsShortStep MOST_SIZE replied }
    ensures says { (nonce : List ℕ) → reply_view_of nonce result ≡ step_reply_view count replied }
    ensures writable { (nonce : List ℕ) → IsWritableReply (reply_view_of nonce result) }
{
    has_short_names(&replied);
    if is_operation(&replied) {
        done_reply(count, replied)
    } else {
        NineReply::Line(LineReply::Step(replied))
    }
}

/// The reply for what a turn of this front replies to a request that writes so many bytes. It fits a message.
pub(crate) fn reply_of(count: u32, replied: TurnReply) -> NineReply
    requires { IsShortReply MOST_SIZE replied }
    ensures says { (nonce : List ℕ) → IsReplyTo count replied (reply_view_of nonce result) }
    ensures writable { (nonce : List ℕ) → IsWritableReply (reply_view_of nonce result) }
{
    match replied {
        TurnReply::Step(replied) => step_reply(count, replied),
        TurnReply::LoggedIn => NineReply::Written(count),
        TurnReply::Full => NineReply::Line(LineReply::Full),
        TurnReply::Stopped => NineReply::Line(LineReply::Stopped),
        TurnReply::NoMemory => NineReply::Line(LineReply::NoMemory),
        TurnReply::Checkpointed => unreachable!(),
        TurnReply::Cited(_) => unreachable!(),
    }
}

// The line of what a step of a walk replies.
fn step_line(replied: StepReply) -> LineReply
    requires { IsShortStep 0 replied }
    ensures says { result ≡ LineReply.Step replied }
    ensures writable { IsText (reply_text result) }
{
    has_short_names(&replied);
    LineReply::Step(replied)
}

/// The line of what a turn of a walk replies. Its text fits an Rerror.
pub(crate) fn line_of(replied: TurnReply) -> LineReply
    requires { IsShortReply 0 replied }
    ensures says { IsReplyOf replied result }
    ensures writable { IsText (reply_text result) }
{
    match replied {
        TurnReply::Step(replied) => step_line(replied),
        TurnReply::LoggedIn => LineReply::Done,
        TurnReply::Full => LineReply::Full,
        TurnReply::Stopped => LineReply::Stopped,
        TurnReply::NoMemory => LineReply::NoMemory,
        TurnReply::Checkpointed => unreachable!(),
        TurnReply::Cited(_) => unreachable!(),
    }
}

/// The node that a reply names.
pub(crate) fn node_named(replied: &TurnReply) -> Option<NodeId>
    ensures { result ≡ node_named replied.now }
{
    match replied {
        TurnReply::Step(StepReply::Operation(OpReply::Tree(TreeReply::Node(node)))) => Some(*node),
        _ => None,
    }
}
