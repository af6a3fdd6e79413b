//! Replies as values.

ghost use Rattle.std.specs.Prelude.{IfSome, IsTrue, MatchOption, codes};
ghost use Rattle.line_text.specs.Words.{has_first};
ghost use Rattle.client_replies.specs.Replies.{HasIssue, HasOne, HasTwo, IsReply, IsReplyUnless};
ghost use Rattle.client_replies.specs.Replies.{LacksBad, LacksOne, LacksPolicy, LacksStatement, LacksTwo, LacksWord};

use bl_syntax::NodeId;
use client_words::{counting_number, statement_number, whole_number};
use line_text::{rest_after, word_before};

/// A reply, by its first words.
#[derive(Clone, Copy)]
pub enum Reply<'a> {
    /// It was done: what stands after `ok`.
    Done(&'a [u8]),
    /// A procap was denied: what stands after `denied`.
    Denied(&'a [u8]),
    /// The operation is refused: by which number, at which event.
    Refused(u64, u64),
    /// What was brought is rejected, by this number.
    Rejected(u64),
    /// The statement stands there already, under this number.
    Known(u32),
    /// The statement of this number does not stand there.
    Absent(u32),
    /// The proof is not accepted: by which number, at which of its rules.
    Unproved(u64, u64),
    /// The text of a line is wrong: by which number, at which byte.
    BadText(u64, u64),
    /// The line is too long.
    TooLong,
    /// The line has no form that the server knows, from this byte on.
    BadForm(u64),
    /// The line is no line of the server.
    BadLine,
    Full,
    Stopped,
    NoMemory,
    /// It has no meaning here.
    Unknown,
}

// The two numbers after these words, with this text, which begins with a space, between them.
fn two_after(line: &[u8], words: &[u8], between: &[u8]) -> Option<(u64, u64)>
    requires { IsTrue (has_first 32 between.now) }
    ensures { MatchOption result (LacksTwo words.now between.now line.now) (λ both. HasTwo words.now between.now line.now both.0 both.1) }
{
    let rest = rest_after(line, words)?;
    let (first_word, second_word) = word_before(rest, between)?;
    let first = whole_number(first_word)?;
    let second = whole_number(second_word)?;
    Some((first, second))
}

// The number after these words.
fn one_after(line: &[u8], words: &[u8]) -> Option<u64>
    ensures { MatchOption result (LacksOne words.now line.now) (HasOne words.now line.now) }
{
    let rest = rest_after(line, words)?;
    let number = whole_number(rest)?;
    Some(number)
}

// The number of a statement after these words.
fn statement_after(line: &[u8], words: &[u8]) -> Option<u32>
    ensures { MatchOption result (LacksStatement words.now line.now) (HasOne words.now line.now) }
{
    let rest = rest_after(line, words)?;
    let number = statement_number(rest)?;
    Some(number)
}

// A reply of one word.
fn one_word(line: &[u8]) -> Reply<'static>
    ensures { IsReplyUnless (LacksWord line.now) line.now result }
{
    if line == b"full".as_slice() {
        return Reply::Full;
    }
    if line == b"stopped".as_slice() {
        return Reply::Stopped;
    }
    if line == b"nomemory".as_slice() {
        return Reply::NoMemory;
    }
    if line == b"bad 3".as_slice() {
        return Reply::TooLong;
    }
    if line == b"bad 2".as_slice() {
        return Reply::BadLine;
    }
    Reply::Unknown
}

// A reply `bad ..`, or one of one word.
fn bad(line: &[u8]) -> Reply<'static>
    ensures { IsReplyUnless (LacksBad line.now) line.now result }
{
    match two_after(line, b"bad 4 ", b" ") {
        Some((fault, place)) => return Reply::BadText(fault, place),
        None => {}
    }
    match one_after(line, b"bad 1 ") {
        Some(place) => return Reply::BadForm(place),
        None => {}
    }
    one_word(line)
}

// A reply to a statement or a proof, or one that is left.
fn about_policy(line: &[u8]) -> Reply<'static>
    ensures { IsReplyUnless (LacksPolicy line.now) line.now result }
{
    match statement_after(line, b"rejected 3 ") {
        Some(number) => return Reply::Known(number),
        None => {}
    }
    match one_after(line, b"rejected ") {
        Some(number) => return Reply::Rejected(number),
        None => {}
    }
    match statement_after(line, b"absent ") {
        Some(number) => return Reply::Absent(number),
        None => {}
    }
    match two_after(line, b"unproved ", b" ") {
        Some((fault, place)) => Reply::Unproved(fault, place),
        None => bad(line),
    }
}

/// What a reply says; it is unknown only if it has no form that the server's replies have.
pub fn reply_of(line: &[u8]) -> Reply<'_>
    ensures { IsReply line.now result }
{
    match rest_after(line, b"ok ") {
        Some(rest) => return Reply::Done(rest),
        None => {}
    }
    if line == b"ok".as_slice() {
        return Reply::Done(&[]);
    }
    match rest_after(line, b"denied ") {
        Some(rest) => return Reply::Denied(rest),
        None => {}
    }
    match two_after(line, b"refused ", b" at ") {
        Some((number, event)) => Reply::Refused(number, event),
        None => about_policy(line),
    }
}

/// The node that stands after `ok`.
pub fn node_of(done: &[u8]) -> Option<NodeId>
    ensures { IfSome result (λ node. HasOne (codes "node #") done.now node.0) }
{
    let digits = rest_after(done, b"node #")?;
    let node = counting_number(digits)?;
    Some(NodeId(node))
}

/// The number of a statement that stands after `ok`.
pub fn statement_of(done: &[u8]) -> Option<u32>
    ensures { IfSome result (λ number. HasOne (codes "statement ") done.now number) }
{
    statement_after(done, b"statement ")
}

/// The number of an issue that stands after `ok`.
pub fn issue_of(done: &[u8]) -> Option<u64>
    ensures { IfSome result (HasIssue done.now) }
{
    let rest = rest_after(done, b"issue ")?;
    let (digits, _time) = word_before(rest, b" time ")?;
    let number = counting_number(digits)?;
    Some(number)
}
