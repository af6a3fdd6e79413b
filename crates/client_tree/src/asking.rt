//! One operation: the procaps that it brings, and the reply.

ghost use Rattle.std.specs.Prelude.{◌≡◌, All, IfOk};
ghost use Rattle.client_tree.specs.Lines.{IsAskedText, IsPrepared};
ghost use Rattle.client_tree.specs.Works.{AsksAsNeeded, IsNeed, IsWorkOf, NeedsOne};

use crate::ports::{Change, Ports};
use crate::rights::procap;
use crate::words::{copied, joined, no_right};
use bl_syntax::{Bytes, Goal, NoMemory, NodeId, Perm};
use client_home::{Pass, Wallet};
use client_replies::{Cause, Denial, Reply, bad_reply, refusal, reply_of, unknown_reply};
use client_session::{Replies, line_of};
use client_words::Stop;
use file_world::Op;
use line_forms::{Command, Line};
use line_words::{ProcapWord, ProcapWords};
use std::alloc::Global;

/// How often an operation is tried, each time with another procap or after another's change.
pub const ROUNDS: u64 = 8;

/// A procap that was denied, and why.
#[derive(Drop)]
pub struct Denied {
    pub word: String,
    pub goal: Goal,
    pub cause: Cause,
}

/// How many proofs were asked for.
#[derive(Drop)]
pub struct Tried {
    pub goal: Goal,
    pub count: u64,
}

/// A user's client, for one command.
#[derive(Drop)]
pub struct Client<P: Ports + Drop> {
    pub alloc: Global,
    pub ports: P,
    pub wallet: Wallet,
    pub denied: Vec<Denied>,
    pub tried: Vec<Tried>,
}

/// A permission on a node, and how the user calls the node.
#[derive(Drop)]
pub struct Need {
    pub permission: Perm,
    pub node: NodeId,
    pub path: String,
}

/// An operation with its needs, and how the user calls what it is about.
#[derive(Drop)]
pub struct Work {
    pub op: Op,
    pub needs: Vec<Need>,
    pub what: String,
}

/// An operation that was done: what the reply tells after `ok`, and whether it may have been done before.
#[derive(Drop)]
pub struct Done {
    pub rest: String,
    pub again: bool,
}

/// A line that brings procaps, with their words.
#[derive(Drop)]
pub struct Prepared {
    pub line: Bytes,
    pub words: Vec<String>,
}

impl Need {
    /// A need.
    pub fn new(alloc: Global, permission: Perm, node: NodeId, path: &str) -> Result<Need, NoMemory>
        ensures { IfOk result (IsNeed node permission) }
    {
        Ok(Need {
            permission,
            node,
            path: String::from_str(alloc, path)?,
        })
    }
}

impl<P: Ports + Drop> Client<P> {
    /// A client with this wallet.
    pub fn new(alloc: Global, ports: P, wallet: Wallet) -> Client<P> {
        Client {
            alloc,
            ports,
            wallet,
            denied: Vec::new(alloc),
            tried: Vec::new(alloc),
        }
    }

    /// The goal of a need.
    pub fn goal(&self, need: &Need) -> Goal
        ensures node { result.file ≡ need.now.node }
        ensures permission { result.perm ≡ need.now.permission }
    {
        Goal {
            who: self.ports.who(),
            file: need.node,
            perm: need.permission,
        }
    }

    /// Changes the wallet.
    pub fn change(&mut self, change: Change<'_>) -> Result<(), Stop> {
        self.wallet = self.ports.change(change)?;
        Ok(())
    }
}

/// The work of an operation with one need.
pub fn one_need(
    alloc: Global,
    op: Op,
    permission: Perm,
    node: NodeId,
    path: &str,
    what: &str,
) -> Result<Work, NoMemory>
    requires { NeedsOne op node permission }
    ensures { IfOk result (IsWorkOf op) }
{
    let mut needs = Vec::new(alloc);
    needs.push(Need::new(alloc, permission, node, path)?)?;
    Ok(Work {
        op,
        needs,
        what: String::from_str(alloc, what)?,
    })
}

// The text of these bytes; the empty one, if they are none.
fn text_of(alloc: Global, bytes: &[u8]) -> Result<String, NoMemory> {
    match std::str::from_utf8(bytes) {
        Ok(text) => copied(alloc, text),
        Err(_) => Ok(String::new(alloc)),
    }
}

/// The line of an operation, and the procaps that it brings, one for each need.
pub fn prepare<P: Ports + Drop>(client: &mut Client<P>, work: &Work) -> Result<Prepared, Stop>
    requires { AsksAsNeeded work.now }
    ensures { IfOk result (IsPrepared work.now) }
{
    let alloc = client.alloc;
    let mut procaps = ProcapWords::new(alloc);
    let mut words = Vec::new(alloc);
    for need in &work.needs {
        let pass: Pass = procap(client, need)?;
        procaps.push(ProcapWord::Procap(pass.procap.copy(alloc)?))?;
        words.push(copied(alloc, pass.word.as_str())?)?;
    }
    let op = work.op.copy(alloc)?;
    let line = line_of(alloc, &Line::Command(Command::Do(op, procaps)))?;
    Ok(Prepared { line, words })
}

// Notes that the procap of this word was denied. One that may be good again later stays in the wallet.
fn note_denied<P: Ports + Drop>(
    client: &mut Client<P>,
    need: &Need,
    word: &str,
    cause: Cause,
) -> Result<(), Stop> {
    let alloc = client.alloc;
    let may_pass = cause.may_pass();
    let withdrawn = match &cause {
        Cause::Withdrawn(number) => Some(*number),
        _ => None,
    };
    let goal = client.goal(need);
    let word_denied = copied(alloc, word)?;
    client.denied.push(Denied {
        word: word_denied,
        goal,
        cause,
    })?;
    if may_pass {
        return Ok(());
    }
    client.change(Change::Remove(word))?;
    match withdrawn {
        Some(number) => client.change(Change::Gone(number)),
        None => Ok(()),
    }
}

/// Notes a denial, what stands after `denied`, of one of the procaps that were brought.
pub fn note<P: Ports + Drop>(
    client: &mut Client<P>,
    work: &Work,
    words: &[String],
    reply: &str,
    rest: &[u8],
) -> Result<(), Stop> {
    let alloc = client.alloc;
    let denial = match Denial::of(alloc, rest)? {
        Some(denial) => denial,
        None => return Err(unknown_reply(alloc, reply)),
    };
    let place = match denial.need.checked_sub(1) {
        Some(place) => place,
        None => return Err(unknown_reply(alloc, reply)),
    };
    match (work.needs.get(place), words.get(place)) {
        (Some(need), Some(word)) => note_denied(client, need, word.as_str(), denial.cause),
        _ => Err(unknown_reply(alloc, reply)),
    }
}

// The only reply; there is one for each line.
fn only(alloc: Global, lines: &[String]) -> Result<String, Stop> {
    match lines.first() {
        Some(line) => Ok(copied(alloc, line.as_str())?),
        None => Err(unknown_reply(alloc, "")),
    }
}

/// The replies to lines, each of which asks for something.
pub fn ask_all<P: Ports + Drop>(client: &mut Client<P>, lines: &[Bytes]) -> Result<Replies, Stop>
    requires { All IsAskedText lines.now }
{
    client.ports.ask(lines)
}

/// The reply to a line that asks for something; and whether it may have been done before.
pub fn ask<P: Ports + Drop>(client: &mut Client<P>, line: Bytes) -> Result<(String, bool), Stop>
    requires { IsAskedText line }
{
    let alloc = client.alloc;
    let mut lines = Vec::new(alloc);
    lines.push(line)?;
    let replies = ask_all(client, lines.as_slice())?;
    Ok((only(alloc, replies.lines.as_slice())?, replies.again))
}

/// The same of a line `verify` that the prover made, or that somebody wrote.
pub fn ask_given<P: Ports + Drop>(
    client: &mut Client<P>,
    line: Bytes,
) -> Result<(String, bool), Stop> {
    let alloc = client.alloc;
    let mut lines = Vec::new(alloc);
    lines.push(line)?;
    let replies = client.ports.ask(lines.as_slice())?;
    Ok((only(alloc, replies.lines.as_slice())?, replies.again))
}

fn marked_again(stop: Stop, again: bool) -> Stop {
    if again && stop.is_no_right() {
        stop.with("; the session broke off at this, and it may have been done before")
    } else {
        stop
    }
}

// One try of an operation: what it gave, or none if a procap was denied.
fn attempt<P: Ports + Drop>(
    client: &mut Client<P>,
    work: &Work,
    again: &mut bool,
) -> Result<Option<Done>, Stop>
    requires { AsksAsNeeded work.now }
{
    let alloc = client.alloc;
    let made = match prepare(client, work) {
        Ok(made) => made,
        Err(stop) => return Err(marked_again(stop, *again)),
    };
    let (reply, repeated) = ask(client, made.line)?;
    *again = *again || repeated;
    match reply_of(reply.as_bytes()) {
        Reply::Done(rest) => Ok(Some(Done {
            rest: text_of(alloc, rest)?,
            again: *again,
        })),
        Reply::Denied(rest) => {
            note(client, work, made.words.as_slice(), reply.as_str(), rest)?;
            Ok(None)
        }
        Reply::Refused(number, _) => Err(refusal(alloc, number, work.what.as_str(), *again)),
        _ => Err(bad_reply(alloc, reply.as_str())),
    }
}

/// Does an operation.
pub fn perform<P: Ports + Drop>(client: &mut Client<P>, work: &Work) -> Result<Done, Stop>
    requires { AsksAsNeeded work.now }
{
    let mut again = false;
    for _ in 0..ROUNDS {
        match attempt(client, work, &mut again)? {
            Some(done) => return Ok(done),
            None => {}
        }
    }
    Err(no_right(
        client.alloc,
        &[
            work.what.as_str(),
            ": 8 procaps were denied; ask for other statements",
        ],
    ))
}

/// What a node is called in a message, with the directory before it.
pub fn numbered(alloc: Global, path: &str, node: NodeId) -> Result<String, NoMemory> {
    let number = node.0;
    let mut text = joined(alloc, &[path, " (#"])?;
    write!(text, "{number})")?;
    Ok(text)
}
