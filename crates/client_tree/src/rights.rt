//! A procap for each need: one from the wallet that holds now, or one that is won by a new proof.

ghost use Rattle.std.specs.Prelude.{◌≡◌, ◌⊎◌, IfOk, IfSome, IsSomeAnd, IsTrue};
ghost use Rattle.condition_set.specs.Window.{MeetsConditions};
ghost use Rattle.client_tree.specs.Rights.{IsFor, IsWonFor};

use crate::asking::{Client, Need, Tried, ask, ask_given, numbered};
use crate::ports::{Change, Ports, Proof, Span};
use crate::words::{copied, joined};
use bl_syntax::{Bytes, Goal, NoMemory, Numbers, TimePoint};
use client_home::Pass;
use client_replies::{
    Cause, Reply, issue_of, not_verified, permission_name, reply_of, unknown_reply,
};
use client_session::line_of;
use client_words::Stop;
use line_forms::{Command, Line};
use line_text::rest_after;
use line_words::procap_of_hex;
use procap::Procap;
use std::alloc::Global;

/// The most proofs for one need in one run: each is an event at the server.
const MOST_PROOFS: u64 = 16;

/// A procap that was won, or why there is no proof.
#[derive(Drop)]
enum Won {
    Procap(Pass),
    None(String),
}

/// The procap of the wallet for a goal that holds at this second for longest, of those that were not denied.
pub fn held<P: Ports + Drop>(
    client: &Client<P>,
    goal: &Goal,
    second: i64,
) -> Result<Option<Pass>, NoMemory>
    ensures { IfOk result (λ found. IfSome found (λ pass. MeetsConditions pass.procap.grant.times second)) }
{
    let mut best: Option<&Pass> = None;
    for one in &client.wallet.passes {
        if is_of_use(client, one, goal, second) {
            best = Some(longer(best, one));
        }
    }
    match best {
        Some(one) => Ok(Some(one.copy(client.alloc)?)),
        None => Ok(None),
    }
}

// Whether the procap is for the goal at this server, holds at this second, and was not denied.
fn is_of_use<P: Ports + Drop>(client: &Client<P>, one: &Pass, goal: &Goal, second: i64) -> bool
    ensures { IsTrue result → MeetsConditions one.now.procap.grant.times second }
{
    one.is_for(client.ports.server(), goal)
        && one.holds_at(second)
        && !is_denied(client, one.word.as_str())
}

// Of two procaps the one that holds for longer.
fn longer<'a>(best: Option<&'a Pass>, one: &'a Pass) -> &'a Pass
    ensures { (result.now ≡ one.now) ⊎ IsSomeAnd best.entry (λ known. result.now ≡ known.now) }
{
    match best {
        Some(best) => {
            if end_of(one).is_up_to(end_of(best)) {
                best
            } else {
                one
            }
        }
        None => one,
    }
}

fn end_of(one: &Pass) -> TimePoint {
    match one.window() {
        Some((_, last)) => last,
        None => TimePoint::NegInf,
    }
}

fn is_denied<P: Ports + Drop>(client: &Client<P>, word: &str) -> bool {
    client.denied.iter().any(|one| one.word.as_str() == word)
}

// Why the procap of this word was denied.
fn cause_of<P: Ports + Drop>(client: &Client<P>, word: &str) -> Result<Option<Cause>, NoMemory> {
    for one in &client.denied {
        if one.word.as_str() == word {
            return Ok(Some(one.cause.copy(client.alloc)?));
        }
    }
    Ok(None)
}

// Why the last procap for a goal was denied in this run.
fn last_denial<P: Ports + Drop>(
    client: &Client<P>,
    goal: &Goal,
) -> Result<Option<Cause>, NoMemory> {
    let mut last = None;
    for one in &client.denied {
        if one.goal.is_same(goal) {
            last = Some(one.cause.copy(client.alloc)?);
        }
    }
    Ok(last)
}

fn ended(last: TimePoint, now: i64) -> Option<Cause> {
    match last {
        TimePoint::At(end) => if end < now {
            Some(Cause::Ended(end))
        } else {
            None
        },
        _ => None,
    }
}

fn begins(first: TimePoint, now: i64) -> Option<Cause> {
    match first {
        TimePoint::At(begin) => if now < begin {
            Some(Cause::Begins(begin))
        } else {
            None
        },
        _ => None,
    }
}

// What a denial would say of a procap whose time is over, or not yet there.
fn time_cause(one: &Pass, now: i64) -> Option<Cause> {
    let (first, last) = match one.window() {
        Some(ends) => ends,
        None => return None,
    };
    match ended(last, now) {
        Some(cause) => Some(cause),
        None => begins(first, now),
    }
}

// The same of the procaps of the wallet for a goal: of the one with the latest end.
fn past<P: Ports + Drop>(client: &Client<P>, goal: &Goal) -> Option<Cause> {
    let now = client.ports.now();
    let mut best: Option<&Pass> = None;
    for one in &client.wallet.passes {
        if one.is_for(client.ports.server(), goal) && !one.holds_at(now) {
            best = Some(longer(best, one));
        }
    }
    match best {
        Some(one) => time_cause(one, now),
        None => None,
    }
}

/// A procap for a need that was not denied yet.
pub fn procap<P: Ports + Drop>(client: &mut Client<P>, need: &Need) -> Result<Pass, Stop> {
    let goal = client.goal(need);
    let now = client.ports.now();
    match held(client, &goal, now)? {
        Some(one) => Ok(one),
        None => win(client, need, None),
    }
}

// The numbers of statements that a proof may not cite: those that do not stand there, and these.
fn left_out<P: Ports + Drop>(client: &Client<P>, excluded: &[u32]) -> Result<Vec<u32>, NoMemory> {
    let mut numbers = Vec::from_slice(client.alloc, excluded)?;
    for one in &client.wallet.gone {
        if one.server.as_str() == client.ports.server() {
            numbers.push(one.number)?;
        }
    }
    Ok(numbers)
}

// Counts one more proof for a goal; false if there were as many as there may be.
fn count_proof<P: Ports + Drop>(client: &mut Client<P>, goal: Goal) -> Result<bool, NoMemory> {
    for one in client.tried.iter_mut() {
        if one.goal.is_same(&goal) {
            one.count = one.count.saturating_add(1);
            return Ok(one.count <= MOST_PROOFS);
        }
    }
    client.tried.push(Tried { goal, count: 1 })?;
    Ok(true)
}

fn too_many(alloc: Global, need: &Need) -> Stop {
    match too_many_words(alloc, need) {
        Ok(words) => Stop::NoRight(words),
        Err(_) => Stop::NoMemory,
    }
}

fn too_many_words(alloc: Global, need: &Need) -> Result<String, NoMemory> {
    let mut words = copied(alloc, "your right to ")?;
    words.push_str(permission_name(need.permission))?;
    words.push(' ')?;
    words.push_str(need.path.as_str())?;
    words.push_str(": 16 proofs were tried, and none was of use; ask for other statements")?;
    Ok(words)
}

// Notes that a statement that a proof cites does not stand.
fn leave_out<P: Ports + Drop>(client: &mut Client<P>, number: u32) -> Result<(), Stop> {
    let mut words = String::new(client.alloc);
    write!(words, "statement {number} does not stand at ")?;
    words.push_str(client.ports.server())?;
    words.push_str(" and is left out")?;
    client.ports.remark(words.as_str());
    client.change(Change::Gone(number))
}

// The procap of a proof; none if it cites a statement that does not stand, which is left out from then on.
fn verified<P: Ports + Drop>(
    client: &mut Client<P>,
    need: &Need,
    line: Bytes,
    numbers: &Numbers,
) -> Result<Option<Pass>, Stop>
    ensures { IfOk result (λ found. IfSome found (IsFor need.now)) }
{
    let (reply, _) = ask_given(client, line)?;
    match reply_of(reply.as_bytes()) {
        Reply::Absent(number) => {
            if !numbers.as_slice().contains(&number) {
                return Err(unknown_reply(client.alloc, reply.as_str()));
            }
            leave_out(client, number)?;
            Ok(None)
        }
        _ => Ok(Some(shown(client, need, numbers, reply.as_str())?)),
    }
}

// The procap of a proof, or that there is none.
fn proved<P: Ports + Drop>(
    client: &mut Client<P>,
    need: &Need,
    excluded: &[u32],
    span: Option<Span>,
) -> Result<Won, Stop>
    ensures { IfOk result (IsWonFor need.now) }
{
    let goal = client.goal(need);
    for _ in 0..MOST_PROOFS {
        if !count_proof(client, goal)? {
            break;
        }
        let without = left_out(client, excluded)?;
        match client.ports.prove(goal, without.as_slice(), span)? {
            Proof::NotFound(words) => return Ok(Won::None(words)),
            Proof::Found(line, numbers) => match verified(client, need, line, &numbers)? {
                Some(pass) => return Ok(Won::Procap(pass)),
                None => {}
            },
        }
    }
    Err(too_many(client.alloc, need))
}

// The text of a word.
fn word_text(alloc: Global, word: &[u8]) -> Result<String, NoMemory> {
    match std::str::from_utf8(word) {
        Ok(word) => copied(alloc, word),
        Err(_) => Ok(String::new(alloc)),
    }
}

// The word of the procap that a reply shows, and the procap; none if it shows none.
fn shown_procap(alloc: Global, reply: &str) -> Result<Option<(String, Procap)>, NoMemory> {
    let word = match reply_of(reply.as_bytes()) {
        Reply::Done(rest) => rest_after(rest, b"procap "),
        _ => None,
    };
    let word = match word {
        Some(word) => word,
        None => return Ok(None),
    };
    match procap_of_hex(alloc, word)? {
        Some(procap) => {
            let text = word_text(alloc, word)?;
            Ok(Some((text, procap)))
        }
        None => Ok(None),
    }
}

// The procap of the need, by its word.
fn pass_of<P: Ports + Drop>(
    client: &Client<P>,
    need: &Need,
    numbers: &Numbers,
    word: String,
    procap: Procap,
) -> Result<Pass, NoMemory>
    ensures { IfOk result (IsFor need.now) }
{
    let alloc = client.alloc;
    let server = copied(alloc, client.ports.server())?;
    let numbers = numbers.copy(alloc)?;
    let path = copied(alloc, need.path.as_str())?;
    Ok(Pass {
        server,
        goal: client.goal(need),
        numbers,
        path,
        word,
        procap,
    })
}

// The reply to the line that asks for the procap of the issue of this number.
fn issue_reply<P: Ports + Drop>(client: &mut Client<P>, issue: u64) -> Result<String, Stop> {
    let line = line_of(client.alloc, &Line::Command(Command::Procap(issue)))?;
    let (reply, _) = ask(client, line)?;
    Ok(reply)
}

// The procap of the issue of this number.
fn issued<P: Ports + Drop>(
    client: &mut Client<P>,
    need: &Need,
    numbers: &Numbers,
    issue: u64,
) -> Result<Pass, Stop>
    ensures { IfOk result (IsFor need.now) }
{
    let reply = issue_reply(client, issue)?;
    match shown_procap(client.alloc, reply.as_str())? {
        Some((word, procap)) => Ok(pass_of(client, need, numbers, word, procap)?),
        None => Err(unknown_reply(client.alloc, reply.as_str())),
    }
}

// The procap of the issue in this reply.
fn shown<P: Ports + Drop>(
    client: &mut Client<P>,
    need: &Need,
    numbers: &Numbers,
    reply: &str,
) -> Result<Pass, Stop>
    ensures { IfOk result (IsFor need.now) }
{
    let issue = match reply_of(reply.as_bytes()) {
        Reply::Done(rest) => issue_of(rest),
        _ => return Err(not_verified(client.alloc, reply, need.permission, need.path.as_str())),
    };
    match issue {
        Some(issue) => issued(client, need, numbers, issue),
        None => Err(unknown_reply(client.alloc, reply)),
    }
}

// Puts a procap that was won into the wallet.
fn keep<P: Ports + Drop>(client: &mut Client<P>, pass: Pass) -> Result<Pass, Stop>
    ensures { IfOk result (λ kept. kept ≡ pass) }
{
    client.change(Change::Add(&pass))?;
    Ok(pass)
}

// The statements of the user's list that are left out, after these words.
fn with_left_out<P: Ports + Drop>(client: &Client<P>, words: String) -> Result<String, NoMemory> {
    let mut text = words;
    let mut between = " (left out: ";
    let mut end = "";
    for one in &client.wallet.gone {
        if one.server.as_str() == client.ports.server() && client.ports.is_listed(one.number) {
            let number = one.number;
            write!(text, "{between}{number}")?;
            between = ", ";
            end = ", which the server says do not stand)";
        }
    }
    text.push_str(end)?;
    Ok(text)
}

// That there is no proof: after what was denied, if something was.
fn none<P: Ports + Drop>(
    client: &Client<P>,
    need: &Need,
    last: Option<Cause>,
    words: String,
) -> Stop {
    match none_words(client, need, last, words) {
        Ok(words) => Stop::NoRight(words),
        Err(_) => Stop::NoMemory,
    }
}

fn none_words<P: Ports + Drop>(
    client: &Client<P>,
    need: &Need,
    last: Option<Cause>,
    words: String,
) -> Result<String, NoMemory> {
    let alloc = client.alloc;
    let why = with_left_out(client, words)?;
    match last {
        Some(cause) => {
            let denied = cause.words(alloc, need.permission, need.path.as_str())?;
            joined(
                alloc,
                &[denied.as_str(), "; there is no other: ", why.as_str()],
            )
        }
        None => {
            let what = numbered(alloc, need.path.as_str(), need.node)?;
            joined(
                alloc,
                &[
                    "you have no right to ",
                    permission_name(need.permission),
                    " ",
                    what.as_str(),
                    ": ",
                    why.as_str(),
                ],
            )
        }
    }
}

fn denied_so(alloc: Global, need: &Need, cause: &Cause) -> Stop {
    match cause.words(alloc, need.permission, need.path.as_str()) {
        Ok(words) => Stop::NoRight(words),
        Err(_) => Stop::NoMemory,
    }
}

// Another procap than one that was denied, by a proof without one of the statements that its proof cites.
fn win_otherwise<P: Ports + Drop>(
    client: &mut Client<P>,
    need: &Need,
    numbers: &Numbers,
    cause: Cause,
    span: Option<Span>,
) -> Result<Pass, Stop>
    ensures { IfOk result (IsFor need.now) }
{
    let mut last = cause;
    if last.is_of_proof() {
        for number in numbers.as_slice() {
            match proved(client, need, &[*number], span)? {
                Won::Procap(pass) => match cause_of(client, pass.word.as_str())? {
                    Some(cause) => last = cause,
                    None => return keep(client, pass),
                },
                Won::None(_) => {}
            }
        }
    }
    Err(denied_so(client.alloc, need, &last))
}

/// A new procap for a need, by a proof from the statements that stand.
pub fn win<P: Ports + Drop>(
    client: &mut Client<P>,
    need: &Need,
    span: Option<Span>,
) -> Result<Pass, Stop>
    ensures { IfOk result (IsFor need.now) }
{
    let goal = client.goal(need);
    let last = match last_denial(client, &goal)? {
        Some(cause) => Some(cause),
        None => past(client, &goal),
    };
    match proved(client, need, &[], span)? {
        Won::None(words) => Err(none(client, need, last, words)),
        Won::Procap(pass) => match cause_of(client, pass.word.as_str())? {
            Some(cause) => win_otherwise(client, need, &pass.numbers, cause, span),
            None => keep(client, pass),
        },
    }
}

/// The procap of a line `verify` that somebody wrote.
pub fn by_line<P: Ports + Drop>(
    client: &mut Client<P>,
    need: &Need,
    line: Bytes,
    numbers: &Numbers,
) -> Result<Pass, Stop>
    ensures { IfOk result (IsFor need.now) }
{
    let (reply, _) = ask_given(client, line)?;
    let pass = shown(client, need, numbers, reply.as_str())?;
    keep(client, pass)
}
