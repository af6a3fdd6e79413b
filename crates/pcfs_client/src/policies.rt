//! Commands for statements and procaps.

use crate::describing::{described, name_text, pass_line};
use crate::user::User;
use bl_syntax::{Bytes, NoMemory, NodeId, Numbers, Perm, Statement, TimePoint, copy_bytes};
use bl_text::{TextFault, parse_statement, parse_time};
use client_folder::home::{Home, read_key, second_now, statements_in};
use client_folder::local_files::{ascii_text, read_file};
use client_folder::messages::{ended, joined, put_line};
use client_home::{Numbered, signed_text};
use client_replies::{Reply, not_registered, permission_name, reply_of, statement_of};
use client_session::{Dialer, Session, signed_statement, signed_withdrawal};
use client_tree::{Client, Need, Span, by_line, node, win};
use client_words::{BAD_LINE, BAD_WORDS, NO_RIGHT, Place, Stop, statement_number};
use std::alloc::Global;

fn text_fault_words(alloc: Global, fault: TextFault) -> Result<String, NoMemory> {
    let (place, what) = match fault {
        TextFault::Unexpected(at) => (at, "this is not expected here"),
        TextFault::UnknownName(at) => (at, "no variable has this name"),
        TextFault::BadDate(at) => (at, "no such date"),
        TextFault::Sort(at) => (at, "this is of another sort than is wanted here"),
        TextFault::TooLarge(at) => (at, "the text is too large from here on"),
        TextFault::NoMemory => return Err(NoMemory),
    };
    let mut words = String::new(alloc);
    write!(words, "no statement: wrong at byte {place}: {what}")?;
    Ok(words)
}

fn is_printed(text: &str) -> bool {
    text.as_bytes()
        .iter()
        .all(|byte| b' ' <= *byte && *byte <= b'~')
}

/// The statement of a text. It is read whole, since its bytes are signed.
pub fn statement_in(alloc: Global, text: &str) -> Result<Statement, Stop> {
    if !is_printed(text) {
        return Err(ended(
            alloc,
            BAD_LINE,
            &["the statement has bytes that are no ASCII text on one line"],
        ));
    }
    match parse_statement(alloc, text.as_bytes()) {
        Ok(statement) => Ok(statement),
        Err(fault) => Err(Stop::Ended(BAD_LINE, text_fault_words(alloc, fault)?)),
    }
}

// The key of who says it: one that is named, or the user's own.
fn key_for<'a>(
    user: &User<'a>,
    signer: Option<&str>,
    statement: &Statement,
) -> Result<Bytes, Stop> {
    let alloc = user.rt.alloc();
    let who = name_text(statement.who());
    match signer {
        Some(path) => return read_key(user.rt, path, who),
        None => {}
    }
    let name = user.session.name();
    if statement.who().is_same(&name) {
        return Ok(copy_bytes(alloc, user.session.key())?);
    }
    Err(ended(
        alloc,
        BAD_WORDS,
        &[
            who,
            " says this, and you are ",
            name_text(&name),
            ": name the file with the key of ",
            who,
            " by --signer, or bring a signed line",
        ],
    ))
}

// The reply to a line; and whether the line may have been done before.
fn ask<D: Dialer + Drop>(
    alloc: Global,
    session: &mut Session<D>,
    line: Bytes,
) -> Result<(String, bool), Stop> {
    let mut lines = Vec::new(alloc);
    lines.push(line)?;
    let replies = session.ask_all(lines.as_slice())?;
    match replies.lines.first() {
        Some(reply) => Ok((String::from_str(alloc, reply.as_str())?, replies.again)),
        None => Err(not_registered(alloc, "")),
    }
}

/// Registers a statement by its line. Its number, also if it was there before.
pub fn bring<D: Dialer + Drop>(
    alloc: Global,
    session: &mut Session<D>,
    line: Bytes,
) -> Result<u32, Stop> {
    let (reply, _) = ask(alloc, session, line)?;
    let number = match reply_of(reply.as_bytes()) {
        Reply::Done(rest) => statement_of(rest),
        Reply::Known(number) => Some(number),
        _ => None,
    };
    match number {
        Some(number) => Ok(number),
        None => Err(not_registered(alloc, reply.as_str())),
    }
}

fn keep(rt: &HostRuntime, home: &Home, number: u32, text: &str) -> Result<(), Stop> {
    let alloc = rt.alloc();
    let mut more = Vec::new(alloc);
    more.push(Numbered {
        number,
        text: joined(alloc, &[text])?,
    })?;
    home.add_statements(rt, more.as_slice(), &[])
}

/// Brings a line that was signed, and keeps its statement.
pub fn bring_signed<D: Dialer + Drop>(
    rt: &HostRuntime,
    home: &Home,
    session: &mut Session<D>,
    line: &str,
    text: &str,
) -> Result<u32, Stop> {
    let bytes = copy_bytes(rt.alloc(), line.as_bytes())?;
    let number = bring(rt.alloc(), session, bytes)?;
    keep(rt, home, number, text)?;
    Ok(number)
}

fn put_number(rt: &HostRuntime, number: u32, text: &str) -> Result<(), Stop> {
    let mut line = String::new(rt.alloc());
    write!(line, "statement {number}: ")?;
    line.push_str(text)?;
    put_line(rt, line.as_str())
}

// Registers a statement, or brings a signed line.
fn register_one<'a>(user: &mut User<'a>, text: &str, signer: Option<&str>) -> Result<(), Stop> {
    let rt = user.rt;
    let alloc = rt.alloc();
    match signed_text(text) {
        Some(said) => {
            let number = bring_signed(rt, &user.home, &mut user.session, text, said)?;
            return put_number(rt, number, said);
        }
        None => {}
    }
    let statement = statement_in(alloc, text)?;
    let key = key_for(user, signer, &statement)?;
    let line = signed_statement(alloc, statement, key.as_slice())?;
    let number = bring(alloc, &mut user.session, line)?;
    keep(rt, &user.home, number, text)?;
    put_number(rt, number, text)
}

/// Signs statements and registers them, or brings lines that others signed.
pub fn register<'a>(
    client: &mut Client<User<'a>>,
    text: Option<&str>,
    file: Option<&str>,
    signer: Option<&str>,
) -> Result<(), Stop> {
    let rt = client.ports.rt;
    match text {
        Some(text) => return register_one(&mut client.ports, text, signer),
        None => {}
    }
    let path = match file {
        Some(path) => path,
        None => "-",
    };
    let bytes = read_file(rt, path)?;
    let text = ascii_text(rt, bytes.as_slice(), path)?;
    for line in text.lines() {
        if !line.trim().is_empty() {
            register_one(&mut client.ports, line, signer)?;
        }
    }
    Ok(())
}

fn about_statement(alloc: Global, status: u8, number: u32, words: &str) -> Stop {
    let mut text = String::new(alloc);
    match write!(text, "statement {number}{words}") {
        Ok(()) => Stop::Ended(status, text),
        Err(_) => Stop::NoMemory,
    }
}

fn not_withdrawn(alloc: Global, number: u32, reply: &str, again: bool) -> Option<Stop> {
    match reply_of(reply.as_bytes()) {
        Reply::Done(rest) if rest.is_empty() => None,
        Reply::Absent(absent) if absent == number => {
            if again {
                return None;
            }
            Some(about_statement(
                alloc,
                NO_RIGHT,
                number,
                " does not stand at the server: it was withdrawn before, or is not from there",
            ))
        }
        Reply::Rejected(1) => Some(not_accepted(alloc, number)),
        _ => Some(not_registered(alloc, reply)),
    }
}

fn not_accepted(alloc: Global, number: u32) -> Stop {
    let mut text = String::new(alloc);
    match write!(
        text,
        "the server does not accept this as a withdrawal of statement {number}: is it its text, and the right key?"
    ) {
        Ok(()) => Stop::Ended(NO_RIGHT, text),
        Err(_) => Stop::NoMemory,
    }
}

// The text of the statement of this number in the user's list.
fn text_of<'a>(user: &User<'a>, number: u32) -> Result<String, Stop> {
    let alloc = user.rt.alloc();
    for one in &user.list {
        if one.number == number {
            return Ok(joined(alloc, &[one.text.as_str()])?);
        }
    }
    Err(about_statement(
        alloc,
        BAD_WORDS,
        number,
        " is not in your list; name its text after the number",
    ))
}

/// Takes a statement back.
pub fn withdraw<'a>(
    client: &mut Client<User<'a>>,
    number: u32,
    text: Option<&str>,
    signer: Option<&str>,
) -> Result<(), Stop> {
    let rt = client.ports.rt;
    let alloc = rt.alloc();
    let text = match text {
        Some(text) => joined(alloc, &[text])?,
        None => text_of(&client.ports, number)?,
    };
    let statement = statement_in(alloc, text.as_str())?;
    let key = key_for(&client.ports, signer, &statement)?;
    let line = signed_withdrawal(alloc, number, &statement, key.as_slice())?;
    let (reply, again) = ask(alloc, &mut client.ports.session, line)?;
    match not_withdrawn(alloc, number, reply.as_str(), again) {
        Some(stop) => return Err(stop),
        None => {}
    }
    client.ports.home.add_statements(rt, &[], &[number])?;
    let mut said = String::new(alloc);
    write!(said, "statement {number} is withdrawn")?;
    put_line(rt, said.as_str())
}

// Takes the statements of a file into the user's list.
fn take_in(rt: &HostRuntime, home: &Home, path: &str) -> Result<(), Stop> {
    let list = statements_in(rt, path)?;
    if !list.signed.is_empty() {
        return Err(ended(
            rt.alloc(),
            BAD_LINE,
            &[
                "statements ",
                path,
                ": has signed lines, which are taken to the server: pcfs-client register --file ",
                path,
            ],
        ));
    }
    home.add_statements(rt, list.numbered.as_slice(), &[])
}

// The line of a statement with its number.
fn numbered_line(alloc: Global, one: &Numbered) -> Result<String, NoMemory> {
    let mut line = String::new(alloc);
    let number = one.number;
    write!(line, "{number} ")?;
    line.push_str(one.text.as_str())?;
    Ok(line)
}

/// Shows the user's list, or takes in more.
pub fn statements(
    rt: &HostRuntime,
    home: &Home,
    file: Option<&str>,
    dropped: &[u32],
) -> Result<(), Stop> {
    match file {
        Some(path) => take_in(rt, home, path)?,
        None => {}
    }
    if !dropped.is_empty() {
        home.add_statements(rt, &[], dropped)?;
    }
    for one in &home.statements(rt)? {
        let line = numbered_line(rt.alloc(), one)?;
        put_line(rt, line.as_str())?;
    }
    Ok(())
}

fn second_of(alloc: Global, option: &str, word: &str) -> Result<i64, Stop> {
    match parse_time(word.as_bytes()) {
        Ok(TimePoint::At(second)) => Ok(second),
        _ => Err(ended(
            alloc,
            BAD_WORDS,
            &[option, " ", word, ": wanted a second or a date"],
        )),
    }
}

/// From when to when a procap has to hold, by the words for it.
pub fn span_of(
    rt: &HostRuntime,
    at: Option<&str>,
    until: Option<&str>,
) -> Result<Option<Span>, Stop> {
    let alloc = rt.alloc();
    let from = match at {
        Some(word) => second_of(alloc, "--at", word)?,
        None => second_now(rt),
    };
    match until {
        Some(word) => Ok(Some(Span {
            from,
            to: second_of(alloc, "--until", word)?,
        })),
        None => match at {
            Some(_) => Ok(Some(Span { from, to: from })),
            None => Ok(None),
        },
    }
}

// The front of the line `verify` for a need.
fn wanted_front<'a>(client: &Client<User<'a>>, need: &Need) -> Result<String, NoMemory> {
    let name = client.ports.session.name();
    let who = name_text(&name);
    let permission = permission_name(need.permission);
    let node = need.node.0;
    let alloc = client.alloc;
    Ok(format!(in alloc; "verify {who} #{node} {permission} ")?)
}

fn numbers_in(alloc: Global, word: &str) -> Result<Option<Numbers>, NoMemory> {
    let mut numbers = Numbers::new(alloc);
    for digits in word.split(',') {
        match statement_number(digits.as_bytes()) {
            Some(number) => numbers.push(number)?,
            None => return Ok(None),
        }
    }
    Ok(Some(numbers))
}

// The numbers of the statements that a line `verify` with this front cites; none if it is no such line.
fn cited_in(alloc: Global, front: &str, line: &str) -> Result<Option<Numbers>, NoMemory> {
    let rest = match line.strip_prefix(front) {
        Some(rest) => rest,
        None => return Ok(None),
    };
    match rest.split_once(' ') {
        Some((word, proof)) if !proof.is_empty() && is_printed(proof) => numbers_in(alloc, word),
        _ => Ok(None),
    }
}

fn win_by_line<'a>(
    client: &mut Client<User<'a>>,
    need: &Need,
    line: &str,
) -> Result<client_home::Pass, Stop> {
    let alloc = client.alloc;
    let front = wanted_front(client, need)?;
    match cited_in(alloc, front.as_str(), line)? {
        Some(numbers) => by_line(client, need, copy_bytes(alloc, line.as_bytes())?, &numbers),
        None => Err(ended(
            alloc,
            BAD_WORDS,
            &["--line: wanted the line ", front.as_str(), "NUMBERS PROOF"],
        )),
    }
}

/// What `prove` is asked for besides the permission and the path.
#[derive(Clone, Copy)]
pub struct Proving<'b> {
    pub at: Option<&'b str>,
    pub until: Option<&'b str>,
    pub line: Option<&'b str>,
}

/// Wins a procap.
pub fn prove<'a>(
    client: &mut Client<User<'a>>,
    permission: Perm,
    path: &str,
    how: Proving<'_>,
) -> Result<(), Stop> {
    let rt = client.ports.rt;
    let alloc = rt.alloc();
    let place = Place::of(alloc, path)?;
    let span = span_of(rt, how.at, how.until)?;
    let node = node(client, &place)?;
    let shown = place.shown(alloc)?;
    let need = Need::new(alloc, permission, node, shown.as_str())?;
    let pass = match how.line {
        Some(line) => win_by_line(client, &need, line)?,
        None => win(client, &need, span)?,
    };
    put_won(rt, permission, shown.as_str(), node, &pass)
}

fn put_won(
    rt: &HostRuntime,
    permission: Perm,
    path: &str,
    node: NodeId,
    pass: &client_home::Pass,
) -> Result<(), Stop> {
    let alloc = rt.alloc();
    let words = described(alloc, pass, second_now(rt))?;
    let words = words.as_str();
    let permission = permission_name(permission);
    let number = node.0;
    let line = format!(in alloc; "you may {permission} {path} (#{number}) {words}")?;
    put_line(rt, line.as_str())
}

/// Shows the procaps, or throws all away.
pub fn procaps(rt: &HostRuntime, home: &Home, clear: bool) -> Result<(), Stop> {
    if clear {
        home.clear(rt)?;
    }
    let alloc = rt.alloc();
    let now = second_now(rt);
    let wallet = home.wallet(rt)?;
    let mut lines: Vec<String> = Vec::new(alloc);
    for pass in &wallet.passes {
        lines.push(pass_line(alloc, pass, now)?)?;
    }
    lines.sort()?;
    for line in &lines {
        put_line(rt, line.as_str())?;
    }
    Ok(())
}
