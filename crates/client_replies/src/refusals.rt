//! Refusals in words: what is wrong, and what to do.

use crate::reply::{Reply, reply_of};
use bl_syntax::{NoMemory, Perm};
use bl_text::TextFault;
use client_words::{
    NO_LOGIN, NO_RIGHT, NO_SERVER, REFUSED, Refusal, SERVER_FAILS, Stop, put_quoted,
};
use proof_verifier::CheckFault;
use std::alloc::Global;

/// The most letters of a reply that are shown.
const MOST_SHOWN: usize = 200;

/// The name of a permission.
pub fn permission_name(permission: Perm) -> &'static str {
    match permission {
        Perm::Read => "read",
        Perm::Write => "write",
        Perm::Execute => "execute",
        Perm::Identity => "identity",
        Perm::Govern => "govern",
    }
}

// A stop with this status and these words.
fn ended(alloc: Global, status: u8, words: &str) -> Stop {
    match String::from_str(alloc, words) {
        Ok(words) => Stop::Ended(status, words),
        Err(_) => Stop::NoMemory,
    }
}

fn stop_of(status: u8, words: Result<String, NoMemory>) -> Stop {
    match words {
        Ok(words) => Stop::Ended(status, words),
        Err(_) => Stop::NoMemory,
    }
}

// The words about what was asked for.
fn about(alloc: Global, what: &str, words: &str) -> Result<String, NoMemory> {
    let mut out = String::from_str(alloc, what)?;
    out.push_str(": ")?;
    out.push_str(words)?;
    Ok(out)
}

fn refused_words(number: u64) -> Option<&'static str> {
    match number {
        1 => Some("no such file or directory any more"),
        2 => Some("is not a directory"),
        3 => Some("is a directory"),
        4 => Some("no such file or directory"),
        5 => Some("exists already; remove it first, or take another name"),
        6 => Some("is a directory with names in it; remove those first"),
        7 => Some("a name has 1 to 64 of A-Z a-z 0-9 _ . - and is neither . nor .."),
        8 => Some("a file holds at most 1048576 bytes"),
        9 => Some(
            "the server has no room for more: 16384 files and directories, 32 MiB in all; remove some",
        ),
        10 => Some("a directory cannot be moved into itself"),
        11 => Some("has no such attribute"),
        12 => Some("has 32 attributes, which is the most; remove one first"),
        13 => Some("an attribute's name has 1 to 64 of a-z 0-9 _ . and begins with a letter"),
        _ => None,
    }
}

fn unknown_refusal(alloc: Global, number: u64, what: &str) -> Result<String, NoMemory> {
    let mut out = about(
        alloc,
        what,
        "the server refuses, by a cause that this client does not know: refused ",
    )?;
    write!(out, "{number}")?;
    Ok(out)
}

/// That the server refuses, by this number, what was asked for; and whether that may have been done before.
pub fn refusal(alloc: Global, number: u64, what: &str, again: bool) -> Stop {
    let words = match refused_words(number) {
        Some(words) => words,
        None => return stop_of(REFUSED, unknown_refusal(alloc, number, what)),
    };
    match (about(alloc, what, words), u8::try_from(number)) {
        (Ok(words), Ok(number)) => Stop::Refused(Refusal {
            number,
            again,
            words,
        }),
        _ => Stop::NoMemory,
    }
}

fn unknown_words(alloc: Global, line: &str) -> Result<String, NoMemory> {
    let mut out = String::from_str(alloc, "the server answers what this client does not know: ")?;
    let shown: String = line.chars().take(MOST_SHOWN).collect(alloc)?;
    put_quoted(&mut out, shown.as_str())?;
    Ok(out)
}

/// That a reply has no meaning here.
pub fn unknown_reply(alloc: Global, line: &str) -> Stop {
    stop_of(NO_SERVER, unknown_words(alloc, line))
}

/// The end that a reply means, whatever was asked; none, if it means none by itself.
pub fn failing(alloc: Global, line: &str) -> Option<Stop> {
    match reply_of(line.as_bytes()) {
        Reply::Full => Some(ended(
            alloc,
            SERVER_FAILS,
            "the server's store is full; ask its operator for a checkpoint",
        )),
        Reply::Stopped => Some(ended(
            alloc,
            SERVER_FAILS,
            "the server's disk failed, and whether this was done is not known; ask its operator",
        )),
        Reply::NoMemory => Some(ended(
            alloc,
            SERVER_FAILS,
            "the server has no memory for this now, and nothing was done; try again",
        )),
        Reply::Rejected(4) => Some(ended(
            alloc,
            NO_LOGIN,
            "the server says that nobody has logged in",
        )),
        _ => None,
    }
}

/// Why a statement is not registered.
pub fn not_registered(alloc: Global, line: &str) -> Stop {
    match reply_of(line.as_bytes()) {
        Reply::Rejected(1) => ended(
            alloc,
            NO_RIGHT,
            "the server does not accept the signature from who says this: is it the right key, and does the server have it?",
        ),
        Reply::Rejected(2) => ended(
            alloc,
            SERVER_FAILS,
            "the server has 4096 statements, which is the most",
        ),
        _ => bad_reply(alloc, line),
    }
}

// The fault of a text that has this number in a reply, at this byte of the text.
fn text_fault(number: u64, byte: u64) -> Option<TextFault> {
    let at = match usize::try_from(byte) {
        Ok(at) => at,
        Err(_) => return None,
    };
    match number {
        1 => Some(TextFault::Unexpected(at)),
        2 => Some(TextFault::UnknownName(at)),
        3 => Some(TextFault::BadDate(at)),
        4 => Some(TextFault::Sort(at)),
        5 => Some(TextFault::TooLarge(at)),
        _ => None,
    }
}

fn bad_text_words(alloc: Global, fault: TextFault) -> Result<String, NoMemory> {
    Ok(format!(in alloc; "the text is wrong: {fault}")?)
}

fn other_version(alloc: Global, line: &str) -> Result<String, NoMemory> {
    let mut out = String::from_str(alloc, "the server does not take this line (")?;
    out.push_str(line)?;
    out.push_str("): it may be of another version")?;
    Ok(out)
}

/// What a reply `bad ..` says; or that the reply has no meaning here.
pub fn bad_reply(alloc: Global, line: &str) -> Stop {
    match reply_of(line.as_bytes()) {
        Reply::BadText(number, byte) => match text_fault(number, byte) {
            Some(fault) => stop_of(REFUSED, bad_text_words(alloc, fault)),
            None => unknown_reply(alloc, line),
        },
        Reply::TooLong => ended(
            alloc,
            REFUSED,
            "the line is too long for the server: at most 262144 bytes",
        ),
        Reply::BadLine | Reply::BadForm(_) => stop_of(REFUSED, other_version(alloc, line)),
        _ => unknown_reply(alloc, line),
    }
}

// The fault of a proof that has this number in a reply, at this node of the proof.
fn proof_fault(number: u64, node: u64) -> Option<CheckFault> {
    let at = match usize::try_from(node) {
        Ok(at) => at,
        Err(_) => return None,
    };
    match number {
        1 => Some(CheckFault::NoHypothesis(at)),
        2 => Some(CheckFault::WrongShape(at)),
        3 => Some(CheckFault::NotEntailed(at)),
        4 => Some(CheckFault::NotInState(at)),
        5 => Some(CheckFault::ViewTooWeak(at)),
        6 => Some(CheckFault::BadTerm(at)),
        7 => Some(CheckFault::TooManyConditions(at)),
        _ => None,
    }
}

// Writes what a proof is refused for.
fn put_proof_fault(out: &mut String, number: u64, node: u64) -> Result<(), NoMemory> {
    match proof_fault(number, node) {
        Some(fault) => write!(out, "{fault}")?,
        None => write!(out, "at node {node}, it has the fault {number}")?,
    }
    Ok(())
}

fn unproved_words(
    alloc: Global,
    number: u64,
    node: u64,
    permission: Perm,
    what: &str,
) -> Result<String, NoMemory> {
    let mut out = String::from_str(alloc, "the server does not accept the proof to ")?;
    out.push_str(permission_name(permission))?;
    out.push(' ')?;
    out.push_str(what)?;
    out.push_str(": ")?;
    put_proof_fault(&mut out, number, node)?;
    Ok(out)
}

fn absent_words(alloc: Global, number: u32) -> Result<String, NoMemory> {
    let mut out = String::new(alloc);
    write!(
        out,
        "statement {number} does not stand at the server: it was withdrawn, or is not from there; ask who said it for another"
    )?;
    Ok(out)
}

fn no_right(words: Result<String, NoMemory>) -> Stop {
    match words {
        Ok(words) => Stop::NoRight(words),
        Err(_) => Stop::NoMemory,
    }
}

/// Why a proof is not accepted.
pub fn not_verified(alloc: Global, line: &str, permission: Perm, what: &str) -> Stop {
    match reply_of(line.as_bytes()) {
        Reply::Unproved(number, node) => no_right(unproved_words(
            alloc, number, node, permission, what,
        )),
        Reply::Absent(number) => no_right(absent_words(alloc, number)),
        _ => bad_reply(alloc, line),
    }
}
