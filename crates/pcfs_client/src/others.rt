//! Lines for others, and what a procap grants.

use crate::describing::name_text;
use crate::nodes::principal_of;
use crate::policies::statement_in;
use bl_syntax::{Bytes, Grant, NoMemory};
use bl_text::{print_constraint, print_state};
use client_commands::Signing;
use client_folder::home::read_key;
use client_folder::local_files::read_text;
use client_folder::messages::{ended, joined, put, put_line};
use client_replies::permission_name;
use client_session::{login_line, nonce_of, signed_statement, signed_withdrawal};
use client_words::{BAD_WORDS, NO_FILE, Stop};
use line_text::read_hex;
use line_words::procap_of_hex;
use pcfs_secrets::{SecretFault, Secrets};
use procap::{Procap, genuine, write_procap};
use std::alloc::Global;

fn put_bytes(rt: &HostRuntime, line: Bytes) -> Result<(), Stop> {
    let mut line = line;
    line.push(b'\n')?;
    put(rt, line.as_slice())
}

fn login_for(rt: &HostRuntime, key: &str, name: &str, digits: &str) -> Result<Bytes, Stop> {
    let alloc = rt.alloc();
    let who = principal_of(rt, name)?;
    let greeting = joined(alloc, &["hello ", digits])?;
    let nonce = match nonce_of(alloc, greeting.as_bytes())? {
        Some(nonce) => nonce,
        None => return Err(ended(
            alloc,
            BAD_WORDS,
            &["sign: wanted statement TEXT, withdrawal NUMBER TEXT, or login NAME NONCE"],
        )),
    };
    let key = read_key(rt, key, name)?;
    Ok(login_line(alloc, &who, key.as_slice(), &nonce)?)
}

/// Prints a line with a signature, for whoever brings it.
pub fn sign(rt: &HostRuntime, key: Option<&str>, what: &Signing) -> Result<(), Stop> {
    let alloc = rt.alloc();
    let key = match key {
        Some(key) => key,
        None => return Err(ended(
            alloc,
            BAD_WORDS,
            &["sign: --key FILE is missing, the file with the key of who signs"],
        )),
    };
    let line = match what {
        Signing::Statement(text) => {
            let statement = statement_in(alloc, text.as_str())?;
            let key = read_key(rt, key, name_text(statement.who()))?;
            signed_statement(alloc, statement, key.as_slice())?
        }
        Signing::Withdrawal(number, text) => {
            let statement = statement_in(alloc, text.as_str())?;
            let key = read_key(rt, key, name_text(statement.who()))?;
            signed_withdrawal(alloc, *number, &statement, key.as_slice())?
        }
        Signing::Login(name, digits) => login_for(rt, key, name.as_str(), digits.as_str())?,
    };
    put_bytes(rt, line)
}

// Who may do what, in the first line of what a procap grants.
fn goal_line(alloc: Global, grant: &Grant) -> Result<String, NoMemory> {
    let goal = grant.goal();
    let who = name_text(&goal.who);
    let permission = permission_name(goal.perm);
    let node = goal.file.0;
    Ok(format!(in alloc; "{who} may {permission} #{node} while")?)
}

// The numbers of statements that a grant names, in a line.
fn put_cited(alloc: Global, out: &mut Bytes, numbers: &[u32]) -> Result<(), NoMemory> {
    let mut line = String::from_str(alloc, "by statements")?;
    for number in numbers {
        let number = *number;
        write!(line, " {number}")?;
    }
    line.push('\n')?;
    out.extend(line.as_bytes())
}

// The conditions of a grant, one a line, and the statements that it names.
fn put_grant(alloc: Global, out: &mut Bytes, grant: &Grant) -> Result<(), NoMemory> {
    for condition in grant.times() {
        out.extend(b"  ".as_slice())?;
        print_constraint(condition, out)?;
        out.push(b'\n')?;
    }
    for condition in grant.states() {
        out.extend(b"  ".as_slice())?;
        print_state(condition, out)?;
        out.push(b'\n')?;
    }
    if grant.cited().is_empty() {
        return Ok(());
    }
    put_cited(alloc, out, grant.cited())
}

// Whether the procap, written again, has the bytes of the word.
fn is_same_again(alloc: Global, procap: &Procap, word: &str) -> Result<bool, NoMemory> {
    let mut bytes = Bytes::new(alloc);
    write_procap(procap, &mut bytes)?;
    match read_hex(alloc, word.as_bytes())? {
        Some(given) => Ok(given.as_slice() == bytes.as_slice()),
        None => Ok(false),
    }
}

fn secrets_in(rt: &HostRuntime, path: &str) -> Result<Secrets, Stop> {
    let alloc = rt.alloc();
    let text = read_text(rt, path, "secrets")?;
    match Secrets::parse(alloc, text.as_bytes()) {
        Ok(secrets) => Ok(secrets),
        Err(SecretFault::NoMemory) => Err(Stop::NoMemory),
        Err(SecretFault::BadLine(place)) => {
            let mut words = joined(alloc, &["secrets ", path])?;
            write!(words, ": line {place} is bad")?;
            Err(Stop::Ended(NO_FILE, words))
        }
    }
}

// Whether the seal of a procap is that of a secrets file.
fn put_seal(rt: &HostRuntime, procap: &Procap, path: &str) -> Result<(), Stop> {
    let secrets = secrets_in(rt, path)?;
    if genuine(procap, secrets.seal_key.as_slice()) {
        put_line(rt, "seal: right")
    } else {
        put_line(rt, "seal: wrong")
    }
}

/// Prints what a procap grants, and whether its seal is that of a secrets file.
pub fn show(rt: &HostRuntime, word: &str, secrets: Option<&str>) -> Result<(), Stop> {
    let alloc = rt.alloc();
    let procap = match procap_of_hex(alloc, word.as_bytes())? {
        Some(procap) => procap,
        None => return Err(ended(
            alloc,
            BAD_WORDS,
            &["no procap: these are not the bytes of one, in hexadecimal"],
        )),
    };
    let first = goal_line(alloc, &procap.grant)?;
    put_line(rt, first.as_str())?;
    let mut text = Bytes::new(alloc);
    put_grant(alloc, &mut text, &procap.grant)?;
    put(rt, text.as_slice())?;
    let bytes = if is_same_again(alloc, &procap, word)? {
        "written again: the same bytes"
    } else {
        "written again: other bytes"
    };
    put_line(rt, bytes)?;
    match secrets {
        Some(path) => put_seal(rt, &procap, path),
        None => Ok(()),
    }
}
