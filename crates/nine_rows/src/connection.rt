//! A connection: each message of a row is answered, or it is printed what is asked of a store for it.

ghost use Rattle.nine_messages.specs.Requests.{IsMessage};
ghost use Rattle.nine_messages.specs.Views.{message_view};
ghost use Rattle.nine_fids.specs.Fids.{HasRoomFor};

use crate::Stop;
use crate::replies::print_reply;
use crate::rows::{bytes_of, word};
use bl_syntax::{Bytes, NodeId, Principal};
use nine_fids::{Connection, FidFile, NineError, Step};
use nine_messages::{Message, Next, Reply, Request, next_message};
use procap::Procap;

/// Prints what comes of each message of a row, whose second word is each byte of the nonce.
pub(crate) fn run_connection<R: Print + AllocGlobal>(rt: &R, row: &str) -> Result<(), Stop> {
    let byte = word(row, 1).parse::<u8>().unwrap_or(0);
    let mut connection = Connection::new(rt.alloc(), &[byte; 16])?;
    for word in row.split(' ').skip(2) {
        run_message(rt, &mut connection, word)?;
    }
    Ok(())
}

// Prints what comes of a message. After a `/` the word has what a store makes of it.
fn run_message<R: Print + AllocGlobal>(
    rt: &R,
    connection: &mut Connection,
    word: &str,
) -> Result<(), Stop> {
    let (digits, given) = word.split_once('/').unwrap_or((word, ""));
    let bytes = bytes_of(rt, digits)?;
    match next_message(65_536, bytes.as_slice()) {
        Next::Message(message, _) => run_request(rt, connection, &message, given),
        Next::Open | Next::Bad => {
            println!(rt; "no message")?;
            Ok(())
        }
    }
}

// Prints the reply to a message, or what is asked of a store for it.
fn run_request<R: Print + AllocGlobal>(
    rt: &R,
    connection: &mut Connection,
    message: &Message<'_>,
    given: &str,
) -> Result<(), Stop>
    requires { IsMessage (message_view message.now) }
{
    let tag = message.tag;
    match connection.take(rt.alloc(), &message.request)? {
        Step::Refused(error) => print_error(rt, tag, error),
        Step::Answered(answer) => print_reply(rt, tag, &connection.reply(answer)),
        Step::Login(who, signature) => print_login(rt, connection, who, &signature, given),
        Step::Read(node, p, offset, len) => print_read(rt, node, offset, len, &p),
        Step::Write(node, p, offset) => print_write(rt, node, offset, &p),
        Step::Walk(node) => {
            let number = node.0;
            println!(rt; "walk {number}")?;
            match &message.request {
                Request::Walk(_, newfid, names) => walk(
                    rt,
                    connection,
                    *newfid,
                    names.len(),
                    given,
                ),
                _ => Ok(()),
            }
        }
    }
}

// Prints the error of a message.
fn print_error<R: Print + AllocGlobal>(rt: &R, tag: u16, error: NineError) -> Result<(), Stop> {
    print_reply(rt, tag, &Reply::Error(error.text()))
}

// Prints who asks to be logged in, and logs them in if the store accepts it.
fn print_login<R: Print + AllocGlobal>(
    rt: &R,
    connection: &mut Connection,
    who: Principal,
    signature: &Bytes,
    given: &str,
) -> Result<(), Stop> {
    let name = hex::encode(rt.alloc(), who.bytes())?;
    let digits = hex::encode(rt.alloc(), signature.as_slice())?;
    println!(rt; "login {name} {digits}")?;
    if given == "ok" {
        connection.log_in(who);
    }
    Ok(())
}

// Prints which node is read, where, how many bytes, and by which procap.
fn print_read<R: Print + AllocGlobal>(
    rt: &R,
    node: NodeId,
    offset: u64,
    len: u32,
    p: &Procap,
) -> Result<(), Stop> {
    let number = node.0;
    let tag = hex::encode(rt.alloc(), &p.tag)?;
    println!(rt; "read {number} {offset} {len} {tag}")?;
    Ok(())
}

// Prints which node is written, where, and by which procap.
fn print_write<R: Print + AllocGlobal>(
    rt: &R,
    node: NodeId,
    offset: u64,
    p: &Procap,
) -> Result<(), Stop> {
    let number = node.0;
    let tag = hex::encode(rt.alloc(), &p.tag)?;
    println!(rt; "write {number} {offset} {tag}")?;
    Ok(())
}

// The walk ends as the store found its names.
fn walk<R: AllocGlobal>(
    rt: &R,
    connection: &mut Connection,
    newfid: u32,
    names: usize,
    given: &str,
) -> Result<(), Stop>
    requires { HasRoomFor connection.old.fids newfid }
{
    let mut found = Vec::new(rt.alloc());
    for word in given.split(',') {
        if let Some(file) = found_file(word) {
            found.push(file)?;
        }
    }
    connection.walked(newfid, names, found.as_slice());
    Ok(())
}

// What a name was found to be: a `d` and a number for a directory, an `f` and a number for another file.
fn found_file(word: &str) -> Option<FidFile> {
    match word.strip_prefix("d") {
        Some(digits) => Some(node(digits, true)),
        None => match word.strip_prefix("f") {
            Some(digits) => Some(node(digits, false)),
            None => None,
        },
    }
}

fn node(digits: &str, is_directory: bool) -> FidFile {
    FidFile::Node(NodeId(digits.parse::<u64>().unwrap_or(0)), is_directory)
}
