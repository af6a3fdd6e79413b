//! Replies of rows: each is written from the words of its row.

ghost use Rattle.std.specs.Prelude.{◌<◌, ◌^◌, length};
ghost use Rattle.nine_messages.specs.Replies.{IsWritableReply};
ghost use Rattle.nine_messages.specs.Views.{reply_view};

use crate::Stop;
use crate::rows::{bytes_of, number, word};
use bl_syntax::Bytes;
use nine_messages::{Qid, Reply, write_reply};

const MOST_BYTES: usize = 65_535;

/// Prints the reply that a row has.
pub(crate) fn run_reply<R: Print + AllocGlobal>(rt: &R, row: &str) -> Result<(), Stop> {
    let kind = word(row, 2);
    if kind == "walk" {
        run_walk(rt, row)
    } else if kind == "attach" || kind == "open" {
        run_qid(rt, row, kind)
    } else {
        run_bytes(rt, row, kind)
    }
}

// Prints a reply with the qids of its row.
fn run_walk<R: Print + AllocGlobal>(rt: &R, row: &str) -> Result<(), Stop> {
    let mut qids = Vec::new(rt.alloc());
    for place in 1..100usize {
        if word(row, 3 * place).is_empty() {
            break;
        }
        qids.push(qid_at(row, 3 * place))?;
    }
    print_reply(rt, tag_of(row), &Reply::Walk(few(qids.as_slice())))
}

// Prints a reply with one qid.
fn run_qid<R: Print + AllocGlobal>(rt: &R, row: &str, kind: &str) -> Result<(), Stop> {
    let qid = qid_at(row, 3);
    if kind == "open" {
        print_reply(rt, tag_of(row), &Reply::Open(qid))
    } else {
        print_reply(rt, tag_of(row), &Reply::Attach(qid))
    }
}

// Prints a reply with a number or bytes.
fn run_bytes<R: Print + AllocGlobal>(rt: &R, row: &str, kind: &str) -> Result<(), Stop> {
    let count = number(word(row, 3));
    if kind == "version" {
        let version = bytes_of(rt, word(row, 4))?;
        print_reply(
            rt,
            tag_of(row),
            &Reply::Version(count, few(version.as_slice())),
        )
    } else if kind == "read" {
        let bytes = bytes_of(rt, word(row, 3))?;
        print_reply(rt, tag_of(row), &Reply::Read(few(bytes.as_slice())))
    } else if kind == "error" {
        let ename = bytes_of(rt, word(row, 3))?;
        print_reply(rt, tag_of(row), &Reply::Error(few(ename.as_slice())))
    } else if kind == "write" {
        print_reply(rt, tag_of(row), &Reply::Write(count))
    } else if kind == "flush" {
        print_reply(rt, tag_of(row), &Reply::Flush)
    } else {
        print_reply(rt, tag_of(row), &Reply::Clunk)
    }
}

/// Prints the bytes of a reply with this tag.
pub(crate) fn print_reply<R: Print + AllocGlobal>(
    rt: &R,
    tag: u16,
    reply: &Reply<'_>,
) -> Result<(), Stop>
    requires { IsWritableReply (reply_view reply.now) }
{
    let mut out = Bytes::new(rt.alloc());
    write_reply(tag, reply, &mut out)?;
    let digits = hex::encode(rt.alloc(), out.as_slice())?;
    println!(rt; "{digits}")?;
    Ok(())
}

// The tag of a row's reply.
fn tag_of(row: &str) -> u16 {
    word(row, 1).parse::<u16>().unwrap_or(0)
}

// At most 65,535 of these.
fn few<T>(items: &[T]) -> &[T]
    ensures { length result.now < 2 ^ 16 }
{
    items.get(..MOST_BYTES).unwrap_or(items)
}

// The qid whose words begin at this place of a row.
fn qid_at(row: &str, place: usize) -> Qid
    requires { place < 2 ^ 16 }
{
    Qid {
        kind: word(row, place).parse::<u8>().unwrap_or(0),
        version: number(word(row, place + 1)),
        path: word(row, place + 2).parse::<u64>().unwrap_or(0),
    }
}
