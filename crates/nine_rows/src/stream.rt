//! Bytes that come in pieces: each message is printed when it is whole.

ghost use Rattle.nine_messages.specs.Requests.{IsMessage};
ghost use Rattle.nine_messages.specs.Views.{message_view};

use crate::Stop;
use bl_syntax::Bytes;
use nine_messages::{Message, Names, Next, Request, agreed_after, next_message, write_message};
use std::alloc::Global;

/// What came and belongs to no message that was printed, and how large a message may be.
#[derive(Drop)]
pub(crate) struct Stream {
    agreed: u32,
    left: Vec<u8>,
}

impl Stream {
    pub(crate) fn new(alloc: Global, agreed: u32) -> Stream {
        Stream {
            agreed,
            left: Vec::new(alloc),
        }
    }

    /// Takes a piece, and prints the messages that are whole now.
    pub(crate) fn feed<R: Print + AllocGlobal>(
        &mut self,
        rt: &R,
        piece: &[u8],
    ) -> Result<(), Stop> {
        self.left.extend_from_slice(piece)?;
        let (agreed, rest) = print_messages(rt, self.agreed, self.left.as_slice())?;
        let left = Vec::from_slice(rt.alloc(), rest)?;
        self.agreed = agreed;
        self.left = left;
        Ok(())
    }

    /// Prints how the stream ends.
    pub(crate) fn print_end<R: Print>(&self, rt: &R) -> Result<(), Stop> {
        let agreed = self.agreed;
        let count = self.left.len();
        match next_message(agreed, self.left.as_slice()) {
            Next::Message(..) => println!(rt; "message {agreed} {count}")?,
            Next::Open => println!(rt; "open {agreed} {count}")?,
            Next::Bad => println!(rt; "bad {agreed} {count}")?,
        }
        Ok(())
    }
}

// Prints the messages that are whole: how large one may be after them, and what is left.
fn print_messages<'a, R: Print + AllocGlobal>(
    rt: &R,
    agreed: u32,
    bytes: &'a [u8],
) -> Result<(u32, &'a [u8]), Stop> {
    let mut agreed = agreed;
    let mut left = bytes;
    for _ in 0..bytes.len() {
        match next_message(agreed, left) {
            Next::Message(message, rest) => {
                print_message(rt, &message)?;
                let size = left.len().saturating_sub(rest.len());
                compare_written(rt, &message, left.get(..size).unwrap_or(&[]))?;
                agreed = agreed_after(agreed, &message.request);
                left = rest;
            }
            Next::Open | Next::Bad => return Ok((agreed, left)),
        }
    }
    Ok((agreed, left))
}

// Prints a line if the message is written otherwise than it stood there.
fn compare_written<R: Print + AllocGlobal>(
    rt: &R,
    message: &Message<'_>,
    bytes: &[u8],
) -> Result<(), Stop>
    requires { IsMessage (message_view message.now) }
{
    let mut out = Bytes::new(rt.alloc());
    write_message(message, &mut out)?;
    if out.as_slice() != bytes {
        println!(rt; "written otherwise")?;
    }
    Ok(())
}

fn print_message<R: Print + AllocGlobal>(rt: &R, message: &Message<'_>) -> Result<(), Stop> {
    let tag = message.tag;
    match &message.request {
        Request::Version(msize, version) => {
            let version = hex::encode(rt.alloc(), *version)?;
            println!(rt; "{tag} Tversion {msize} {version}")?;
        }
        Request::Attach(fid, afid, uname, aname) => {
            let uname = hex::encode(rt.alloc(), *uname)?;
            let aname = hex::encode(rt.alloc(), *aname)?;
            println!(rt; "{tag} Tattach {fid} {afid} {uname} {aname}")?;
        }
        Request::Flush(oldtag) => println!(rt; "{tag} Tflush {oldtag}")?,
        Request::Walk(fid, newfid, names) => {
            println!(rt; "{tag} Twalk {fid} {newfid}")?;
            print_names(rt, names)?;
        }
        Request::Open(fid, mode) => println!(rt; "{tag} Topen {fid} {mode}")?,
        Request::Read(fid, offset, count) => println!(rt; "{tag} Tread {fid} {offset} {count}")?,
        Request::Write(fid, offset, bytes) => {
            let bytes = hex::encode(rt.alloc(), *bytes)?;
            println!(rt; "{tag} Twrite {fid} {offset} {bytes}")?;
        }
        Request::Clunk(fid) => println!(rt; "{tag} Tclunk {fid}")?,
        Request::Other(kind, body) => {
            let body = hex::encode(rt.alloc(), *body)?;
            println!(rt; "{tag} other {kind} {body}")?;
        }
    }
    Ok(())
}

// Prints each name of a walk.
fn print_names<R: Print + AllocGlobal>(rt: &R, names: &Names<'_>) -> Result<(), Stop> {
    let mut next = names.split_first();
    for _ in 0..names.len() {
        match next {
            None => return Ok(()),
            Some((name, others)) => {
                let name = hex::encode(rt.alloc(), name)?;
                println!(rt; "name {name}")?;
                next = others.split_first();
            }
        }
    }
    Ok(())
}
