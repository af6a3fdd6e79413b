//! Contents, in pieces.

ghost use Rattle.std.specs.Prelude.{◌≡◌, ◌*◌, ◌≤◌, IfOk, length};

use crate::asking::{Client, ROUNDS, one_need, perform};
use crate::paths::{NO_ENTRY, NO_NODE, node, unknown_result};
use crate::ports::Ports;
use bl_syntax::{Bytes, NodeId, Perm, copy_bytes};
use client_words::{Place, Stop};
use file_world::Op;
use line_text::read_hex;
use std::alloc::Global;

/// How many bytes one line reads or writes.
const PIECE: usize = 65_536;

/// How many pieces a file has at most, and one that is empty.
const MOST_PIECES: u64 = 17;

/// How long to wait before a name is looked up again that somebody may be replacing, in milliseconds.
const GAP: u64 = 30;

// The bytes that stand after `ok`.
fn bytes_in(alloc: Global, rest: &str) -> Result<Bytes, Stop>
    ensures { IfOk result (λ bytes. length bytes ≤ PIECE) }
{
    let word = match rest.strip_prefix("bytes ") {
        Some(word) => word,
        None => return Err(unknown_result(alloc, rest)),
    };
    match read_hex(alloc, word.as_bytes())? {
        Some(bytes) => {
            if bytes.len() <= PIECE {
                Ok(bytes)
            } else {
                Err(unknown_result(alloc, rest))
            }
        }
        None => Err(unknown_result(alloc, rest)),
    }
}

// A piece of a file.
fn piece<P: Ports + Drop>(
    client: &mut Client<P>,
    node: NodeId,
    here: &str,
    offset: u64,
) -> Result<Bytes, Stop>
    ensures { IfOk result (λ bytes. length bytes ≤ PIECE) }
{
    let alloc = client.alloc;
    let op = Op::Read(node, offset, PIECE as u64);
    let work = one_need(alloc, op, Perm::Read, node, here, here)?;
    let done = perform(client, &work)?;
    bytes_in(alloc, done.rest.as_str())
}

/// The contents of a node.
pub fn pieces<P: Ports + Drop>(
    client: &mut Client<P>,
    node: NodeId,
    place: &Place,
) -> Result<Bytes, Stop>
    ensures { IfOk result (λ all. length all ≤ MOST_PIECES * PIECE) }
{
    let here = place.shown(client.alloc)?;
    let mut all = Bytes::new(client.alloc);
    for _count in 0..MOST_PIECES {
        let next = piece(client, node, here.as_str(), all.len() as u64)?;
        all.extend(next.as_slice())?;
        client.ports.show_progress(all.len() as u64);
        if next.len() < PIECE {
            break;
        }
    }
    Ok(all)
}

/// How many bytes a node has.
pub fn size_of<P: Ports + Drop>(
    client: &mut Client<P>,
    node: NodeId,
    place: &Place,
) -> Result<u64, Stop>
    ensures { IfOk result (λ size. size ≤ MOST_PIECES * PIECE) }
{
    let bytes = pieces(client, node, place)?;
    Ok(bytes.len() as u64)
}

// The node of a path after a moment, if there is one.
fn node_later<P: Ports + Drop>(
    client: &mut Client<P>,
    place: &Place,
) -> Result<Option<NodeId>, Stop> {
    client.ports.pause(GAP);
    match node(client, place) {
        Ok(found) => Ok(Some(found)),
        Err(Stop::Refused(_)) => Ok(None),
        Err(stop) => Err(stop),
    }
}

// Whether the refusal is about this path itself.
fn is_about(stop: &Stop, here: &str) -> bool {
    match stop.words().strip_prefix(here) {
        Some(rest) => rest.starts_with(':'),
        None => false,
    }
}

// Whether a file that could not be read may be read anew: it was replaced, and there is another by now.
fn may_be_read_anew<P: Ports + Drop>(
    client: &mut Client<P>,
    place: &Place,
    found: Option<NodeId>,
    stop: &Stop,
) -> Result<bool, Stop> {
    if place.names().is_empty() {
        return Ok(false);
    }
    match stop {
        Stop::NoRight(_) => match found {
            Some(before) => {
                let later = node_later(client, place)?;
                Ok(!(later == Some(before)))
            }
            None => Ok(false),
        },
        Stop::Refused(refusal) => {
            if refusal.number == NO_NODE {
                return Ok(true);
            }
            let here = place.shown(client.alloc)?;
            if refusal.number == NO_ENTRY && is_about(stop, here.as_str()) {
                Ok(node_later(client, place)?.is_some())
            } else {
                Ok(false)
            }
        }
        _ => Ok(false),
    }
}

// One try to read a file. The node that was found is noted.
fn content_once<P: Ports + Drop>(
    client: &mut Client<P>,
    place: &Place,
    found: &mut Option<NodeId>,
) -> Result<Bytes, Stop>
    ensures { IfOk result (λ all. length all ≤ MOST_PIECES * PIECE) }
{
    *found = None;
    let node = node(client, place)?;
    *found = Some(node);
    pieces(client, node, place)
}

/// The contents of a file. If it is replaced meanwhile, they are read anew: the old ones or the new ones.
pub fn content<P: Ports + Drop>(client: &mut Client<P>, place: &Place) -> Result<Bytes, Stop>
    ensures { IfOk result (λ all. length all ≤ MOST_PIECES * PIECE) }
{
    let mut found = None;
    for _ in 1..ROUNDS {
        match content_once(client, place, &mut found) {
            Ok(bytes) => return Ok(bytes),
            Err(stop) => {
                if !may_be_read_anew(client, place, found, &stop)? {
                    return Err(stop);
                }
            }
        }
    }
    content_once(client, place, &mut found)
}

/// Writes contents, piece by piece, and returns how many bytes were written: all of them.
pub fn fill<P: Ports + Drop>(
    client: &mut Client<P>,
    node: NodeId,
    place: &Place,
    bytes: &[u8],
) -> Result<u64, Stop>
    ensures { IfOk result (λ written. written ≡ length bytes.now) }
{
    let alloc = client.alloc;
    let here = place.shown(alloc)?;
    let mut offset = 0u64;
    for part in bytes.chunks(PIECE) {
        let op = Op::Write(node, offset, copy_bytes(alloc, part)?);
        let work = one_need(alloc, op, Perm::Write, node, here.as_str(), here.as_str())?;
        let _ = perform(client, &work)?;
        offset += part.len() as u64;
        client.ports.show_progress(offset);
    }
    Ok(offset)
}

/// Writes over a file that is there; who reads it meanwhile may see parts of both.
pub fn write_in_place<P: Ports + Drop>(
    client: &mut Client<P>,
    place: &Place,
    data: &[u8],
) -> Result<NodeId, Stop> {
    let alloc = client.alloc;
    let node = node(client, place)?;
    let written = fill(client, node, place, data)?;
    let here = place.shown(alloc)?;
    let op = Op::Truncate(node, written);
    let work = one_need(alloc, op, Perm::Write, node, here.as_str(), here.as_str())?;
    let _ = perform(client, &work)?;
    Ok(node)
}
