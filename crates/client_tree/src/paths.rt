//! Paths are looked up by node, name by name.

ghost use Rattle.std.specs.Prelude.{◌≡◌, IfOk};
ghost use Rattle.client_tree.specs.Works.{IsWorkOf, NeedsOne};

use crate::asking::{Client, Done, Work, one_need, perform};
use crate::ports::Ports;
use bl_syntax::{Bytes, NoMemory, NodeId, Perm, copy_bytes};
use client_replies::{node_of, refusal, unknown_reply};
use client_words::{BAD_WORDS, Name, Place, Stop, counting_number};
use file_world::Op;
use std::alloc::Global;

/// There is no such node.
pub const NO_NODE: u8 = 1;

/// It is no directory.
pub const NO_DIRECTORY: u8 = 2;

/// It is a directory.
pub const IS_DIRECTORY: u8 = 3;

/// There is no such name.
pub const NO_ENTRY: u8 = 4;

/// The name is there already.
pub const EXISTS: u8 = 5;

/// A name in a directory, and its node.
#[derive(Drop)]
pub struct Entry {
    pub name: Name,
    pub node: NodeId,
}

/// The bytes of a name.
pub fn bytes_of(alloc: Global, name: &Name) -> Result<Bytes, NoMemory>
    ensures { IfOk result (λ bytes. bytes ≡ name.now) }
{
    copy_bytes(alloc, name.as_str().as_bytes())
}

/// That what stands after `ok` has no meaning here.
pub fn unknown_result(alloc: Global, rest: &str) -> Stop {
    let mut line = String::new(alloc);
    match write!(line, "ok {rest}") {
        Ok(()) => unknown_reply(alloc, line.as_str()),
        Err(_) => Stop::NoMemory,
    }
}

/// The node of what was done.
pub fn node_in(alloc: Global, done: &Done) -> Result<NodeId, Stop> {
    match node_of(done.rest.as_bytes()) {
        Some(node) => Ok(node),
        None => Err(unknown_result(alloc, done.rest.as_str())),
    }
}

fn lookup_work(
    alloc: Global,
    directory: NodeId,
    place: &Place,
    name: &Name,
) -> Result<Work, NoMemory>
    ensures { IfOk result (IsWorkOf (Op.Lookup directory name.now)) }
{
    let here = place.shown(alloc)?;
    let what = place.below(alloc, name)?.shown(alloc)?;
    let op = Op::Lookup(directory, bytes_of(alloc, name)?);
    one_need(
        alloc,
        op,
        Perm::Execute,
        directory,
        here.as_str(),
        what.as_str(),
    )
}

// The refusal of a name in what is gone, or is no directory, is about the directory.
fn about_directory(alloc: Global, stop: Stop, place: &Place) -> Stop {
    for number in [NO_NODE, NO_DIRECTORY] {
        if stop.is_refused(number) {
            return match place.shown(alloc) {
                Ok(here) => refusal(alloc, u64::from(number), here.as_str(), false),
                Err(_) => Stop::NoMemory,
            };
        }
    }
    stop
}

/// The node of that name in a directory.
pub fn child<P: Ports + Drop>(
    client: &mut Client<P>,
    directory: NodeId,
    place: &Place,
    name: &Name,
) -> Result<NodeId, Stop> {
    let alloc = client.alloc;
    let work = lookup_work(alloc, directory, place, name)?;
    match perform(client, &work) {
        Ok(done) => node_in(alloc, &done),
        Err(stop) => {
            if stop.is_no_right() {
                listed(client, directory, place, name, stop)
            } else {
                Err(about_directory(alloc, stop, place))
            }
        }
    }
}

// The same for who may not look names up there, but may list them.
fn listed<P: Ports + Drop>(
    client: &mut Client<P>,
    directory: NodeId,
    place: &Place,
    name: &Name,
    stop: Stop,
) -> Result<NodeId, Stop> {
    let alloc = client.alloc;
    let found = match entries(client, directory, place) {
        Ok(found) => found,
        Err(other) => {
            if other.is_no_right() {
                return Err(stop.with(" (names are looked up there by this right, or by read)"));
            }
            return Err(other);
        }
    };
    for entry in &found {
        if entry.name.as_str() == name.as_str() {
            return Ok(entry.node);
        }
    }
    let what = place.below(alloc, name)?.shown(alloc)?;
    Err(refusal(alloc, u64::from(NO_ENTRY), what.as_str(), false))
}

/// The node of a path.
pub fn node<P: Ports + Drop>(client: &mut Client<P>, place: &Place) -> Result<NodeId, Stop> {
    let alloc = client.alloc;
    let mut node = place.start();
    let mut here = Place::at(alloc, place.start());
    for name in place.names() {
        node = child(client, node, &here, name)?;
        here = here.below(alloc, name)?;
    }
    Ok(node)
}

fn no_name(alloc: Global, place: &Place) -> Result<Stop, NoMemory> {
    let mut words = place.shown(alloc)?;
    words.push_str(": has no name that could be made, moved or removed")?;
    Ok(Stop::Ended(BAD_WORDS, words))
}

/// The directory of a path by its node, its path, and the last name.
pub fn spot<P: Ports + Drop>(
    client: &mut Client<P>,
    place: &Place,
) -> Result<(NodeId, Place, Name), Stop> {
    let alloc = client.alloc;
    let name = match place.last() {
        Some(name) => name.copy(alloc)?,
        None => return Err(no_name(alloc, place)?),
    };
    let parent = place.parent(alloc)?;
    let directory = node(client, &parent)?;
    Ok((directory, parent, name))
}

fn list_work(alloc: Global, directory: NodeId, place: &Place) -> Result<Work, NoMemory>
    ensures { IfOk result (IsWorkOf (Op.List directory)) }
{
    let here = place.shown(alloc)?;
    one_need(
        alloc,
        Op::List(directory),
        Perm::Read,
        directory,
        here.as_str(),
        here.as_str(),
    )
}

// The name and the node of a word `NAME#NODE`.
fn entry_of(alloc: Global, word: &str) -> Result<Option<Entry>, NoMemory> {
    let (name, digits) = match word.split_once('#') {
        Some(parts) => parts,
        None => return Ok(None),
    };
    let node = match counting_number(digits.as_bytes()) {
        Some(node) => NodeId(node),
        None => return Ok(None),
    };
    match Name::new(alloc, name)? {
        Some(name) => Ok(Some(Entry { name, node })),
        None => Ok(None),
    }
}

fn entries_of(alloc: Global, words: &str) -> Result<Option<Vec<Entry>>, NoMemory> {
    let mut all = Vec::new(alloc);
    for word in words.split(' ') {
        match entry_of(alloc, word)? {
            Some(entry) => all.push(entry)?,
            None => return Ok(None),
        }
    }
    Ok(Some(all))
}

// The entries that stand after `ok`.
fn entries_in(alloc: Global, rest: &str) -> Result<Option<Vec<Entry>>, NoMemory> {
    if rest == "list" {
        return Ok(Some(Vec::new(alloc)));
    }
    match rest.strip_prefix("list ") {
        Some(words) => entries_of(alloc, words),
        None => Ok(None),
    }
}

/// The names in a directory, each with its node.
pub fn entries<P: Ports + Drop>(
    client: &mut Client<P>,
    directory: NodeId,
    place: &Place,
) -> Result<Vec<Entry>, Stop> {
    let alloc = client.alloc;
    let work = list_work(alloc, directory, place)?;
    let done = perform(client, &work)?;
    match entries_in(alloc, done.rest.as_str())? {
        Some(all) => Ok(all),
        None => Err(unknown_result(alloc, done.rest.as_str())),
    }
}

// Whether a node is a directory, which is asked by writing nothing to it.
fn is_unwritable<P: Ports + Drop>(
    client: &mut Client<P>,
    node: NodeId,
    place: &Place,
) -> Result<bool, Stop> {
    let alloc = client.alloc;
    let here = place.shown(alloc)?;
    let op = Op::Write(node, 0, Bytes::new(alloc));
    let work = one_need(alloc, op, Perm::Write, node, here.as_str(), here.as_str())?;
    match perform(client, &work) {
        Ok(_) => Ok(false),
        Err(stop) => {
            if stop.is_refused(IS_DIRECTORY) {
                Ok(true)
            } else {
                Err(stop)
            }
        }
    }
}

/// Whether a node is a directory; asked by reading it, or by writing nothing to it.
pub fn is_directory<P: Ports + Drop>(
    client: &mut Client<P>,
    node: NodeId,
    place: &Place,
) -> Result<bool, Stop> {
    match entries(client, node, place) {
        Ok(_) => Ok(true),
        Err(stop) => {
            if stop.is_refused(NO_DIRECTORY) {
                Ok(false)
            } else if stop.is_no_right() {
                is_unwritable(client, node, place)
            } else {
                Err(stop)
            }
        }
    }
}

fn create_work(
    alloc: Global,
    op: Op,
    directory: NodeId,
    parent: &Place,
    name: &Name,
) -> Result<Work, NoMemory>
    requires { NeedsOne op directory Perm.Write }
    ensures { IfOk result (IsWorkOf op) }
{
    let here = parent.shown(alloc)?;
    let what = parent.below(alloc, name)?.shown(alloc)?;
    one_need(
        alloc,
        op,
        Perm::Write,
        directory,
        here.as_str(),
        what.as_str(),
    )
}

/// A new file, or a new directory, by this operation. One that a session made before it broke off is found again.
pub fn create<P: Ports + Drop>(
    client: &mut Client<P>,
    op: Op,
    directory: NodeId,
    parent: &Place,
    name: &Name,
) -> Result<NodeId, Stop>
    requires { NeedsOne op directory Perm.Write }
{
    let alloc = client.alloc;
    let work = create_work(alloc, op, directory, parent, name)?;
    match perform(client, &work) {
        Ok(done) => node_in(alloc, &done),
        Err(stop) => {
            if stop.is_refused_again(EXISTS) {
                child(client, directory, parent, name)
            } else {
                Err(stop)
            }
        }
    }
}

/// A new directory.
pub fn create_directory<P: Ports + Drop>(
    client: &mut Client<P>,
    place: &Place,
) -> Result<NodeId, Stop> {
    let alloc = client.alloc;
    let (directory, parent, name) = spot(client, place)?;
    let op = Op::Mkdir(directory, bytes_of(alloc, &name)?);
    create(client, op, directory, &parent, &name)
}

/// The node that has the name now, if there is one.
pub fn now<P: Ports + Drop>(
    client: &mut Client<P>,
    directory: NodeId,
    parent: &Place,
    name: &Name,
) -> Result<Option<NodeId>, Stop> {
    match child(client, directory, parent, name) {
        Ok(node) => Ok(Some(node)),
        Err(stop) => {
            if stop.is_refused(NO_ENTRY) {
                Ok(None)
            } else {
                Err(stop)
            }
        }
    }
}
