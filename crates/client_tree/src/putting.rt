//! A new file, which takes its name at last.

use crate::asking::{Client, perform};
use crate::changes::{Spot, rename_work, set_attribute, unlink};
use crate::contents::fill;
use crate::paths::{EXISTS, NO_ENTRY, bytes_of, create, now, spot};
use crate::ports::Ports;
use crate::replacing::replace;
use bl_syntax::{NoMemory, NodeId, Text};
use client_words::{Place, Stop};
use file_world::Op;
use std::alloc::Global;

/// An attribute that the new file has before it takes the name.
#[derive(Drop)]
pub struct Attribute {
    pub name: String,
    pub value: Text,
}

// Gives the new file its name.
fn settle<P: Ports + Drop>(
    client: &mut Client<P>,
    hidden: &Spot<'_>,
    place: &Spot<'_>,
    node: NodeId,
) -> Result<(), Stop> {
    let alloc = client.alloc;
    let what = place.shown(alloc)?;
    let needed = place.shown(alloc)?;
    let work = rename_work(alloc, hidden, place, node, needed.as_str(), what)?;
    match perform(client, &work) {
        Ok(_) => Ok(()),
        Err(stop) => {
            if stop.is_refused_again(NO_ENTRY)
                && now(client, place.directory, place.parent, place.name)? == Some(node)
            {
                return Ok(());
            }
            if stop.is_refused(EXISTS) {
                replace(client, hidden, place, node)
            } else {
                Err(stop)
            }
        }
    }
}

// Writes the new file, and gives it its name.
fn finish<P: Ports + Drop>(
    client: &mut Client<P>,
    hidden: &Spot<'_>,
    place: &Spot<'_>,
    node: NodeId,
    data: &[u8],
    attributes: &[Attribute],
) -> Result<(), Stop> {
    let whole = place.parent.below(client.alloc, place.name)?;
    fill(client, node, &whole, data)?;
    for attribute in attributes {
        set_attribute(
            client,
            node,
            &whole,
            attribute.name.as_str(),
            attribute.value,
        )?;
    }
    settle(client, hidden, place, node)
}

fn left_there(alloc: Global, stop: Stop, hidden: &Spot<'_>) -> Stop {
    match left_words(alloc, hidden) {
        Ok(words) => stop.with(words.as_str()),
        Err(_) => stop,
    }
}

fn left_words(alloc: Global, hidden: &Spot<'_>) -> Result<String, NoMemory> {
    let path = hidden.shown(alloc)?;
    let path = path.as_str();
    Ok(format!(in alloc; " (and {path} is left there; remove it)")?)
}

// Removes the new file after a failure. Where that fails too, the failure says so.
fn cleared<P: Ports + Drop>(
    client: &mut Client<P>,
    hidden: &Spot<'_>,
    node: NodeId,
    stop: Stop,
) -> Stop {
    match unlink(client, hidden, node) {
        Ok(()) => stop,
        Err(other) => {
            if other.is_refused(NO_ENTRY) {
                stop
            } else {
                left_there(client.alloc, stop, hidden)
            }
        }
    }
}

/// Writes a new file under a name of its own, and puts it in the place of the old one, if there is one.
pub fn write_anew<P: Ports + Drop>(
    client: &mut Client<P>,
    place: &Place,
    data: &[u8],
    attributes: &[Attribute],
) -> Result<NodeId, Stop> {
    let alloc = client.alloc;
    let (directory, parent, name) = spot(client, place)?;
    let hidden = client.ports.new_name(".put-")?;
    let op = Op::Create(directory, bytes_of(alloc, &hidden)?);
    let node = create(client, op, directory, &parent, &hidden)?;
    let aside = Spot {
        directory,
        parent: &parent,
        name: &hidden,
    };
    let target = Spot {
        directory,
        parent: &parent,
        name: &name,
    };
    let shown = parent.below(alloc, &hidden)?;
    let ended = match client.ports.note_hidden(directory, &shown, node) {
        Ok(()) => finish(client, &aside, &target, node, data, attributes),
        Err(stop) => Err(stop),
    };
    let result = match ended {
        Ok(()) => Ok(node),
        Err(stop) => Err(cleared(client, &aside, node, stop)),
    };
    client.ports.forget_hidden();
    result
}
