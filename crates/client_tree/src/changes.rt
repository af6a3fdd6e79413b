//! Names, attributes, owners.

ghost use Rattle.std.specs.Prelude.{◌≡◌, IfOk};
ghost use Rattle.file_world.specs.Needs.{attribute_permission};
ghost use Rattle.client_tree.specs.Works.{IsWorkOf, NeedsOne};

use crate::asking::{Client, Need, Work, one_need, perform};
use crate::paths::{NO_ENTRY, bytes_of, now, unknown_result};
use crate::ports::Ports;
use bl_syntax::{NoMemory, NodeId, Perm, Principal, Text, copy_bytes};
use client_words::{Name, Place, Stop};
use file_world::Op;
use std::alloc::Global;

/// There is no such attribute.
const NO_ATTRIBUTE: u8 = 11;

/// A name in a directory: the directory by its node, its path, and the name.
#[derive(Clone, Copy)]
pub struct Spot<'a> {
    pub directory: NodeId,
    pub parent: &'a Place,
    pub name: &'a Name,
}

impl<'a> Spot<'a> {
    /// The path of the name.
    pub fn shown(&self, alloc: Global) -> Result<String, NoMemory> {
        let place = self.parent.below(alloc, self.name)?;
        place.shown(alloc)
    }
}

fn unlink_work(alloc: Global, spot: &Spot<'_>, node: NodeId) -> Result<Work, NoMemory>
    ensures { IfOk result (IsWorkOf (Op.Unlink spot.now.directory spot.now.name.now)) }
{
    let here = spot.parent.shown(alloc)?;
    let what = spot.shown(alloc)?;
    let mut needs = Vec::new(alloc);
    needs.push(Need::new(alloc, Perm::Write, spot.directory, here.as_str())?)?;
    needs.push(Need::new(alloc, Perm::Identity, node, what.as_str())?)?;
    Ok(Work {
        op: Op::Unlink(spot.directory, bytes_of(alloc, spot.name)?),
        needs,
        what,
    })
}

/// Removes a name. If it may have been removed before, in a session that broke off, it may be missing.
pub fn unlink<P: Ports + Drop>(
    client: &mut Client<P>,
    spot: &Spot<'_>,
    node: NodeId,
) -> Result<(), Stop> {
    let work = unlink_work(client.alloc, spot, node)?;
    match perform(client, &work) {
        Ok(_) => Ok(()),
        Err(stop) => {
            if stop.is_refused_again(NO_ENTRY) {
                Ok(())
            } else {
                Err(stop)
            }
        }
    }
}

/// The work that gives a node another name; `what` is how the user calls it, and `needed` what the node is called.
pub fn rename_work(
    alloc: Global,
    old: &Spot<'_>,
    new: &Spot<'_>,
    node: NodeId,
    needed: &str,
    what: String,
) -> Result<Work, NoMemory>
    ensures { IfOk result (IsWorkOf (Op.Rename old.now.directory old.now.name.now new.now.directory new.now.name.now)) }
{
    let here = old.parent.shown(alloc)?;
    let there = new.parent.shown(alloc)?;
    let mut needs = Vec::new(alloc);
    needs.push(Need::new(alloc, Perm::Write, old.directory, here.as_str())?)?;
    needs.push(Need::new(alloc, Perm::Write, new.directory, there.as_str())?)?;
    needs.push(Need::new(alloc, Perm::Identity, node, needed)?)?;
    Ok(Work {
        op: Op::Rename(
            old.directory,
            bytes_of(alloc, old.name)?,
            new.directory,
            bytes_of(alloc, new.name)?,
        ),
        needs,
        what,
    })
}

fn move_work(alloc: Global, old: &Spot<'_>, new: &Spot<'_>, node: NodeId) -> Result<Work, NoMemory>
    ensures { IfOk result (IsWorkOf (Op.Rename old.now.directory old.now.name.now new.now.directory new.now.name.now)) }
{
    let needed = old.shown(alloc)?;
    let mut what = old.shown(alloc)?;
    what.push_str(" to ")?;
    what.push_str(new.shown(alloc)?.as_str())?;
    rename_work(alloc, old, new, node, needed.as_str(), what)
}

/// Gives a node another name. If it may have got it before, in a session that broke off, that counts.
pub fn move_node<P: Ports + Drop>(
    client: &mut Client<P>,
    old: &Spot<'_>,
    new: &Spot<'_>,
    node: NodeId,
) -> Result<(), Stop> {
    let work = move_work(client.alloc, old, new, node)?;
    match perform(client, &work) {
        Ok(_) => Ok(()),
        Err(stop) => {
            if stop.is_refused_again(NO_ENTRY)
                && now(client, new.directory, new.parent, new.name)? == Some(node)
            {
                Ok(())
            } else {
                Err(stop)
            }
        }
    }
}

// How the user calls an attribute of a file.
fn attribute_of(alloc: Global, here: &str, name: &str) -> Result<String, NoMemory> {
    let mut what = String::from_str(alloc, here)?;
    what.push(' ')?;
    what.push_str(name)?;
    Ok(what)
}

// The permission that an attribute is changed by.
fn governing(name: &[u8]) -> Perm
    ensures { result ≡ attribute_permission name.now }
{
    if name.starts_with(b"pcfs.".as_slice()) {
        Perm::Govern
    } else {
        Perm::Write
    }
}

fn attribute_work(
    alloc: Global,
    op: Op,
    permission: Perm,
    node: NodeId,
    place: &Place,
    name: &str,
) -> Result<Work, NoMemory>
    requires { NeedsOne op node permission }
    ensures { IfOk result (IsWorkOf op) }
{
    let here = place.shown(alloc)?;
    let what = attribute_of(alloc, here.as_str(), name)?;
    one_need(alloc, op, permission, node, here.as_str(), what.as_str())
}

// The text between the quotes that stands after `ok`.
fn text_in(rest: &str) -> Option<&str> {
    let rest = rest.strip_prefix("text \"")?;
    rest.strip_suffix('"')
}

/// The value of an attribute.
pub fn attribute<P: Ports + Drop>(
    client: &mut Client<P>,
    node: NodeId,
    place: &Place,
    name: &str,
) -> Result<String, Stop> {
    let alloc = client.alloc;
    let op = Op::Getattr(node, copy_bytes(alloc, name.as_bytes())?);
    let work = attribute_work(alloc, op, Perm::Read, node, place, name)?;
    let done = perform(client, &work)?;
    match text_in(done.rest.as_str()) {
        Some(text) => Ok(String::from_str(alloc, text)?),
        None => Err(unknown_result(alloc, done.rest.as_str())),
    }
}

/// Sets an attribute.
pub fn set_attribute<P: Ports + Drop>(
    client: &mut Client<P>,
    node: NodeId,
    place: &Place,
    name: &str,
    value: Text,
) -> Result<(), Stop> {
    let alloc = client.alloc;
    let op = Op::Setattr(node, copy_bytes(alloc, name.as_bytes())?, value);
    let permission = governing(name.as_bytes());
    let work = attribute_work(alloc, op, permission, node, place, name)?;
    let _ = perform(client, &work)?;
    Ok(())
}

/// Removes an attribute. If it may have been removed before, in a session that broke off, it may be missing.
pub fn remove_attribute<P: Ports + Drop>(
    client: &mut Client<P>,
    node: NodeId,
    place: &Place,
    name: &str,
) -> Result<(), Stop> {
    let alloc = client.alloc;
    let op = Op::Delattr(node, copy_bytes(alloc, name.as_bytes())?);
    let permission = governing(name.as_bytes());
    let work = attribute_work(alloc, op, permission, node, place, name)?;
    match perform(client, &work) {
        Ok(_) => Ok(()),
        Err(stop) => {
            if stop.is_refused_again(NO_ATTRIBUTE) {
                Ok(())
            } else {
                Err(stop)
            }
        }
    }
}

/// Gives a node to another owner.
pub fn give<P: Ports + Drop>(
    client: &mut Client<P>,
    node: NodeId,
    place: &Place,
    owner: Principal,
) -> Result<(), Stop> {
    let alloc = client.alloc;
    let here = place.shown(alloc)?;
    let op = Op::Chown(node, owner);
    let work = one_need(alloc, op, Perm::Govern, node, here.as_str(), here.as_str())?;
    let _ = perform(client, &work)?;
    Ok(())
}
