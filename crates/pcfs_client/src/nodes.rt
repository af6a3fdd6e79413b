//! Commands for names, attributes and owners.

use crate::describing::described;
use crate::files::attribute_of;
use crate::user::User;
use bl_syntax::{Goal, NoMemory, NodeId, Perm, Principal};
use client_folder::home::second_now;
use client_folder::messages::{joined, put_line};
use client_prover::Answer;
use client_replies::permission_name;
use client_tree::{
    Client, NO_DIRECTORY, Spot, attribute, child, create_directory, entries, give, held, move_node,
    node, remove_attribute, set_attribute, size_of, spot, unlink,
};
use client_words::{BAD_WORDS, Name, Place, Stop, put_quoted};
use std::alloc::Global;

const PERMISSIONS: [Perm; 5] = [
    Perm::Read,
    Perm::Write,
    Perm::Execute,
    Perm::Identity,
    Perm::Govern,
];

/// Makes directories.
pub fn mkdir<'a>(client: &mut Client<User<'a>>, paths: &[String]) -> Result<(), Stop> {
    for path in paths {
        let place = Place::of(client.alloc, path.as_str())?;
        let _ = create_directory(client, &place)?;
    }
    Ok(())
}

// The directory and the name that a path gives what is moved: its own name, if the path is that of a directory.
fn new_place(
    alloc: Global,
    named: Place,
    is_directory: bool,
    name: &Name,
) -> Result<(Place, Name), NoMemory> {
    let own = name.copy(alloc)?;
    if is_directory {
        return Ok((named, own));
    }
    let parent = named.parent(alloc)?;
    match named.last() {
        Some(last) => Ok((parent, last.copy(alloc)?)),
        None => Ok((parent, own)),
    }
}

/// Moves or renames a file or directory.
pub fn mv<'a>(client: &mut Client<User<'a>>, path: &str, new: &str) -> Result<(), Stop> {
    let alloc = client.alloc;
    let place = Place::of(alloc, path)?;
    let named = Place::of(alloc, new)?;
    let (directory, parent, name) = spot(client, &place)?;
    let is_directory = new.ends_with('/') || named.names().is_empty();
    let (target_parent, new_name) = new_place(alloc, named, is_directory, &name)?;
    let target = node(client, &target_parent)?;
    let moved = child(client, directory, &parent, &name)?;
    let old = Spot {
        directory,
        parent: &parent,
        name: &name,
    };
    let new = Spot {
        directory: target,
        parent: &target_parent,
        name: &new_name,
    };
    move_node(client, &old, &new, moved)
}

/// Removes files, and directories without names.
pub fn rm<'a>(client: &mut Client<User<'a>>, paths: &[String]) -> Result<(), Stop> {
    for path in paths {
        let place = Place::of(client.alloc, path.as_str())?;
        let (directory, parent, name) = spot(client, &place)?;
        let removed = child(client, directory, &parent, &name)?;
        let at = Spot {
            directory,
            parent: &parent,
            name: &name,
        };
        unlink(client, &at, removed)?;
    }
    Ok(())
}

// A line of what `stat` tells.
fn put_labelled(rt: &HostRuntime, label: &str, value: &str) -> Result<(), Stop> {
    let mut line = joined(rt.alloc(), &["  ", label])?;
    for _ in label.len()..11 {
        line.push(' ')?;
    }
    line.push(' ')?;
    line.push_str(value)?;
    put_line(rt, line.as_str())
}

// A line with a count of what there is.
fn put_counted(rt: &HostRuntime, label: &str, count: u64, what: &str) -> Result<(), Stop> {
    let text = format!(in rt.alloc(); "{count} {what}")?;
    put_labelled(rt, label, text.as_str())
}

// That the user may not read it; or why the command ends.
fn put_unread(rt: &HostRuntime, stop: Stop) -> Result<(), Stop> {
    if stop.is_no_right() {
        put_labelled(rt, "contents", "you may not read it")
    } else {
        Err(stop)
    }
}

// What a node is, as far as the user may see it.
fn put_contents<'a>(
    client: &mut Client<User<'a>>,
    node: NodeId,
    place: &Place,
) -> Result<(), Stop> {
    let rt = client.ports.rt;
    let stop = match entries(client, node, place) {
        Ok(all) => return put_counted(rt, "directory", all.len() as u64, "names"),
        Err(stop) => stop,
    };
    if !stop.is_refused(NO_DIRECTORY) {
        return put_unread(rt, stop);
    }
    match size_of(client, node, place) {
        Ok(count) => put_counted(rt, "file", count, "bytes"),
        Err(stop) => put_unread(rt, stop),
    }
}

// The statements that do not stand any more at this server.
fn gone_here<'a>(client: &Client<User<'a>>) -> Result<Vec<u32>, NoMemory> {
    let mut gone = Vec::new(client.alloc);
    for one in &client.wallet.gone {
        if one.server.as_str() == client.ports.session.server() {
            gone.push(one.number)?;
        }
    }
    Ok(gone)
}

fn found_words(answer: &Answer) -> &'static str {
    if answer.is_found() {
        "by a proof: "
    } else {
        "no: "
    }
}

// What a proof would give, which nobody is asked to check.
fn searched<'a>(client: &Client<User<'a>>, goal: &Goal) -> Result<String, Stop> {
    let alloc = client.alloc;
    let gone = gone_here(client)?;
    let answer = client.ports.search(*goal, gone.as_slice(), None)?;
    let mut words = String::from_str(alloc, found_words(&answer))?;
    let remark = answer.remark(alloc)?;
    words.push_str(remark.as_str())?;
    Ok(words)
}

// Until when and while what a permission is the user's, by the wallet or by a proof.
fn right<'a>(client: &Client<User<'a>>, goal: &Goal) -> Result<String, Stop> {
    let now = second_now(client.ports.rt);
    match held(client, goal, now)? {
        Some(pass) => Ok(described(client.alloc, &pass, now)?),
        None => searched(client, goal),
    }
}

fn put_rights<'a>(client: &Client<User<'a>>, node: NodeId) -> Result<(), Stop> {
    for permission in PERMISSIONS {
        let goal = Goal {
            who: client.ports.session.name(),
            file: node,
            perm: permission,
        };
        let words = right(client, &goal)?;
        put_labelled(client.ports.rt, permission_name(permission), words.as_str())?;
    }
    Ok(())
}

fn put_node(rt: &HostRuntime, place: &Place, node: NodeId) -> Result<(), Stop> {
    let alloc = rt.alloc();
    let shown = place.shown(alloc)?;
    put_line(rt, shown.as_str())?;
    let number = node.0;
    let text = format!(in alloc; "#{number}")?;
    put_labelled(rt, "node", text.as_str())
}

fn stat_one<'a>(client: &mut Client<User<'a>>, path: &str) -> Result<(), Stop> {
    let place = Place::of(client.alloc, path)?;
    let node = node(client, &place)?;
    put_node(client.ports.rt, &place, node)?;
    put_contents(client, node, &place)?;
    put_rights(client, node)
}

/// Tells node, kind and size, and what the user may do.
pub fn stat<'a>(client: &mut Client<User<'a>>, paths: &[String]) -> Result<(), Stop> {
    for path in paths {
        stat_one(client, path.as_str())?;
    }
    Ok(())
}

/// Shows, sets or removes an attribute.
pub fn attr<'a>(
    client: &mut Client<User<'a>>,
    path: &str,
    name: &str,
    value: Option<&str>,
    delete: bool,
) -> Result<(), Stop> {
    let rt = client.ports.rt;
    let alloc = rt.alloc();
    let place = Place::of(alloc, path)?;
    let tested = attribute_of(
        alloc,
        name,
        match value {
            Some(value) => value,
            None => "",
        },
    )?;
    let node = node(client, &place)?;
    if delete {
        return remove_attribute(client, node, &place, name);
    }
    match value {
        Some(_) => set_attribute(client, node, &place, name, tested.value),
        None => {
            let found = attribute(client, node, &place, name)?;
            put_line(rt, found.as_str())
        }
    }
}

/// A word as a principal's name.
pub fn principal_of(rt: &HostRuntime, word: &str) -> Result<Principal, Stop> {
    match Principal::new(word.as_bytes()) {
        Some(principal) => Ok(principal),
        None => {
            let mut words = String::new(rt.alloc());
            put_quoted(&mut words, word)?;
            words.push_str(": a name begins with a-z and has at most 32 of a-z 0-9 _")?;
            Err(Stop::Ended(BAD_WORDS, words))
        }
    }
}

/// Gives a file or directory to another owner.
pub fn chown<'a>(client: &mut Client<User<'a>>, principal: &str, path: &str) -> Result<(), Stop> {
    let owner = principal_of(client.ports.rt, principal)?;
    let place = Place::of(client.alloc, path)?;
    let node = node(client, &place)?;
    give(client, node, &place, owner)
}
