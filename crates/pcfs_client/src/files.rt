//! Commands for files.

use crate::user::User;
use bl_syntax::{Bytes, NoMemory, NodeId};
use client_folder::local_files::{is_folder, read_file, write_file};
use client_folder::messages::{ended, joined, put, put_line};
use client_tree::{
    Attribute, Client, Entry, NO_DIRECTORY, content, entries, node, set_attribute, write_anew,
    write_in_place,
};
use client_words::{BAD_WORDS, Place, Stop, attribute_name, attribute_value, put_quoted};
use std::alloc::Global;

/// What `ls` shows.
#[derive(Clone, Copy)]
pub struct Shown {
    pub long: bool,
    pub all: bool,
}

fn digits_in(number: u64) -> usize {
    let mut count = 1usize;
    let mut rest = number / 10;
    for _ in 0..20 {
        if rest == 0 {
            break;
        }
        rest /= 10;
        count = count.saturating_add(1);
    }
    count
}

// A line with the number of a node, in as many columns, and its name.
fn numbered_line(
    alloc: Global,
    name: &str,
    node: NodeId,
    width: usize,
) -> Result<String, NoMemory> {
    let mut line = String::new(alloc);
    let number = node.0;
    write!(line, "#{number}")?;
    for _ in digits_in(number)..width {
        line.push(' ')?;
    }
    line.push(' ')?;
    line.push_str(name)?;
    Ok(line)
}

// Writes a name, with the number of its node in front if that is wanted.
fn show_name(
    rt: &HostRuntime,
    name: &str,
    node: NodeId,
    wanted: Shown,
    width: usize,
) -> Result<(), Stop> {
    if !wanted.long {
        return put_line(rt, name);
    }
    let line = numbered_line(rt.alloc(), name, node, width)?;
    put_line(rt, line.as_str())
}

// Whether a name is shown.
fn is_shown(name: &str, wanted: Shown) -> bool {
    wanted.all || !name.starts_with('.')
}

// The most digits of the nodes that are shown.
fn width_of(all: &[Entry], wanted: Shown) -> usize {
    let mut width = 0usize;
    for entry in all {
        if is_shown(entry.name.as_str(), wanted) {
            width = width.max(digits_in(entry.node.0));
        }
    }
    width
}

fn show_entries(rt: &HostRuntime, all: &[Entry], wanted: Shown) -> Result<(), Stop> {
    let width = width_of(all, wanted);
    for entry in all {
        let name = entry.name.as_str();
        if is_shown(name, wanted) {
            show_name(rt, name, entry.node, wanted, width)?;
        }
    }
    Ok(())
}

// Lists what is at a path: a directory, or a file by its name.
fn list_one<'a>(
    client: &mut Client<User<'a>>,
    text: &str,
    wanted: Shown,
    is_titled: bool,
) -> Result<(), Stop> {
    let rt = client.ports.rt;
    let place = Place::of(rt.alloc(), text)?;
    let node = node(client, &place)?;
    let all = match entries(client, node, &place) {
        Ok(all) => all,
        Err(stop) => {
            return match place.last() {
                Some(name) if stop.is_refused(NO_DIRECTORY) => {
                    show_name(rt, name.as_str(), node, wanted, 0)
                }
                _ => Err(stop),
            };
        }
    };
    if is_titled {
        let title = joined(rt.alloc(), &[place.shown(rt.alloc())?.as_str(), ":"])?;
        put_line(rt, title.as_str())?;
    }
    show_entries(rt, all.as_slice(), wanted)
}

/// Lists directories.
pub fn ls<'a>(client: &mut Client<User<'a>>, paths: &[String], wanted: Shown) -> Result<(), Stop> {
    if paths.is_empty() {
        return list_one(client, "/", wanted, false);
    }
    for path in paths {
        list_one(client, path.as_str(), wanted, paths.len() > 1)?;
    }
    Ok(())
}

// The contents of a file, with a line that says how much is done.
fn shown_content<'a>(client: &mut Client<User<'a>>, place: &Place) -> Result<Bytes, Stop> {
    let what = place.shown(client.ports.rt.alloc())?;
    client.ports.begin_progress(what, 0);
    let result = content(client, place);
    client.ports.end_progress();
    result
}

/// Writes files to the output.
pub fn cat<'a>(client: &mut Client<User<'a>>, paths: &[String]) -> Result<(), Stop> {
    let rt = client.ports.rt;
    for path in paths {
        let place = Place::of(rt.alloc(), path.as_str())?;
        let bytes = shown_content(client, &place)?;
        put(rt, bytes.as_slice())?;
    }
    Ok(())
}

// The file to write a file of the server to.
fn target_of(rt: &HostRuntime, place: &Place, file: Option<&str>) -> Result<String, Stop> {
    let alloc = rt.alloc();
    let last = match place.last() {
        Some(name) => name.as_str(),
        None => "",
    };
    let file = match file {
        Some(file) => file,
        None => last,
    };
    if file == "-" || !file.is_empty() && !is_folder(rt, file) {
        return Ok(joined(alloc, &[file])?);
    }
    if last.is_empty() {
        let path = place.shown(alloc)?;
        return Err(ended(
            alloc,
            BAD_WORDS,
            &[path.as_str(), ": name the file to write"],
        ));
    }
    if file.is_empty() || file.ends_with('/') {
        Ok(joined(alloc, &[file, last])?)
    } else {
        Ok(joined(alloc, &[file, "/", last])?)
    }
}

/// Copies a file to this machine.
pub fn get<'a>(client: &mut Client<User<'a>>, path: &str, file: Option<&str>) -> Result<(), Stop> {
    let rt = client.ports.rt;
    let place = Place::of(rt.alloc(), path)?;
    let target = target_of(rt, &place, file)?;
    let bytes = shown_content(client, &place)?;
    if target.as_str() == "-" {
        put(rt, bytes.as_slice())
    } else {
        write_file(rt, target.as_str(), bytes.as_slice())
    }
}

fn bad_word(alloc: Global, word: &str, words: &str) -> Stop {
    let mut text = String::new(alloc);
    match put_quoted(&mut text, word) {
        Ok(()) => {}
        Err(_) => return Stop::NoMemory,
    }
    match text.push_str(words) {
        Ok(()) => Stop::Ended(BAD_WORDS, text),
        Err(_) => Stop::NoMemory,
    }
}

/// An attribute with a value that the server takes.
pub fn attribute_of(alloc: Global, name: &str, value: &str) -> Result<Attribute, Stop> {
    if !attribute_name(name) {
        return Err(bad_word(
            alloc,
            name,
            ": an attribute's name has 1 to 64 of a-z 0-9 _ . and begins with a letter",
        ));
    }
    match attribute_value(value) {
        Some(value) => Ok(Attribute {
            name: joined(alloc, &[name])?,
            value,
        }),
        None => Err(bad_word(
            alloc,
            value,
            ": a value has at most 128 letters, digits and signs of ASCII without \" and \\",
        )),
    }
}

// The attributes of words `NAME=VALUE`.
fn attributes_of(alloc: Global, words: &[String]) -> Result<Vec<Attribute>, Stop> {
    let mut all = Vec::new(alloc);
    for word in words {
        match word.as_str().split_once('=') {
            Some((name, value)) => all.push(attribute_of(alloc, name, value)?)?,
            None => return Err(ended(
                alloc,
                BAD_WORDS,
                &["--attr ", word.as_str(), ": wanted NAME=VALUE"],
            )),
        }
    }
    Ok(all)
}

// The path on the server to which a file is copied: with a slash at its end it is a directory.
fn put_place(alloc: Global, file: &str, path: Option<&str>) -> Result<Place, Stop> {
    let given = match path {
        Some(path) => path,
        None => "/",
    };
    let place = Place::of(alloc, given)?;
    if !given.ends_with('/') && !place.names().is_empty() {
        return Ok(place);
    }
    if file == "-" {
        return Err(ended(alloc, BAD_WORDS, &[given, ": name the file to write there"]));
    }
    let base = match file.rsplit_once('/') {
        Some((_, base)) => base,
        None => file,
    };
    let whole = joined(alloc, &[given, "/", base])?;
    Place::of(alloc, whole.as_str())
}

// Writes a file, and returns its node.
fn put_data<'a>(
    client: &mut Client<User<'a>>,
    place: &Place,
    data: &[u8],
    attributes: &[Attribute],
    in_place: bool,
) -> Result<NodeId, Stop> {
    if !in_place {
        return write_anew(client, place, data, attributes);
    }
    let node = write_in_place(client, place, data)?;
    for attribute in attributes {
        set_attribute(
            client,
            node,
            place,
            attribute.name.as_str(),
            attribute.value,
        )?;
    }
    Ok(node)
}

fn remark_put<'a>(
    client: &Client<User<'a>>,
    place: &Place,
    node: NodeId,
    count: usize,
) -> Result<(), Stop> {
    let rt = client.ports.rt;
    let mut words = place.shown(rt.alloc())?;
    let number = node.0;
    write!(words, " is #{number}, {count} bytes")?;
    client_folder::messages::remark(rt, client.ports.is_watched, words.as_str());
    Ok(())
}

/// Copies a file of this machine to the server.
pub fn put_file<'a>(
    client: &mut Client<User<'a>>,
    file: &str,
    path: Option<&str>,
    words: &[String],
    in_place: bool,
) -> Result<(), Stop> {
    let rt = client.ports.rt;
    let alloc = rt.alloc();
    let data = read_file(rt, file)?;
    let place = put_place(alloc, file, path)?;
    let attributes = attributes_of(alloc, words)?;
    let what = place.shown(alloc)?;
    client.ports.begin_progress(what, data.len() as u64);
    let result = put_data(
        client,
        &place,
        data.as_slice(),
        attributes.as_slice(),
        in_place,
    );
    client.ports.end_progress();
    let node = result?;
    remark_put(client, &place, node, data.len())
}
