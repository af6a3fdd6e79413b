//! Who logs in, where, and the file with the key.

use crate::words::{copied, is_word};
use bl_syntax::{NoMemory, Principal};
use std::alloc::Global;

/// Who logs in, where, and the name of the file with the key.
#[derive(Drop)]
pub struct Login {
    pub server: String,
    pub name: Principal,
    pub key: String,
}

/// The text of the file for a login.
pub fn login_text(alloc: Global, server: &str, name: &str, key: &str) -> Result<String, NoMemory> {
    let mut text = String::new(alloc);
    write!(text, "server {server}\nname {name}\nkey {key}\n")?;
    Ok(text)
}

// What stands in the line after the word and a space, and the lines after it.
fn field<'a>(text: &'a str, word: &str) -> Option<(&'a str, &'a str)> {
    let (line, rest) = text.split_once('\n')?;
    let (front, value) = line.split_once(' ')?;
    if front == word {
        Some((value, rest))
    } else {
        None
    }
}

fn parts(text: &str) -> Option<(&str, &str, &str)> {
    let (server, after_server) = field(text, "server")?;
    let (name, after_name) = field(after_server, "name")?;
    let (key, rest) = field(after_name, "key")?;
    if rest.is_empty() && is_word(server) && !key.is_empty() {
        Some((server, name, key))
    } else {
        None
    }
}

/// The login of a file; none if the file has none.
pub fn read_login(alloc: Global, text: &str) -> Result<Option<Login>, NoMemory> {
    let (server, name, key) = match parts(text) {
        Some(parts) => parts,
        None => return Ok(None),
    };
    let name = match Principal::new(name.as_bytes()) {
        Some(name) => name,
        None => return Ok(None),
    };
    Ok(Some(Login {
        server: copied(alloc, server)?,
        name,
        key: copied(alloc, key)?,
    }))
}
