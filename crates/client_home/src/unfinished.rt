//! A file that was made under a name of its own, and has not taken another yet.

use crate::words::{copied, is_word};
use bl_syntax::{NoMemory, NodeId, Principal};
use client_words::counting_number;
use std::alloc::Global;

/// A file that was made under a name of its own: at which server, by whom, in which directory, as which node, by which path.
#[derive(Drop)]
pub struct Unfinished {
    pub server: String,
    pub who: Principal,
    pub directory: NodeId,
    pub node: NodeId,
    pub path: String,
}

impl Unfinished {
    /// The text of the file for it.
    pub fn text(&self, alloc: Global) -> Result<String, NoMemory> {
        let mut text = String::from_str(alloc, "hidden ")?;
        text.push_str(self.server.as_str())?;
        text.push(' ')?;
        match std::str::from_utf8(self.who.bytes()) {
            Ok(who) => text.push_str(who)?,
            Err(_) => {}
        }
        let directory = self.directory.0;
        let node = self.node.0;
        write!(text, " #{directory} #{node} ")?;
        text.push_str(self.path.as_str())?;
        text.push('\n')?;
        Ok(text)
    }
}

fn node_in(word: &str) -> Option<NodeId> {
    Some(NodeId(counting_number(word.strip_prefix('#')?.as_bytes())?))
}

// The words of the line.
fn line_in(text: &str) -> Option<&str> {
    let line = text.strip_suffix('\n')?;
    line.strip_prefix("hidden ")
}

/// The file of a text; none if the text has none.
pub fn read_unfinished(alloc: Global, text: &str) -> Result<Option<Unfinished>, NoMemory> {
    let line = match line_in(text) {
        Some(line) => line,
        None => return Ok(None),
    };
    let words: Vec<&str> = line.split(' ').collect(alloc)?;
    let (server, who, directory, node, path) = match words.as_slice() {
        [server, who, directory, node, path] => (*server, *who, *directory, *node, *path),
        _ => return Ok(None),
    };
    if !is_word(server) || !is_word(path) {
        return Ok(None);
    }
    match (
        Principal::new(who.as_bytes()),
        node_in(directory),
        node_in(node),
    ) {
        (Some(who), Some(directory), Some(node)) => Ok(Some(Unfinished {
            server: copied(alloc, server)?,
            who,
            directory,
            node,
            path: copied(alloc, path)?,
        })),
        _ => Ok(None),
    }
}
