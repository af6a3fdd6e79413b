//! Names of nodes and of attributes, and values of attributes.

ghost use Rattle.std.specs.Prelude.{◌≡◌, IsTrue, false, true, IfOk, MatchOption, string_bytes};
ghost use Rattle.file_world.specs.FileNames.{is_attribute_name, is_node_name};

use bl_syntax::{NoMemory, Text};
use node_rows::names::{is_attribute_name, is_node_name};
use std::alloc::Global;
use std::marker::Model;

/// A name of a file or directory, as the server takes it: 1 to 64 letters, digits, `_`, `.` and `-`, and neither `.` nor `..`.
#[derive(Drop)]
pub struct Name {
    text: String,
}

impl Model for Name {
    ghost use Rattle.std.specs.Prelude.{ℕ, List, IsTrue, string_bytes};
    ghost use Rattle.file_world.specs.FileNames.{is_node_name};

    ghost Value = { List ℕ };

    ghost view = { λ n. string_bytes n.text };

    ghost invariant = { λ n. IsTrue (is_node_name (string_bytes n.text)) };
}

impl Name {
    /// The name with these bytes; none exactly if they are no name.
    pub fn new(alloc: Global, word: &str) -> Result<Option<Name>, NoMemory>
        ensures { IfOk result (λ found. MatchOption found (is_node_name word.now ≡ false) (λ name. (name ≡ word.now) × IsTrue (is_node_name word.now))) }
    {
        if !is_node_name(word.as_bytes()) {
            return Ok(None);
        }
        let text = String::from_str(alloc, word)?;
        Ok(Some(Name { text }))
    }

    /// The text of the name.
    pub fn as_str(&self) -> &str
        ensures same { result.now ≡ self.now }
        ensures named { IsTrue (is_node_name self.now) }
    {
        self.text.as_str()
    }

    /// An equal name in memory of its own.
    pub fn copy(&self, alloc: Global) -> Result<Name, NoMemory>
        ensures { IfOk result (λ copied. copied ≡ self.now) }
    {
        let text = String::from_str(alloc, self.text.as_str())?;
        Ok(Name { text })
    }
}

/// Whether the word is an attribute's name: 1 to 64 of `a-z0-9_.`, the first a letter.
pub fn attribute_name(word: &str) -> bool
    ensures { result ≡ is_attribute_name word.now }
{
    is_attribute_name(word.as_bytes())
}

/// The word as an attribute's value; none if it is none.
pub fn attribute_value(word: &str) -> Option<Text> {
    Text::new(word.as_bytes())
}
