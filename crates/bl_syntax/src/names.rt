//! Names of principals and of predicates, and text constants. None of them takes memory.

ghost use Rattle.std.specs.Prelude.{◌≡◌, ◌↔◌, IsSome, IfSome, IsTrue};
ghost use Rattle.std.specs.List.{list_all, list_any};
ghost use Rattle.std.specs.Str.{bytes_eq};
ghost use Rattle.bl_syntax.specs.Names.{is_name_byte, is_identifier, is_principal_name, is_predicate_name, is_text_byte, is_text};

use crate::byte_classes::{is_lower_case, is_name_byte, is_text_byte};
use crate::limits::{LONGEST_TEXT, LONGEST_WORD};
use crate::short::Short;
use std::marker::Model;

/// The words that are no names.
const RESERVED: [&str; 19] = [
    "forall",
    "exists",
    "says",
    "from",
    "to",
    "true",
    "false",
    "ctime",
    "inf",
    "read",
    "write",
    "execute",
    "identity",
    "govern",
    "principal",
    "file",
    "perm",
    "time",
    "text",
];

/// The predicates on the server's state.
const STATE_PREDICATES: [&str; 3] = ["owner", "has_xattr", "in_dir"];

/// A principal's name: `[a-z][a-z0-9_]*`, 1 to 32 bytes, and no reserved word.
#[derive(Clone, Copy, Debug, PartialEq, Eq)]
pub struct Principal {
    name: Short<LONGEST_WORD>,
}

impl Model for Principal {
    ghost use Rattle.std.specs.Prelude.{List, ℕ, IsTrue};
    ghost use Rattle.bl_syntax.specs.Names.{is_principal_name};

    ghost Value = { List ℕ };

    ghost view = { λ p. p.name };

    ghost invariant = { λ p. IsTrue (is_principal_name p.name) };

    ghost inverse = { λ name. record { name = name } };
}

impl Principal {
    /// The principal of that name; none exactly if the bytes are no principal's name.
    pub fn new(name: &[u8]) -> Option<Self>
        ensures named { IsSome result ↔ IsTrue (is_principal_name name.now) }
        ensures same { IfSome result (λ principal. principal ≡ name.now) }
    {
        if is_principal_name(name) {
            Some(Principal {
                name: Short::new(name),
            })
        } else {
            None
        }
    }

    /// The bytes of the name.
    pub fn bytes(&self) -> &[u8]
        ensures same { result.now ≡ self.now }
        ensures named { IsTrue (is_principal_name self.now) }
    {
        self.name.bytes()
    }

    /// Whether it is the same name.
    pub fn is_same(&self, other: &Principal) -> bool
        ensures { IsTrue result ↔ (self.now ≡ other.now) }
    {
        self == other
    }
}

/// A predicate's name: as a principal's, but not `owner`, `has_xattr` or `in_dir`.
#[derive(Clone, Copy, Debug, PartialEq, Eq)]
pub struct Word {
    name: Short<LONGEST_WORD>,
}

impl Model for Word {
    ghost use Rattle.std.specs.Prelude.{List, ℕ, IsTrue};
    ghost use Rattle.bl_syntax.specs.Names.{is_predicate_name};

    ghost Value = { List ℕ };

    ghost view = { λ w. w.name };

    ghost invariant = { λ w. IsTrue (is_predicate_name w.name) };

    ghost inverse = { λ name. record { name = name } };
}

impl Word {
    /// The predicate name; none exactly if the bytes are none.
    pub fn new(name: &[u8]) -> Option<Self>
        ensures named { IsSome result ↔ IsTrue (is_predicate_name name.now) }
        ensures same { IfSome result (λ word. word ≡ name.now) }
    {
        if is_predicate_name(name) {
            Some(Word {
                name: Short::new(name),
            })
        } else {
            None
        }
    }

    /// The bytes of the name.
    pub fn bytes(&self) -> &[u8]
        ensures same { result.now ≡ self.now }
        ensures named { IsTrue (is_predicate_name self.now) }
    {
        self.name.bytes()
    }

    /// Whether it is the same name.
    pub fn is_same(&self, other: &Word) -> bool
        ensures { IsTrue result ↔ (self.now ≡ other.now) }
    {
        self == other
    }
}

/// A text constant: at most 128 bytes from 0x20 to 0x7e without `"` and `\`.
#[derive(Clone, Copy, Debug, PartialEq, Eq)]
pub struct Text {
    text: Short<LONGEST_TEXT>,
}

impl Model for Text {
    ghost use Rattle.std.specs.Prelude.{List, ℕ, IsTrue};
    ghost use Rattle.bl_syntax.specs.Names.{is_text};

    ghost Value = { List ℕ };

    ghost view = { λ t. t.text };

    ghost invariant = { λ t. IsTrue (is_text t.text) };

    ghost inverse = { λ text. record { text = text } };
}

impl Text {
    /// The text constant; none exactly if the bytes are none.
    pub fn new(bytes: &[u8]) -> Option<Self>
        ensures fits { IsSome result ↔ IsTrue (is_text bytes.now) }
        ensures same { IfSome result (λ text. text ≡ bytes.now) }
    {
        if is_text(bytes) {
            Some(Text {
                text: Short::new(bytes),
            })
        } else {
            None
        }
    }

    /// The bytes between the quotes.
    pub fn bytes(&self) -> &[u8]
        ensures same { result.now ≡ self.now }
        ensures fits { IsTrue (is_text self.now) }
    {
        self.text.bytes()
    }

    /// Whether it is the same text.
    pub fn is_same(&self, other: &Text) -> bool
        ensures { IsTrue result ↔ (self.now ≡ other.now) }
    {
        self == other
    }
}

fn are_name_bytes(bytes: &[u8]) -> bool
    ensures { result ≡ list_all is_name_byte bytes.now }
{
    bytes.iter().all(|byte| is_name_byte(*byte))
}

fn is_identifier(bytes: &[u8]) -> bool
    ensures { result ≡ is_identifier bytes.now }
{
    match bytes {
        [] => false,
        [first, others @ ..] => {
            is_lower_case(*first) && are_name_bytes(others) && others.len() <= LONGEST_WORD - 1
        }
    }
}

fn is_among(words: &[&str], word: &[u8]) -> bool
    ensures { result ≡ list_any (λ w. bytes_eq w.now word.now) words.now }
{
    words.iter().any(|known| known.as_bytes() == word)
}

fn is_principal_name(bytes: &[u8]) -> bool
    ensures { result ≡ is_principal_name bytes.now }
{
    is_identifier(bytes) && !is_among(&RESERVED, bytes)
}

fn is_predicate_name(bytes: &[u8]) -> bool
    ensures { result ≡ is_predicate_name bytes.now }
{
    is_principal_name(bytes) && !is_among(&STATE_PREDICATES, bytes)
}

// It looks at each byte, so that the compiler can have it look at many at once.
fn are_text_bytes(bytes: &[u8]) -> bool
    ensures { result ≡ list_all is_text_byte bytes.now }
{
    let mut fit = true;
    for byte in bytes {
        fit = fit & is_text_byte(*byte);
    }
    fit
}

fn is_text(bytes: &[u8]) -> bool
    ensures { result ≡ is_text bytes.now }
{
    are_text_bytes(bytes) && bytes.len() <= LONGEST_TEXT
}
