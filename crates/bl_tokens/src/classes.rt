//! Classes of bytes, and how far a run of one class goes.

ghost use Rattle.std.specs.Prelude.{◌≡◌, ◌≤◌, length};
ghost use Rattle.std.specs.List.{prefix_len};
ghost use Rattle.bl_tokens.specs.Classes.{is_word_byte, is_space, is_in};

use bl_syntax::byte_classes::{is_digit, is_name_byte, is_text_byte, is_upper_case};

/// A class of bytes.
#[derive(Clone, Copy, Debug, PartialEq, Eq)]
pub enum Class {
    Space,
    Digit,
    /// What may follow the first byte of a name.
    Name,
    /// What may follow the first byte of a variable.
    Word,
    /// What may stand in a text constant.
    Text,
}

fn is_space(byte: u8) -> bool
    ensures { result ≡ is_space byte }
{
    byte == b' '
}

fn is_word_byte(byte: u8) -> bool
    ensures { result ≡ is_word_byte byte }
{
    is_name_byte(byte) || is_upper_case(byte)
}

fn is_in(class: Class, byte: u8) -> bool
    ensures { result ≡ is_in class byte }
{
    match class {
        Class::Space => is_space(byte),
        Class::Digit => is_digit(byte),
        Class::Name => is_name_byte(byte),
        Class::Word => is_word_byte(byte),
        Class::Text => is_text_byte(byte),
    }
}

/// How many bytes of the class stand at the front.
pub fn run_len(class: Class, bytes: &[u8]) -> usize
    ensures same { result ≡ prefix_len (is_in class) bytes.now }
    ensures within { result ≤ length bytes.now }
{
    let mut len = 0;
    for byte in bytes {
        if !is_in(class, *byte) {
            return len;
        }
        len += 1;
    }
    len
}
