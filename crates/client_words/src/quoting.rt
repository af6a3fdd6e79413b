//! Texts of others in a message: quoted, on one line.

ghost use Rattle.std.specs.Prelude.{◌≡◌, IfOk, IsTrue, map, not, string_bytes};
ghost use Rattle.std.specs.Char.{is_control};
ghost use Rattle.std.specs.List.{list_all};
ghost use Rattle.std.specs.Str.{chars};
ghost use Rattle.client_words.specs.PlainLetters.{plain_letter};

use std::alloc::{AllocError, Global};

fn put_plain(out: &mut String, letter: char, quote: char) -> Result<(), AllocError> {
    if letter == quote || letter == '\\' {
        out.push('\\')?;
    }
    out.push(letter)
}

// Writes a letter between quotes.
fn put_letter(out: &mut String, letter: char, quote: char) -> Result<(), AllocError> {
    match letter {
        '\n' => out.push_str("\\n"),
        '\r' => out.push_str("\\r"),
        '\t' => out.push_str("\\t"),
        _ => {
            if letter.is_control() {
                out.push('?')
            } else {
                put_plain(out, letter, quote)
            }
        }
    }
}

/// Writes a text between quotes, on one line.
pub fn put_quoted(out: &mut String, text: &str) -> Result<(), AllocError> {
    let quote = if text.contains('\'') && !text.contains('"') {
        '"'
    } else {
        '\''
    };
    out.push(quote)?;
    for letter in text.chars() {
        put_letter(out, letter, quote)?;
    }
    out.push(quote)
}

// The letter; a question mark in the place of a control character.
fn plain_letter(letter: char) -> char
    ensures { result ≡ plain_letter letter }
{
    if letter.is_control() { '?' } else { letter }
}

/// The text with a question mark in the place of each control character, so that it is one line.
pub fn without_controls(alloc: Global, text: &str) -> Result<String, AllocError>
    ensures letters { IfOk result (λ plain. chars (string_bytes plain) ≡ map plain_letter (chars text.now)) }
    ensures one_line { IfOk result (λ plain. IsTrue (list_all (λ letter. not (is_control letter)) (chars (string_bytes plain)))) }
{
    text.chars()
        .map(|letter| plain_letter(letter))
        .collect(alloc)
}
