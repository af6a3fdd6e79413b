//! The first words of a line, and the number of the words after them.

ghost use Rattle.std.specs.Prelude.{◌≡◌, ◌≤◌, length, Option, Some, MatchResult, Ok, Err};
ghost use Rattle.line_forms.specs.Forms.{form_named};
ghost use Rattle.line_forms.specs.Heads.{operation_head, do_head, head_in, may_end, is_counted, text_of};
ghost use Rattle.line_forms.specs.Modes.{known};

use crate::fault::LineFault;
use crate::forms::{Form, form_named, has_text, kinds_of, operation_named};
use crate::mode::{Mode, is_in, modes_of};
use line_words::{after_words, first_word};

// The operation that the second word names, and what stands after that word. `whole` is the length of the line.
fn operation_head(whole: usize, behind: &[u8]) -> Result<(Form, &[u8]), LineFault>
    requires { length behind.now ≤ whole }
    ensures shown { MatchResult result (λ p. operation_head whole behind.now ≡ Ok (p.0, p.1.now)) (λ fault. operation_head whole behind.now ≡ Err fault) }
    ensures shorter { MatchResult result (λ p. length p.1.now ≤ length behind.now) (λ _. Unit {0}) }
{
    match behind {
        [] => Err(LineFault::BadCount),
        [_, line @ ..] => {
            let (word, rest) = first_word(line);
            match operation_named(word) {
                Some(operation) => Ok((Form::Do(operation), rest)),
                None => Err(LineFault::BadWord(whole - line.len())),
            }
        }
    }
}

// The form of that name, if it is known in this mode.
fn known_form(mode: &Mode, word: &[u8]) -> Option<Form>
    ensures { result ≡ known mode.now (form_named word.now) }
{
    match form_named(word) {
        Some(form) => {
            if is_in(mode, modes_of(form)) {
                Some(form)
            } else {
                None
            }
        }
        None => None,
    }
}

// The operation that the second word names, if operations are done in this mode.
fn do_head<'a>(mode: &Mode, whole: usize, behind: &'a [u8]) -> Result<(Form, &'a [u8]), LineFault>
    requires { length behind.now ≤ whole }
    ensures shown { MatchResult result (λ p. do_head mode.now whole behind.now ≡ Ok (p.0, p.1.now)) (λ fault. do_head mode.now whole behind.now ≡ Err fault) }
    ensures shorter { MatchResult result (λ p. length p.1.now ≤ length behind.now) (λ _. Unit {0}) }
{
    match mode {
        Mode::Inquiry => Err(LineFault::BadWord(0)),
        _ => operation_head(whole, behind),
    }
}

/// The form that the first words of a line name in this mode, and what stands after these words.
pub fn head_in<'a>(mode: &Mode, line: &'a [u8]) -> Result<(Form, &'a [u8]), LineFault>
    ensures shown { MatchResult result (λ p. head_in mode.now line.now ≡ Ok (p.0, p.1.now)) (λ fault. head_in mode.now line.now ≡ Err fault) }
    ensures shorter { MatchResult result (λ p. length p.1.now ≤ length line.now) (λ _. Unit {0}) }
{
    let (word, behind) = first_word(line);
    if word == b"do".as_slice() {
        return do_head(mode, line.len(), behind);
    }
    match known_form(mode, word) {
        Some(form) => Ok((form, behind)),
        None => Err(LineFault::BadWord(0)),
    }
}

// Whether this may stand after the words: a space and a text, or nothing.
fn may_end(text: bool, rest: &[u8]) -> bool
    ensures { result ≡ may_end text (Some rest.now) }
{
    match rest {
        [] => !text,
        _ => text,
    }
}

/// Whether the number of words is right, of which these stand after the name of the form.
pub fn is_counted(form: Form, behind: &[u8]) -> bool
    ensures { result ≡ is_counted form behind.now }
{
    match after_words(kinds_of(form), behind) {
        Some(rest) => may_end(has_text(form), rest),
        None => false,
    }
}

/// The text after a space.
pub fn text_of(rest: &[u8]) -> &[u8]
    ensures { result.now ≡ text_of rest.now }
{
    match rest {
        [] => rest,
        [_, text @ ..] => text,
    }
}
