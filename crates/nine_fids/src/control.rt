//! What is written to the control file.

ghost use Rattle.std.specs.Prelude.{◌≡◌, ◌≢◌, ◌↔◌, ◌++◌, ℕ, List, codes, IsTrue, IfOk, OnErr, MatchOption};
ghost use Rattle.nine_fids.specs.declared.control.Control.{Control as Asked};
ghost use Rattle.nine_fids.specs.Control.{AreLoginWords, IsControlLine, IsAskedOf, BeginsToBring, line_in};

use bl_syntax::{Bytes, NoMemory, Principal};
use line_text::{rest_after, word_before};
use line_words::{principal, procap_of_hex, signature_hex};
use procap::Procap;
use std::alloc::Global;

/// A line of the control file.
#[derive(Debug, Drop)]
pub enum Control {
    /// Who logs in, by this signature over the login message.
    Login(Principal, Bytes),
    /// A procap for the end of the purse.
    Brings(Procap),
    /// The purse is emptied.
    Empties,
}

// The line, without its end if it has one.
fn line_in(bytes: &[u8]) -> &[u8]
    ensures { result.now ≡ line_in bytes.now }
{
    match bytes.strip_suffix(b"\n".as_slice()) {
        Some(line) => line,
        None => bytes,
    }
}

fn is_drop(line: &[u8]) -> bool
    ensures { IsTrue result ↔ (line.now ≡ codes "drop") }
{
    line == b"drop".as_slice()
}

// Who logs in, and the signature, by the words after `login `.
fn login_in(alloc: Global, words: &[u8]) -> Result<Option<(Principal, Bytes)>, NoMemory>
    ensures { IfOk result (λ r. MatchOption r ((who signature : List ℕ) → AreLoginWords words.now who signature → ⊥) (λ p. AreLoginWords words.now p.0 p.1)) }
{
    let (name, word) = match word_before(words, b" ") {
        Some(parts) => parts,
        None => return Ok(None),
    };
    let who = match principal(name) {
        Some(who) => who,
        None => return Ok(None),
    };
    match signature_hex(alloc, word)? {
        Some(signature) => Ok(Some((who, signature))),
        None => Ok(None),
    }
}

// What a line asks that begins with `login `.
fn login_line(alloc: Global, words: &[u8]) -> Result<Option<Control>, NoMemory>
    ensures { IfOk result (λ r. MatchOption r ((c : Asked) → IsControlLine (codes "login " ++ words.now) c → ⊥) (IsControlLine (codes "login " ++ words.now))) }
{
    match login_in(alloc, words)? {
        Some((who, signature)) => Ok(Some(Control::Login(who, signature))),
        None => Ok(None),
    }
}

// What a line asks that begins with `procap `.
fn procap_line(alloc: Global, word: &[u8]) -> Result<Option<Control>, NoMemory>
    ensures { IfOk result (λ r. MatchOption r ((c : Asked) → IsControlLine (codes "procap " ++ word.now) c → ⊥) (IsControlLine (codes "procap " ++ word.now))) }
{
    match procap_of_hex(alloc, word)? {
        Some(p) => Ok(Some(Control::Brings(p))),
        None => Ok(None),
    }
}

// What a line asks that begins with neither.
fn short_line(line: &[u8]) -> Option<Control>
    requires not_login { (words : List ℕ) → line.now ≢ codes "login " ++ words }
    requires not_procap { (word : List ℕ) → line.now ≢ codes "procap " ++ word }
    ensures { MatchOption result ((c : Asked) → IsControlLine line.now c → ⊥) (IsControlLine line.now) }
{
    if is_drop(line) {
        Some(Control::Empties)
    } else {
        None
    }
}

// What a line asks.
fn control_in(alloc: Global, line: &[u8]) -> Result<Option<Control>, NoMemory>
    ensures ok { IfOk result (λ r. MatchOption r ((c : Asked) → IsControlLine line.now c → ⊥) (IsControlLine line.now)) }
    ensures err { OnErr result (BeginsToBring line.now) }
{
    match rest_after(line, b"login ") {
        Some(words) => login_line(alloc, words),
        None => match rest_after(line, b"procap ") {
            Some(word) => procap_line(alloc, word),
            None => Ok(short_line(line)),
        },
    }
}

/// What bytes that are written to the control file ask: one of its lines, with or without a line end, or nothing. Memory is
/// taken for a line that brings a signature or a procap alone.
pub fn read_control(alloc: Global, bytes: &[u8]) -> Result<Option<Control>, NoMemory>
    ensures ok { IfOk result (IsAskedOf bytes.now) }
    ensures err { OnErr result (BeginsToBring (line_in bytes.now)) }
{
    control_in(alloc, line_in(bytes))
}
