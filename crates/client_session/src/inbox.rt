//! Bytes that were read, and the lines in them.

ghost use Rattle.std.specs.Prelude.{◌≡◌, [], ◌∷◌, ◌++◌, IfOk, MatchOption, OnOk, OnErr, length};
ghost use Rattle.line_text.specs.Words.{HasNo};
ghost use Rattle.client_session.specs.Lines.{HasPassed, TakesLine};

use bl_syntax::{Bytes, NoMemory, copy_bytes};
use line_text::split_word;
use std::alloc::Global;
use std::marker::Model;

/// Bytes that were read, and belong to no line that was taken.
#[derive(Drop)]
pub struct Inbox {
    bytes: Bytes,
    // How many bytes at the front have no end of a line, as was seen: these are not looked at again.
    passed: usize,
}

impl Model for Inbox {
    ghost use Rattle.std.specs.Prelude.{ℕ, List};
    ghost use Rattle.client_session.specs.Lines.{HasPassed};

    ghost Value = { List ℕ };

    ghost view = { λ i. i.bytes };

    ghost invariant = { λ i. HasPassed i.passed i.bytes };
}

// The first line, and what stands after its end; none if there is no end of a line. The first `passed` bytes have none.
fn first_line(bytes: &[u8], passed: usize) -> Option<(&[u8], &[u8])>
    requires { HasPassed passed bytes.now }
    ensures { MatchOption result (HasNo 10 bytes.now) (λ p. HasNo 10 p.0.now × (bytes.now ≡ p.0.now ++ 10 ∷ p.1.now)) }
{
    let (word, rest) = split_word(&bytes[passed..], b'\n');
    match rest {
        [] => None,
        [_, after @ ..] => Some((&bytes[..passed + word.len()], after)),
    }
}

impl Inbox {
    /// Without a byte. It takes no memory.
    pub fn new(alloc: Global) -> Inbox
        ensures { result ≡ [] }
    {
        Inbox {
            bytes: Bytes::new(alloc),
            passed: 0,
        }
    }

    /// How many bytes there are.
    pub fn len(&self) -> usize
        ensures { result ≡ length self.now }
    {
        self.bytes.len()
    }

    /// Adds what was read.
    pub fn add(&mut self, piece: &[u8]) -> Result<(), NoMemory>
        ensures ok { OnOk result (self.new ≡ self.old ++ piece.now) }
        ensures err { OnErr result (self.new ≡ self.old) }
    {
        self.bytes.extend(piece)
    }

    /// Drops all.
    pub fn clear(&mut self)
        ensures { self.new ≡ [] }
    {
        self.bytes.clear();
        self.passed = 0;
    }

    /// Takes the first line, without its end: all bytes before the first end of a line. None if there is no end of a line; then all
    /// stays, as it does if memory runs out.
    pub fn take_line(&mut self, alloc: Global) -> Result<Option<Bytes>, NoMemory>
        ensures ok { IfOk result (TakesLine self.old self.new) }
        ensures err { OnErr result (self.new ≡ self.old) }
    {
        let (line, after) = match first_line(self.bytes.as_slice(), self.passed) {
            Some(parts) => parts,
            None => {
                self.passed = self.bytes.len();
                return Ok(None);
            }
        };
        let line = copy_bytes(alloc, line)?;
        let after = copy_bytes(alloc, after)?;
        self.bytes = after;
        self.passed = 0;
        Ok(Some(line))
    }
}
