//! The nonce of a connection, with the greeting that gives it.

ghost use Rattle.std.specs.Prelude.{◌≡◌, IfOk, length};
ghost use Rattle.nine_fids.specs.Nonce.{greeting};

use bl_syntax::{Bytes, NoMemory};
use line_text::greeting_line;
use std::alloc::Global;
use std::marker::Model;

/// A nonce, and its greeting. Contracts see the nonce.
#[derive(Debug, Drop)]
pub struct Nonce {
    nonce: [u8; 16],
    line: Bytes,
}

impl Model for Nonce {
    ghost use Rattle.std.specs.Prelude.{◌≡◌, ℕ, List, length};
    ghost use Rattle.nine_fids.specs.Nonce.{greeting};

    ghost Value = { List ℕ };

    ghost view = { λ n. n.nonce };

    ghost invariant = { λ n. (n.line ≡ greeting n.nonce) × (length n.line ≡ 39) };
}

impl Nonce {
    /// The nonce of these bytes.
    pub fn new(alloc: Global, nonce: &[u8; 16]) -> Result<Nonce, NoMemory>
        ensures { IfOk result (λ n. n ≡ nonce.now) }
    {
        Ok(Nonce {
            nonce: *nonce,
            line: greeting_line(alloc, nonce)?,
        })
    }

    /// The bytes of the nonce.
    pub fn bytes(&self) -> &[u8; 16]
        ensures { result.now ≡ self.now }
    {
        &self.nonce
    }

    /// The greeting, with its end: 39 bytes.
    pub fn greeting(&self) -> &[u8]
        ensures greeting { result.now ≡ greeting self.now }
        ensures count { length result.now ≡ 39 }
    {
        self.line.as_slice()
    }
}
