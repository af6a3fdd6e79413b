// A text that is taken in piece by piece under one key.

ghost use Rattle.std.specs.Prelude.{◌≡◌, [], ◌++◌};
ghost use Rattle.pcfs_hmac.specs.Hmac.{hmac};

use crate::given::{Given, join, nothing};
use crate::hashers::{INNER_PAD, OUTER_PAD, block_key, padded_hasher, tag};
use sha2::{Digest, Sha256};
use std::marker::Model;

/// A text that is taken in piece by piece under one key.
///
/// Contracts see it as the key and the text so far. It keeps the two hashers that have taken in the
/// key already, so a copy of a `Mac` spares that work for every further text under the key. Nothing
/// wipes them when it is dropped.
#[derive(Drop)]
pub struct Mac {
    inner: Sha256,
    outer: Sha256,
    key: Given,
    text: Given,
}

impl Model for Mac {
    ghost use Rattle.std.specs.Prelude.{◌++◌};
    ghost use Rattle.sha2.specs.Hashers.{Holds256};
    ghost use Rattle.pcfs_hmac.specs.Hmac.{MacView, block_key, ipad, opad, xor_bytes};

    ghost Value = { MacView };

    ghost view = { λ m. record { key = m.key.value; text = m.text.value } };

    ghost invariant = { λ m. Holds256 m.inner (xor_bytes (block_key m.key.value) ipad ++ m.text.value)
        × Holds256 m.outer (xor_bytes (block_key m.key.value) opad) };
}

impl Mac {
    /// The empty text under `key`.
    pub fn new(key: &[u8]) -> Mac
        ensures { result ≡ record { key = key.now; text = [] } }
    {
        let block = block_key(key);
        Mac {
            inner: padded_hasher(&block, INNER_PAD),
            outer: padded_hasher(&block, OUTER_PAD),
            key: join(&nothing(), key),
            text: nothing(),
        }
    }

    /// The same text under the same key.
    pub fn copy(&self) -> Mac
        ensures { result ≡ self.now }
    {
        Mac {
            inner: self.inner.clone().unwrap(),
            outer: self.outer.clone().unwrap(),
            key: join(&self.key, &[]),
            text: join(&self.text, &[]),
        }
    }

    /// Adds `piece` at the end of the text.
    pub fn update(&mut self, piece: &[u8])
        ensures { self.new ≡ record self.old { text = self.old.text ++ piece.now } }
    {
        self.inner.update(piece);
        self.text = join(&self.text, piece);
    }

    /// The tag of the text under the key.
    pub fn finish(self) -> [u8; 32]
        ensures { result ≡ hmac self.key self.text }
    {
        tag(self.inner, self.outer)
    }
}
