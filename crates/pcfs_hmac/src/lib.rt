//! HMAC-SHA256 by the definition of RFC 2104, over the definition of SHA-256 in `sha2`.
//! `mac` is `hmac` of its key and text, and so is the tag of a `Mac`, however the text was cut into pieces.
//! No call takes memory or fails. No comparison of tags in constant time is promised.
#![tactic(auto)]

ghost use Rattle.std.specs.Prelude.{◌≡◌};
ghost use Rattle.pcfs_hmac.specs.Hmac.{hmac};

mod given;
mod hashers;
mod keyed;
#[cfg(test)]
mod tests;

use crate::hashers::{INNER_PAD, OUTER_PAD, block_key, padded_hasher, tag};
pub use keyed::Mac;
use sha2::Digest;

/// The tag of `text` under `key`, which may have any length.
///
/// The standard of SHA-256 speaks of messages below 2^61 bytes, and the first 64 bytes of the inner
/// one come from the key. Past that, the tag is by the definition of `sha2`, which takes a message's
/// length in bits modulo 2^64.
pub fn mac(key: &[u8], text: &[u8]) -> [u8; 32]
    ensures { result ≡ hmac key.now text.now }
{
    let block = block_key(key);
    let mut inner = padded_hasher(&block, INNER_PAD);
    inner.update(text);
    tag(inner, padded_hasher(&block, OUTER_PAD))
}
