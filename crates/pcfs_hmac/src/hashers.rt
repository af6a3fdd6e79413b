// A key as one block, the two hashers that begin with it, each under its pad, and the tag that they make.

ghost use Rattle.std.specs.Prelude.{◌≡◌, ℕ, List, ◌++◌, replicate};
ghost use Rattle.sha2.specs.Hashers.{Holds256};
ghost use Rattle.sha2.specs.Sha256.{sha256};
ghost use Rattle.pcfs_hmac.specs.Hmac.{block_key, xor_bytes};

use sha2::{Digest, Sha256};

const BLOCK_LENGTH: usize = 64;

pub(crate) const INNER_PAD: u8 = 0x36;

pub(crate) const OUTER_PAD: u8 = 0x5c;

// The key as one block.
pub(crate) fn block_key(key: &[u8]) -> [u8; 64]
    ensures { result ≡ block_key key.now }
{
    let mut block = [0u8; 64];
    if key.len() > BLOCK_LENGTH {
        block[..32].copy_from_slice(&Sha256::digest(key));
    } else {
        block[..key.len()].copy_from_slice(key);
    }
    block
}

// A hasher of the block with `pad` XORed into each byte.
pub(crate) fn padded_hasher(block: &[u8; 64], pad: u8) -> Sha256
    ensures { Holds256 result (xor_bytes block.now (replicate 64 pad)) }
{
    let mut bytes = *block;
    for byte in bytes.iter_mut() {
        *byte ^= pad;
    }
    Sha256::new_with_prefix(&bytes)
}

// The digest of what the outer hasher holds and then the inner one's digest.
pub(crate) fn tag(inner: Sha256, mut outer: Sha256) -> [u8; 32]
    ensures { (inside outside : List ℕ) → Holds256 inner inside → Holds256 outer outside
        → result ≡ sha256 (outside ++ sha256 inside) }
{
    outer.update(&inner.finalize());
    outer.finalize()
}
