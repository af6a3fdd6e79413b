//! Leaves, made of a seed or of what a signature shows. No call takes memory.

ghost use Rattle.std.specs.Prelude.{◌≡◌, ◌++◌, ℕ, List, length};
ghost use Rattle.sha2.specs.Hashers.{Holds256};
ghost use Rattle.merkle_sig.specs.HashTree.{leaf_over, node};
ghost use Rattle.merkle_sig.specs.Signature.{pair_from, pairs_from};

use crate::hashes::{Hash, bit_of, digest_at, public_value, secret};
use sha2::{Digest, Sha256};

const BITS: u16 = 256;

/// The leaf of a seed.
pub(crate) fn leaf(seed: &Hash, place: u32) -> Hash
    ensures { result ≡ node seed.now 0 place }
{
    let mut hasher = Sha256::new_with_prefix(&[2u8]);
    for bit in 0..BITS {
        hasher.update(&public_value(&secret(seed, place, bit, 0)));
        hasher.update(&public_value(&secret(seed, place, bit, 1)));
    }
    hasher.finalize()
}

/// The leaf that is made of what is shown of each bit of a digest.
pub(crate) fn leaf_from(shown: &[u8], digest: &Hash) -> Hash
    requires { length shown.now ≡ 16384 }
    ensures { result ≡ leaf_over (pairs_from shown.now digest.now 256) }
{
    let mut hasher = Sha256::new_with_prefix(&[2u8]);
    for bit in 0..256usize {
        let hidden = digest_at(shown, 2 * bit);
        let other = digest_at(shown, 2 * bit + 1);
        add_pair(&mut hasher, bit_of(digest, bit), hidden, other);
    }
    hasher.finalize()
}

// Adds the public values of a bit, of the value 0 first.
fn add_pair(hasher: &mut Sha256, value: u8, hidden: &[u8], other: &[u8])
    ensures { (message : List ℕ) → Holds256 hasher.old message
        → Holds256 hasher.new (message ++ pair_from value hidden.now other.now) }
{
    let made = public_value(hidden);
    if value == 0 {
        hasher.update(&made);
        hasher.update(other);
    } else {
        hasher.update(other);
        hasher.update(&made);
    }
}
