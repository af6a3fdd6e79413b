//! What is hashed: secrets, public values, nodes and messages, and the bits of a digest.

ghost use Rattle.std.specs.Prelude.{◌≡◌, ◌+◌, ◌*◌, ◌<◌, ◌≤◌, length};
ghost use Rattle.merkle_sig.specs.HashTree.{secret, public_value, parent};
ghost use Rattle.merkle_sig.specs.Signature.{message_digest, bit_of, digest_at};

use sha2::{Digest, Sha256};

/// A digest.
pub(crate) type Hash = [u8; 32];

/// The secret of a leaf for a value of a bit.
#[tactic(auto, unfolding(crate::specs::HashTree::secret))]
pub(crate) fn secret(seed: &Hash, leaf: u32, bit: u16, value: u8) -> Hash
    ensures { result ≡ secret seed.now leaf bit value }
{
    let mut hasher = Sha256::new_with_prefix(&[0u8]);
    hasher.update(seed);
    hasher.update(&leaf.to_be_bytes());
    hasher.update(&bit.to_be_bytes());
    hasher.update(&[value]);
    hasher.finalize()
}

/// What is public of a secret.
#[tactic(auto, unfolding(crate::specs::HashTree::public_value))]
pub(crate) fn public_value(hidden: &[u8]) -> Hash
    ensures { result ≡ public_value hidden.now }
{
    let mut hasher = Sha256::new_with_prefix(&[1u8]);
    hasher.update(hidden);
    hasher.finalize()
}

/// The node over two.
#[tactic(auto, unfolding(crate::specs::HashTree::parent))]
pub(crate) fn parent(left: &[u8], right: &[u8]) -> Hash
    ensures { result ≡ parent left.now right.now }
{
    let mut hasher = Sha256::new_with_prefix(&[3u8]);
    hasher.update(left);
    hasher.update(right);
    hasher.finalize()
}

/// The digest of a message.
#[tactic(auto, unfolding(crate::specs::Signature::message_digest))]
pub(crate) fn message_digest(message: &[u8]) -> Hash
    ensures { result ≡ message_digest message.now }
{
    let mut hasher = Sha256::new_with_prefix(&[4u8]);
    hasher.update(message);
    hasher.finalize()
}

/// A bit of a digest, from the highest bit of its first byte.
pub(crate) fn bit_of(digest: &Hash, bit: usize) -> u8
    requires { bit < 256 }
    ensures { result ≡ bit_of digest.now bit }
{
    (digest[bit / 8] >> (7 - bit % 8)) % 2
}

const HASH_LENGTH: usize = 32;

/// A digest among many, by its place.
pub(crate) fn digest_at(digests: &[u8], place: usize) -> &[u8]
    requires { 32 * place + 32 ≤ length digests.now }
    ensures { result.now ≡ digest_at digests.now place }
{
    let start = HASH_LENGTH * place;
    &digests[start..start + HASH_LENGTH]
}
