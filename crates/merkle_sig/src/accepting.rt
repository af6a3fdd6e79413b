//! Which signatures a root accepts.

ghost use Rattle.std.specs.Prelude.{◌≡◌, ◌+◌, ◌*◌, ◌^◌, ◌≤◌, nat_lt, length};
ghost use Rattle.merkle_sig.specs.Signature.{accepts_root, climb, leaf_number, shown_part, way_part};

use crate::hashes::{Hash, digest_at, message_digest, parent};
use crate::leaves::leaf_from;

const NUMBER_LENGTH: usize = 4;

const SHOWN_END: usize = 16388;

const HASH_LENGTH: usize = 32;

/// Whether the root of a tree of this height accepts the signature of the message.
///
/// Its work is the same for all signatures of the right length whose leaf is below 2^height: the message's hash, and
/// 513 + 2 height compressions. It takes no memory.
pub fn accepts_root(root: &[u8; 32], height: u8, message: &[u8], signature: &[u8]) -> bool
    ensures { result ≡ accepts_root root.now height message.now signature.now }
{
    if signature.len() != SHOWN_END + HASH_LENGTH * height as usize {
        return false;
    }
    let number = leaf_number(signature);
    if !is_below_power(number, height) {
        return false;
    }
    let leaf = leaf_from(shown_part(signature), &message_digest(message));
    climb(leaf, number, way_part(signature), height) == *root
}

// The number of the leaf that signs.
#[tactic(auto, unfolding(crate::specs::Signature::leaf_number))]
fn leaf_number(signature: &[u8]) -> u32
    requires { 4 ≤ length signature.now }
    ensures { result ≡ leaf_number signature.now }
{
    let (number, _) = signature.split_at(NUMBER_LENGTH);
    u32::from_be_bytes([number[0], number[1], number[2], number[3]])
}

// What a signature shows of the bits of a digest.
#[tactic(auto, unfolding(crate::specs::Signature::shown_part))]
fn shown_part(signature: &[u8]) -> &[u8]
    requires { 16388 ≤ length signature.now }
    ensures value { result.now ≡ shown_part signature.now }
    ensures whole { length result.now ≡ 16384 }
{
    &signature[NUMBER_LENGTH..SHOWN_END]
}

// The nodes beside the way of its leaf.
fn way_part(signature: &[u8]) -> &[u8]
    requires { 16388 ≤ length signature.now }
    ensures value { result.now ≡ way_part signature.now }
    ensures rest { length result.now + 16388 ≡ length signature.now }
{
    &signature[SHOWN_END..]
}

// Whether a number is below this power of two.
fn is_below_power(number: u32, power: u8) -> bool
    ensures { result ≡ nat_lt number (2 ^ power) }
{
    power >= 32 || number >> power == 0
}

// Where the way from a leaf leads, beside these nodes.
fn climb(leaf: Hash, number: u32, others: &[u8], height: u8) -> Hash
    requires { length others.now ≡ 32 * height }
    ensures { result ≡ climb leaf number others.now height }
{
    let mut here = leaf;
    let mut place = number;
    for level in 0..height {
        let other = digest_at(others, level as usize);
        here = if place % 2 == 0 {
            parent(&here, other)
        } else {
            parent(other, &here)
        };
        place /= 2;
    }
    here
}
