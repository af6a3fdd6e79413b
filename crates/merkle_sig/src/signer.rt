//! A signer: the nodes of its tree, and the next leaf that it gives.

ghost use Rattle.std.specs.Prelude.{◌≡◌, ◌+◌, ◌^◌, ◌<◌, ◌≤◌, ◌++◌, IfOk, OnOk, IsTrue};
ghost use Rattle.bl_syntax.specs.declared.limits.TheConstants.{HIGHEST_TREE};
ghost use Rattle.merkle_sig.specs.HashTree.{root_of};
ghost use Rattle.merkle_sig.specs.Signature.{accepts_root, beside, shown, shown_bits, siblings, signature_of};
ghost use Rattle.merkle_sig.specs.Signer.{Signs};

use crate::hashes::{Hash, bit_of, message_digest, public_value, secret};
use crate::tree::{Nodes, tree, width_of};
use bl_syntax::{Bytes, NoMemory};
use std::alloc::Global;
use std::marker::Model;
use thiserror::Error;

const FIXED_LENGTH: usize = 16388;

const HASH_LENGTH: usize = 32;

const BITS: u16 = 256;

/// Why there is no signature.
#[derive(Clone, Copy, Debug, PartialEq, Eq, Error)]
pub enum SignFault {
    /// All leaves are spent.
    #[error("all leaves are spent")]
    Spent,
    /// A growth was refused.
    #[error("out of memory")]
    NoMemory,
}

/// A signer, which gives each leaf of its tree once.
///
/// Contracts see its seed, its height and the next leaf. It keeps all nodes of the tree, 16 KiB. Nothing wipes the seed
/// when it is dropped, and nothing here keeps the next leaf beyond that: who makes a signer of the same seed again has to
/// begin with the leaf after the last that was given.
#[derive(Drop)]
pub struct Signer {
    seed: Hash,
    height: u8,
    next: u32,
    nodes: Nodes,
}

impl Model for Signer {
    ghost use Rattle.std.specs.Prelude.{◌^◌, ◌≤◌};
    ghost use Rattle.bl_syntax.specs.declared.limits.TheConstants.{HIGHEST_TREE};
    ghost use Rattle.merkle_sig.specs.Nodes.{IsTree};
    ghost use Rattle.merkle_sig.specs.Signer.{SignerView};

    ghost Value = { SignerView };

    ghost view = { λ s. record { seed = s.seed; height = s.height; next = s.next } };

    ghost invariant = { λ s. (s.height ≤ HIGHEST_TREE) × (s.next ≤ 2 ^ s.height) × IsTree s.seed s.height s.nodes };
}

impl Signer {
    /// The signer of this seed and height whose next leaf is `next`. It takes no memory, and makes the whole tree.
    pub fn new(seed: [u8; 32], height: u8, next: u32) -> Signer
        requires low { height ≤ HIGHEST_TREE }
        requires within { next ≤ 2 ^ height }
        ensures { result ≡ record { seed = seed; height = height; next = next } }
    {
        let nodes = tree(&seed, height);
        Signer {
            seed,
            height,
            next,
            nodes,
        }
    }

    /// The root of its tree, which is the public key.
    pub fn root(&self) -> [u8; 32]
        ensures { result ≡ root_of self.now.seed self.now.height }
    {
        self.nodes[1]
    }

    /// Signs the message by the next leaf, which is spent from then on.
    ///
    /// At each fault the next leaf stays, and nothing was given out. The work is the same for all messages of a length.
    pub fn sign(&mut self, alloc: Global, message: &[u8]) -> Result<Bytes, SignFault>
        ensures signs { Signs self.old message.now result self.new }
        ensures accepted { IfOk result (λ signature.
            IsTrue (accepts_root (root_of self.old.seed self.old.height) self.old.height message.now signature)) }
    {
        if self.next == width_of(self.height) {
            return Err(SignFault::Spent);
        }
        match self.signature(alloc, message) {
            Ok(signature) => {
                self.next += 1;
                Ok(signature)
            }
            Err(NoMemory) => Err(SignFault::NoMemory),
        }
    }

    // The signature by the next leaf.
    fn signature(&self, alloc: Global, message: &[u8]) -> Result<Bytes, NoMemory>
        requires { self.now.next < 2 ^ self.now.height }
        ensures { IfOk result (λ signature. signature
            ≡ signature_of self.now.seed self.now.height self.now.next message.now) }
    {
        let length = FIXED_LENGTH + HASH_LENGTH * self.height as usize;
        let mut signature = Bytes::from_vec(Vec::with_capacity(alloc, length)?);
        signature.extend(&self.next.to_be_bytes())?;
        add_shown(
            &mut signature,
            &self.seed,
            self.next,
            &message_digest(message),
        )?;
        self.add_siblings(&mut signature)?;
        Ok(signature)
    }

    // Adds the nodes beside the way of the next leaf.
    fn add_siblings(&self, signature: &mut Bytes) -> Result<(), NoMemory>
        requires { self.now.next < 2 ^ self.now.height }
        ensures { OnOk result (signature.new
            ≡ signature.old ++ siblings self.now.seed self.now.next self.now.height) }
    {
        let mut place = width_of(self.height) + self.next;
        for level in 0..self.height {
            signature.extend(&self.nodes[beside(place) as usize])?;
            place /= 2;
        }
        Ok(())
    }
}

// Adds what is shown of each bit of a digest.
fn add_shown(signature: &mut Bytes, seed: &Hash, leaf: u32, digest: &Hash) -> Result<(), NoMemory>
    ensures { OnOk result (signature.new ≡ signature.old ++ shown_bits seed.now leaf digest.now 256) }
{
    for bit in 0..BITS {
        add_bit(signature, seed, leaf, bit, bit_of(digest, bit as usize))?;
    }
    Ok(())
}

// Adds what is shown of a bit. Both secrets are made, whatever its value is.
fn add_bit(
    signature: &mut Bytes,
    seed: &Hash,
    leaf: u32,
    bit: u16,
    value: u8,
) -> Result<(), NoMemory>
    requires { value < 2 }
    ensures { OnOk result (signature.new ≡ signature.old ++ shown seed.now leaf bit value) }
{
    let own = secret(seed, leaf, bit, value);
    let other = public_value(&secret(seed, leaf, bit, 1 - value));
    signature.extend(&own)?;
    signature.extend(&other)?;
    Ok(())
}

// The place beside another, under the same node.
fn beside(place: u32) -> u32
    ensures { result ≡ beside place }
{
    if place % 2 == 0 { place + 1 } else { place - 1 }
}
