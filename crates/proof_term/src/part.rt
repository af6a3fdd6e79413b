//! The reader of a proof as a part of another format.

ghost use Rattle.proof_term.specs.ProofReading.{GivesProofReading, kept_proof_at};

use crate::fault::ProofFault;
use crate::reading;
use crate::tree::ProofTree;
use bl_syntax::limits::{MOST_PROOF_LEVELS, MOST_PROOF_NODES};
use std::alloc::Global;

/// A proof of at most 4,096 nodes and a depth of at most 200: the reader that formats with proofs in them are made of. It
/// reads at the front of `bytes`, the rest of an input of `input` bytes, and gives the proof and the bytes after it, or the
/// first fault. Places in faults count from the first byte of that input.
pub fn proof_at(alloc: Global, input: usize, bytes: &[u8]) -> Result<(ProofTree, &[u8]), ProofFault>
    ensures { GivesProofReading (λ x. (x.0, x.1.now)) result (kept_proof_at input bytes.now) }
{
    match reading::proof_at(alloc, MOST_PROOF_LEVELS, MOST_PROOF_NODES, input, bytes) {
        Ok((root, _nodes_left, rest)) => Ok((ProofTree::keep(root), rest)),
        Err(fault) => Err(fault),
    }
}
