//! Proofs within their limits.

use crate::measure::{is_too_large, measure};
use crate::proof::Proof;
use bl_syntax::NoMemory;
use bl_syntax::limits::{MOST_PROOF_LEVELS, MOST_PROOF_NODES};
use std::alloc::Global;
use std::marker::Model;
use thiserror::Error;

/// Why a proof is not kept.
#[derive(Clone, Copy, Debug, PartialEq, Eq, Error)]
pub enum LimitFault {
    /// More than 4,096 nodes.
    #[error("the proof has more than 4096 nodes")]
    TooLarge,
    /// At most 4,096 nodes, and a depth of more than 200.
    #[error("the proof is more than 200 levels deep")]
    TooDeep,
}

/// A proof of at most 4,096 nodes, one for each use of a rule, and of a depth of at most 200. A rule
/// without premises has depth 1. The times that its terms name are moments. Contracts see the plain proof.
#[derive(Debug, Drop)]
pub struct ProofTree {
    root: Box<Proof>,
    nodes: u16,
    levels: u8,
}

impl Model for ProofTree {
    ghost use Rattle.proof_term.specs.Proof.{ProofView, proof_view};
    ghost use Rattle.proof_term.specs.Limits.{HasMeasure, IsKeptProof};
    ghost use Rattle.proof_term.specs.ProofCode.{proof_code};

    ghost Value = { ProofView };

    ghost coded = { proof_code };

    ghost view = { λ t. proof_view t.root.value };

    ghost invariant = { λ t. IsKeptProof (proof_view t.root.value) × HasMeasure (proof_view t.root.value) t.nodes t.levels };
}

impl ProofTree {
    ghost use Rattle.std.specs.Prelude.{◌≡◌, ◌≤◌, ◌<◌, ◌↔◌, Err, IsOk, IfOk};
    ghost use Rattle.proof_term.specs.Proof.{proof_view};
    ghost use Rattle.proof_term.specs.Limits.{size, depth, HasTimesInRange, IsProofWithinLimits, IsKeptProof};

    /// Keeps a proof whose times are moments. A proof over both limits is too large. It takes no
    /// memory, and calls itself no deeper than 200, however deep the proof is; but a proof that is
    /// refused is dropped, and that is as deep as the proof.
    pub fn new(p: Box<Proof>) -> Result<ProofTree, LimitFault>
        requires { HasTimesInRange (proof_view p.value) }
        ensures kept { IsOk result ↔ IsProofWithinLimits (proof_view p.value) }
        ensures same { IfOk result (λ tree. tree ≡ proof_view p.value) }
        ensures large { (result ≡ Err LimitFault.TooLarge) ↔ (MOST_PROOF_NODES < size (proof_view p.value)) }
        ensures deep { (result ≡ Err LimitFault.TooDeep)
            ↔ ((size (proof_view p.value) ≤ MOST_PROOF_NODES) × (MOST_PROOF_LEVELS < depth (proof_view p.value))) }
    {
        match measure(&p, MOST_PROOF_NODES, MOST_PROOF_LEVELS) {
            Some(m) => Ok(ProofTree {
                root: p,
                nodes: MOST_PROOF_NODES - m.nodes_left,
                levels: m.depth,
            }),
            None => {
                if is_too_large(&p) {
                    Err(LimitFault::TooLarge)
                } else {
                    Err(LimitFault::TooDeep)
                }
            }
        }
    }

    /// Keeps a proof that is known to be within the limits. It takes no memory.
    pub(crate) fn keep(p: Box<Proof>) -> ProofTree
        requires { IsKeptProof (proof_view p.value) }
        ensures { result ≡ proof_view p.value }
    {
        let m = measure(&p, MOST_PROOF_NODES, MOST_PROOF_LEVELS).unwrap();
        ProofTree {
            root: p,
            nodes: MOST_PROOF_NODES - m.nodes_left,
            levels: m.depth,
        }
    }

    /// The number of its nodes.
    pub fn size(&self) -> usize
        ensures { result ≡ size self.now }
    {
        self.nodes as usize
    }

    /// The number of nodes from the root down to the farthest, both counted.
    pub fn depth(&self) -> usize
        ensures { result ≡ depth self.now }
    {
        self.levels as usize
    }

    /// The proof.
    pub fn root(&self) -> &Proof
        ensures same { proof_view result.now ≡ self.now }
        ensures kept { IsKeptProof self.now }
    {
        &self.root
    }

    /// An equal proof in memory of its own.
    pub fn copy(&self, alloc: Global) -> Result<ProofTree, NoMemory>
        ensures { IfOk result (λ copied. copied ≡ self.now) }
    {
        Ok(ProofTree {
            root: self.root.boxed_copy(alloc)?,
            nodes: self.nodes,
            levels: self.levels,
        })
    }
}
