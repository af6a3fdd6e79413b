//! The size and the depth of a proof of any size and depth.

ghost use Rattle.std.specs.Prelude.{◌≤◌, ◌<◌, ◌-◌, ◌↔◌, IsTrue};
ghost use Rattle.std.specs.Option.{SomeIff};
ghost use Rattle.proof_term.specs.Proof.{proof_view};
ghost use Rattle.proof_term.specs.Limits.{size, depth};

use crate::premises::Premises;
use crate::proof::Proof;
use bl_syntax::limits::MOST_PROOF_NODES;

/// What was found of a proof.
#[derive(Clone, Copy)]
pub struct Measured {
    /// How many of the nodes that it may have are left.
    pub nodes_left: u16,
    pub depth: u8,
}

/// Measures a proof; none if it has more nodes or levels than these. It calls itself no deeper
/// than there are levels.
pub fn measure(p: &Proof, nodes: u16, levels: u8) -> Option<Measured>
    ensures { SomeIff result
        ((size (proof_view p.now) ≤ nodes) × (depth (proof_view p.now) ≤ levels))
        (record { nodes_left = nodes - size (proof_view p.now); depth = depth (proof_view p.now) }) }
{
    let premises = Premises::of(p);
    let left = nodes.checked_sub(1)?;
    let below = levels.checked_sub(1)?;
    match premises {
        Premises::Nothing => Some(Measured {
            nodes_left: left,
            depth: 1,
        }),
        Premises::One(q) => {
            let inner = measure(q, left, below)?;
            Some(Measured {
                nodes_left: inner.nodes_left,
                depth: 1 + inner.depth,
            })
        }
        Premises::Two(q, r) => {
            let first = measure(q, left, below)?;
            let second = measure(r, first.nodes_left, below)?;
            Some(Measured {
                nodes_left: second.nodes_left,
                depth: 1 + first.depth.max(second.depth),
            })
        }
    }
}

/// Whether a proof has more nodes than are kept. It calls nothing that calls itself, so the depth
/// of the proof plays no part, and looks at no more nodes than that.
pub fn is_too_large(p: &Proof) -> bool
    ensures { IsTrue result ↔ (MOST_PROOF_NODES < size (proof_view p.now)) }
{
    // The second premises on the way to the node: each belongs to a node that was passed.
    let mut waiting = [p; MOST_PROOF_NODES as usize];
    let mut waiting_len = 0;
    let mut node = p;
    for _passed in 0..MOST_PROOF_NODES {
        match Premises::of(node) {
            Premises::Nothing => {
                if waiting_len == 0 {
                    return false;
                }
                waiting_len -= 1;
                node = waiting[waiting_len];
            }
            Premises::One(q) => node = q,
            Premises::Two(q, r) => {
                waiting[waiting_len] = r;
                waiting_len += 1;
                node = q;
            }
        }
    }
    true
}
