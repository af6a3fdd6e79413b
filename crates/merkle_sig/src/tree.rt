//! All nodes of a tree, made once. No call takes memory.

ghost use Rattle.std.specs.Prelude.{◌≡◌, ℕ, [], ◌*◌, ◌^◌, ◌≤◌, length, slice_index_or};
ghost use Rattle.bl_syntax.specs.declared.limits.TheConstants.{HIGHEST_TREE};
ghost use Rattle.merkle_sig.specs.Nodes.{AreLeaves, AreParents, IsTree};

use crate::hashes::{Hash, parent};
use crate::leaves::leaf;

const MOST_NODES: usize = 512;

/// The nodes of a tree: the root at 1, and under the node at `n` those at `2 n` and `2 n + 1`.
pub(crate) type Nodes = [Hash; MOST_NODES];

/// The nodes of the tree of this seed and height.
pub(crate) fn tree(seed: &Hash, height: u8) -> Nodes
    requires { height ≤ HIGHEST_TREE }
    ensures { IsTree seed.now height result }
{
    let mut nodes = blank();
    let width = width_of(height);
    add_leaves(&mut nodes, seed, width);
    add_parents(&mut nodes, width as usize);
    nodes
}

/// How many leaves a tree of this height has.
pub(crate) fn width_of(height: u8) -> u32
    requires { height ≤ HIGHEST_TREE }
    ensures { result ≡ 2 ^ height }
{
    1 << height
}

fn blank() -> Nodes
    ensures { length result ≡ 512 }
{
    [[0u8; 32]; MOST_NODES]
}

// Puts the leaves of this seed at `width` and after it.
fn add_leaves(nodes: &mut [Hash], seed: &Hash, width: u32)
    requires small { width ≤ 256 }
    requires room { 2 * width ≤ length nodes.old }
    ensures { AreLeaves seed.now width nodes.new width }
{
    for place in 0..width {
        nodes[(width + place) as usize] = leaf(seed, place);
    }
}

// Puts a node over each two, from below `width` down to the root.
fn add_parents(nodes: &mut [Hash], width: usize)
    requires { 2 * width ≤ length nodes.old }
    ensures parents { AreParents width 0 nodes.new }
    ensures leaves { (n : ℕ) → width ≤ n →
        slice_index_or nodes.new n [] ≡ slice_index_or nodes.old n [] }
{
    for step in 1..width {
        let place = width - step;
        nodes[place] = parent(&nodes[2 * place], &nodes[2 * place + 1]);
    }
}
