//! A tree of maxima, complete and in one list. Node 1 is its root, and the nodes below node k are 2 k and 2 k + 1. The
//! caller gives the numbers of the leaves.
ghost use Rattle.std.specs.Prelude.{◌≡◌, ℕ, ◌+◌, ◌*◌, ◌^◌, ◌<◌, ◌≤◌, max, false, length, IfOk, slice_set};
ghost use Rattle.im_holes.specs.Tree.{at_node, IsFirst, IsMaxTree, IsPut, IsStart, IsUp, IsUpTo, IsZeroTree};
ghost use Rattle.im_holes.specs.Tree.{leaf_count, row_length};

use std::alloc::{AllocError, Global};

/// Returns the number at a node.
pub(crate) fn node(nodes: &[u32], k: usize) -> u32
    requires { k < length nodes.now }
    ensures { result ≡ at_node nodes.now k }
{
    nodes[k]
}

/// Makes a tree with at least `leaves` leaves, all 0. The number of its leaves is a power of two.
pub(crate) fn room_for(alloc: Global, leaves: usize) -> Result<Vec<u32>, AllocError>
    requires { leaves < 2 ^ 31 }
    ensures { IfOk result (λ nodes. IsZeroTree nodes.items leaves) }
{
    let mut count = 1;
    while count < leaves {
        count *= 2;
    }
    vec![in alloc; 0u32; 2 * count]
}

// Sets a node to the larger of the two nodes below it. Returns whether that changed the node.
fn join_node(nodes: &mut [u32], k: usize) -> bool
    requires { 2 * k + 1 < length nodes.old }
    ensures joined { nodes.new ≡
        slice_set nodes.old k (max (at_node nodes.old (2 * k)) (at_node nodes.old (2 * k + 1))) }
    ensures same { result ≡ false → at_node nodes.new k ≡ at_node nodes.old k }
{
    let old = node(nodes, k);
    let new = node(nodes, 2 * k).max(node(nodes, 2 * k + 1));
    nodes[k] = new;
    new != old
}

// Renews the nodes above a node, up to the first one that stays as it was.
fn renew_path(nodes: &mut [u32], from: usize)
    requires { IsUpTo nodes.old nodes.old from }
    ensures { IsUp nodes.old nodes.new }
{
    let mut k = from;
    while k > 1 {
        k /= 2;
        if !join_node(nodes, k) {
            return;
        }
    }
}

/// Puts another number at a leaf.
pub(crate) fn put(nodes: &mut [u32], leaf: usize, new: u32)
    requires tree { IsMaxTree nodes.old }
    requires inside { leaf < leaf_count nodes.old }
    ensures { IsPut nodes.old nodes.new leaf new }
{
    let from = nodes.len() / 2 + leaf;
    nodes[from] = new;
    renew_path(nodes, from);
}

// How many of the first leaves are looked at first. They are for the cells that are taken first of all.
const NEAR: usize = 256;

// Returns the node above the first leaves if one of them has at least the number `n`. Else returns the root, which must
// have it.
#[inline(always)]
fn start_for(nodes: &[u32], n: u32) -> usize
    requires power { (height : ℕ) × (leaf_count nodes.now ≡ row_length height) }
    requires tree { IsMaxTree nodes.now }
    requires room { n ≤ at_node nodes.now 1 }
    ensures { IsStart nodes.now n result }
{
    let near = nodes.len() / 2 / NEAR;
    if near > 0 {
        if node(nodes, near) >= n {
            return near;
        }
    }
    1
}

/// Returns the first leaf with at least the number `n`. The root must have at least `n`.
pub(crate) fn first_from(nodes: &[u32], n: u32) -> usize
    requires power { (height : ℕ) × (leaf_count nodes.now ≡ row_length height) }
    requires tree { IsMaxTree nodes.now }
    requires room { n ≤ at_node nodes.now 1 }
    ensures { IsFirst nodes.now n result }
{
    let leaves = nodes.len() / 2;
    let mut k = start_for(nodes, n);
    while k < leaves {
        if node(nodes, 2 * k) >= n {
            k = 2 * k;
        } else {
            k = 2 * k + 1;
        }
    }
    k - leaves
}
