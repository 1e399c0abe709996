//! Boundary tags: a mark at the first cell of a hole, and the hole's length at its first and its last cell.
ghost use Rattle.std.specs.Prelude.{◌≡◌, ℕ, ◌+◌, ◌*◌, ◌/◌, ◌^◌, ◌<◌, ◌≤◌, false, length, replicate, IfOk, slice_set};
ghost use Rattle.im_holes.specs.Holes.{begin_at, cut_marks, cut_tags, HasLeaf, IsLargest, IsLeast, IsRenewed};
ghost use Rattle.im_holes.specs.Holes.{joined_marks, joined_tags, kept_at, mark_at, marked, MeetsHole, tagged};
ghost use Rattle.im_holes.specs.Tree.{IsMaxTree, leaf_count};

use crate::tree::put;
use std::alloc::{AllocError, Global};

/// The number of cells in a leaf of the tree.
pub(crate) const PART: usize = 8;

/// Makes marks for the given number of cells. No hole begins at any of them.
pub(crate) fn no_marks(alloc: Global, cells: usize) -> Result<Vec<bool>, AllocError>
    ensures { IfOk result (λ begins. begins.items ≡ replicate cells false) }
{
    vec![in alloc; false; cells]
}

/// Makes the numbers of the given number of cells, all 0.
pub(crate) fn no_numbers(alloc: Global, cells: usize) -> Result<Vec<u32>, AllocError>
    ensures { IfOk result (λ tags. tags.items ≡ replicate cells 0) }
{
    vec![in alloc; 0u32; cells]
}

/// Returns the number that is kept for a cell.
#[inline(always)]
pub(crate) fn tag(tags: &[u32], k: usize) -> u32
    requires { k < length tags.now }
    ensures { result ≡ kept_at tags.now k }
{
    tags[k]
}

/// Returns the number of cells.
pub(crate) fn count(tags: &[u32]) -> u32
    requires { length tags.now < 2 ^ 32 }
    ensures { result ≡ length tags.now }
{
    tags.len() as u32
}

/// Returns the length of the hole that begins at a cell, or 0 if none does.
pub(crate) fn begin(begins: &[bool], tags: &[u32], k: usize) -> u32
    requires marks { k < length begins.now }
    requires tags { k < length tags.now }
    ensures { result ≡ begin_at begins.now tags.now k }
{
    if begins[k] { tags[k] } else { 0 }
}

// Returns the length of the longest hole that begins among the cells of a leaf that has all its cells. So many steps
// are laid out one after another.
#[inline(always)]
fn longest_in_whole(begins: &[bool], tags: &[u32], leaf: usize) -> u32
    requires count { length begins.now ≡ length tags.now }
    requires few { leaf < 2 ^ 32 }
    requires whole { leaf * PART + PART ≤ length tags.now }
    ensures { IsLargest (begin_at begins.now tags.now) leaf result }
{
    let mut longest = 0;
    for past in 0..PART {
        longest = begin(begins, tags, leaf * PART + past).max(longest);
    }
    longest
}

// Returns the length of the longest hole that begins among the cells of a leaf.
fn longest_in(begins: &[bool], tags: &[u32], leaf: usize) -> u32
    requires count { length begins.now ≡ length tags.now }
    requires few { leaf < 2 ^ 32 }
    ensures { IsLargest (begin_at begins.now tags.now) leaf result }
{
    if leaf * PART + PART <= tags.len() {
        return longest_in_whole(begins, tags, leaf);
    }
    let mut longest = 0;
    for at in leaf * PART..(leaf * PART + PART).min(tags.len()) {
        longest = begin(begins, tags, at).max(longest);
    }
    longest
}

/// Returns the first cell of a leaf where a hole of at least `n` cells begins. The caller knows that there is one.
pub(crate) fn first_in(begins: &[bool], tags: &[u32], leaf: usize, n: u32) -> u32
    requires count { length begins.now ≡ length tags.now }
    requires few { length tags.now < 2 ^ 32 }
    requires some { 0 < n }
    requires room { (k : ℕ) × (k / PART ≡ leaf) × (n ≤ begin_at begins.now tags.now k) }
    ensures { IsLeast (begin_at begins.now tags.now) n leaf result }
{
    let mut at = leaf * PART;
    while begin(begins, tags, at) < n {
        at += 1;
    }
    at as u32
}

// Marks a hole of `n` cells that begins at `base`.
fn mark_hole(begins: &mut [bool], tags: &mut [u32], base: usize, n: u32)
    requires some { 0 < n }
    requires marks { base < length begins.old }
    requires tags { base + n ≤ length tags.old }
    ensures marks { begins.new ≡ marked begins.old base }
    ensures tags { tags.new ≡ tagged tags.old base n }
{
    begins[base] = true;
    tags[base] = n;
    tags[base + n as usize - 1] = n;
}

/// Takes `n` cells from the front of the hole that begins at `base`. The cell at `base` gets the number 0.
pub(crate) fn cut(begins: &mut [bool], tags: &mut [u32], base: usize, n: u32)
    requires some { 0 < n }
    requires count { length begins.old ≡ length tags.old }
    requires room { n ≤ kept_at tags.old base }
    requires inside { base + kept_at tags.old base ≤ length tags.old }
    ensures marks { begins.new ≡ cut_marks begins.old base n (kept_at tags.old base) }
    ensures tags { tags.new ≡ cut_tags tags.old base n (kept_at tags.old base) }
{
    let length = tags[base];
    begins[base] = false;
    tags[base] = 0;
    if n < length {
        mark_hole(begins, tags, base + n as usize, length - n);
    }
}

/// Returns the first cell of the hole that ends right before `base`, or `base` if no hole ends there. The number of the
/// cell before `base` may also be a holder's. It is a hole's length only if a hole of that length begins at the cell
/// that many cells before `base`.
pub(crate) fn front_of(begins: &[bool], tags: &[u32], base: usize) -> usize
    requires count { length begins.now ≡ length tags.now }
    requires inside { base ≤ length tags.now }
    ensures { MeetsHole begins.now tags.now base result }
{
    if base == 0 {
        return base;
    }
    let length = tags[base - 1] as usize;
    if length == 0 || length > base {
        return base;
    }
    let from = base - length;
    if begin(begins, tags, from) as usize == length {
        return from;
    }
    base
}

/// Returns the cell after the hole that begins at `end`, or `end` if no hole begins there.
pub(crate) fn behind_of(begins: &[bool], tags: &[u32], end: usize) -> usize
    requires count { length begins.now ≡ length tags.now }
    requires few { length tags.now < 2 ^ 32 }
    requires inside { end ≤ length tags.now }
    ensures { result ≡ end + begin_at begins.now tags.now end }
{
    if end == tags.len() {
        return end;
    }
    end + begin(begins, tags, end) as usize
}

// Takes away the mark of a cell, if there is such a cell.
fn unmark(begins: &mut [bool], at: usize)
    ensures { begins.new ≡ slice_set begins.old at false }
{
    if at < begins.len() {
        begins[at] = false;
    }
}

/// Makes the cells `from` to `to - 1` one hole. A hole may have begun at `end`, and its mark goes.
pub(crate) fn join(begins: &mut [bool], tags: &mut [u32], from: usize, end: usize, to: usize)
    requires count { length begins.old ≡ length tags.old }
    requires some { from < end }
    requires order { end ≤ to }
    requires inside { to ≤ length tags.old }
    requires few { length tags.old < 2 ^ 32 }
    ensures marks { begins.new ≡ joined_marks begins.old from end }
    ensures tags { tags.new ≡ joined_tags tags.old from to }
{
    unmark(begins, end);
    mark_hole(begins, tags, from, (to - from) as u32);
}

// Renews the leaf of a cell and the nodes above it.
fn renew(nodes: &mut [u32], begins: &[bool], tags: &[u32], at: usize)
    requires count { length begins.now ≡ length tags.now }
    requires few { at < 2 ^ 32 }
    requires tree { IsMaxTree nodes.old }
    requires inside { at / PART < leaf_count nodes.old }
    ensures { IsRenewed begins.now tags.now nodes.old nodes.new at at }
{
    put(nodes, at / PART, longest_in(begins, tags, at / PART));
}

/// Renews the leaves of two cells and the nodes above them.
pub(crate) fn renew_two(
    nodes: &mut [u32],
    begins: &[bool],
    tags: &[u32],
    first: usize,
    second: usize,
)
    requires count { length begins.now ≡ length tags.now }
    requires first_few { first < 2 ^ 32 }
    requires second_few { second < 2 ^ 32 }
    requires tree { IsMaxTree nodes.old }
    requires first { first / PART < leaf_count nodes.old }
    requires second { second / PART < leaf_count nodes.old }
    ensures { IsRenewed begins.now tags.now nodes.old nodes.new first second }
{
    if second / PART != first / PART {
        renew(nodes, begins, tags, second);
    }
    renew(nodes, begins, tags, first);
}
