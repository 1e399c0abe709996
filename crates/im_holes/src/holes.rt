//! The holes of a table of cells.
ghost use Rattle.std.specs.Prelude.{◌≡◌, ℕ, ◌+◌, ◌<◌, ◌≤◌, length, replicate, IfSome, IfOk, IsSome, IsNone, slice_set};
ghost use Rattle.std.specs.Prelude.{Some, None};
ghost use Rattle.im_types.specs.Types.{place, fill};
ghost use Rattle.im_holes.specs.Holes.{AreHeld, AreHoles, AreTakenFrom, begin_at, holder_at, told_cells};

use crate::tags::{
    PART, behind_of, count, cut, first_in, front_of, join, no_marks, no_numbers, renew_two, tag,
};
use crate::tree::{first_from, node, room_for};
use std::alloc::{AllocError, Global};
use std::marker::Model;

/// The free cells of a table, and a number for each held cell, which the holder may use. Cells are numbered from 0. It
/// takes five bytes for each cell, and one or two for the tree. It takes no more memory once it is made.
#[derive(Drop)]
pub struct Holes {
    // Whether a hole begins at the cell.
    begins: Vec<bool>,
    // The number of each held cell. The first and the last cell of a hole have the hole's length.
    tags: Vec<u32>,
    // A tree over the longest hole that begins in each leaf's cells.
    nodes: Vec<u32>,
}

impl Model for Holes {
    ghost use Rattle.std.specs.Prelude.{ℕ, List, Option};
    ghost use Rattle.im_holes.specs.Holes.{AreHoles, told_cells};

    ghost Value = { List (Option ℕ) };

    ghost view = { λ h. told_cells h.begins.items h.tags.items };

    ghost invariant = { λ h. AreHoles h.begins.items h.tags.items h.nodes.items };
}

// Returns the least base where `n` cells are free, or `None` if there is none.
fn find(begins: &[bool], tags: &[u32], nodes: &[u32], n: u32) -> Option<u32>
    requires holes { AreHoles begins.now tags.now nodes.now }
    requires some { 0 < n }
    ensures place { result ≡ place n (told_cells begins.now tags.now) }
    ensures room { IfSome result (λ base. n ≤ begin_at begins.now tags.now base) }
{
    if node(nodes, 1) < n {
        return None;
    }
    Some(first_in(begins, tags, first_from(nodes, n), n))
}

// Takes the first `n` cells of the hole that begins at `base`.
fn take_at(begins: &mut [bool], tags: &mut [u32], nodes: &mut [u32], base: u32, n: u32)
    requires holes { AreHoles begins.old tags.old nodes.old }
    requires some { 0 < n }
    requires room { n ≤ begin_at begins.old tags.old base }
    ensures holes { AreHoles begins.new tags.new nodes.new }
    ensures taken { AreTakenFrom (told_cells begins.old tags.old) (told_cells begins.new tags.new) base n }
{
    let base = base as usize;
    cut(begins, tags, base, n);
    let rest = (base + n as usize).min(tags.len() - 1);
    renew_two(nodes, begins, tags, base, rest);
}

// Returns the other cell whose leaf changes where cells up to `end` are freed: the one at `end`, if a hole began there.
// The new hole begins at `from`, and ends at `to`.
#[inline(always)]
fn other_end(from: usize, end: usize, to: usize) -> usize
    ensures joined { end < to → result ≡ end }
    ensures inside { (count : ℕ) → from < count → to ≤ count → result < count }
{
    if end < to { end } else { from }
}

// Frees `n` held cells from `base` on.
fn give_at(begins: &mut [bool], tags: &mut [u32], nodes: &mut [u32], base: u32, n: u32)
    requires holes { AreHoles begins.old tags.old nodes.old }
    requires some { 0 < n }
    requires held { AreHeld (told_cells begins.old tags.old) base n }
    ensures holes { AreHoles begins.new tags.new nodes.new }
    ensures given { told_cells begins.new tags.new ≡ fill (told_cells begins.old tags.old) base n None }
{
    let end = base as usize + n as usize;
    let from = front_of(begins, tags, base as usize);
    let to = behind_of(begins, tags, end);
    join(begins, tags, from, end, to);
    let other = other_end(from, end, to);
    renew_two(nodes, begins, tags, from, other);
}

impl Holes {
    /// Makes the given number of cells, all held, each with number 0. Returns `AllocError` if their memory is refused.
    pub fn new(alloc: Global, cells: u32) -> Result<Holes, AllocError>
        ensures { IfOk result (λ holes. holes ≡ replicate cells (Some 0)) }
    {
        let begins = no_marks(alloc, cells as usize)?;
        let tags = no_numbers(alloc, cells as usize)?;
        let nodes = room_for(alloc, (cells as usize + (PART - 1)) / PART)?;
        Ok(Holes {
            begins,
            tags,
            nodes,
        })
    }

    /// Returns the number of cells.
    pub fn cells(&self) -> u32
        ensures { result ≡ length self.now }
    {
        count(self.tags.as_slice())
    }

    /// Returns the number of a held cell.
    #[inline(always)]
    pub fn number(&self, k: u32) -> u32
        requires { IsSome (holder_at self.now k) }
        ensures { holder_at self.now k ≡ Some result }
    {
        tag(self.tags.as_slice(), k as usize)
    }

    /// Gives a held cell another number.
    pub fn set_number(&mut self, k: u32, number: u32)
        requires { IsSome (holder_at self.old k) }
        ensures { self.new ≡ slice_set self.old k (Some number) }
    {
        self.tags[k as usize] = number;
    }

    /// Returns the least base where `n` cells are free, or `None` if there is none. Here `n` is at least 1.
    pub fn find(&self, n: u32) -> Option<u32>
        requires { 0 < n }
        ensures { result ≡ place n self.now }
    {
        find(
            self.begins.as_slice(),
            self.tags.as_slice(),
            self.nodes.as_slice(),
            n,
        )
    }

    /// Takes `n` cells at the least base where `n` cells are free, and returns that base. Here `n` is at least 1. If
    /// there is no such base, it returns `None` and changes nothing. The first cell gets the number 0, and the others
    /// may get any number.
    pub fn take(&mut self, n: u32) -> Option<u32>
        requires { 0 < n }
        ensures place { result ≡ place n self.old }
        ensures taken { IfSome result (λ base. AreTakenFrom self.old self.new base n) }
        ensures same { IsNone result → self.new ≡ self.old }
    {
        let base = find(
            self.begins.as_slice(),
            self.tags.as_slice(),
            self.nodes.as_slice(),
            n,
        )?;
        take_at(
            self.begins.as_mut_slice(),
            self.tags.as_mut_slice(),
            self.nodes.as_mut_slice(),
            base,
            n,
        );
        Some(base)
    }

    /// Frees `n` cells from `base` on, which are all held. Here `n` is at least 1.
    pub fn give(&mut self, base: u32, n: u32)
        requires some { 0 < n }
        requires held { AreHeld self.old base n }
        ensures { self.new ≡ fill self.old base n None }
    {
        give_at(
            self.begins.as_mut_slice(),
            self.tags.as_mut_slice(),
            self.nodes.as_mut_slice(),
            base,
            n,
        );
    }
}
