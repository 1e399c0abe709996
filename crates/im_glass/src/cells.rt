//! Cells that are full or not, with the values of those that are full. A cell takes 9 bytes.
ghost use Rattle.std.specs.Prelude.{◌≡◌, ℕ, ◌+◌, ◌<◌, ◌≤◌, true, length, replicate, IfOk, slice_index_or, slice_set};
ghost use Rattle.std.specs.Prelude.{Some, None};
ghost use Rattle.im_types.specs.Types.{fill, is_below};
ghost use Rattle.im_glass.specs.Cells.{cells_written};

use im_types::Change;
use std::alloc::{AllocError, Global};
use std::marker::Model;

/// Cells by address. A full cell has its value.
#[derive(Drop)]
pub struct FullCells {
    values: Vec<u64>,
    full: Vec<bool>,
}

impl Model for FullCells {
    ghost use Rattle.std.specs.Prelude.{◌≡◌, ℕ, List, length, Option};
    ghost use Rattle.im_glass.specs.Cells.{cells_seen};

    ghost Value = { List (Option ℕ) };

    ghost view = { λ c. cells_seen c.full.items c.values.items };

    ghost invariant = { λ c. length c.full.items ≡ length c.values.items };
}

impl FullCells {
    /// Makes the given number of cells, none of them full.
    pub fn new(alloc: Global, cells: u32) -> Result<FullCells, AllocError>
        ensures { IfOk result (λ c. c ≡ replicate cells None) }
    {
        let values = vec![in alloc; 0; cells as usize]?;
        let full = vec![in alloc; false; cells as usize]?;
        Ok(FullCells { values, full })
    }

    /// Returns how many cells there are.
    pub fn len(&self) -> usize
        ensures { result ≡ length self.now }
    {
        self.full.len()
    }

    /// Returns the value of a full cell, and none if the cell isn't full or is past the last one.
    pub fn get(&self, a: usize) -> Option<u64>
        ensures { result ≡ slice_index_or self.now a None }
    {
        if a >= self.full.len() {
            return None;
        }
        if self.full[a] {
            Some(self.values[a])
        } else {
            None
        }
    }

    // Makes a cell full.
    fn fill(&mut self, a: usize, value: u64)
        requires { a < length self.old }
        ensures { self.new ≡ slice_set self.old a (Some value) }
    {
        self.full[a] = true;
        self.values[a] = value;
    }

    // Makes a cell not full.
    fn empty(&mut self, a: usize)
        requires { a < length self.old }
        ensures { self.new ≡ slice_set self.old a None }
    {
        self.full[a] = false;
    }

    // Makes `count` cells from `base` on not full.
    fn empty_all(&mut self, base: u32, count: u32)
        requires { base + count ≤ length self.old }
        ensures { self.new ≡ fill self.old base count None }
    {
        for i in 0..count {
            self.empty(base as usize + i as usize);
        }
    }

    /// Returns whether a change is of these cells alone.
    pub fn has(&self, change: Change) -> bool
        ensures { result ≡ is_below (length self.now) change }
    {
        match change {
            Change::Same => true,
            Change::Full(a, _) => (a as usize) < self.len(),
            Change::Gone(base, count) => base as usize + count as usize <= self.len(),
        }
    }

    /// Makes a change in the cells.
    pub fn change(&mut self, change: Change)
        requires { is_below (length self.old) change ≡ true }
        ensures { self.new ≡ cells_written self.old change }
    {
        match change {
            Change::Same => {}
            Change::Full(a, value) => self.fill(a as usize, value),
            Change::Gone(base, count) => self.empty_all(base, count),
        }
    }
}
