//! The lists of waiters that were read, in one row.
ghost use Rattle.std.specs.Prelude.{◌≡◌, ◌<◌, [], ◌∷◌, length, ◌==◌, slice_index_or, sum_by};

use im_types::Waiter;
use std::marker::Model;

/// Lists of waiters, one for each cell. Contracts see the lists by cell.
///
/// The waiters stand in one row, in the order of their cells. An empty list takes four bytes, and none behind the last
/// cell that somebody waits for.
#[derive(Drop)]
pub struct Lists {
    pub(crate) waiters: Vec<Waiter>,
    pub(crate) ends: Vec<u32>,
    pub(crate) cells: usize,
}

impl Model for Lists {
    ghost use Rattle.std.specs.Prelude.{◌≤◌, List, length};
    ghost use Rattle.im_types.specs.Types.{Waiter};
    ghost use Rattle.im_contents.specs.Row.{Rise, spread};

    ghost Value = { List (List Waiter) };

    ghost view = { λ l. spread l.waiters.items l.ends.items l.cells };

    ghost invariant = { λ l. Rise 0 l.ends.items (length l.waiters.items) × (length l.ends.items ≤ l.cells) };
}

impl Lists {
    /// Returns the number of cells.
    pub fn len(&self) -> usize
        ensures { result ≡ length self.now }
    {
        self.cells
    }

    /// Returns whether nobody waits at any cell. It takes one step.
    pub fn has_nobody(&self) -> bool
        ensures { result ≡ (sum_by length self.now == 0) }
    {
        self.waiters.is_empty()
    }

    /// Returns the waiters of a cell, in their order. It takes one step.
    pub fn at(&self, cell: usize) -> &[Waiter]
        requires { cell < length self.now }
        ensures { result.now ≡ slice_index_or self.now cell [] }
    {
        if cell >= self.ends.len() {
            return &[];
        }
        let start = start_of(&self.ends, cell);
        let end = self.ends[cell] as usize;
        &self.waiters[start..end]
    }
}

// A list begins where the list before it ends.
fn start_of(ends: &[u32], cell: usize) -> usize
    requires { cell < length ends.now }
    ensures { result ≡ slice_index_or (0 ∷ ends.now) cell 0 }
{
    if cell == 0 {
        0
    } else {
        ends[cell - 1] as usize
    }
}
