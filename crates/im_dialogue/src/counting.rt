//! Counts the cells of a memory.
ghost use Rattle.std.specs.Prelude.{◌≡◌, ◌≤◌, false, length, if◌then◌else◌, ◌==◌};
ghost use Rattle.std.specs.Option.{option_map_or};
ghost use Rattle.im_dialogue.specs.Counting.{addresses_of, is_counted};

use crate::sort::Sort;
use im_memory::Memory;
use im_types::{Block, Cell};

// Returns 1 for what passes a test.
fn one_that(passes: bool) -> u32
    ensures value { result ≡ (if passes then 1 else 0) }
    ensures few { result ≤ 1 }
{
    if passes { 1 } else { 0 }
}

// Returns whether an address is the base of its block.
fn stands_at(a: u32, block: Option<Block>) -> bool
    ensures { result ≡ option_map_or (λ b. b.base == a) block false }
{
    match block {
        Some(block) => block.base == a,
        None => false,
    }
}

/// Returns whether an address is of this sort, by the block that it lies in and its cell.
pub(crate) fn is_counted(sort: Sort, a: u32, block: Option<Block>, cell: Option<Cell>) -> bool
    ensures { result ≡ is_counted sort a block cell }
{
    match sort {
        Sort::Base => stands_at(a, block),
        Sort::Empty => matches!(cell, Some(Cell::Empty)),
        Sort::Waiting => matches!(cell, Some(Cell::Waiting)),
        Sort::Full => matches!(cell, Some(Cell::Full(_))),
        Sort::Clashed => matches!(cell, Some(Cell::Clashed(_))),
    }
}

/// Returns how many addresses of a memory are of this sort.
pub(crate) fn count_cells(memory: &Memory, sort: Sort) -> u32
    ensures { result ≡ length (addresses_of sort memory.now.contents) }
{
    let mut count: u32 = 0;
    for a in 0..memory.cells() {
        let passes = is_counted(sort, a, memory.block(a), memory.cell(a));
        count += one_that(passes);
    }
    count
}
