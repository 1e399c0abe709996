//! The number of waited-for cells of each block. It is kept as the number of the block's first cell.
ghost use Rattle.std.specs.Prelude.{◌≡◌, ℕ, ◌+◌, ◌^◌, ◌<◌, true, false, length, take, drop, replicate, IsSome};
ghost use Rattle.std.specs.Prelude.{slice_set, Some, None};
ghost use Rattle.std.specs.List.{list_any};
ghost use Rattle.im_holes.specs.Holes.{holder_at};
ghost use Rattle.im_cell.specs.Slots.{HoldsBlocks, is_waiting_slot, slot_at, slot_block, with_cell};
ghost use Rattle.im_cell.specs.Table.{CanMove, HasCounts, IsFreeTo, IsHeldBy, IsTable, moved, waits_at, waits_before};

use crate::cells::Cells;
use crate::state::is_waited_for;
use crate::units::CellUnits;
use im_holes::Holes;
use im_types::{Block, Cell};

// Adds 1 to the count of the block with this base, or takes 1 from it.
fn recount(holes: &mut Holes, base: u32, more: bool)
    requires held { (n : ℕ) × (holder_at holes.old base ≡ Some n) × CanMove more n }
    ensures { (n : ℕ) → holder_at holes.old base ≡ Some n
        → holes.new ≡ slice_set holes.old base (Some (moved more n)) }
{
    let number = holes.number(base);
    holes.set_number(base, next_number(number, more));
}

fn next_number(number: u32, more: bool) -> u32
    requires { CanMove more number }
    ensures { result ≡ moved more number }
{
    if more { number + 1 } else { number - 1 }
}

/// Puts another content into the cell at an address in a block.
#[inline(always)]
pub(crate) fn set_cell(slots: &mut CellUnits, holes: &mut Holes, a: u32, cell: Cell)
    requires table { IsTable slots.old holes.old }
    requires held { IsSome (slot_at slots.old a) }
    ensures table { IsTable slots.new holes.new }
    ensures set { slots.new ≡ slice_set slots.old a (with_cell cell (slot_at slots.old a)) }
{
    let waited = slots.set(a, cell);
    let waits = is_waited_for(cell);
    if waits != waited {
        recount(holes, slots.base(a), waits);
    }
}

// Counts the cell at `a` if requests wait for it. The cells before it are already counted.
fn count_cell(cells: &Cells, holes: &mut Holes, a: usize)
    requires few { length cells.now < 2 ^ 32 }
    requires inside { a < length cells.now }
    requires blocks { HoldsBlocks cells.now }
    requires held { IsHeldBy holes.old (length cells.now) }
    requires waits { HasCounts cells.now (waits_before cells.now a) holes.old }
    ensures held { IsHeldBy holes.new (length cells.now) }
    ensures waits { HasCounts cells.now (waits_before cells.now (a + 1)) holes.new }
{
    if cells.is_waiting(a) {
        recount(holes, cells.base(a), true);
    }
}

/// Counts the cells that requests wait for. No cell has a count yet.
pub(crate) fn count_waiting(cells: &Cells, holes: &mut Holes)
    requires few { length cells.now < 2 ^ 32 }
    requires blocks { HoldsBlocks cells.now }
    requires none { holes.old ≡ replicate (length cells.now) (Some 0) }
    ensures waits { HasCounts cells.now (waits_at cells.now) holes.new }
    ensures held { IsHeldBy holes.new (length cells.now) }
{
    for a in 0..cells.len() {
        count_cell(cells, holes, a);
    }
}

// Returns the first cell from `from` on that isn't free, or the end of the table.
fn free_until(cells: &Cells, from: usize) -> usize
    requires few { length cells.now < 2 ^ 32 }
    requires inside { from < length cells.now }
    ensures { IsFreeTo cells.now from result }
{
    let mut at = from;
    while cells.is_free(at) {
        at += 1;
    }
    at
}

/// Makes holes of the free cells. Each cell is still held.
pub(crate) fn give_free(cells: &Cells, holes: &mut Holes)
    requires few { length cells.now < 2 ^ 32 }
    requires blocks { HoldsBlocks cells.now }
    requires waits { HasCounts cells.now (waits_at cells.now) holes.old }
    requires held { IsHeldBy holes.old (length cells.now) }
    ensures { IsTable cells.now holes.new }
{
    let mut at = 0;
    while at < cells.len() {
        let end = free_until(cells, at);
        if at < end {
            holes.give(at as u32, (end - at) as u32);
            at = end;
        } else {
            at += 1;
        }
    }
}

// Returns whether a number is more than 0.
fn is_any(number: u32) -> bool
    ensures none { number ≡ 0 → result ≡ false }
    ensures some { 0 < number → result ≡ true }
{
    number > 0
}

/// Returns whether requests wait for a cell of a block.
pub(crate) fn any_waiting(slots: &CellUnits, holes: &Holes, block: Block) -> bool
    requires table { IsTable slots.now holes.now }
    requires block { slot_block slots.now block.base ≡ Some block }
    ensures { result ≡ list_any is_waiting_slot (take block.length (drop block.base slots.now)) }
{
    let _slots = slots;
    is_any(holes.number(block.base))
}
