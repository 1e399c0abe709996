//! Checks whether the cells that were read lie in blocks.
ghost use Rattle.std.specs.Prelude.{◌≡◌, ◌<◌, ◌↔◌, List, length, IsTrue, Some};
ghost use Rattle.im_types.specs.Types.{Waiter, HasBlocks, cells_shown};
ghost use Rattle.im_contents.specs.Local.{IsBlockAt, LieIn, recorded_block, recorded_block_at};

use im_cell::CellRow;
use im_types::{Block, CellRecord, Kind};

// The block of a record's cell.
fn recorded_block(cell: &CellRecord) -> Option<Block>
    ensures { result ≡ recorded_block cell.now }
{
    match *cell {
        CellRecord::Free { .. } => None,
        CellRecord::Held { block, .. } => Some(block),
    }
}

// The block of the cell at an address.
fn recorded_block_at(cells: &CellRow, at: usize) -> Option<Block>
    requires { at < length cells.now }
    ensures { result ≡ recorded_block_at cells.now at }
{
    recorded_block(&cells.at(at))
}

fn is_same_kind(kind: Kind, other: Kind) -> bool
    ensures { IsTrue result ↔ (kind ≡ other) }
{
    match (kind, other) {
        (Kind::I, Kind::I) | (Kind::M, Kind::M) => true,
        _ => false,
    }
}

// Returns whether a cell lies in this block.
fn is_in(cells: &CellRow, cell: usize, block: &Block) -> bool
    ensures { IsTrue result ↔ (recorded_block_at cells.now cell ≡ Some block.now) }
{
    if cell >= cells.len() {
        return false;
    }
    match recorded_block(&cells.at(cell)) {
        Some(other) => {
            other.base == block.base
                && other.length == block.length
                && is_same_kind(other.kind, block.kind)
        }
        None => false,
    }
}

// Returns whether the cells from `from` up to `to` all lie in this block.
fn are_in(cells: &CellRow, from: usize, to: usize, block: &Block) -> bool
    ensures { IsTrue result ↔ LieIn cells.now from to block.now }
{
    for cell in from..to {
        if !is_in(cells, cell, block) {
            return false;
        }
    }
    true
}

// Returns whether a block begins at `at`, ends within the cells, and is whole. The cell at `at` lies in the block.
fn is_block_at(cells: &CellRow, at: usize, block: &Block) -> bool
    requires { recorded_block_at cells.now at ≡ Some block.now }
    ensures { IsTrue result ↔ IsBlockAt cells.now at block.now }
{
    let base = block.base as usize;
    let end = base + block.length as usize;
    base == at && at < end && end <= cells.len() && are_in(cells, at + 1, end, block)
}

/// Returns whether the cells lie in blocks: each block ends within the cells, and each of its cells says that it lies
/// in it. The result doesn't depend on who waits. This looks at each cell once.
pub fn are_blocks(cells: &CellRow) -> bool
    ensures { (lists : List (List Waiter)) → (IsTrue result) ↔ (HasBlocks (cells_shown cells.now lists)) }
{
    let mut at = 0;
    while at < cells.len() {
        match recorded_block_at(cells, at) {
            Some(block) => {
                if !is_block_at(cells, at, &block) {
                    return false;
                }
                at += block.length as usize;
            }
            None => at += 1,
        }
    }
    true
}
