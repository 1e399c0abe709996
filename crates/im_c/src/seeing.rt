//! The cells of an image or a memory, for C. Nothing changes.
ghost use Rattle.std.specs.Prelude.{◌≡◌, IsSome, None};
ghost use Rattle.im_types.specs.Types.{kind_code};
ghost use Rattle.im_c.specs.Handing.{ShowsHeld};
ghost use Rattle.im_c.specs.Seeing.{cell_told, cell_told_at, no_cell, ShowsCells, state_code, state_value, TellsCells};

use crate::image::LtImage;
use crate::memory::LtMemory;
use crate::seen::LtPresence;
use im_listed::Image;
use im_memory::Memory;
use im_types::{Block, Cell, Kind};

// The number of a kind.
fn kind_code(kind: Kind) -> u8
    ensures { result ≡ kind_code kind }
{
    match kind {
        Kind::I => 1,
        Kind::M => 2,
    }
}

// The number of a cell's state.
fn state_code(cell: Cell) -> u8
    ensures { result ≡ state_code cell }
{
    match cell {
        Cell::Empty => 1,
        Cell::Waiting => 2,
        Cell::Full(_) => 3,
        Cell::Clashed(_) => 4,
    }
}

// The value of a cell, or 0.
fn state_value(cell: Cell) -> u64
    ensures { result ≡ state_value cell }
{
    match cell {
        Cell::Empty | Cell::Waiting => 0,
        Cell::Full(value) | Cell::Clashed(value) => value,
    }
}

// No cell.
fn no_cell() -> LtPresence
    ensures { result ≡ no_cell }
{
    LtPresence {
        kind: 0,
        state: 0,
        base: 0,
        length: 0,
        value: 0,
    }
}

/// A cell and its block, in C's form.
pub(crate) fn cell_told(block: Option<Block>, cell: Option<Cell>) -> LtPresence
    ensures { result ≡ cell_told block cell }
{
    let Some(block) = block else {
        return no_cell();
    };
    let Some(cell) = cell else {
        return no_cell();
    };
    LtPresence {
        kind: kind_code(block.kind),
        state: state_code(cell),
        base: block.base,
        length: block.length,
        value: state_value(cell),
    }
}

// The cell at an address.
fn cell_told_at(memory: &Memory, a: u32) -> LtPresence
    ensures { result ≡ cell_told_at memory.now.contents a }
{
    cell_told(memory.block(a), memory.cell(a))
}

// Writes the cells from an address on, as many as there are and as there are places. Returns how many.
fn tell_cells(memory: &Memory, from: u32, places: &mut [LtPresence]) -> usize
    ensures { TellsCells memory.now.contents from places.old result places.new }
{
    let mut count = 0;
    for a in from..memory.cells() {
        if count == places.len() {
            return count;
        }
        places[count] = cell_told_at(memory, a);
        count += 1;
    }
    count
}

// The same, but none after a lost step.
fn shown_cells(image: &Image, from: u32, places: &mut [LtPresence]) -> usize
    ensures { ShowsCells image.now from places.old result places.new }
{
    match image.is_lost() {
        true => 0,
        false => tell_cells(image.memory(), from, places),
    }
}

/// Writes the cells from an address on at `cells`, as many as there are places. Returns how many it wrote: fewer at the
/// end of the memory, and 0 after a lost step. Nothing changes.
#[unsafe(no_mangle)]
pub extern "C" fn lt_held_cells(
    image: LtImage,
    from: u32,
    next: &mut LtImage,
    cells: &mut [LtPresence],
) -> usize
    requires some { IsSome image.value }
    ensures told { ShowsHeld image.value next.new.value (λ i. ShowsCells i from cells.old result cells.new) }
{
    let held = image.into_box();
    let count = shown_cells(&held, from, cells);
    *next = LtImage::of_box(held);
    count
}

/// Writes the cell at an address of a memory at `cell`. Nothing changes.
#[unsafe(no_mangle)]
pub extern "C" fn lt_held_memory_cell(
    memory: LtMemory,
    address: u32,
    next: &mut LtMemory,
    cell: &mut LtPresence,
)
    requires some { IsSome memory.value }
    ensures told { ShowsHeld memory.value next.new.value (λ m. cell.new ≡ cell_told_at m.contents address) }
{
    let held = memory.into_box();
    *cell = cell_told_at(&held, address);
    *next = LtMemory::of_box(held);
}
