// Workloads on blocks in a table of cells.
ghost use Rattle.std.specs.Prelude.{◌<◌};

use im_cell::CellTable;
use im_types::{Kind, MAX_CELLS, Refusal};
use std::alloc::Global;

const HOLES: u32 = MAX_CELLS / 2 - 1;

fn place_each(table: &mut CellTable, cells: u32, count: u32) -> u64
    requires { 0 < cells }
{
    let mut sum = 0u64;
    for _ in 0..count {
        if let Some(base) = table.place(Kind::I, cells) {
            sum = sum.wrapping_add(base as u64);
        }
    }
    sum
}

fn release_each(table: &mut CellTable, first: u32, step: u32, count: u32) -> u64 {
    let mut sum = 0u64;
    for index in 0..count {
        let base = first.wrapping_add(index.wrapping_mul(step));
        sum = sum.wrapping_add(table.release(base) as u64);
    }
    sum
}

// Makes a table of as many one-cell holes as there can be. Each stands before a block of one cell. After them stands a
// hole of two cells.
fn with_holes(alloc: Global) -> Result<CellTable, Refusal> {
    let mut table = CellTable::new(alloc, MAX_CELLS)?;
    let _ = place_each(&mut table, 1, HOLES.wrapping_mul(2));
    let _ = release_each(&mut table, 0, 2, HOLES);
    Ok(table)
}

/// Makes blocks of one cell, and then releases them in the order of their addresses.
pub fn fill_and_release(alloc: Global, count: u32) -> Result<u64, Refusal> {
    let mut table = CellTable::new(alloc, MAX_CELLS)?;
    let sum = place_each(&mut table, 1, count);
    Ok(sum.wrapping_add(release_each(&mut table, 0, 1, count)))
}

/// Makes a block in the last hole, the only one with room for it, and releases it, `count` times.
pub fn place_and_release(alloc: Global, count: u32) -> Result<u64, Refusal> {
    let mut table = with_holes(alloc)?;
    let mut sum = 0u64;
    for _ in 0..count {
        if let Some(base) = table.place(Kind::I, 2) {
            sum = sum.wrapping_add(base as u64);
            sum = sum.wrapping_add(table.release(base) as u64);
        }
    }
    Ok(sum)
}

/// Releases `count` blocks, each between two holes.
pub fn release(alloc: Global, count: u32) -> Result<u64, Refusal> {
    let mut table = with_holes(alloc)?;
    Ok(release_each(&mut table, 1, 2, count))
}
