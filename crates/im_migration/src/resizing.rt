//! Gives a memory other numbers of cells and elements.
ghost use Rattle.std.specs.Prelude.{◌≡◌, ℕ, ◌-◌, ◌*◌, ◌<◌, ◌≤◌, true, false, ◌⊎◌, [], length, replicate, IfSome};
ghost use Rattle.std.specs.Prelude.{IfNone, IfOk, IfErr, OnOk, IsSome, slice_set, None, sum_by};
ghost use Rattle.im_types.specs.Types.{NoMemory, WINDOW, NONE, new_window, held_at, waiters_at, sizes_of, FreeCell};
ghost use Rattle.im_migration.specs.Resizing.{FitsSizes, fitted, IsResized, lists_of, window_at};

use crate::misfits::Misfit;
use im_cell::CellRow;
use im_memory::{Memory, MemoryRecords, Restoring};
use im_records::WindowRecord;
use im_types::{Limits, Refusal, Waiter};
use std::alloc::{AllocError, Global};

// The least number of cells that has room for all blocks.
fn cells_needed(memory: &Memory) -> u32
    ensures free { (a : ℕ) → result ≤ a → held_at memory.now.contents.cells a ≡ None }
    ensures last { (result ≡ 0) ⊎ IsSome (held_at memory.now.contents.cells (result - 1)) }
{
    let mut needed = memory.cells();
    while needed > 0 {
        if memory.block(needed - 1).is_some() {
            return needed;
        }
        needed -= 1;
    }
    0
}

// Whether an element has sent no request yet.
fn is_new(memory: &Memory, element: u16) -> bool
    ensures yes { result ≡ true → window_at memory.now.contents.windows element ≡ new_window }
    ensures no { result ≡ false → window_at memory.now.contents.windows element ≡ new_window → ⊥ }
{
    match memory.window(element) {
        Ok((base, next)) => base == 1 && next == 1,
        Err(_) => true,
    }
}

// The least number of elements that has all that have sent requests.
fn elements_needed(memory: &Memory) -> u16
    ensures new { (e : ℕ) → result ≤ e → window_at memory.now.contents.windows e ≡ new_window }
    ensures last { (result ≡ 0) ⊎ (window_at memory.now.contents.windows (result - 1) ≡ new_window → ⊥) }
{
    let mut needed = memory.elements();
    while needed > 0 {
        if !is_new(memory, needed - 1) {
            return needed;
        }
        needed -= 1;
    }
    0
}

/// Returns why a memory can't have these sizes, or `None` if it can.
pub(crate) fn misfit_of(memory: &Memory, limits: Limits) -> Option<Misfit>
    ensures none { IfNone result (FitsSizes (sizes_of limits) memory.now.contents) }
    ensures some { IfSome result (λ _. FitsSizes (sizes_of limits) memory.now.contents → ⊥) }
{
    let cells = cells_needed(memory);
    if cells > limits.cells {
        return Some(Misfit::Cells(cells));
    }
    let elements = elements_needed(memory);
    if elements > limits.elements {
        return Some(Misfit::Elements(elements));
    }
    None
}

// The records of the first cells. Past the last one they are those of free cells.
fn row_of(alloc: Global, records: &MemoryRecords<'_>, cells: u32) -> Result<CellRow, AllocError>
    ensures { IfOk result (λ row. row ≡ fitted (FreeCell 0 NONE) cells records.now.cells) }
{
    let mut row = CellRow::with_capacity(alloc, cells as usize)?;
    for a in 0..cells {
        row.push(records.cell_record(a))?;
    }
    Ok(row)
}

// The requests that wait at a cell, in their order.
fn waiters_of(alloc: Global, memory: &Memory, a: u32) -> Result<Vec<Waiter>, AllocError>
    ensures { IfOk result (λ waiters. waiters.items ≡ waiters_at memory.now.contents.cells a) }
{
    let mut waiters = Vec::new(alloc);
    for waiter in memory.waiters(a) {
        waiters.push(waiter)?;
    }
    Ok(waiters)
}

// Puts the requests that wait at each cell.
fn put_lists(
    alloc: Global,
    restoring: &mut Restoring,
    memory: &Memory,
    cells: u32,
) -> Result<(), AllocError>
    requires nobody { restoring.old.lists ≡ replicate cells [] }
    requires room { sum_by length (lists_of (fitted None cells memory.now.contents.cells))
        ≤ WINDOW * length restoring.old.windows }
    ensures { OnOk result (restoring.new
        ≡ record restoring.old { lists = lists_of (fitted None cells memory.now.contents.cells) }) }
{
    for a in 0..cells {
        let waiters = waiters_of(alloc, memory, a)?;
        restoring.put_list(a, &waiters);
    }
    Ok(())
}

// The window of an element. Past the last element it is a new one.
fn window_of(memory: &Memory, element: u16) -> WindowRecord
    ensures { result ≡ window_at memory.now.contents.windows element }
{
    let _cells = memory.cells();
    let Ok((base, next)) = memory.window(element) else {
        return WindowRecord::new(1);
    };
    let mut window = WindowRecord::new(base);
    for number in base..next {
        let Some(kept) = memory.kept(element, number) else {
            unreachable!()
        };
        window.push(kept);
    }
    window
}

// Puts the window of an element.
fn put_window(restoring: &mut Restoring, memory: &Memory, element: u16)
    requires { element < length restoring.old.windows }
    ensures { restoring.new ≡ record restoring.old {
      windows = slice_set restoring.old.windows element (window_at memory.now.contents.windows element);
    } }
{
    let _cells = memory.cells();
    let window = window_of(memory, element);
    restoring.put_window(element, window.base(), window.kept());
}

// Puts the windows of all elements.
fn put_windows(restoring: &mut Restoring, memory: &Memory, elements: u16)
    requires { length restoring.old.windows ≡ elements }
    ensures { restoring.new
        ≡ record restoring.old { windows = fitted new_window elements memory.now.contents.windows } }
{
    for element in 0..elements {
        put_window(restoring, memory, element);
    }
}

/// Returns the same memory with these numbers of cells and elements. Its only refusal is `NoMemory`.
pub(crate) fn resize(alloc: Global, memory: &Memory, limits: Limits) -> Result<Memory, Refusal>
    requires { FitsSizes (sizes_of limits) memory.now.contents }
    ensures resized { IfOk result (λ new. IsResized (sizes_of limits) memory.now.contents new.contents) }
    ensures only { IfErr result (λ e. e ≡ NoMemory) }
{
    let records = memory.records();
    let Ok(row) = row_of(alloc, &records, limits.cells) else {
        return Err(Refusal::NoMemory);
    };
    let mut restoring = match Restoring::new(alloc, limits, row) {
        Ok(restoring) => restoring,
        Err(refusal) => return Err(refusal),
    };
    let Ok(()) = put_lists(alloc, &mut restoring, memory, limits.cells) else {
        return Err(Refusal::NoMemory);
    };
    put_windows(&mut restoring, memory, limits.elements);
    Ok(restoring.finish())
}
