//! Writes the lines of a dump.
ghost use Rattle.std.specs.Prelude.{◌≡◌, ◌&&◌, ◌++◌, length, OnOk, ◌==◌, slice_get, Some, string_bytes};
ghost use Rattle.std.specs.List.{AllByRecursion};
ghost use Rattle.im_types.specs.Types.{Window, held_at, waiters_at, kept_for, block_at, presence_in, next_number};
ghost use Rattle.im_types.specs.Types.{sizes_of, FitsPlace};
ghost use Rattle.im_records.specs.Entries.{FitEntries};
ghost use Rattle.im_dump.specs.Dump.{all_cells, all_windows, base_line, begun_line, cell_lines, dump_text, first_line};
ghost use Rattle.im_dump.specs.Dump.{head_lines, kept_entry, kept_lines, last_line, state_lines, waits_line};
ghost use Rattle.im_dump.specs.Dump.{waits_lines, window_lines};
ghost use Rattle.im_dump.specs.Fitting.{FitCells, FitsContents, FitsHeld, FitsWaiter, FitsWindowOf, FitWindows};

use im_memory::Memory;
use im_text::{add_entry, add_op, kind_text};
use im_types::{Block, Cell, Kept, Limits, Waiter};
use std::alloc::AllocError;

/// The words of a dump's first line. The number is the version of such texts.
pub(crate) const FIRST: &str = "imem dump 1";

// Adds the first line.
fn add_first(out: &mut String) -> Result<(), AllocError>
    ensures { OnOk result (string_bytes out.new ≡ string_bytes out.old ++ first_line) }
{
    out.push_str("imem dump 1\n")
}

/// Adds the lines of the sizes and of the count.
pub(crate) fn add_head(out: &mut String, limits: Limits, count: u64) -> Result<(), AllocError>
    ensures { OnOk result (string_bytes out.new ≡ string_bytes out.old ++ head_lines (sizes_of limits) count) }
{
    let Limits {
        cells,
        elements,
        slots,
        ..
    } = limits;
    writeln!(out, "cells {cells}")?;
    writeln!(out, "elements {elements}")?;
    writeln!(out, "slots {slots}")?;
    writeln!(out, "count {count}")
}

/// Adds the line of a block if this address is its base.
pub(crate) fn add_begun(out: &mut String, a: u32, block: Option<Block>) -> Result<(), AllocError>
    ensures { OnOk result (string_bytes out.new ≡ string_bytes out.old ++ begun_line a block) }
{
    let Some(block) = block else {
        return Ok(());
    };
    if block.base != a {
        return Ok(());
    }
    let kind = kind_text(block.kind);
    let length = block.length;
    writeln!(out, "cell {a} block {kind} {length}")
}

// Adds the line of a request that waits at a cell.
fn add_wait(out: &mut String, a: u32, waiter: Waiter) -> Result<(), AllocError>
    ensures lines { OnOk result (string_bytes out.new ≡ string_bytes out.old ++ waits_line a waiter) }
    ensures fits { FitsWaiter waiter }
{
    let Waiter { element, number } = waiter;
    writeln!(out, "cell {a} waits {element}.{number}")
}

// Adds the lines of the requests that wait at a cell, in their order.
fn add_waits(out: &mut String, memory: &Memory, a: u32) -> Result<(), AllocError>
    ensures lines { OnOk result (string_bytes out.new ≡ string_bytes out.old
        ++ waits_lines a (waiters_at memory.now.contents.cells a)) }
    ensures fits { OnOk result (AllByRecursion FitsWaiter (waiters_at memory.now.contents.cells a)) }
{
    for waiter in memory.waiters(a) {
        add_wait(out, a, waiter)?;
    }
    Ok(())
}

// Adds the lines of what a cell has.
fn add_state(out: &mut String, memory: &Memory, a: u32) -> Result<(), AllocError>
    ensures lines { OnOk result (string_bytes out.new ≡ string_bytes out.old
        ++ state_lines a (presence_in (held_at memory.now.contents.cells a)) (waiters_at memory.now.contents.cells a)) }
    ensures fits { OnOk result (FitsHeld (held_at memory.now.contents.cells a)) }
{
    match memory.cell(a) {
        None | Some(Cell::Empty) => Ok(()),
        Some(Cell::Waiting) => add_waits(out, memory, a),
        Some(Cell::Full(value)) => writeln!(out, "cell {a} full {value}"),
        Some(Cell::Clashed(value)) => writeln!(out, "cell {a} clashed {value}"),
    }
}

// Adds the lines of a cell.
fn add_cell(out: &mut String, memory: &Memory, a: u32) -> Result<(), AllocError>
    ensures lines { OnOk result (string_bytes out.new ≡ string_bytes out.old ++ cell_lines memory.now.contents a) }
    ensures fits { OnOk result (FitsHeld (held_at memory.now.contents.cells a)) }
{
    add_begun(out, a, memory.block(a))?;
    add_state(out, memory, a)
}

// Adds the lines of all cells, by address.
fn add_cells(out: &mut String, memory: &Memory) -> Result<(), AllocError>
    ensures lines { OnOk result (string_bytes out.new ≡ string_bytes out.old ++ all_cells memory.now.contents) }
    ensures fits { OnOk result (FitCells memory.now.contents) }
{
    for a in 0..memory.cells() {
        add_cell(out, memory, a)?;
    }
    Ok(())
}

/// Adds the line of what is kept under an element's number, if anything is kept.
pub(crate) fn add_kept(
    out: &mut String,
    element: u16,
    number: u64,
    kept: Option<Kept>,
) -> Result<(), AllocError>
    ensures lines { OnOk result (string_bytes out.new ≡ string_bytes out.old ++ kept_entry element number kept) }
    ensures fits { FitsPlace kept }
{
    let Some(kept) = kept else {
        return Ok(());
    };
    write!(out, "entry {element}.{number} ")?;
    add_op(out, kept.op)?;
    out.push_str(" -> ")?;
    add_entry(out, kept.entry)?;
    out.push_str("\n")
}

// Adds the lines of an element's entries. Their numbers run from `base` up to, but not including, `next`.
fn add_entries(
    out: &mut String,
    memory: &Memory,
    element: u16,
    base: u64,
    next: u64,
) -> Result<(), AllocError>
    ensures lines { (w : Window) → slice_get memory.now.contents.windows element ≡ Some w → base ≡ w.base
        → next ≡ next_number w
        → OnOk result (string_bytes out.new ≡ string_bytes out.old ++ kept_lines element w) }
    ensures fits { (w : Window) → slice_get memory.now.contents.windows element ≡ Some w → base ≡ w.base
        → next ≡ next_number w → OnOk result (FitEntries w.kept) }
{
    for number in base..next {
        add_kept(out, element, number, memory.kept(element, number))?;
    }
    Ok(())
}

/// Returns whether an element with this window base and this many entries has asked nothing yet.
pub(crate) fn is_new(base: u64, kept: u64) -> bool
    ensures { result ≡ ((base == 1) && (kept == 0)) }
{
    base == 1 && kept == 0
}

/// Adds the line of an element's window base.
pub(crate) fn add_base(out: &mut String, element: u16, base: u64) -> Result<(), AllocError>
    ensures { OnOk result (string_bytes out.new ≡ string_bytes out.old ++ base_line element base) }
{
    writeln!(out, "element {element} base {base}")
}

// Adds the lines of an element if it has asked anything.
fn add_window(out: &mut String, memory: &Memory, element: u16) -> Result<(), AllocError>
    ensures lines { OnOk result (string_bytes out.new ≡ string_bytes out.old
        ++ window_lines element (slice_get memory.now.contents.windows element)) }
    ensures fits { OnOk result (FitsWindowOf memory.now.contents element) }
{
    let Ok((base, next)) = memory.window(element) else {
        return Ok(());
    };
    let kept = next.saturating_sub(base);
    if is_new(base, kept) {
        return Ok(());
    }
    add_base(out, element, base)?;
    add_entries(out, memory, element, base, next)
}

// Adds the lines of all elements that have asked anything, by number.
fn add_windows(out: &mut String, memory: &Memory) -> Result<(), AllocError>
    ensures lines { OnOk result (string_bytes out.new ≡ string_bytes out.old ++ all_windows memory.now.contents) }
    ensures fits { OnOk result (FitWindows memory.now.contents) }
{
    for element in 0..memory.elements() {
        add_window(out, memory, element)?;
    }
    Ok(())
}

/// Adds the last line.
pub(crate) fn add_last(out: &mut String) -> Result<(), AllocError>
    ensures { OnOk result (string_bytes out.new ≡ string_bytes out.old ++ last_line) }
{
    out.push_str("end\n")
}

/// Adds the dump of a memory with this count of commands, in an image of these sizes. If the growth of the text is
/// refused, a part of it may have been added.
pub fn add_dump(
    out: &mut String,
    limits: Limits,
    count: u64,
    memory: &Memory,
) -> Result<(), AllocError>
    ensures added { OnOk result (string_bytes out.new ≡ string_bytes out.old
        ++ dump_text (sizes_of limits) count memory.now.contents) }
    // Each number of it has its own spelling.
    ensures fits { OnOk result (FitsContents memory.now.contents) }
{
    add_first(out)?;
    add_head(out, limits, count)?;
    add_cells(out, memory)?;
    add_windows(out, memory)?;
    add_last(out)
}
