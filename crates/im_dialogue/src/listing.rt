//! Adds lists of what a memory has: a word, how many parts there are, and each behind a comma.
ghost use Rattle.std.specs.Prelude.{◌≡◌, ◌+◌, ◌-◌, ◌≤◌, min, [], ◌++◌, length, if◌then◌else◌, OnOk, string_bytes};
ghost use Rattle.std.specs.Prelude.{codes, flat_map};
ghost use Rattle.std.specs.List.{range_with_len};
ghost use Rattle.im_types.specs.Types.{bounds};
ghost use Rattle.im_dialogue.specs.Counting.{addresses_of};
ghost use Rattle.im_dialogue.specs.Showing.{cell_said, list_line, list_said, shown_at, window_said};

use crate::counting::{count_cells, is_counted};
use crate::showing::{add_block, add_bounds, add_cell};
use crate::sort::Sort;
use im_memory::Memory;
use std::alloc::AllocError;

// Adds a cell as a part of a list.
fn add_cell_part(out: &mut String, memory: &Memory, a: u32) -> Result<(), AllocError>
    ensures { OnOk result (string_bytes out.new ≡ string_bytes out.old
        ++ (codes ", " ++ cell_said memory.now.contents a)) }
{
    out.push_str(", ")?;
    add_cell(out, memory, a)
}

// Returns how many cells there are from one address to another.
fn many_from(from: u32, to: u32, memory: &Memory) -> u32
    ensures is { result ≡ min (to + 1) (length memory.now.contents.cells) - from }
    ensures within { from + result ≤ u32.MAX }
{
    let cells = memory.cells();
    if to < cells {
        (to + 1).saturating_sub(from)
    } else {
        cells.saturating_sub(from)
    }
}

// Adds so many cells as parts of a list, one after another, from an address on.
fn add_cells_from(out: &mut String, memory: &Memory, from: u32, many: u32) -> Result<(), AllocError>
    requires within { from + many ≤ u32.MAX }
    ensures { OnOk result (string_bytes out.new ≡ string_bytes out.old
        ++ flat_map (λ a. codes ", " ++ cell_said memory.now.contents a) (range_with_len from many)) }
{
    for i in 0..many {
        add_cell_part(out, memory, from + i)?;
    }
    Ok(())
}

// Adds a word, a number, and so many cells from an address on.
fn add_cell_list(
    out: &mut String,
    memory: &Memory,
    word: &str,
    from: u32,
    many: u32,
) -> Result<(), AllocError>
    requires within { from + many ≤ u32.MAX }
    ensures { OnOk result (string_bytes out.new ≡ string_bytes out.old
        ++ list_said word.now many (cell_said memory.now.contents) (range_with_len from many)) }
{
    write!(out, "{word} {many}")?;
    add_cells_from(out, memory, from, many)?;
    out.push_str("\n")
}

/// Adds the list of the cells from one address to another.
pub(crate) fn add_cells(
    out: &mut String,
    memory: &Memory,
    from: u32,
    to: u32,
) -> Result<(), AllocError>
    ensures { let m = memory.now.contents in OnOk result (string_bytes out.new ≡ string_bytes out.old
        ++ list_line (codes "cells") (cell_said m) (range_with_len from (min (to + 1) (length m.cells) - from))) }
{
    let many = many_from(from, to, memory);
    add_cell_list(out, memory, "cells", from, many)
}

// Adds what is said of an address of this sort: of a base its block, else its cell.
fn add_at(out: &mut String, memory: &Memory, sort: Sort, a: u32) -> Result<(), AllocError>
    ensures { OnOk result (string_bytes out.new ≡ string_bytes out.old ++ shown_at sort memory.now.contents a) }
{
    match sort {
        Sort::Base => add_block(out, a, memory.block(a)),
        Sort::Empty | Sort::Waiting | Sort::Full | Sort::Clashed => add_cell(out, memory, a),
    }
}

// Adds the part of an address in a list, if it is wanted.
fn add_part_if(
    out: &mut String,
    memory: &Memory,
    sort: Sort,
    a: u32,
    wanted: bool,
) -> Result<(), AllocError>
    ensures { OnOk result (string_bytes out.new ≡ string_bytes out.old
        ++ (if wanted then codes ", " ++ shown_at sort memory.now.contents a else [])) }
{
    if !wanted {
        return Ok(());
    }
    out.push_str(", ")?;
    add_at(out, memory, sort, a)
}

// Adds the parts of all addresses of a sort.
fn add_parts(out: &mut String, memory: &Memory, sort: Sort) -> Result<(), AllocError>
    ensures { let m = memory.now.contents in OnOk result (string_bytes out.new
        ≡ string_bytes out.old ++ flat_map (λ a. codes ", " ++ shown_at sort m a) (addresses_of sort m)) }
{
    for a in 0..memory.cells() {
        let wanted = is_counted(sort, a, memory.block(a), memory.cell(a));
        add_part_if(out, memory, sort, a, wanted)?;
    }
    Ok(())
}

/// Adds the list of all addresses of a sort, behind its word.
pub(crate) fn add_list(
    out: &mut String,
    memory: &Memory,
    word: &str,
    sort: Sort,
) -> Result<(), AllocError>
    ensures { let m = memory.now.contents in OnOk result (string_bytes out.new
        ≡ string_bytes out.old ++ list_line word.now (shown_at sort m) (addresses_of sort m)) }
{
    let many = count_cells(memory, sort);
    write!(out, "{word} {many}")?;
    add_parts(out, memory, sort)?;
    out.push_str("\n")
}

// Adds the window of an element as a part of a list.
fn add_window_part(out: &mut String, memory: &Memory, element: u16) -> Result<(), AllocError>
    ensures { OnOk result (string_bytes out.new ≡ string_bytes out.old
        ++ (codes ", " ++ window_said element (bounds memory.now.contents.windows element))) }
{
    out.push_str(", ")?;
    match memory.window(element) {
        Ok(window) => add_bounds(out, element, window),
        Err(_) => Ok(()), // Each element has a window.
    }
}

// Adds the windows of all elements as parts of a list.
fn add_windows(out: &mut String, memory: &Memory) -> Result<(), AllocError>
    ensures { let m = memory.now.contents in OnOk result (string_bytes out.new
        ≡ string_bytes out.old ++ flat_map (λ e. codes ", " ++ window_said e (bounds m.windows e))
        (range_with_len 0 (length m.windows))) }
{
    for element in 0..memory.elements() {
        add_window_part(out, memory, element)?;
    }
    Ok(())
}

// Adds a word, a number, and the windows of all elements.
fn add_window_list(
    out: &mut String,
    memory: &Memory,
    word: &str,
    many: u16,
) -> Result<(), AllocError>
    ensures { let m = memory.now.contents in OnOk result (string_bytes out.new ≡ string_bytes out.old
        ++ list_said word.now many (λ e. window_said e (bounds m.windows e)) (range_with_len 0 (length m.windows))) }
{
    write!(out, "{word} {many}")?;
    add_windows(out, memory)?;
    out.push_str("\n")
}

/// Adds the list of all elements.
pub(crate) fn add_elements(out: &mut String, memory: &Memory) -> Result<(), AllocError>
    ensures { let m = memory.now.contents in OnOk result (string_bytes out.new ≡ string_bytes out.old
        ++ list_line (codes "elements") (λ e. window_said e (bounds m.windows e))
        (range_with_len 0 (length m.windows))) }
{
    add_window_list(out, memory, "elements", memory.elements())
}
