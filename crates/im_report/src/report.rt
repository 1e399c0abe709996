//! The report of an image: its header in force, its journal, and the memory after the journal's run, line by line.
ghost use Rattle.std.specs.Prelude.{◌≡◌, ◌&&◌, ◌++◌, length, OnOk, ◌==◌, slice_get, Some, string_bytes};
ghost use Rattle.im_types.specs.Types.{Window, held_at, waiters_at, kept_for, presence_in};
ghost use Rattle.im_image.specs.Headers.{seen};
ghost use Rattle.im_report.specs.Report.{block_line, blocks_text, Bounds, cell_line, cells_text, contents_text};
ghost use Rattle.im_report.specs.Report.{elements_text, entries_text, entry_line, header_line, journal_line};
ghost use Rattle.im_report.specs.Report.{limits_line, opening_lines, version_line, window_text};

use crate::notation::Notation;
use crate::told::{tell_block, tell_element, tell_kept, tell_value, tell_waiting};
use im_image::Header;
use im_memory::Memory;
use im_types::{Block, Cell, Kept, Limits};
use std::alloc::AllocError;

/// Adds the line of the layout's version.
fn add_version(out: &mut String, header: &Header) -> Result<(), AllocError>
    ensures { OnOk result (string_bytes out.new ≡ string_bytes out.old ++ version_line (seen header.now)) }
{
    let version = header.version;
    writeln!(out, "version {version}")
}

/// Adds the line of the sizes.
fn add_limits(out: &mut String, header: &Header) -> Result<(), AllocError>
    ensures { OnOk result (string_bytes out.new ≡ string_bytes out.old ++ limits_line (seen header.now)) }
{
    let Limits {
        cells,
        elements,
        slots,
        ..
    } = header.limits;
    writeln!(out, "limits {cells} {elements} {slots}")
}

/// Adds the line of the header in force.
fn add_header(out: &mut String, header: &Header) -> Result<(), AllocError>
    ensures { OnOk result (string_bytes out.new ≡ string_bytes out.old ++ header_line (seen header.now)) }
{
    let area = header.area;
    let generation = header.generation;
    let count = header.count;
    writeln!(
        out,
        "header {area} generation {generation} area {area} count {count}"
    )
}

/// Adds the lines of the version, of the sizes and of the header in force.
pub(crate) fn add_opening(out: &mut String, header: &Header) -> Result<(), AllocError>
    ensures { OnOk result (string_bytes out.new ≡ string_bytes out.old ++ opening_lines (seen header.now)) }
{
    add_version(out, header)?;
    add_limits(out, header)?;
    add_header(out, header)
}

/// Adds the line of the journal.
fn add_journal(out: &mut String, run: u64, room: u32) -> Result<(), AllocError>
    ensures { OnOk result (string_bytes out.new ≡ string_bytes out.old ++ journal_line run room) }
{
    writeln!(out, "journal {run} room {room}")
}

/// Adds the line of a block if this address is its base.
fn add_block(
    out: &mut String,
    notation: Notation,
    a: u32,
    block: Option<Block>,
) -> Result<(), AllocError>
    ensures { OnOk result (string_bytes out.new ≡ string_bytes out.old ++ block_line notation a block) }
{
    let Some(block) = block else {
        return Ok(());
    };
    if block.base != a {
        return Ok(());
    }
    tell_block(out, notation, block)
}

/// Adds the lines of all blocks, by base.
fn add_blocks(out: &mut String, notation: Notation, memory: &Memory) -> Result<(), AllocError>
    ensures { OnOk result (string_bytes out.new ≡ string_bytes out.old ++ blocks_text notation memory.now.contents) }
{
    for a in 0..memory.cells() {
        add_block(out, notation, a, memory.block(a))?;
    }
    Ok(())
}

/// Adds the line of a cell if it isn't empty.
pub(crate) fn add_cell(
    out: &mut String,
    notation: Notation,
    memory: &Memory,
    a: u32,
) -> Result<(), AllocError>
    ensures { OnOk result (string_bytes out.new ≡ string_bytes out.old ++ cell_line notation a
        (presence_in (held_at memory.now.contents.cells a)) (waiters_at memory.now.contents.cells a)) }
{
    match memory.cell(a) {
        None | Some(Cell::Empty) => Ok(()),
        Some(Cell::Waiting) => tell_waiting(out, notation, memory, a),
        Some(Cell::Full(value)) => tell_value(out, notation, a, "full", value),
        Some(Cell::Clashed(value)) => tell_value(out, notation, a, "clashed", value),
    }
}

/// Adds the lines of all cells that aren't empty, by address.
fn add_cells(out: &mut String, notation: Notation, memory: &Memory) -> Result<(), AllocError>
    ensures { OnOk result (string_bytes out.new ≡ string_bytes out.old ++ cells_text notation memory.now.contents) }
{
    for a in 0..memory.cells() {
        add_cell(out, notation, memory, a)?;
    }
    Ok(())
}

/// Adds the line of what is kept under an element's number, if anything is kept.
fn add_kept(
    out: &mut String,
    notation: Notation,
    element: u16,
    number: u64,
    kept: Option<Kept>,
) -> Result<(), AllocError>
    ensures { OnOk result (string_bytes out.new ≡ string_bytes out.old ++ entry_line notation element number kept) }
{
    match kept {
        Some(kept) => tell_kept(out, notation, element, number, kept),
        None => Ok(()),
    }
}

/// Adds the lines of an element's entries. Their numbers run from the first bound up to, but not including, the other.
fn add_entries(
    out: &mut String,
    notation: Notation,
    memory: &Memory,
    element: u16,
    bounds: (u64, u64),
) -> Result<(), AllocError>
    ensures { (w : Window) → slice_get memory.now.contents.windows element ≡ Some w
        → Bounds bounds.0 bounds.1 w
        → OnOk result (string_bytes out.new ≡ string_bytes out.old ++ entries_text notation element w) }
{
    let (base, next) = bounds;
    for number in base..next {
        add_kept(out, notation, element, number, memory.kept(element, number))?;
    }
    Ok(())
}

/// Returns whether an element with this window base and this many entries has asked nothing yet.
fn is_new(base: u64, kept: u64) -> bool
    ensures { result ≡ ((base == 1) && (kept == 0)) }
{
    base == 1 && kept == 0
}

/// Adds the lines of an element if it has asked anything.
pub(crate) fn add_element(
    out: &mut String,
    notation: Notation,
    memory: &Memory,
    element: u16,
) -> Result<(), AllocError>
    ensures { OnOk result (string_bytes out.new ≡ string_bytes out.old
        ++ window_text notation element (slice_get memory.now.contents.windows element)) }
{
    let Ok((base, next)) = memory.window(element) else {
        return Ok(());
    };
    let kept = next.saturating_sub(base);
    if is_new(base, kept) {
        return Ok(());
    }
    tell_element(out, notation, element, base, kept)?;
    add_entries(out, notation, memory, element, (base, next))
}

/// Adds the lines of all elements that have asked anything.
fn add_elements(out: &mut String, notation: Notation, memory: &Memory) -> Result<(), AllocError>
    ensures { let m = memory.now.contents in
        OnOk result (string_bytes out.new ≡ string_bytes out.old ++ elements_text notation m) }
{
    let elements = memory.elements();
    for element in 0..elements {
        add_element(out, notation, memory, element)?;
    }
    Ok(())
}

/// Adds the lines of a memory.
pub(crate) fn add_contents(
    out: &mut String,
    notation: Notation,
    memory: &Memory,
) -> Result<(), AllocError>
    ensures { OnOk result (string_bytes out.new ≡ string_bytes out.old
        ++ contents_text notation memory.now.contents) }
{
    add_blocks(out, notation, memory)?;
    add_cells(out, notation, memory)?;
    add_elements(out, notation, memory)
}

/// Adds the lines of the header and the journal.
pub(crate) fn add_report_head(
    out: &mut String,
    header: &Header,
    run: u64,
    room: u32,
) -> Result<(), AllocError>
    ensures { OnOk result (string_bytes out.new ≡ string_bytes out.old
        ++ (opening_lines (seen header.now) ++ journal_line run room)) }
{
    add_opening(out, header)?;
    add_journal(out, run, room)
}
