//! The lines of a report that a filter names.
ghost use Rattle.std.specs.Prelude.{◌≡◌, ◌++◌, OnOk, slice_get, string_bytes};
ghost use Rattle.im_types.specs.Types.{held_at, waiters_at, presence_in};
ghost use Rattle.im_image.specs.Headers.{seen};
ghost use Rattle.im_report.specs.Look.{filtered_text, is_awaited, is_whole, lies_in, named_cells, named_elements};
ghost use Rattle.im_report.specs.Look.{names_cell, names_element, text_if, whole_head, whole_text};
ghost use Rattle.im_report.specs.Report.{cell_line, window_text};

use crate::look::{Filter, Span};
use crate::notation::Notation;
use crate::report::{self, add_cell, add_contents, add_element};
use crate::report_json;
use im_image::Report;
use im_memory::Memory;
use im_types::Cell;
use std::alloc::AllocError;

// Whether a filter asks for nothing.
fn is_whole(filter: &Filter) -> bool
    ensures { result ≡ is_whole filter.now }
{
    filter.cells.is_none() && filter.element.is_none() && !filter.waiting
}

// Whether an address lies in a span. Each does if there is none.
fn lies_in(a: u32, span: Option<Span>) -> bool
    ensures { result ≡ lies_in a span }
{
    match span {
        Some(span) => span.from <= a && a <= span.to,
        None => true,
    }
}

// Whether somebody waits for a cell.
fn is_awaited(cell: Option<Cell>) -> bool
    ensures { result ≡ is_awaited cell }
{
    match cell {
        Some(Cell::Waiting) => true,
        None | Some(Cell::Empty | Cell::Full(_) | Cell::Clashed(_)) => false,
    }
}

// Whether a filter that asks for cells names the line of this one.
fn names_cell(filter: &Filter, a: u32, cell: Option<Cell>) -> bool
    ensures { result ≡ names_cell filter.now a cell }
{
    (filter.cells.is_some() || filter.waiting)
        && lies_in(a, filter.cells)
        && (!filter.waiting || is_awaited(cell))
}

// Whether a filter names the lines of an element.
fn names_element(wanted: Option<u32>, element: u16) -> bool
    ensures { result ≡ names_element wanted element }
{
    match wanted {
        Some(number) => number == u32::from(element),
        None => false,
    }
}

// Adds the line of a cell if it is wanted.
fn add_cell_if(
    out: &mut String,
    notation: Notation,
    memory: &Memory,
    a: u32,
    wanted: bool,
) -> Result<(), AllocError>
    ensures { OnOk result (string_bytes out.new ≡ string_bytes out.old
        ++ text_if wanted (cell_line notation a (presence_in (held_at memory.now.contents.cells a))
        (waiters_at memory.now.contents.cells a))) }
{
    if !wanted {
        return Ok(());
    }
    add_cell(out, notation, memory, a)
}

// Adds the lines of the cells that a filter names.
fn add_named_cells(
    out: &mut String,
    notation: Notation,
    memory: &Memory,
    filter: &Filter,
) -> Result<(), AllocError>
    ensures { OnOk result (string_bytes out.new ≡ string_bytes out.old
        ++ named_cells notation filter.now memory.now.contents) }
{
    for a in 0..memory.cells() {
        let wanted = names_cell(filter, a, memory.cell(a));
        add_cell_if(out, notation, memory, a, wanted)?;
    }
    Ok(())
}

// Adds the lines of an element if they are wanted.
fn add_element_if(
    out: &mut String,
    notation: Notation,
    memory: &Memory,
    element: u16,
    wanted: bool,
) -> Result<(), AllocError>
    ensures { OnOk result (string_bytes out.new ≡ string_bytes out.old
        ++ text_if wanted (window_text notation element (slice_get memory.now.contents.windows element))) }
{
    if wanted {
        add_element(out, notation, memory, element)
    } else {
        Ok(())
    }
}

// Adds the lines of the element that a filter names.
fn add_named_elements(
    out: &mut String,
    notation: Notation,
    memory: &Memory,
    filter: &Filter,
) -> Result<(), AllocError>
    ensures { OnOk result (string_bytes out.new ≡ string_bytes out.old
        ++ named_elements notation filter.now memory.now.contents) }
{
    for element in 0..memory.elements() {
        let wanted = names_element(filter.element, element);
        add_element_if(out, notation, memory, element, wanted)?;
    }
    Ok(())
}

// Adds the lines of the cells and of the element that a filter names.
fn add_named(
    out: &mut String,
    notation: Notation,
    memory: &Memory,
    filter: &Filter,
) -> Result<(), AllocError>
    ensures { OnOk result (string_bytes out.new ≡ string_bytes out.old
        ++ (named_cells notation filter.now memory.now.contents
        ++ named_elements notation filter.now memory.now.contents)) }
{
    add_named_cells(out, notation, memory, filter)?;
    add_named_elements(out, notation, memory, filter)
}

// Adds the header and the journal of an image.
fn add_whole_head(out: &mut String, notation: Notation, report: &Report) -> Result<(), AllocError>
    ensures { OnOk result (string_bytes out.new ≡ string_bytes out.old ++ whole_head notation
        (seen report.now.header) report.now.run report.now.room) }
{
    match notation {
        Notation::Lines => { report::add_report_head(out, &report.header, report.run, report.room) }
        Notation::Json => {
            report_json::add_report_head(out, &report.header, report.run, report.room)
        }
    }
}

// Adds the whole report of an image.
fn add_whole(out: &mut String, notation: Notation, report: &Report) -> Result<(), AllocError>
    ensures { OnOk result (string_bytes out.new ≡ string_bytes out.old ++ whole_text notation
        (seen report.now.header) report.now.run report.now.room report.now.memory.contents) }
{
    add_whole_head(out, notation, report)?;
    add_contents(out, notation, &report.memory)
}

/// Adds the lines of the report of an image that a filter names.
pub(crate) fn add_filtered(
    out: &mut String,
    notation: Notation,
    report: &Report,
    filter: &Filter,
) -> Result<(), AllocError>
    ensures { OnOk result (string_bytes out.new ≡ string_bytes out.old ++ filtered_text notation filter.now
        (seen report.now.header) report.now.run report.now.room report.now.memory.contents) }
{
    if is_whole(filter) {
        add_whole(out, notation, report)
    } else {
        add_named(out, notation, &report.memory, filter)
    }
}
