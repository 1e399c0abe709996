//! The statistic of an image, as an object of JSON.
ghost use Rattle.std.specs.Prelude.{◌≡◌, ◌++◌, OnOk, string_bytes};
ghost use Rattle.im_image.specs.Headers.{seen};
ghost use Rattle.im_report.specs.Figures.{kind_figures};
ghost use Rattle.im_report.specs.Stat.{blocks_json, count_json, figures_json, head_json, kind_json, memory_json};
ghost use Rattle.im_report.specs.Stat.{next_json, pages_json, sizes_json, slots_json};

use crate::counting::{count_free, count_kind, count_queues, count_windows};
use crate::figures::KindFigures;
use crate::stat::{add_member, add_text, add_three, area_written, pages_written, stale_slots};
use im_image::Header;
use im_memory::Memory;
use im_text::kind_text;
use im_types::Kind;
use std::alloc::AllocError;

/// Adds the version and the sizes.
fn add_sizes(out: &mut String, header: &Header) -> Result<(), AllocError>
    ensures { OnOk result (string_bytes out.new ≡ string_bytes out.old ++ sizes_json (seen header.now)) }
{
    add_member(out, "{\"version\":", header.version as u64)?;
    add_member(out, ",\"limits\":{\"cells\":", header.limits.cells as u64)?;
    add_member(out, ",\"elements\":", header.limits.elements as u64)?;
    add_member(out, ",\"slots\":", header.limits.slots as u64)?;
    add_text(out, "}")
}

/// Adds the journal's slots.
fn add_slots(out: &mut String, header: &Header, run: u64, room: u32) -> Result<(), AllocError>
    ensures { OnOk result (string_bytes out.new ≡ string_bytes out.old ++ slots_json (seen header.now) run room) }
{
    let stale = stale_slots(header, run, room);
    add_three(
        out,
        (",\"journal\":{\"run\":", run),
        (",\"room\":", room as u64),
        (",\"stale\":", stale),
        "}",
    )
}

/// Adds the commands so far.
pub(crate) fn add_count(out: &mut String, header: &Header, run: u64) -> Result<(), AllocError>
    ensures { OnOk result (string_bytes out.new ≡ string_bytes out.old ++ count_json (seen header.now) run) }
{
    let count = u128::from(header.count) + u128::from(run);
    write!(out, ",\"count\":\"{count}\"")
}

/// Adds the area that the next checkpoint writes, and how many pages.
fn add_pages(out: &mut String, area: u8, pages: usize) -> Result<(), AllocError>
    ensures { OnOk result (string_bytes out.new ≡ string_bytes out.old ++ pages_json area pages) }
{
    add_member(out, ",\"next\":{\"area\":", area as u64)?;
    add_member(out, ",\"pages\":", pages as u64)?;
    add_text(out, "}")
}

/// Adds what the next checkpoint writes.
fn add_next(out: &mut String, header: &Header) -> Result<(), AllocError>
    ensures { OnOk result (string_bytes out.new ≡ string_bytes out.old ++ next_json (seen header.now)) }
{
    if header.is_old() {
        return out.push_str(",\"next\":null");
    }
    add_pages(out, area_written(header), pages_written(header))
}

// Adds the blocks of one kind and their empty cells.
fn add_blocks(out: &mut String, kind: Kind, f: &KindFigures) -> Result<(), AllocError>
    ensures { OnOk result (string_bytes out.new ≡ string_bytes out.old ++ blocks_json kind f.now) }
{
    add_text(out, ",\"")?;
    add_text(out, kind_text(kind))?;
    add_member(out, "\":{\"blocks\":", f.blocks)?;
    add_member(out, ",\"empty\":", f.empty)
}

/// Adds the blocks of one kind and their cells.
fn add_kind(out: &mut String, memory: &Memory, kind: Kind) -> Result<(), AllocError>
    ensures { OnOk result (string_bytes out.new ≡ string_bytes out.old
        ++ kind_json kind (kind_figures memory.now.contents kind)) }
{
    let f = count_kind(memory, kind);
    add_blocks(out, kind, &f)?;
    add_three(
        out,
        (",\"waiting\":", f.waiting),
        (",\"full\":", f.full),
        (",\"clashed\":", f.clashed),
        "}",
    )
}

/// Adds the cells in no block, the requests that wait and the windows, and ends the object.
fn add_figures(out: &mut String, memory: &Memory) -> Result<(), AllocError>
    ensures { OnOk result (string_bytes out.new ≡ string_bytes out.old ++ figures_json memory.now.contents) }
{
    let free = count_free(memory);
    let queues = count_queues(memory);
    let windows = count_windows(memory);
    add_three(
        out,
        (",\"free\":{\"cells\":", free.cells),
        (",\"holes\":", free.holes),
        (",\"longest\":", free.longest),
        "}",
    )?;
    add_three(
        out,
        (",\"waiting\":{\"requests\":", queues.requests),
        (",\"longest\":", queues.longest),
        (",\"at\":", queues.at as u64),
        "}",
    )?;
    add_three(
        out,
        (",\"windows\":{\"asked\":", windows.asked),
        (",\"kept\":", windows.kept),
        (",\"full\":", windows.full),
        "}}\n",
    )
}

/// Adds the members of the header and the journal.
pub(crate) fn add_head(
    out: &mut String,
    header: &Header,
    run: u64,
    room: u32,
) -> Result<(), AllocError>
    ensures { OnOk result (string_bytes out.new ≡ string_bytes out.old ++ head_json (seen header.now) run room) }
{
    add_sizes(out, header)?;
    add_three(
        out,
        (",\"header\":{\"area\":", header.area as u64),
        (",\"generation\":\"", header.generation),
        ("\",\"count\":\"", header.count),
        "\"}",
    )?;
    add_slots(out, header, run, room)?;
    add_count(out, header, run)?;
    add_next(out, header)
}

/// Adds the members of the memory.
pub(crate) fn add_memory(out: &mut String, memory: &Memory) -> Result<(), AllocError>
    ensures { OnOk result (string_bytes out.new ≡ string_bytes out.old ++ memory_json memory.now.contents) }
{
    add_kind(out, memory, Kind::I)?;
    add_kind(out, memory, Kind::M)?;
    add_figures(out, memory)
}
