//! The statistic of an image, line by line.
ghost use Rattle.std.specs.Prelude.{◌≡◌, ◌++◌, OnOk, string_bytes};
ghost use Rattle.im_image.specs.Headers.{seen};
ghost use Rattle.im_report.specs.{Figures.kind_figures, Report.numbered, Report.three_words};
ghost use Rattle.im_report.specs.Stat.{area_written, blocks_part, count_line, figures_lines, kind_line, next_line};
ghost use Rattle.im_report.specs.Stat.{pages_written, slots_line, stale_slots, stat_head, stat_memory};

use crate::counting::{count_free, count_kind, count_queues, count_windows};
use crate::figures::KindFigures;
use crate::report::add_opening;
use im_image::Header;
use im_memory::Memory;
use im_text::kind_text;
use im_types::Kind;
use std::alloc::AllocError;

/// Returns how many slots of the journal are neither of the run nor room.
pub(crate) fn stale_slots(header: &Header, run: u64, room: u32) -> u64
    ensures { result ≡ stale_slots (seen header.now) run room }
{
    let slots = u64::from(header.limits.slots);
    slots.saturating_sub(run).saturating_sub(u64::from(room))
}

/// Returns the area that the next checkpoint writes.
pub(crate) fn area_written(header: &Header) -> u8
    ensures { result ≡ area_written (seen header.now) }
{
    if header.area == 0 { 1 } else { 0 }
}

/// Returns the number of pages that the first checkpoint after an opening writes.
pub(crate) fn pages_written(header: &Header) -> usize
    ensures { result ≡ pages_written (seen header.now) }
{
    header.layout().area_pages(header.limits)
}

/// Adds a text.
pub(crate) fn add_text(out: &mut String, text: &str) -> Result<(), AllocError>
    ensures { OnOk result (string_bytes out.new ≡ string_bytes out.old ++ text.now) }
{
    out.push_str(text)
}

/// Adds a word, and a number behind it.
#[tactic(auto, unfolding(crate::specs::Report::numbered))]
pub(crate) fn add_member(out: &mut String, word: &str, number: u64) -> Result<(), AllocError>
    ensures { OnOk result (string_bytes out.new ≡ string_bytes out.old ++ numbered word.now number) }
{
    write!(out, "{word}{number}")
}

/// Adds three words, each with a number behind it, and an end.
pub(crate) fn add_three(
    out: &mut String,
    first: (&str, u64),
    second: (&str, u64),
    third: (&str, u64),
    end: &str,
) -> Result<(), AllocError>
    ensures { OnOk result (string_bytes out.new ≡ string_bytes out.old
        ++ three_words first.entry.0.now first.entry.1 second.entry.0.now second.entry.1
        third.entry.0.now third.entry.1 end.now) }
{
    add_member(out, first.0, first.1)?;
    add_member(out, second.0, second.1)?;
    add_member(out, third.0, third.1)?;
    add_text(out, end)
}

/// Adds the line of the journal's slots.
fn add_slots(out: &mut String, header: &Header, run: u64, room: u32) -> Result<(), AllocError>
    ensures { OnOk result (string_bytes out.new ≡ string_bytes out.old
        ++ slots_line (seen header.now) run room) }
{
    let stale = stale_slots(header, run, room);
    add_three(
        out,
        ("journal ", run),
        (" room ", room as u64),
        (" stale ", stale),
        "\n",
    )
}

/// Adds the line of the commands so far.
fn add_count(out: &mut String, header: &Header, run: u64) -> Result<(), AllocError>
    ensures { OnOk result (string_bytes out.new ≡ string_bytes out.old ++ count_line (seen header.now) run) }
{
    let count = u128::from(header.count) + u128::from(run);
    writeln!(out, "count {count}")
}

/// Adds the line of what the next checkpoint writes. An image of the first version has none.
fn add_next(out: &mut String, header: &Header) -> Result<(), AllocError>
    ensures { OnOk result (string_bytes out.new ≡ string_bytes out.old ++ next_line (seen header.now)) }
{
    if header.is_old() {
        return Ok(());
    }
    let area = area_written(header);
    let pages = pages_written(header);
    writeln!(out, "next area {area} pages {pages}")
}

// Adds the blocks of one kind and their empty cells.
fn add_blocks(out: &mut String, kind: Kind, f: &KindFigures) -> Result<(), AllocError>
    ensures { OnOk result (string_bytes out.new ≡ string_bytes out.old ++ blocks_part kind f.now) }
{
    add_text(out, kind_text(kind))?;
    add_member(out, " blocks ", f.blocks)?;
    add_member(out, " empty ", f.empty)
}

/// Adds the line of the blocks of one kind and of their cells.
fn add_kind(out: &mut String, memory: &Memory, kind: Kind) -> Result<(), AllocError>
    ensures { OnOk result (string_bytes out.new ≡ string_bytes out.old
        ++ kind_line kind (kind_figures memory.now.contents kind)) }
{
    let f = count_kind(memory, kind);
    add_blocks(out, kind, &f)?;
    add_three(
        out,
        (" waiting ", f.waiting),
        (" full ", f.full),
        (" clashed ", f.clashed),
        "\n",
    )
}

/// Adds the lines of the cells in no block, of the requests that wait and of the windows.
fn add_figures(out: &mut String, memory: &Memory) -> Result<(), AllocError>
    ensures { OnOk result (string_bytes out.new ≡ string_bytes out.old ++ figures_lines memory.now.contents) }
{
    let free = count_free(memory);
    let queues = count_queues(memory);
    let windows = count_windows(memory);
    add_three(
        out,
        ("free ", free.cells),
        (" holes ", free.holes),
        (" longest ", free.longest),
        "\n",
    )?;
    add_three(
        out,
        ("waiting ", queues.requests),
        (" longest ", queues.longest),
        (" at ", queues.at as u64),
        "\n",
    )?;
    add_three(
        out,
        ("windows ", windows.asked),
        (" kept ", windows.kept),
        (" full ", windows.full),
        "\n",
    )
}

/// Adds the lines of the header and the journal.
pub(crate) fn add_head(
    out: &mut String,
    header: &Header,
    run: u64,
    room: u32,
) -> Result<(), AllocError>
    ensures { OnOk result (string_bytes out.new ≡ string_bytes out.old ++ stat_head (seen header.now) run room) }
{
    add_opening(out, header)?;
    add_slots(out, header, run, room)?;
    add_count(out, header, run)?;
    add_next(out, header)
}

/// Adds the lines of the memory.
pub(crate) fn add_memory(out: &mut String, memory: &Memory) -> Result<(), AllocError>
    ensures { OnOk result (string_bytes out.new ≡ string_bytes out.old ++ stat_memory memory.now.contents) }
{
    add_kind(out, memory, Kind::I)?;
    add_kind(out, memory, Kind::M)?;
    add_figures(out, memory)
}
