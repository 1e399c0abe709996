//! Adds what lines show that only look at the memory.
ghost use Rattle.std.specs.Prelude.{◌≡◌, ◌++◌, length, OnOk, slice_get, Ok, string_bytes, codes, decimal};
ghost use Rattle.im_types.specs.Types.{held_at, waiters_at, block_at, presence_in};
ghost use Rattle.im_text.specs.Texts.{line_feed};
ghost use Rattle.im_report.specs.Figures.{kept_in, queue_at, sum_below};
ghost use Rattle.im_dialogue.specs.Answers.{look_text, recalled_line};
ghost use Rattle.im_dialogue.specs.declared.sort.Sort.TheVariants.{Base, Clashed, Empty, Full, Waiting};
ghost use Rattle.im_dialogue.specs.Showing.{block_said, cell_said, count_said, held_text, help_line, queue_text};
ghost use Rattle.im_dialogue.specs.Showing.{recall, stat_line, state_text, window_said};

use crate::answers::{add_kept, add_operation, add_request_refused};
use crate::counting::count_cells;
use crate::listing::{add_cells, add_elements, add_list};
use crate::look::Look;
use crate::sort::Sort;
use im_memory::Memory;
use im_report::{count_queues, count_windows};
use im_text::kind_text;
use im_types::{Block, Cell, Kept, Refusal, Waiter};
use std::alloc::AllocError;

// ---- a request and what is kept for it

/// Returns a request and what is kept for it. It is refused with `NoElement`, with `Forgotten` below the window, and
/// with `Gap` if the number isn't used yet.
fn recall(memory: &Memory, who: Waiter) -> Result<Kept, Refusal>
    ensures { result ≡ recall memory.now.contents.windows who }
{
    let (base, _next) = memory.window(who.element)?;
    match memory.kept(who.element, who.number) {
        Some(kept) => Ok(kept),
        None => {
            if who.number < base {
                Err(Refusal::Forgotten)
            } else {
                Err(Refusal::Gap)
            }
        }
    }
}

// Adds a request and what is kept for it, or why nothing is kept.
fn add_recalled(
    out: &mut String,
    who: Waiter,
    answer: Result<Kept, Refusal>,
    name: &str,
) -> Result<(), AllocError>
    ensures { OnOk result (string_bytes out.new
        ≡ string_bytes out.old ++ recalled_line who.element who.number name.now answer) }
{
    match answer {
        Ok(kept) => add_operation(out, who, kept),
        Err(refusal) => add_request_refused(out, who, refusal, name),
    }
}

// ---- a cell

// Adds the requests that wait at a cell, in their order.
fn add_queue(out: &mut String, memory: &Memory, a: u32) -> Result<(), AllocError>
    ensures { OnOk result (string_bytes out.new
        ≡ string_bytes out.old ++ queue_text (waiters_at memory.now.contents.cells a)) }
{
    for who in memory.waiters(a) {
        let element = who.element;
        let number = who.number;
        write!(out, " {element}.{number}")?;
    }
    Ok(())
}

// Adds the state of a cell, with its value or the requests that wait at it.
fn add_state(out: &mut String, memory: &Memory, a: u32) -> Result<(), AllocError>
    ensures { let cells = memory.now.contents.cells in OnOk result (string_bytes out.new
        ≡ string_bytes out.old ++ state_text (presence_in (held_at cells a)) (waiters_at cells a)) }
{
    match memory.cell(a) {
        None => Ok(()), // It is in no block.
        Some(Cell::Empty) => out.push_str(" empty"),
        Some(Cell::Waiting) => {
            out.push_str(" waiting")?;
            add_queue(out, memory, a)
        }
        Some(Cell::Full(value)) => write!(out, " full {value}"),
        Some(Cell::Clashed(value)) => write!(out, " clashed {value}"),
    }
}

// Adds the kind and the state of a cell, or that there is none.
fn add_held(out: &mut String, memory: &Memory, a: u32) -> Result<(), AllocError>
    ensures { let cells = memory.now.contents.cells in OnOk result (string_bytes out.new
        ≡ string_bytes out.old ++ held_text (block_at cells a) (presence_in (held_at cells a)) (waiters_at cells a)) }
{
    match memory.block(a) {
        None => out.push_str("nocell"),
        Some(block) => {
            out.push_str(kind_text(block.kind))?;
            add_state(out, memory, a)
        }
    }
}

/// Adds `cell A KIND STATE`, or `cell A nocell`.
pub(crate) fn add_cell(out: &mut String, memory: &Memory, a: u32) -> Result<(), AllocError>
    ensures { OnOk result (string_bytes out.new ≡ string_bytes out.old ++ cell_said memory.now.contents a) }
{
    write!(out, "cell {a} ")?;
    add_held(out, memory, a)
}

/// Adds `block BASE KIND LENGTH`, or `block A noblock`.
pub(crate) fn add_block(out: &mut String, a: u32, block: Option<Block>) -> Result<(), AllocError>
    ensures { OnOk result (string_bytes out.new ≡ string_bytes out.old ++ block_said a block) }
{
    let Some(block) = block else {
        return write!(out, "block {a} noblock");
    };
    let base = block.base;
    let kind = kind_text(block.kind);
    let length = block.length;
    write!(out, "block {base} {kind} {length}")
}

/// Adds `E window BASE NEXT`.
pub(crate) fn add_bounds(
    out: &mut String,
    element: u16,
    window: (u64, u64),
) -> Result<(), AllocError>
    ensures { OnOk result (string_bytes out.new ≡ string_bytes out.old ++ window_said element (Ok window)) }
{
    let (base, next) = window;
    write!(out, "{element} window {base} {next}")
}

// ---- counts

// Adds a word, and how many addresses are of a sort.
fn add_count(out: &mut String, memory: &Memory, word: &str, sort: Sort) -> Result<(), AllocError>
    ensures { OnOk result (string_bytes out.new
        ≡ string_bytes out.old ++ count_said word.now sort memory.now.contents) }
{
    let many = count_cells(memory, sort);
    write!(out, "{word}{many}")
}

// Adds `stat cells C blocks B`.
fn add_blocks(out: &mut String, memory: &Memory) -> Result<(), AllocError>
    ensures { let m = memory.now.contents in OnOk result (string_bytes out.new ≡ string_bytes out.old
        ++ (codes "stat cells " ++ decimal (length m.cells) ++ count_said (codes " blocks ") Base m)) }
{
    let cells = memory.cells();
    write!(out, "stat cells {cells}")?;
    add_count(out, memory, " blocks ", Sort::Base)
}

// Adds `empty E waiting W`.
fn add_unfilled(out: &mut String, memory: &Memory) -> Result<(), AllocError>
    ensures { let m = memory.now.contents in OnOk result (string_bytes out.new ≡ string_bytes out.old
        ++ (count_said (codes " empty ") Empty m ++ count_said (codes " waiting ") Waiting m)) }
{
    add_count(out, memory, " empty ", Sort::Empty)?;
    add_count(out, memory, " waiting ", Sort::Waiting)
}

// Adds `full F clashed X`.
fn add_filled(out: &mut String, memory: &Memory) -> Result<(), AllocError>
    ensures { let m = memory.now.contents in OnOk result (string_bytes out.new ≡ string_bytes out.old
        ++ (count_said (codes " full ") Full m ++ count_said (codes " clashed ") Clashed m)) }
{
    add_count(out, memory, " full ", Sort::Full)?;
    add_count(out, memory, " clashed ", Sort::Clashed)
}

// Adds `kept K`.
fn add_kept_count(out: &mut String, memory: &Memory) -> Result<(), AllocError>
    ensures { let w = memory.now.contents.windows in OnOk result (string_bytes out.new ≡ string_bytes out.old
        ++ (codes " kept " ++ decimal (sum_below (λ k. kept_in (slice_get w k)) (length w)))) }
{
    let kept = count_windows(memory).kept;
    write!(out, " kept {kept}")
}

// Adds `deferred D`, and ends the line.
fn add_deferred(out: &mut String, memory: &Memory) -> Result<(), AllocError>
    ensures { let m = memory.now.contents in OnOk result (string_bytes out.new ≡ string_bytes out.old
        ++ (codes " deferred " ++ decimal (sum_below (queue_at m) (length m.cells)) ++ line_feed)) }
{
    let deferred = count_queues(memory).requests;
    write!(out, " deferred {deferred}\n")
}

// Adds how many blocks, cells and entries there are.
fn add_stat(out: &mut String, memory: &Memory) -> Result<(), AllocError>
    ensures { OnOk result (string_bytes out.new ≡ string_bytes out.old ++ stat_line memory.now.contents) }
{
    add_blocks(out, memory)?;
    add_unfilled(out, memory)?;
    add_filled(out, memory)?;
    add_kept_count(out, memory)?;
    add_deferred(out, memory)
}

// ---- help

// Adds the lines of a dialogue.
fn add_help(out: &mut String) -> Result<(), AllocError>
    ensures { OnOk result (string_bytes out.new ≡ string_bytes out.old ++ help_line) }
{
    out.push_str(
        "help E.N alloc i LENGTH, E.N alloc m LENGTH, E.N release A, E.N reset A, E.N fetch A, ",
    )?;
    out.push_str("E.N store A VALUE, E.N take A, E.N put A VALUE, ")?;
    out.push_str("collect E.N, entry E.N, confirm E UPTO, window E, elements, cell A, ")?;
    out.push_str("cells A-B, waiting, block A, blocks, ")?;
    out.push_str("stat, room, turn, count, about, backup NAME, help, quit\n")
}

// ---- all of them

/// Adds what a line shows that only looks. `name` is the name of the refusal, if it is one.
pub(crate) fn add_look(
    out: &mut String,
    memory: &Memory,
    look: Look,
    name: &str,
) -> Result<(), AllocError>
    ensures { OnOk result (string_bytes out.new
        ≡ string_bytes out.old ++ look_text name.now memory.now.contents look) }
{
    match look {
        Look::Collect(who) => add_kept(out, who, memory.collect(who.element, who.number), name),
        Look::Entry(who) => add_recalled(out, who, recall(memory, who), name),
        Look::Cell(a) => {
            add_cell(out, memory, a)?;
            out.push_str("\n")
        }
        Look::Cells(from, to) => add_cells(out, memory, from, to),
        Look::Waiting => add_list(out, memory, "waiting", Sort::Waiting),
        Look::Block(a) => {
            add_block(out, a, memory.block(a))?;
            out.push_str("\n")
        }
        Look::Blocks => add_list(out, memory, "blocks", Sort::Base),
        Look::Elements => add_elements(out, memory),
        Look::Stat => add_stat(out, memory),
        Look::Help => add_help(out),
    }
}

/// Returns the refusal that a line shows that only looks, if it is refused.
pub(crate) fn look_refused(memory: &Memory, look: Look) -> Option<Refusal> {
    match look {
        Look::Collect(who) => memory.collect(who.element, who.number).err(),
        Look::Entry(who) => recall(memory, who).err(),
        _ => None,
    }
}
