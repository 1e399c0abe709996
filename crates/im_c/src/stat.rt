//! The numbers of an image, for C. Nothing changes.
ghost use Rattle.std.specs.Prelude.{◌≡◌, ◌≤◌, length, if◌then◌else◌, IsSome};
ghost use Rattle.{im_memory.specs.Confirming.does_wait, im_report.specs.Figures.count_below};
ghost use Rattle.im_c.specs.Handing.{ShowsHeld};
ghost use Rattle.im_c.specs.Seeing.{asks_nothing, is_of_sort, many, no_stat, ShowsStat, stat_told};

use crate::image::LtImage;
use crate::seeing::cell_told;
use crate::seen::LtFigures;
use im_listed::Image;
use im_memory::Memory;
use im_report::{count_queues, count_windows};
use im_types::{Block, Cell, Entry, Kept, WINDOW};

// One if a test holds, and else none.
fn one_if(test: bool) -> u64
    ensures is { result ≡ (if test then 1 else 0) }
    ensures few { result ≤ 1 }
{
    if test { 1 } else { 0 }
}

// Whether an address is counted: 0 the base of a block, else the number of its cell's state.
fn is_of_sort(sort: u8, a: u32, block: Option<Block>, cell: Option<Cell>) -> bool
    ensures { result ≡ is_of_sort sort a block cell }
{
    match block {
        Some(found) => {
            if sort == 0 {
                found.base == a
            } else {
                cell_told(block, cell).state == sort
            }
        }
        None => false,
    }
}

// How many addresses are counted.
fn many(memory: &Memory, sort: u8) -> u64
    ensures { result ≡ many memory.now.contents sort }
{
    let mut count = 0;
    for a in 0..memory.cells() {
        count += one_if(is_of_sort(sort, a, memory.block(a), memory.cell(a)));
    }
    count
}

// Whether an entry waits, if there is one.
fn does_wait(kept: Option<Kept>) -> bool
    ensures { result ≡ does_wait kept }
{
    match kept {
        Some(kept) => matches!(kept.entry, Entry::Waiting),
        None => false,
    }
}

// Whether an element can't ask before its oldest entry is answered.
fn asks_nothing(memory: &Memory, element: u16) -> bool
    ensures { result ≡ asks_nothing memory.now.contents.windows element }
{
    match memory.window(element) {
        Ok((base, next)) => {
            next.saturating_sub(base) == WINDOW && does_wait(memory.kept(element, base))
        }
        Err(_) => false,
    }
}

// How many elements can't.
fn stuck(memory: &Memory) -> u64
    ensures { let windows = memory.now.contents.windows in
        result ≡ count_below (asks_nothing windows) (length windows) }
{
    let mut count = 0;
    for element in 0..memory.elements() {
        count += one_if(asks_nothing(memory, element));
    }
    count
}

// The numbers of a memory.
fn stat_told(memory: &Memory) -> LtFigures
    ensures { result ≡ stat_told memory.now.contents }
{
    let windows = count_windows(memory);
    let queues = count_queues(memory);
    LtFigures {
        blocks: many(memory, 0),
        empty: many(memory, 1),
        awaited: many(memory, 2),
        full: many(memory, 3),
        clashed: many(memory, 4),
        kept: windows.kept,
        waiting: queues.requests,
        full_windows: windows.full,
        stuck: stuck(memory),
    }
}

// All numbers 0.
fn no_stat() -> LtFigures
    ensures { result ≡ no_stat }
{
    LtFigures {
        blocks: 0,
        empty: 0,
        awaited: 0,
        full: 0,
        clashed: 0,
        kept: 0,
        waiting: 0,
        full_windows: 0,
        stuck: 0,
    }
}

// The numbers of an image.
fn shown_stat(image: &Image) -> LtFigures
    ensures { ShowsStat image.now result }
{
    match image.is_lost() {
        true => no_stat(),
        false => stat_told(image.memory()),
    }
}

/// Writes the numbers of the memory at `stat`. All are 0 after a lost step. Nothing changes.
#[unsafe(no_mangle)]
pub extern "C" fn lt_held_stat(image: LtImage, next: &mut LtImage, stat: &mut LtFigures)
    requires some { IsSome image.value }
    ensures told { ShowsHeld image.value next.new.value (λ i. ShowsStat i stat.new) }
{
    let held = image.into_box();
    let shown = shown_stat(&held);
    *next = LtImage::of_box(held);
    *stat = shown;
}
