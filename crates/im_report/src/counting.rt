//! Counts the cells, the holes, the requests that wait and the windows of a memory.
ghost use Rattle.std.specs.Prelude.{◌≡◌, ◌+◌, ◌≤◌, ◌&&◌, length, is_none, if◌then◌else◌, IsTrue, nat_lt, ◌==◌};
ghost use Rattle.std.specs.Prelude.{slice_get};
ghost use Rattle.im_types.specs.Types.{block_at, same_kind};
ghost use Rattle.im_report.specs.Figures.{begins_at, cell_tag, cells_tagged, count_below, free_figures, has_asked};
ghost use Rattle.im_report.specs.Figures.{is_tagged, kept_in, kind_figures, queue_at, queue_figures, row_after};
ghost use Rattle.im_report.specs.Figures.{window_figures};

use crate::figures::{FreeFigures, KindFigures, QueueFigures, WindowFigures};
use im_memory::Memory;
use im_types::{Block, Cell, Kind, MAX_CELLS, WINDOW};

// One if a test holds, and else none.
fn one_if(test: bool) -> u64
    ensures is { result ≡ (if test then 1 else 0) }
    ensures few { result ≤ 1 }
{
    if test { 1 } else { 0 }
}

// The number of a presence tag.
fn cell_tag(cell: Cell) -> u8
    ensures { result ≡ cell_tag cell }
{
    match cell {
        Cell::Empty => 0,
        Cell::Waiting => 1,
        Cell::Full(_) => 2,
        Cell::Clashed(_) => 3,
    }
}

fn is_same_kind(kind: Kind, other: Kind) -> bool
    ensures { result ≡ same_kind kind other }
{
    match (kind, other) {
        (Kind::I, Kind::I) | (Kind::M, Kind::M) => true,
        (Kind::I, Kind::M) | (Kind::M, Kind::I) => false,
    }
}

// Whether a cell of a block is of this kind and has the tag with this number.
fn is_tagged(kind: Kind, tag: u8, block: Option<Block>, cell: Option<Cell>) -> bool
    ensures { result ≡ is_tagged kind tag block cell }
{
    let Some(block) = block else {
        return false;
    };
    let Some(cell) = cell else {
        return false;
    };
    is_same_kind(kind, block.kind) && cell_tag(cell) == tag
}

// How many cells of this kind have the tag with this number.
fn cells_tagged(memory: &Memory, kind: Kind, tag: u8) -> u64
    ensures { result ≡ cells_tagged memory.now.contents kind tag }
{
    let mut count = 0;
    for a in 0..memory.cells() {
        count += one_if(is_tagged(kind, tag, memory.block(a), memory.cell(a)));
    }
    count
}

// Whether a block of this kind begins at an address.
fn begins_at(kind: Kind, a: u32, block: Option<Block>) -> bool
    ensures { result ≡ begins_at kind a block }
{
    match block {
        Some(block) => is_same_kind(kind, block.kind) && block.base == a,
        None => false,
    }
}

// How many blocks of this kind there are.
fn bases(memory: &Memory, kind: Kind) -> u64
    ensures { let m = memory.now.contents in result
        ≡ count_below (λ a. begins_at kind a (block_at m.cells a)) (length m.cells) }
{
    let mut count = 0;
    for a in 0..memory.cells() {
        count += one_if(begins_at(kind, a, memory.block(a)));
    }
    count
}

/// Counts the blocks of one kind, and their cells in each state.
pub(crate) fn count_kind(memory: &Memory, kind: Kind) -> KindFigures
    ensures { result ≡ kind_figures memory.now.contents kind }
{
    KindFigures {
        blocks: bases(memory, kind),
        empty: cells_tagged(memory, kind, 0),
        waiting: cells_tagged(memory, kind, 1),
        full: cells_tagged(memory, kind, 2),
        clashed: cells_tagged(memory, kind, 3),
    }
}

// Whether a cell lies in no block.
fn is_free(block: Option<Block>) -> bool
    ensures { result ≡ is_none block }
{
    match block {
        Some(_) => false,
        None => true,
    }
}

// The cells of a row that ends at a cell: one more if the cell is free, and else none.
fn row_after(free: bool, row: u64) -> u64
    requires { row ≤ MAX_CELLS }
    ensures { result ≡ row_after free row }
{
    if free { row + 1 } else { 0 }
}

/// Counts the cells in no block, and the holes that they make.
pub(crate) fn count_free(memory: &Memory) -> FreeFigures
    ensures { result ≡ free_figures memory.now.contents }
{
    let mut row = 0;
    let mut cells = 0;
    let mut holes = 0;
    let mut longest = 0;
    for a in 0..memory.cells() {
        let is_free = is_free(memory.block(a));
        row = row_after(is_free, row);
        cells += one_if(is_free);
        holes += one_if(row == 1);
        longest = row.max(longest);
    }
    FreeFigures {
        cells,
        holes,
        longest,
    }
}

// How many requests wait at an address.
fn queue_at(memory: &Memory, a: u32) -> u64
    ensures is { result ≡ queue_at memory.now.contents a }
    ensures few { result ≤ 4096 }
{
    let _elements = memory.elements();
    let mut count = 0;
    for _waiter in memory.waiters(a) {
        count += 1;
    }
    count
}

// The address of the longest queue, once another one is known.
fn first_most(at: u32, longest: u64, a: u32, queue: u64) -> u32
    ensures { result ≡ (if nat_lt longest queue then a else at) }
{
    if longest < queue { a } else { at }
}

/// Counts the requests that wait, and finds the longest queue.
pub fn count_queues(memory: &Memory) -> QueueFigures
    ensures { result ≡ queue_figures memory.now.contents }
{
    let mut requests = 0;
    let mut longest = 0;
    let mut at = 0;
    for a in 0..memory.cells() {
        let queue = queue_at(memory, a);
        requests += queue;
        at = first_most(at, longest, a, queue);
        longest = longest.max(queue);
    }
    QueueFigures {
        requests,
        longest,
        at,
    }
}

// How many entries an element's window keeps.
fn kept_in(memory: &Memory, element: u16) -> u64
    ensures is { result ≡ kept_in (slice_get memory.now.contents.windows element) }
    ensures few { result ≤ WINDOW }
{
    let _elements = memory.elements();
    match memory.window(element) {
        Ok((base, next)) => next.saturating_sub(base),
        Err(_) => 0,
    }
}

// Whether an element has asked anything.
fn has_asked(memory: &Memory, element: u16) -> bool
    ensures { result ≡ has_asked (slice_get memory.now.contents.windows element) }
{
    match memory.window(element) {
        Ok((base, next)) => !(base == 1 && next.saturating_sub(base) == 0),
        Err(_) => false,
    }
}

/// Counts the windows in use, their entries, and the windows that are full.
pub fn count_windows(memory: &Memory) -> WindowFigures
    ensures { result ≡ window_figures memory.now.contents }
{
    let mut asked = 0;
    let mut kept = 0;
    let mut full = 0;
    for element in 0..memory.elements() {
        let here = kept_in(memory, element);
        asked += one_if(has_asked(memory, element));
        kept += here;
        full += one_if(here == WINDOW);
    }
    WindowFigures { asked, kept, full }
}
