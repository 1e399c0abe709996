//! The pages that a command may change: the pages of the records that it touches. Each function puts pages into a set,
//! and takes none out of it.
ghost use Rattle.std.specs.Prelude.{◌≡◌, ℕ, ◌+◌, ◌≤◌, length, Err};
ghost use Rattle.im_types.specs.Types.{Reply as Told, Waiter as Asker, Answered, I, M, NoCell, held_at, place, store};
ghost use Rattle.im_types.specs.Types.{put, at_cell, block_with_base, act};
ghost use Rattle.im_pages.specs.PageSets.{IsWithin, size_of};
ghost use Rattle.{im_arena.specs.Lists.IsThreaded, im_cell.specs.Slots.slot_at};
ghost use Rattle.im_istore.specs.{Access.access_in, Agreement.Agree, Joined.cells_of};
ghost use Rattle.im_memory.specs.{Changing.places_in, Touched.elements_in, Touched.places_of};
ghost use Rattle.im_memory.specs.Covering.{AreIn, Covers, Grows, HasBlockMore, HasPlaces, HasTold, IsAlone, IsOfBlock};
ghost use Rattle.im_memory.specs.Covering.{KeepsOutside, most_by, most_by_block, most_by_new, most_pages, with_block};
ghost use Rattle.im_memory.specs.Covering.{with_new};
ghost use Rattle.im_pages.specs.Places as pages_of;

use crate::memory::Memory;
use crate::record_pages::{
    touch_cell, touch_cells, touch_ends, touch_readers, touch_session, touch_taker,
};
use crate::records::are_threaded;
use im_arena::Arena;
use im_cell::CellTable;
use im_istore::look;
use im_pages::PageSet;
use im_types::{Cell, Command, Kind, MAX_CELLS, Op};

// Adds the pages that a fetch may change, without the asker's session.
fn touch_fetch(table: &CellTable, arena: &Arena, a: u32, pages: &mut PageSet)
    requires { Agree table.now arena.now }
    ensures places { HasPlaces (length arena.now.held.lists) (places_in table.now arena.now (Op.Fetch a)) pages.new }
    ensures grows { Grows pages.old pages.new }
    ensures few { size_of pages.new ≤ size_of pages.old
        + most_by (cells_of table.now arena.now) (Op.Fetch a) }
    ensures refused { (told : Told) → access_in I (slot_at table.now a) ≡ Err told → pages.new ≡ pages.old }
{
    let cell = match look(table, a, Kind::I) {
        Ok(cell) => cell,
        Err(_) => return,
    };
    match cell {
        Cell::Full(_) => {}
        Cell::Clashed(_) => {}
        _ => {
            touch_cell(a, pages);
            touch_ends(arena, a, pages);
        }
    }
}

// Adds the pages that a take may change, without the asker's session.
fn touch_take(table: &CellTable, arena: &Arena, a: u32, pages: &mut PageSet)
    requires { Agree table.now arena.now }
    ensures places { HasPlaces (length arena.now.held.lists) (places_in table.now arena.now (Op.Take a)) pages.new }
    ensures grows { Grows pages.old pages.new }
    ensures few { size_of pages.new ≤ size_of pages.old
        + most_by (cells_of table.now arena.now) (Op.Take a) }
    ensures refused { (told : Told) → access_in M (slot_at table.now a) ≡ Err told → pages.new ≡ pages.old }
{
    let Ok(cell) = look(table, a, Kind::M) else {
        return;
    };
    touch_cell(a, pages);
    match cell {
        Cell::Full(_) => {}
        Cell::Clashed(_) => {}
        _ => touch_ends(arena, a, pages),
    }
}

// Adds the pages that a store may change, whatever its value is, without the asker's session.
fn touch_store(table: &CellTable, arena: &Arena, elements: u16, a: u32, pages: &mut PageSet)
    requires agree { Agree table.now arena.now }
    requires threaded { IsThreaded arena.now }
    ensures places { (value : ℕ) → let op = Op.Store a value in
        HasPlaces (length arena.now.held.lists) (places_in table.now arena.now op) pages.new }
    ensures sessions { (value : ℕ) → let cells = cells_of table.now arena.now in
        HasTold (length arena.now.held.lists) elements pages.new
        (at_cell I (store value) cells a (held_at cells a)).resumed }
    ensures grows { Grows pages.old pages.new }
    ensures few { (value : ℕ) → size_of pages.new ≤ size_of pages.old
        + most_by (cells_of table.now arena.now) (Op.Store a value) }
    ensures refused { (told : Told) → access_in I (slot_at table.now a) ≡ Err told → pages.new ≡ pages.old }
{
    let cell = match look(table, a, Kind::I) {
        Ok(cell) => cell,
        Err(_) => return,
    };
    touch_cell(a, pages);
    match cell {
        Cell::Waiting => touch_readers(arena, elements, a, pages),
        _ => {}
    }
}

// Adds the pages that a put may change, whatever its value is, without the asker's session.
fn touch_put(table: &CellTable, arena: &Arena, elements: u16, a: u32, pages: &mut PageSet)
    requires { Agree table.now arena.now }
    ensures places { (value : ℕ) → let op = Op.Put a value in
        HasPlaces (length arena.now.held.lists) (places_in table.now arena.now op) pages.new }
    ensures sessions { (value : ℕ) → let cells = cells_of table.now arena.now in
        HasTold (length arena.now.held.lists) elements pages.new
        (at_cell M (put value) cells a (held_at cells a)).resumed }
    ensures grows { Grows pages.old pages.new }
    ensures few { (value : ℕ) → size_of pages.new ≤ size_of pages.old
        + most_by (cells_of table.now arena.now) (Op.Put a value) }
    ensures refused { (told : Told) → access_in M (slot_at table.now a) ≡ Err told → pages.new ≡ pages.old }
{
    let Ok(cell) = look(table, a, Kind::M) else {
        return;
    };
    touch_cell(a, pages);
    if let Cell::Waiting = cell {
        touch_taker(arena, elements, a, pages);
    }
}

// Adds the pages of a new block's cells.
fn touch_alloc(table: &CellTable, arena: &Arena, kind: Kind, n: u32, pages: &mut PageSet)
    requires { length table.now ≤ MAX_CELLS }
    ensures places { let op = Op.Alloc kind n in
        HasPlaces (length arena.now.held.lists) (places_in table.now arena.now op) pages.new }
    ensures grows { Grows pages.old pages.new }
    ensures few { size_of pages.new ≤ size_of pages.old + most_by_new n (place n (cells_of table.now arena.now)) }
    ensures block { pages.new ≡ with_new pages.old n (place n (cells_of table.now arena.now)) }
{
    if n == 0 {
        return;
    }
    if let Some(base) = table.find(n) {
        touch_cells(base, n, pages);
    }
}

// Adds the pages of a block's cells. The block is released or reset.
fn touch_block(table: &CellTable, arena: &Arena, a: u32, pages: &mut PageSet)
    requires { length table.now ≤ MAX_CELLS }
    ensures places { let cells = cells_of table.now arena.now in
        HasPlaces (length arena.now.held.lists) (places_of (block_with_base a (held_at cells a))) pages.new }
    ensures grows { Grows pages.old pages.new }
    ensures few { let cells = cells_of table.now arena.now in
        size_of pages.new ≤ size_of pages.old + most_by_block (block_with_base a (held_at cells a)) }
    ensures block { let cells = cells_of table.now arena.now in
        pages.new ≡ with_block pages.old (block_with_base a (held_at cells a)) }
{
    if let Some(block) = table.block_of(a) {
        if block.base == a {
            touch_cells(block.base, block.length, pages);
        }
    }
}

// Adds the pages of the cells and the nodes that an operation may change, and of the sessions of the requests that it
// resumes.
fn touch_op(table: &CellTable, arena: &Arena, elements: u16, op: Op, pages: &mut PageSet)
    requires agree { Agree table.now arena.now × IsThreaded arena.now }
    requires few { length table.now ≤ MAX_CELLS }
    ensures places { HasPlaces (length arena.now.held.lists) (places_in table.now arena.now op) pages.new }
    ensures sessions { (who : Asker) →
        AreIn (pages_of.page_of_session (length arena.now.held.lists) elements) pages.new
        (elements_in (act (cells_of table.now arena.now) who op).resumed) }
    ensures grows { Grows pages.old pages.new }
    ensures few { size_of pages.new ≤ size_of pages.old
        + most_by (cells_of table.now arena.now) op }
    ensures block { HasBlockMore (cells_of table.now arena.now) op pages.old pages.new }
    ensures alone { (who : Asker) → (act (cells_of table.now arena.now) who op).entry ≡ Answered NoCell
        → pages.new ≡ pages.old }
{
    match op {
        Op::Alloc(kind, n) => touch_alloc(table, arena, kind, n, pages),
        Op::Release(a) => touch_block(table, arena, a, pages),
        Op::Reset(a) => touch_block(table, arena, a, pages),
        Op::Fetch(a) => touch_fetch(table, arena, a, pages),
        Op::Store(a, _) => touch_store(table, arena, elements, a, pages),
        Op::Take(a) => touch_take(table, arena, a, pages),
        Op::Put(a, _) => touch_put(table, arena, elements, a, pages),
    }
}

impl Memory {
    /// Puts each page into the set on which [`Memory::step`] of this command may change a record. It takes no memory.
    ///
    /// A fetch, a take or a put adds at most four pages. A store adds at most two, and two more for each reader that
    /// waits. A confirmation, and a request for a cell in no block, adds only the page of its element's session. An
    /// allocation, a release or a reset of a block adds the pages of the block's cells and of the session, and no
    /// others.
    pub fn touches(&self, command: &Command, pages: &mut PageSet)
        ensures covers { Covers self.now command.now pages.new }
        ensures others { KeepsOutside self.now command.now pages.new }
        ensures kept { IsWithin pages.old pages.new }
        ensures length { length pages.new ≡ length pages.old }
        ensures few { size_of pages.new ≤ size_of pages.old
            + most_pages self.now.contents command.now }
        ensures block { IsOfBlock self.now.contents command.now pages.old pages.new }
        ensures alone { IsAlone self.now.contents command.now pages.old pages.new }
    {
        are_threaded(&self.arena);
        let elements = self.elements();
        match command {
            Command::Request(request) => {
                touch_session(&self.arena, elements, request.element, pages);
                touch_op(&self.table, &self.arena, elements, request.op, pages);
            }
            Command::Confirm { element, .. } => {
                touch_session(&self.arena, elements, *element, pages);
            }
        }
    }
}
