//! A memory as records, which the pages of an image spell.
ghost use Rattle.std.specs.Prelude.{◌≡◌, ℕ, ◌^◌, ◌<◌, length, slice_get, slice_index_or, Some, None};
ghost use Rattle.im_types.specs.Types.{Window, kept_for, IsWindow, bounds, Sizes, FreeCell, FreeNode, FitsTag};
ghost use Rattle.im_types.specs.Types.{FitsCell, FitsNode, ShowsRecords};
ghost use Rattle.{im_arena.specs.Lists.ends_at, im_arena.specs.Lists.IsThreaded, im_cell.specs.Slots.HoldsBlocks};
ghost use Rattle.im_memory.specs.MakesMemory.{contents_of, MakesMemory};
ghost use Rattle.im_memory.specs.Shown.{AreWithin, records_of, tag_shown};

use im_arena::{Arena, Ends};
use im_cell::CellTable;
use im_sessions::Sessions;
use im_types::{Cell, CellRecord, Kept, NONE, NodeRecord, PresenceTag, Refusal};
use std::marker::Model;

/// The records of a memory: one for each cell and one for each waiter node. Together with the windows they show the
/// memory as it is. Contracts see all of them.
#[derive(Drop)]
pub struct MemoryRecords<'a> {
    table: &'a CellTable,
    arena: &'a Arena,
    sessions: &'a Sessions,
}

impl<'a> Model for MemoryRecords<'a> {
    ghost use Rattle.im_types.specs.Types.{Records};
    ghost use Rattle.im_memory.specs.Shown.{IsShownMemory, records_of};

    ghost Value = { Records };

    ghost view = { λ r. records_of r.table.now r.arena.now r.sessions.now };

    ghost invariant = { λ r. IsShownMemory r.table.now r.arena.now r.sessions.now };
}

// Shows that the links of an arena lead through its lists. The call does nothing but ask for that law.
pub(crate) fn are_threaded(arena: &Arena)
    requires { 0 < length arena.now.held.lists }
    ensures { IsThreaded arena.now }
{
    let _ = arena.ends(0);
}

// Shows that each block of a table lies within it. The call does nothing but ask for that law.
fn have_blocks(table: &CellTable)
    ensures { HoldsBlocks table.now }
{
    let _ = table.block_of(0);
}

impl<'a> MemoryRecords<'a> {
    /// Returns the records of the memory that a table, an arena and windows make.
    pub(crate) fn new(
        table: &'a CellTable,
        arena: &'a Arena,
        sessions: &'a Sessions,
    ) -> MemoryRecords<'a>
        requires { MakesMemory table.now arena.now sessions.now }
        ensures nodes { length result.nodes ≡ arena.now.held.nodes }
        ensures records { result ≡ records_of table.now arena.now sessions.now }
        ensures shows { let m = contents_of table.now arena.now sessions.now in
            (s : Sizes) → s.cells ≡ length m.cells → s.elements ≡ length m.windows → ShowsRecords s result m }
    {
        are_threaded(arena);
        MemoryRecords {
            table,
            arena,
            sessions,
        }
    }

    /// Returns the record of the cell at an address, or a free cell's record past the last cell.
    pub fn cell_record(&self, a: u32) -> CellRecord
        ensures shown { result ≡ slice_index_or self.now.cells a (FreeCell 0 NONE) }
        ensures fits { FitsCell (length self.now.cells) (length self.now.nodes) result }
    {
        have_blocks(self.table);
        match self.table.slot(a) {
            Some(slot) => CellRecord::Held {
                block: slot.block,
                tag: tag_of(slot.cell, ends_at(self.arena, a)),
            },
            None => CellRecord::Free {
                hole: 0,
                next: NONE,
            },
        }
    }

    /// Returns the record of the node with this number, or a free node's record past the last node.
    #[tactic(auto, using(crate::proofs::ThreadLemmas::record_past))]
    pub fn node_record(&self, n: u32) -> NodeRecord
        ensures shown { result ≡ slice_index_or self.now.nodes n (FreeNode NONE) }
        ensures fits { FitsNode (length self.now.nodes) result }
    {
        if n >= self.arena.node_count() {
            return NodeRecord::Free { next: NONE };
        }
        self.arena.node(n)
    }

    /// Returns the base of an element's window and the number of its next new request. Returns `NoElement` if there is
    /// no such element.
    pub fn window(&self, element: u16) -> Result<(u64, u64), Refusal>
        ensures bounds { result ≡ bounds self.now.windows element }
        ensures within { (e : ℕ) (w : Window) → slice_get self.now.windows e ≡ Some w → IsWindow w }
    {
        self.sessions.window(element)
    }

    /// Returns the operation and the entry that are kept under an element's number, or `None` if there are none.
    pub fn kept(&self, element: u16, number: u64) -> Option<Kept>
        ensures { result ≡ kept_for self.now.windows (record { element = element; number = number }) }
    {
        self.sessions.kept(element, number)
    }
}

// Returns the first and the last node of a cell's list, or `None` if the list is empty or the address is past the last
// cell.
fn ends_at(arena: &Arena, a: u32) -> Option<Ends>
    requires { IsThreaded arena.now }
    ensures ends { result ≡ ends_at arena.now.links a }
    ensures within { AreWithin (length arena.now.links.records) result }
{
    if a >= arena.list_count() {
        return None;
    }
    arena.ends(a)
}

// Returns the presence tag of a cell whose list has these ends.
fn tag_of(cell: Cell, ends: Option<Ends>) -> PresenceTag
    ensures tag { result ≡ tag_shown cell ends }
    ensures fits { (nodes : ℕ) → AreWithin nodes ends → FitsTag nodes result }
{
    match cell {
        Cell::Empty => PresenceTag::Empty,
        Cell::Waiting => waiting_tag(ends),
        Cell::Full(value) => PresenceTag::Full(value),
        Cell::Clashed(value) => PresenceTag::Clashed(value),
    }
}

fn waiting_tag(ends: Option<Ends>) -> PresenceTag
    ensures tag { result ≡ tag_shown Cell.Waiting ends }
    ensures fits { (nodes : ℕ) → AreWithin nodes ends → FitsTag nodes result }
{
    match ends {
        Some(ends) => PresenceTag::Waiting {
            first: ends.first,
            last: ends.last,
        },
        None => PresenceTag::Empty,
    }
}
