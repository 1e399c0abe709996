//! The places in an image, in bytes from the file's start: two header places, two areas of pages, the journal.
//!
//! This file has the layout in use, which is `layout_in_use` of `specs/Layout.antt`. By a [`Version`] it also has the
//! layout before it. No other file computes with their sizes. Each page of an area has records of one kind: cells come
//! first, then waiter nodes, then sessions. No record crosses a page.
ghost use Rattle.std.specs.Prelude.{◌≡◌, ◌*◌, ◌≤◌};
ghost use Rattle.im_types.specs.Layout.{layout_in_use, layout_of, sizes_of};
ghost use Rattle.im_types.specs.Layout as layout;

use crate::{Limits, MAX_CELLS, MAX_ELEMENTS, MAX_SLOTS, WINDOW, WINDOW_1};

/// The bytes of a page, and of a header place.
pub const PAGE: usize = 4_096;

/// The bytes of a slot of the journal.
pub const SLOT: usize = 64;

/// The byte of an open gate. A gate with any other byte is closed.
pub const OPEN: u8 = 0xA5;

/// The byte that closes a gate.
pub const CLOSED: u8 = 0;

/// The bytes of a cell's record.
pub const CELL_RECORD: usize = 32;

/// The bytes of a waiter node.
pub const NODE_RECORD: usize = 16;

/// The bytes of the head of a session record, and of each of its places.
pub const PLACE: usize = 32;

/// The bytes of a session record. It has a head and a place for each entry of a window, and is filled with zeros up to
/// twice the bytes of its places.
pub const SESSION_RECORD: usize = 2 * PLACE * WINDOW as usize;

/// The number of cell records on a page.
pub const CELLS_ON_A_PAGE: usize = PAGE / CELL_RECORD;

/// The number of waiter nodes on a page.
pub const NODES_ON_A_PAGE: usize = PAGE / NODE_RECORD;

/// The number of session records on a page.
pub const SESSIONS_ON_A_PAGE: usize = PAGE / SESSION_RECORD;

/// The pages of an area at the largest sizes.
pub const MOST_AREA_PAGES: usize = MAX_CELLS as usize / CELLS_ON_A_PAGE
    + WINDOW as usize * MAX_ELEMENTS as usize / NODES_ON_A_PAGE
    + MAX_ELEMENTS as usize / SESSIONS_ON_A_PAGE;

/// The byte where the journal begins at the largest sizes.
pub const FARTHEST_JOURNAL: usize = 2 * PAGE + 2 * PAGE * MOST_AREA_PAGES;

/// The bytes of an image at the largest sizes.
pub const LONGEST_IMAGE: usize = FARTHEST_JOURNAL + SLOT * MAX_SLOTS as usize;

/// A version of the layout. Version one can be read; version two is in use.
#[derive(Clone, Copy, Debug, PartialEq, Eq)]
pub enum Version {
    /// Windows of [`WINDOW_1`] entries, at most 65,536 cells, and no reset.
    One,
    /// Windows of 64 entries, at most 1,048,576 cells, and resets.
    Two,
}

impl Version {
    /// Returns the version of an image whose header has this number. The number 1 stands for version one, and each
    /// other number for version two.
    pub fn named(number: u16) -> Version
        ensures { layout_of result ≡ layout.layout_named number }
    {
        if number == 1 {
            Version::One
        } else {
            Version::Two
        }
    }

    /// Returns the version's number in a header.
    pub fn number(self) -> u16
        ensures { result ≡ (layout_of self).version }
    {
        match self {
            Version::One => 1,
            Version::Two => 2,
        }
    }

    /// Returns the most entries that a window keeps.
    pub fn window(self) -> usize
        ensures window { result ≡ (layout_of self).window }
        ensures few { (1 ≤ result) × (result ≤ WINDOW) }
    {
        match self {
            Version::One => WINDOW_1 as usize,
            Version::Two => WINDOW as usize,
        }
    }

    /// Returns whether the version has resets.
    pub fn has_resets(self) -> bool
        ensures { result ≡ (layout_of self).resets }
    {
        match self {
            Version::One => false,
            Version::Two => true,
        }
    }

    /// Returns the most cells that a memory may have.
    pub fn most_cells(self) -> u32
        ensures most { result ≡ (layout_of self).most_cells }
        ensures few { result ≤ MAX_CELLS }
    {
        match self {
            Version::One => 65_536,
            Version::Two => MAX_CELLS,
        }
    }

    /// Returns the bytes of a session record. It has a head and a place for each entry of a window, and is filled with
    /// zeros up to twice the bytes of its places.
    pub fn session_record(self) -> usize
        ensures bytes { result ≡ layout.session_record_bytes (layout_of self) }
        ensures few { (1 ≤ result) × (result ≤ SESSION_RECORD) }
    {
        match self {
            Version::One => 1_024,
            Version::Two => SESSION_RECORD,
        }
    }

    /// Returns the number of waiter nodes: the entries of all windows together.
    pub fn node_count(self, limits: Limits) -> usize
        ensures { result ≡ layout.node_count (layout_of self) (sizes_of limits) }
    {
        match self {
            Version::One => WINDOW_1 as usize * limits.elements as usize,
            Version::Two => WINDOW as usize * limits.elements as usize,
        }
    }

    /// Returns the pages of waiter nodes in an area.
    pub fn node_pages(self, limits: Limits) -> usize
        ensures { result ≡ layout.node_pages (layout_of self) (sizes_of limits) }
    {
        match self {
            Version::One => {
                (WINDOW_1 as usize * limits.elements as usize + NODES_ON_A_PAGE - 1)
                    / NODES_ON_A_PAGE
            }
            Version::Two => (WINDOW as usize * limits.elements as usize + NODES_ON_A_PAGE - 1)
                / NODES_ON_A_PAGE,
        }
    }

    /// Returns the pages of sessions in an area.
    pub fn session_pages(self, limits: Limits) -> usize
        ensures { result ≡ layout.session_pages (layout_of self) (sizes_of limits) }
    {
        match self {
            Version::One => (limits.elements as usize + 3) / 4,
            Version::Two => limits.elements as usize,
        }
    }

    /// Returns the pages of an area.
    pub fn area_pages(self, limits: Limits) -> usize
        ensures pages { result ≡ layout.area_pages (layout_of self) (sizes_of limits) }
        ensures few { result ≤ MOST_AREA_PAGES }
    {
        cell_pages(limits) + self.node_pages(limits) + self.session_pages(limits)
    }

    /// Returns the bytes of an area's pages of waiter nodes.
    pub fn node_bytes(self, limits: Limits) -> usize
        ensures { result ≡ layout.page_bytes * layout.node_pages (layout_of self) (sizes_of limits) }
    {
        PAGE * self.node_pages(limits)
    }

    /// Returns the byte where an area begins.
    pub fn area_at(self, limits: Limits, area: usize) -> usize
        requires { area ≤ 2 }
        ensures at { result ≡ layout.area_at (layout_of self) (sizes_of limits) area }
        ensures near { result ≤ FARTHEST_JOURNAL }
    {
        2 * PAGE + PAGE * self.area_pages(limits) * area
    }

    /// Returns the byte where the journal begins.
    pub fn journal_at(self, limits: Limits) -> usize
        ensures at { result ≡ layout.journal_at (layout_of self) (sizes_of limits) }
        ensures near { result ≤ FARTHEST_JOURNAL }
    {
        self.area_at(limits, 2)
    }

    /// Returns the bytes of an image.
    pub fn image_length(self, limits: Limits) -> usize
        ensures length { result ≡ layout.image_length (layout_of self) (sizes_of limits) }
        ensures near { result ≤ LONGEST_IMAGE }
    {
        self.journal_at(limits) + SLOT * limits.slots as usize
    }
}

/// Returns the pages of cells in an area.
pub fn cell_pages(limits: Limits) -> usize
    ensures { result ≡ layout.cell_pages (sizes_of limits) }
{
    (limits.cells as usize + CELLS_ON_A_PAGE - 1) / CELLS_ON_A_PAGE
}

/// Returns the bytes of an area's pages of cells.
pub fn cell_bytes(limits: Limits) -> usize
    ensures { result ≡ layout.page_bytes * layout.cell_pages (sizes_of limits) }
{
    PAGE * cell_pages(limits)
}

/// Returns the number of waiter nodes in the layout in use.
pub fn node_count(limits: Limits) -> usize
    ensures { result ≡ layout.node_count layout_in_use (sizes_of limits) }
{
    Version::Two.node_count(limits)
}

/// Returns the pages of waiter nodes in an area of the layout in use.
pub fn node_pages(limits: Limits) -> usize
    ensures { result ≡ layout.node_pages layout_in_use (sizes_of limits) }
{
    Version::Two.node_pages(limits)
}

/// Returns the pages of sessions in an area of the layout in use.
pub fn session_pages(limits: Limits) -> usize
    ensures { result ≡ layout.session_pages layout_in_use (sizes_of limits) }
{
    Version::Two.session_pages(limits)
}

/// Returns the pages of an area of the layout in use.
pub fn area_pages(limits: Limits) -> usize
    ensures pages { result ≡ layout.area_pages layout_in_use (sizes_of limits) }
    ensures few { result ≤ MOST_AREA_PAGES }
{
    Version::Two.area_pages(limits)
}

/// Returns the bytes of an area's pages of waiter nodes in the layout in use.
pub fn node_bytes(limits: Limits) -> usize
    ensures { result ≡ layout.page_bytes * layout.node_pages layout_in_use (sizes_of limits) }
{
    Version::Two.node_bytes(limits)
}

/// Returns the byte where an area begins in the layout in use.
pub fn area_at(limits: Limits, area: usize) -> usize
    requires { area ≤ 2 }
    ensures at { result ≡ layout.area_at layout_in_use (sizes_of limits) area }
    ensures near { result ≤ FARTHEST_JOURNAL }
{
    Version::Two.area_at(limits, area)
}

/// Returns the byte where the journal begins in the layout in use.
pub fn journal_at(limits: Limits) -> usize
    ensures at { result ≡ layout.journal_at layout_in_use (sizes_of limits) }
    ensures near { result ≤ FARTHEST_JOURNAL }
{
    Version::Two.journal_at(limits)
}

/// Returns the bytes of an image of the layout in use.
pub fn image_length(limits: Limits) -> usize
    ensures length { result ≡ layout.image_length layout_in_use (sizes_of limits) }
    ensures near { result ≤ LONGEST_IMAGE }
{
    Version::Two.image_length(limits)
}
