//! Makes the pages of an area from the records of a memory.
ghost use Rattle.std.specs.Prelude.{◌≡◌, ℕ, ◌+◌, ◌*◌, ◌<◌, ◌≤◌, ◌≢◌, List, length, slice_get, slice_index_or};
ghost use Rattle.im_types.specs.Types.{NONE, Contents, new_window, layout_in_use, Sizes, sizes_of, page_bytes};
ghost use Rattle.im_types.specs.Types.{record_at, FreeCell, FreeNode, FitsCell, FitsNode, session_bytes, FitsWindow};
ghost use Rattle.im_types.specs.Types.{Records, ShowsRecords, Shows};
ghost use Rattle.im_pages.specs.Places.{AgreeOnPage};
ghost use Rattle.im_records.specs.{Paging.bytes_or_zeros, Paging.joined, Placed.placed};
ghost use Rattle.im_image.specs.Encoding.{AreAreaPages, AreCounted, HasAreaPages, IsAreaPage, SameOn, SpellsCells};
ghost use Rattle.im_image.specs.Encoding.{SpellsNodes, SpellsSessions};
ghost use Rattle.im_types.specs.Layout as layout;

use im_memory::{Memory, MemoryRecords};
use im_records::{WindowRecord, put_cell, put_node, put_session};
use im_types::layout::{
    CELLS_ON_A_PAGE, MOST_AREA_PAGES, NODES_ON_A_PAGE, PAGE, SESSION_RECORD, SESSIONS_ON_A_PAGE,
    area_pages, cell_pages, node_count, node_pages,
};
use im_types::{CellRecord, Limits, NodeRecord};

// The record of the cell at an address, if there is one.
fn cell_at(records: &MemoryRecords<'_>, limits: Limits, a: usize) -> Option<CellRecord>
    requires { AreCounted (sizes_of limits) records.now }
    ensures found { result ≡ slice_get records.now.cells a }
    ensures fits { a < length records.now.cells → FitsCell limits.cells
        (layout.node_count layout_in_use (sizes_of limits)) (slice_index_or records.now.cells a (FreeCell 0 NONE)) }
{
    if a < limits.cells as usize {
        Some(records.cell_record(a as u32))
    } else {
        None
    }
}

// The record of a waiter node, if there is one.
fn node_at(records: &MemoryRecords<'_>, limits: Limits, n: usize) -> Option<NodeRecord>
    requires { AreCounted (sizes_of limits) records.now }
    ensures found { result ≡ slice_get records.now.nodes n }
    ensures fits { n < length records.now.nodes → FitsNode (layout.node_count layout_in_use (sizes_of limits))
        (slice_index_or records.now.nodes n (FreeNode NONE)) }
{
    if n < node_count(limits) {
        Some(records.node_record(n as u32))
    } else {
        None
    }
}

/// Returns the window of an element. Past the last element it is a new window.
pub(crate) fn window_at(records: &MemoryRecords<'_>, element: u16) -> WindowRecord
    ensures window { result ≡ slice_index_or records.now.windows element new_window }
    ensures fits { element < length records.now.windows → FitsWindow layout_in_use result }
{
    let Ok((base, next)) = records.window(element) else {
        return WindowRecord::new(1);
    };
    let mut window = WindowRecord::new(base);
    for number in base..next {
        let Some(kept) = records.kept(element, number) else {
            unreachable!()
        };
        window.push(kept);
    }
    let _entries = window.kept();
    window
}

fn encode_cells(records: &MemoryRecords<'_>, limits: Limits, i: usize, page: &mut [u8; PAGE])
    requires count { AreCounted (sizes_of limits) records.now }
    requires near { i < MOST_AREA_PAGES }
    ensures { SpellsCells (sizes_of limits) records.now i page.new }
{
    for place in 0..CELLS_ON_A_PAGE {
        let cell = cell_at(records, limits, CELLS_ON_A_PAGE * i + place);
        put_cell(page, place, cell);
    }
}

fn encode_nodes(records: &MemoryRecords<'_>, limits: Limits, i: usize, page: &mut [u8; PAGE])
    requires count { AreCounted (sizes_of limits) records.now }
    requires near { i < MOST_AREA_PAGES }
    ensures { SpellsNodes (sizes_of limits) records.now i page.new }
{
    for place in 0..NODES_ON_A_PAGE {
        let node = node_at(records, limits, NODES_ON_A_PAGE * i + place);
        put_node(page, place, node);
    }
}

// Puts the session of an element, or zeros if there is none.
fn put_element(
    records: &MemoryRecords<'_>,
    limits: Limits,
    element: usize,
    place: usize,
    page: &mut [u8; PAGE],
)
    requires count { AreCounted (sizes_of limits) records.now }
    requires place { place < SESSIONS_ON_A_PAGE }
    ensures here { record_at SESSION_RECORD page.new place
        ≡ bytes_or_zeros SESSION_RECORD (session_bytes layout_in_use) (slice_get records.now.windows element) }
    ensures others { (k : ℕ) → k < SESSIONS_ON_A_PAGE → k ≢ place
        → record_at SESSION_RECORD page.new k ≡ record_at SESSION_RECORD page.old k }
    ensures fits { element < length records.now.windows
        → FitsWindow layout_in_use (slice_index_or records.now.windows element new_window) }
{
    if element < limits.elements as usize {
        put_session(page, place, Some(&window_at(records, element as u16)));
    } else {
        put_session(page, place, None);
    }
}

fn encode_sessions(records: &MemoryRecords<'_>, limits: Limits, i: usize, page: &mut [u8; PAGE])
    requires count { AreCounted (sizes_of limits) records.now }
    requires near { i < MOST_AREA_PAGES }
    ensures { SpellsSessions records.now i page.new }
{
    for place in 0..SESSIONS_ON_A_PAGE {
        put_element(records, limits, SESSIONS_ON_A_PAGE * i + place, place, page);
    }
}

// Makes one page of an area, from a memory's records.
fn encode_records(records: &MemoryRecords<'_>, limits: Limits, i: usize, page: &mut [u8; PAGE])
    requires count { AreCounted (sizes_of limits) records.now }
    requires page { i < layout.area_pages layout_in_use (sizes_of limits) }
    ensures { IsAreaPage (sizes_of limits) records.now i page.new }
{
    let (cells, nodes) = (cell_pages(limits), node_pages(limits));
    if i < cells {
        encode_cells(records, limits, i, page);
    } else if i < cells + nodes {
        encode_nodes(records, limits, i - cells, page);
    } else {
        encode_sessions(records, limits, i - cells - nodes, page);
    }
}

/// Makes one page of an area that shows a memory. Pages are numbered from 0: first those of cells, then of waiter
/// nodes, then of sessions. It takes no memory.
pub fn encode_page(memory: &Memory, limits: Limits, i: usize, page: &mut [u8; PAGE])
    requires cells { length memory.now.contents.cells ≡ limits.cells }
    requires elements { length memory.now.contents.windows ≡ limits.elements }
    requires page { i < layout.area_pages layout_in_use (sizes_of limits) }
    ensures { IsAreaPage (sizes_of limits) memory.now.records i page.new }
{
    encode_records(&memory.records(), limits, i, page);
}

fn put_page(area: &mut [u8], i: usize, page: &[u8; PAGE])
    requires near { i < MOST_AREA_PAGES }
    requires room { 4096 * i + 4096 ≤ length area.old }
    ensures { area.new ≡ placed (4096 * i) page.now area.old }
{
    area[PAGE * i..PAGE * i + PAGE].copy_from_slice(page);
}

/// Makes one page of an area that shows a memory, at its place in the area. The other pages stay. It takes no memory.
pub fn encode_into(memory: &Memory, limits: Limits, i: usize, area: &mut [u8])
    requires cells { length memory.now.contents.cells ≡ limits.cells }
    requires elements { length memory.now.contents.windows ≡ limits.elements }
    requires page { i < layout.area_pages layout_in_use (sizes_of limits) }
    requires area { length area.old ≡ layout.area_bytes layout_in_use (sizes_of limits) }
    ensures page { IsAreaPage (sizes_of limits) memory.now.records i (record_at page_bytes area.new i) }
    ensures others { (k : ℕ) → k < layout.area_pages layout_in_use (sizes_of limits) → k ≢ i
        → record_at page_bytes area.new k ≡ record_at page_bytes area.old k }
{
    let mut page = [0; PAGE];
    encode_page(memory, limits, i, &mut page);
    put_page(area, i, &page);
}

/// Makes all pages of an area that shows a memory. It takes no memory.
pub fn encode(memory: &Memory, limits: Limits, area: &mut [u8])
    requires cells { length memory.now.contents.cells ≡ limits.cells }
    requires elements { length memory.now.contents.windows ≡ limits.elements }
    requires area { length area.old ≡ layout.area_bytes layout_in_use (sizes_of limits) }
    ensures { Shows layout_in_use (sizes_of limits) area.new memory.now.contents }
{
    let _records = memory.records();
    for i in 0..area_pages(limits) {
        encode_into(memory, limits, i, area);
    }
}

/// The pages that [`encode_page`] makes of a memory's records show the memory when they are joined.
pub fn pages_show_the_memory()
    ensures { (s : Sizes) (r : Records) (m : Contents) (page : ℕ → List ℕ) → AreCounted s r → ShowsRecords s r m
        → AreAreaPages s r page → Shows layout_in_use s (joined (layout.area_pages layout_in_use s) page) m }
{}

/// An area shows a memory if its pages have the memory's records.
pub fn areas_show_the_memory()
    ensures { (s : Sizes) (r : Records) (m : Contents) (area : List ℕ) → AreCounted s r → ShowsRecords s r m
        → HasAreaPages s r area → Shows layout_in_use s area m }
{}

/// A page has the same bytes as before if none of its records changed.
pub fn pages_outside_stay()
    ensures { (s : Sizes) (old new : Records) (page : ℕ) → AgreeOnPage s.cells s.elements old new page
        → SameOn s old new page }
{}
