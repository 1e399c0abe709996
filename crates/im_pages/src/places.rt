//! The page of an area that shows a record. The pages of cells come first, then those of waiter nodes, then those of
//! sessions.
ghost use Rattle.std.specs.Prelude.{◌≡◌, ◌*◌};
ghost use Rattle.im_types.specs.Types.{layout_in_use, cell_record_bytes, node_record_bytes, pages_for};
ghost use Rattle.im_pages.specs.Places as definition;

use im_types::WINDOW;
use im_types::layout::{CELLS_ON_A_PAGE, NODES_ON_A_PAGE, SESSIONS_ON_A_PAGE};

// Returns the number of pages for this number of cells.
fn pages_of_cells(cells: u32) -> usize
    ensures { result ≡ pages_for cell_record_bytes cells }
{
    (cells as usize + CELLS_ON_A_PAGE - 1) / CELLS_ON_A_PAGE
}

// Returns the number of pages for the waiter nodes of this number of elements.
fn pages_of_nodes(elements: u16) -> usize
    ensures { result ≡ pages_for node_record_bytes (layout_in_use.window * elements) }
{
    (WINDOW as usize * elements as usize + NODES_ON_A_PAGE - 1) / NODES_ON_A_PAGE
}

/// Returns the page that shows the cell at an address.
pub fn page_of_cell(a: u32) -> usize
    ensures { result ≡ definition.page_of_cell a }
{
    a as usize / CELLS_ON_A_PAGE
}

/// Returns the page that shows a waiter node, in an area with the given number of cells.
pub fn page_of_node(cells: u32, n: u32) -> usize
    ensures { result ≡ definition.page_of_node cells n }
{
    pages_of_cells(cells) + n as usize / NODES_ON_A_PAGE
}

/// Returns the page that shows an element's session, in an area with the given numbers of cells and elements.
pub fn page_of_session(cells: u32, elements: u16, element: u16) -> usize
    ensures { result ≡ definition.page_of_session cells elements element }
{
    pages_of_cells(cells) + pages_of_nodes(elements) + element as usize / SESSIONS_ON_A_PAGE
}
