//! Makes a page of an area, record by record.
//!
//! Page i of an area's cells has the cells from [`CELLS_ON_A_PAGE`] * i on. Page i of its waiter nodes has the nodes
//! from [`NODES_ON_A_PAGE`] * i on. Page i of its sessions has the elements from [`SESSIONS_ON_A_PAGE`] * i on. Making
//! a page puts each record at its place, and zeros in the places without a record.
ghost use Rattle.std.specs.Prelude.{◌≡◌, ℕ, ◌<◌, ◌≢◌, option_map};
ghost use Rattle.im_types.specs.Types.{layout_in_use, record_at, cell_bytes, node_bytes, session_bytes};
ghost use Rattle.im_records.specs.Paging.{bytes_or_zeros};

use crate::put::put;
use crate::session::spell_session;
use crate::spell::{spell_cell, spell_node};
use crate::window::WindowRecord;
use im_types::layout::{
    CELL_RECORD, CELLS_ON_A_PAGE, NODE_RECORD, NODES_ON_A_PAGE, PAGE, SESSION_RECORD,
    SESSIONS_ON_A_PAGE,
};
use im_types::{CellRecord, NodeRecord};

fn cell_or_zeros(cell: Option<CellRecord>) -> [u8; CELL_RECORD]
    ensures { result ≡ bytes_or_zeros CELL_RECORD cell_bytes cell }
{
    match cell {
        Some(cell) => spell_cell(&cell),
        None => [0; CELL_RECORD],
    }
}

/// Puts the record of a cell at a place of a page of cells, or zeros for `None`. All else on the page stays.
pub fn put_cell(page: &mut [u8; PAGE], place: usize, cell: Option<CellRecord>)
    requires { place < CELLS_ON_A_PAGE }
    ensures here { record_at CELL_RECORD page.new place ≡ bytes_or_zeros CELL_RECORD cell_bytes cell }
    ensures others { (k : ℕ) → k < CELLS_ON_A_PAGE → k ≢ place
        → record_at CELL_RECORD page.new k ≡ record_at CELL_RECORD page.old k }
{
    put(page, CELL_RECORD * place, &cell_or_zeros(cell));
}

fn node_or_zeros(node: Option<NodeRecord>) -> [u8; NODE_RECORD]
    ensures { result ≡ bytes_or_zeros NODE_RECORD node_bytes node }
{
    match node {
        Some(node) => spell_node(&node),
        None => [0; NODE_RECORD],
    }
}

/// Puts a waiter node at a place of a page of waiter nodes, or zeros for `None`. All else on the page stays.
pub fn put_node(page: &mut [u8; PAGE], place: usize, node: Option<NodeRecord>)
    requires { place < NODES_ON_A_PAGE }
    ensures here { record_at NODE_RECORD page.new place ≡ bytes_or_zeros NODE_RECORD node_bytes node }
    ensures others { (k : ℕ) → k < NODES_ON_A_PAGE → k ≢ place
        → record_at NODE_RECORD page.new k ≡ record_at NODE_RECORD page.old k }
{
    put(page, NODE_RECORD * place, &node_or_zeros(node));
}

fn session_or_zeros(window: Option<&WindowRecord>) -> [u8; SESSION_RECORD]
    ensures { result ≡ bytes_or_zeros SESSION_RECORD (session_bytes layout_in_use)
        (option_map (λ w. w.now) window.entry) }
{
    match window {
        Some(window) => spell_session(window),
        None => [0; SESSION_RECORD],
    }
}

/// Puts the session record of a window at a place of a page of sessions, or zeros for `None`. All else on the page
/// stays.
pub fn put_session(page: &mut [u8; PAGE], place: usize, window: Option<&WindowRecord>)
    requires { place < SESSIONS_ON_A_PAGE }
    ensures here { record_at SESSION_RECORD page.new place
        ≡ bytes_or_zeros SESSION_RECORD (session_bytes layout_in_use) (option_map (λ w. w.now) window.entry) }
    ensures others { (k : ℕ) → k < SESSIONS_ON_A_PAGE → k ≢ place
        → record_at SESSION_RECORD page.new k ≡ record_at SESSION_RECORD page.old k }
{
    put(page, SESSION_RECORD * place, &session_or_zeros(window));
}
