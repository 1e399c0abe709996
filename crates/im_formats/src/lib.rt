//! Laws of the bytes of an image. The spelling of a header, a cell, a waiter node or a kept entry reads back as what
//! was spelled. No other bytes read as the same.
//!
//! Each law is the contract of a function that does nothing. The spellings are definitions of `im_types`.
#![tactic(auto)]

ghost use Rattle.std.specs.Prelude.{◌≡◌, ℕ, ◌^◌, ◌<◌, ◌≤◌, true, List, ◌∷◌, slice_range, Some, Option};
ghost use Rattle.im_types.specs.Types.{Kept, Window, Version, Layout, layout_of, Header, header_body, header_in};
ghost use Rattle.im_types.specs.Types.{is_header, spells_header, CellRecord, NodeRecord, cell_bytes, node_bytes};
ghost use Rattle.im_types.specs.Types.{FitsCell, FitsNode, place_bytes, FitsPlace, session_bytes, FitsWindow};
ghost use Rattle.im_formats.specs.{Fitting.FitsHeader, Reading.read_cell, Reading.read_node, Reading.read_place};

/// The fields of a header read back, whatever its gate is.
pub fn headers_read_back()
    ensures { (gate : ℕ) (h : Header) → FitsHeader h → header_in (gate ∷ header_body h) ≡ h }
{}

/// The spelling of a header that can stand in an area is taken as the header of that area.
pub fn headers_are_taken()
    ensures { (l : Layout) (area gate : ℕ) (h : Header) → FitsHeader h → is_header l area h ≡ true
        → spells_header l area (gate ∷ header_body h) ≡ true }
{}

/// Bytes that spell the header of an area are the spelling of their fields.
pub fn headers_read_nothing_else()
    ensures { (l : Layout) (area : ℕ) (bytes : List ℕ) → spells_header l area bytes ≡ true
        → slice_range bytes 1 64 ≡ header_body (header_in bytes) }
{}

/// A place of a session record reads back as the place that was spelled.
pub fn places_read_back()
    ensures { (place : Option Kept) → FitsPlace place → read_place (place_bytes place) ≡ Some place }
{}

/// Bytes that read as a place of a session record are that place's spelling.
pub fn places_read_nothing_else()
    ensures { (bytes : List ℕ) (place : Option Kept) → read_place bytes ≡ Some place → bytes ≡ place_bytes place }
{}

/// The record of a cell reads back as the record that was spelled.
pub fn cells_read_back()
    ensures { (cells nodes : ℕ) (cell : CellRecord) → cells < 2 ^ 32 → nodes ≤ 2 ^ 32 → FitsCell cells nodes cell
        → read_cell (cell_bytes cell) ≡ Some cell }
{}

/// Bytes that read as the record of a cell are its spelling.
pub fn cells_read_nothing_else()
    ensures { (bytes : List ℕ) (cell : CellRecord) → read_cell bytes ≡ Some cell → bytes ≡ cell_bytes cell }
{}

/// A waiter node reads back as the node that was spelled.
pub fn nodes_read_back()
    ensures { (nodes : ℕ) (node : NodeRecord) → nodes ≤ 2 ^ 32 → FitsNode nodes node
        → read_node (node_bytes node) ≡ Some node }
{}

/// Bytes that read as a waiter node are its spelling.
pub fn nodes_read_nothing_else()
    ensures { (bytes : List ℕ) (node : NodeRecord) → read_node bytes ≡ Some node → bytes ≡ node_bytes node }
{}

/// A session record of either version is the spelling of one window alone.
pub fn sessions_are_spelled_by_one_window()
    ensures { (version : Version) (w v : Window) → FitsWindow (layout_of version) w → FitsWindow (layout_of version) v
        → session_bytes (layout_of version) w ≡ session_bytes (layout_of version) v → w ≡ v }
{}
