//! The records of a whole area.
ghost use Rattle.std.specs.Prelude.{◌≡◌, ℕ, ◌+◌, ◌*◌, ◌/◌, ◌≤◌, ◌⊎◌, List, length, IfOk, IfErr, OnOk, IsErrOf};
ghost use Rattle.im_types.specs.Types.{Window, layout_of, sizes_of, NodeRecord as NodeRecordSpec, Records, SpellsArea};
ghost use Rattle.im_records.specs.Rows.{AreNodes, AreSessions, CarriesOn, CompleteCells, NoneCompletes, NoneSpells};
ghost use Rattle.im_records.specs.Rows.{SpellsBehind, StandsAt};
ghost use Rattle.im_types.specs.Layout as layout;

use crate::rows::{push_cells, read_nodes, rest_of_cells};
use crate::session::read_sessions;
use crate::window::WindowRecord;
use im_cell::CellRow;
use im_types::layout::{CELL_RECORD, Version, cell_bytes};
use im_types::{Limits, NodeRecord, Refusal};
use std::alloc::Global;
use std::marker::Model;

/// The records of an area: each cell by its address, each waiter node by its number, and each element's window. The
/// cells lie in memory that a table of them can take over.
#[derive(Drop)]
pub struct AreaRecords {
    cells: CellRow,
    nodes: Vec<NodeRecord>,
    windows: Vec<WindowRecord>,
}

impl Model for AreaRecords {
    ghost use Rattle.im_types.specs.Types.{Records};

    ghost Value = { Records };

    ghost view = { λ a. record { cells = a.cells; nodes = a.nodes.items; windows = a.windows.items } };
}

impl AreaRecords {
    /// The cells, by their addresses.
    pub fn cells(&self) -> &CellRow
        ensures { result.now ≡ self.now.cells }
    {
        &self.cells
    }

    /// The waiter nodes, by their numbers.
    pub fn nodes(&self) -> &[NodeRecord]
        ensures { result.now ≡ self.now.nodes }
    {
        &self.nodes
    }

    /// The windows, by their elements.
    pub fn windows(&self) -> &[WindowRecord]
        ensures { result.now ≡ self.now.windows }
    {
        &self.windows
    }

    /// Returns only the cells and the windows, and frees the nodes.
    pub fn into_parts(self) -> (CellRow, Vec<WindowRecord>)
        ensures cells { result.0 ≡ self.cells }
        ensures windows { result.1.items ≡ self.windows }
    {
        let AreaRecords { cells, windows, .. } = self;
        (cells, windows)
    }
}

/// Reads the cells of the next piece of an area and puts them behind the earlier ones: all cells whose record lies
/// whole in the piece. The row has the area's first cells, and the piece begins with the next cell's record.
///
/// Returns `BadPage` if a record in the piece isn't spelled as it should be or isn't within its bounds. Then no area
/// with this piece there spells records. Returns `NoMemory` if the row needs room for a cell and gets none. After
/// either, some cells of the piece may stand in the row. The time is proportional to the bytes.
pub fn read_more_cells(
    cells: &mut CellRow,
    version: Version,
    limits: Limits,
    piece: &[u8],
) -> Result<(), Refusal>
    requires { length cells.old + length piece.now / CELL_RECORD ≤ limits.cells }
    ensures found { OnOk result (CarriesOn (layout_of version) (sizes_of limits) (CELL_RECORD * length cells.old)
        piece.now cells.old cells.new) }
    ensures count { OnOk result (length cells.new ≡ length cells.old + length piece.now / CELL_RECORD) }
    ensures bad { IsErrOf result Refusal.BadPage → (area : List ℕ) (r : Records)
        → StandsAt (CELL_RECORD * length cells.old) piece.now area
        → SpellsArea (layout_of version) (sizes_of limits) area r → ⊥ }
    ensures only { IfErr result (λ e. (e ≡ Refusal.BadPage) ⊎ (e ≡ Refusal.NoMemory)) }
{
    let nodes = version.node_count(limits) as u32;
    push_cells(cells, piece.len() / CELL_RECORD, limits.cells, nodes, piece)
}

fn cells_of(
    version: Version,
    limits: Limits,
    cells: CellRow,
    part: &[u8],
) -> Result<CellRow, Refusal>
    requires few { length cells ≤ limits.cells }
    requires part { CELL_RECORD * length cells + length part.now
        ≡ layout.page_bytes * layout.cell_pages (sizes_of limits) }
    ensures found { IfOk result (λ row. CompleteCells (layout_of version) (sizes_of limits) part.now cells row) }
    ensures bad { IsErrOf result Refusal.BadPage → NoneCompletes (layout_of version) (sizes_of limits) part.now cells }
    ensures only { IfErr result (λ e. (e ≡ Refusal.BadPage) ⊎ (e ≡ Refusal.NoMemory)) }
{
    rest_of_cells(cells, limits.cells, version.node_count(limits) as u32, part)
}

fn nodes_of(
    alloc: Global,
    version: Version,
    limits: Limits,
    part: &[u8],
) -> Result<Vec<NodeRecord>, Refusal>
    requires { length part.now ≡ layout.page_bytes * layout.node_pages (layout_of version) (sizes_of limits) }
    ensures found { IfOk result (λ row. AreNodes
        (layout.node_count (layout_of version) (sizes_of limits)) part.now row.items) }
    ensures bad { IsErrOf result Refusal.BadPage → (row : List NodeRecordSpec)
        → AreNodes (layout.node_count (layout_of version) (sizes_of limits)) part.now row → ⊥ }
    ensures only { IfErr result (λ e. (e ≡ Refusal.BadPage) ⊎ (e ≡ Refusal.NoMemory)) }
{
    read_nodes(alloc, version.node_count(limits) as u32, part)
}

fn windows_of(
    alloc: Global,
    version: Version,
    limits: Limits,
    part: &[u8],
) -> Result<Vec<WindowRecord>, Refusal>
    requires { length part.now ≡ layout.page_bytes * layout.session_pages (layout_of version) (sizes_of limits) }
    ensures found { IfOk result (λ row. AreSessions (layout_of version) limits.elements part.now row.items) }
    ensures bad { IsErrOf result Refusal.BadPage → (row : List Window)
        → AreSessions (layout_of version) limits.elements part.now row → ⊥ }
    ensures only { IfErr result (λ e. (e ≡ Refusal.BadPage) ⊎ (e ≡ Refusal.NoMemory)) }
{
    read_sessions(alloc, version, limits.elements, part)
}

/// Reads the records of an area of a version. The first cells, none or more, were read before ([`read_more_cells`]);
/// `rest` is the bytes behind them. Returns `BadPage` only if no area with these bytes at its end spells records: a
/// record isn't spelled as it should be, a number isn't within its bounds, or a byte behind the last record of a kind
/// isn't zero. Returns `NoMemory` if there is no room for the records.
///
/// The time is proportional to the bytes. This doesn't check which memory the records show: links may lead anywhere
/// within their range.
pub fn read_rest_of_area(
    alloc: Global,
    version: Version,
    limits: Limits,
    cells: CellRow,
    rest: &[u8],
) -> Result<AreaRecords, Refusal>
    requires few { length cells ≤ limits.cells }
    requires length { CELL_RECORD * length cells + length rest.now
        ≡ layout.area_bytes (layout_of version) (sizes_of limits) }
    ensures found { IfOk result (λ r. SpellsBehind (layout_of version) (sizes_of limits) cells rest.now r) }
    ensures count { IfOk result (λ r. length r.nodes ≡ layout.node_count (layout_of version) (sizes_of limits)) }
    ensures bad { IsErrOf result Refusal.BadPage → NoneSpells (layout_of version) (sizes_of limits) cells rest.now }
    ensures only { IfErr result (λ e. (e ≡ Refusal.BadPage) ⊎ (e ≡ Refusal.NoMemory)) }
{
    let at = cell_bytes(limits) - CELL_RECORD * cells.len();
    let behind_cells = &rest[at..];
    let cells = match cells_of(version, limits, cells, &rest[..at]) {
        Ok(row) => row,
        Err(refusal) => return Err(refusal),
    };
    let nodes = match nodes_of(
        alloc,
        version,
        limits,
        &behind_cells[..version.node_bytes(limits)],
    ) {
        Ok(row) => row,
        Err(refusal) => return Err(refusal),
    };
    let sessions = &rest[at + version.node_bytes(limits)..];
    match windows_of(alloc, version, limits, sessions) {
        Ok(windows) => Ok(AreaRecords {
            cells,
            nodes,
            windows,
        }),
        Err(refusal) => Err(refusal),
    }
}

/// Reads the records that the bytes of an area of a version spell. Returns `BadPage` only if they spell none: a record
/// isn't spelled as it should be, a number isn't within its bounds, or a byte behind the last record of a kind isn't
/// zero. Returns `NoMemory` if there is no room for the records.
///
/// The time is proportional to the bytes. This doesn't check which memory the records show: links may lead anywhere
/// within their range.
pub fn read_area(
    alloc: Global,
    version: Version,
    area: &[u8],
    limits: Limits,
) -> Result<AreaRecords, Refusal>
    requires { length area.now ≡ layout.area_bytes (layout_of version) (sizes_of limits) }
    ensures found { IfOk result (λ r. SpellsArea (layout_of version) (sizes_of limits) area.now r) }
    ensures bad { IsErrOf result Refusal.BadPage → (r : Records)
        → SpellsArea (layout_of version) (sizes_of limits) area.now r
        → ⊥ }
    ensures only { IfErr result (λ e. (e ≡ Refusal.BadPage) ⊎ (e ≡ Refusal.NoMemory)) }
{
    match CellRow::with_capacity(alloc, limits.cells as usize) {
        Ok(cells) => read_rest_of_area(alloc, version, limits, cells, area),
        Err(_) => Err(Refusal::NoMemory),
    }
}
