// The rows of records in the parts of an area.
ghost use Rattle.std.specs.Prelude.{◌≡◌, ℕ, ◌+◌, ◌*◌, ◌≤◌, ◌⊎◌, List, length, take, IfSome, IfOk, IfErr, OnOk, Some};
ghost use Rattle.std.specs.Prelude.{IsErrOf};
ghost use Rattle.im_types.specs.Types.{CellRecord as CellRecordSpec, NodeRecord as NodeRecordSpec, cell_bytes};
ghost use Rattle.im_types.specs.Types.{node_bytes, FitsCell, FitsNode};
ghost use Rattle.im_records.specs.Rows.{AreCells, AreNodes, BeginWithCells, BeginWithNodes, FillsUp, LeadsOn};
ghost use Rattle.im_records.specs.Rows.{NoneFillsUp, Spells, StandsAt};

use crate::bounds::{are_zero, fits_cell, fits_node};
use crate::read::{read_cell, read_node};
use im_cell::CellRow;
use im_types::layout::{CELL_RECORD, NODE_RECORD};
use im_types::{CellRecord, NodeRecord, Refusal};
use std::alloc::Global;

// Returns the record of a cell that these bytes spell, if it is within its bounds.
fn cell_within(cells: u32, nodes: u32, bytes: &[u8]) -> Option<CellRecord>
    ensures found { IfSome result (λ cell. Spells cell_bytes (FitsCell cells nodes) bytes.now cell) }
    ensures only { (cell : CellRecordSpec) → Spells cell_bytes (FitsCell cells nodes) bytes.now cell
        → result ≡ Some cell }
{
    let cell = read_cell(bytes)?;
    if fits_cell(cells, nodes, cell) {
        Some(cell)
    } else {
        None
    }
}

/// Reads `count` records of a piece of the cells' part and puts them behind the earlier ones. Returns `BadPage` if one
/// of them isn't spelled as it should be or isn't within its bounds. Returns `NoMemory` if the row gets no room for it.
/// Then the records before it may stand in the row.
pub(crate) fn push_cells(
    row: &mut CellRow,
    count: usize,
    cells: u32,
    nodes: u32,
    piece: &[u8],
) -> Result<(), Refusal>
    requires few { length row.old + count ≤ cells }
    requires inside { CELL_RECORD * count ≤ length piece.now }
    ensures found { OnOk result
        (LeadsOn cells nodes count (CELL_RECORD * length row.old) piece.now row.old row.new) }
    ensures count { OnOk result (length row.new ≡ length row.old + count) }
    ensures bad { IsErrOf result Refusal.BadPage → (area : List ℕ) (all : List CellRecordSpec)
        → StandsAt (CELL_RECORD * length row.old) piece.now area → BeginWithCells cells cells nodes area all → ⊥ }
    ensures only { IfErr result (λ e. (e ≡ Refusal.BadPage) ⊎ (e ≡ Refusal.NoMemory)) }
{
    for i in 0..count {
        let Some(cell) = cell_within(
            cells,
            nodes,
            &piece[CELL_RECORD * i..CELL_RECORD * i + CELL_RECORD],
        ) else {
            return Err(Refusal::BadPage);
        };
        if let Err(_) = row.push(cell) {
            return Err(Refusal::NoMemory);
        }
    }
    Ok(())
}

/// Reads the remaining cells of an area. The first ones are in the row; `part` is what is left of the cells' part.
/// Returns `BadPage` if a remaining record isn't spelled as it should be or isn't within its bounds, or if a byte
/// behind the records isn't zero.
pub(crate) fn rest_of_cells(
    row: CellRow,
    cells: u32,
    nodes: u32,
    part: &[u8],
) -> Result<CellRow, Refusal>
    requires few { length row ≤ cells }
    requires inside { CELL_RECORD * cells ≤ CELL_RECORD * length row + length part.now }
    ensures found { IfOk result
        (λ all. FillsUp cells nodes (CELL_RECORD * length row) (length part.now) part.now row all) }
    ensures bad { IsErrOf result Refusal.BadPage
        → NoneFillsUp cells nodes (CELL_RECORD * length row) (length part.now) part.now }
    ensures only { IfErr result (λ e. (e ≡ Refusal.BadPage) ⊎ (e ≡ Refusal.NoMemory)) }
{
    let left = cells as usize - row.len();
    if !are_zero(&part[CELL_RECORD * left..]) {
        return Err(Refusal::BadPage);
    }
    let mut row = row;
    match push_cells(&mut row, left, cells, nodes, part) {
        Ok(()) => Ok(row),
        Err(refusal) => Err(refusal),
    }
}

// Returns the waiter node that these bytes spell, if it is within its bounds.
fn node_within(nodes: u32, bytes: &[u8]) -> Option<NodeRecord>
    ensures found { IfSome result (λ node. Spells node_bytes (FitsNode nodes) bytes.now node) }
    ensures only { (node : NodeRecordSpec) → Spells node_bytes (FitsNode nodes) bytes.now node → result ≡ Some node }
{
    let node = read_node(bytes)?;
    if fits_node(nodes, node) {
        Some(node)
    } else {
        None
    }
}

fn first_nodes(alloc: Global, nodes: u32, bytes: &[u8]) -> Result<Vec<NodeRecord>, Refusal>
    requires { NODE_RECORD * nodes ≤ length bytes.now }
    ensures found { IfOk result (λ row. BeginWithNodes nodes nodes bytes.now row.items) }
    ensures bad { IsErrOf result Refusal.BadPage → (row : List NodeRecordSpec)
        → BeginWithNodes nodes nodes bytes.now row → ⊥ }
    ensures only { IfErr result (λ e. (e ≡ Refusal.BadPage) ⊎ (e ≡ Refusal.NoMemory)) }
{
    let Ok(mut row) = Vec::with_capacity(alloc, nodes as usize) else {
        return Err(Refusal::NoMemory);
    };
    for i in 0..nodes as usize {
        let Some(node) = node_within(
            nodes,
            &bytes[NODE_RECORD * i..NODE_RECORD * i + NODE_RECORD],
        ) else {
            return Err(Refusal::BadPage);
        };
        if let Err(_) = row.push(node) {
            return Err(Refusal::NoMemory);
        }
    }
    Ok(row)
}

/// Reads the waiter nodes of their part of an area. Returns `BadPage` if a node isn't spelled as it should be, its link
/// is out of range, or a byte behind the nodes isn't zero. Returns `NoMemory` if there is no room for them.
pub(crate) fn read_nodes(alloc: Global, nodes: u32, part: &[u8]) -> Result<Vec<NodeRecord>, Refusal>
    requires { NODE_RECORD * nodes ≤ length part.now }
    ensures found { IfOk result (λ row. AreNodes nodes part.now row.items) }
    ensures bad { IsErrOf result Refusal.BadPage → (row : List NodeRecordSpec) → AreNodes nodes part.now row → ⊥ }
    ensures only { IfErr result (λ e. (e ≡ Refusal.BadPage) ⊎ (e ≡ Refusal.NoMemory)) }
{
    if !are_zero(&part[NODE_RECORD * nodes as usize..]) {
        return Err(Refusal::BadPage);
    }
    first_nodes(alloc, nodes, part)
}
