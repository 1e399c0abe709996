//! Reads the area in force.
ghost use Rattle.std.specs.Prelude.{◌≡◌, ◌+◌, ◌*◌, ◌/◌, ◌≤◌, ◌⊎◌, [], length, take, drop, IfOk, OnOk, IsErrOf};
ghost use Rattle.im_types.specs.Types.{Contents, layout_of, sizes_of, area_of, layout_in, Records, IsShown};
ghost use Rattle.im_disk.specs.Runs.{ReadsOrFails, ReadsOrRefuses};
ghost use Rattle.im_image.specs.Headers.{MayRefuseArea, seen};
ghost use Rattle.im_image.specs.Reading.{HasFirstCells, HasHeader, HasRecords, HasSizes, IsAreaOf, StayFirstCells};
ghost use Rattle.im_types.specs.Layout as layout;

use crate::area::show;
use crate::header::Header;
use im_cell::CellRow;
use im_disk::{DeviceFault, Disk};
use im_memory::Memory;
use im_records::{AreaRecords, read_more_cells, read_rest_of_area};
use im_types::layout::{CELL_RECORD, CELLS_ON_A_PAGE, PAGE, Version};
use im_types::{Limits, Refusal};
use std::alloc::{AllocError, Global};

// The cells of 64 pages are read at a time.
const PIECE_CELLS: usize = 64 * CELLS_ON_A_PAGE;

// One of the two areas of an image: by the version of its layout, its limits, and its number.
#[derive(Clone, Copy)]
struct Area {
    version: Version,
    limits: Limits,
    number: u8,
}

// Reads a part of an area, from behind its first `cells` cells on.
fn read_part<D: Disk>(
    disk: &mut D,
    area: Area,
    cells: usize,
    part: &mut [u8],
) -> Result<(), DeviceFault>
    requires area { IsAreaOf (layout_of area.version) (sizes_of area.limits) area.number
        (D.honest disk.old) (D.now disk.old).bytes }
    requires few { cells ≤ area.limits.cells }
    requires inside { CELL_RECORD * cells + length part.old
        ≤ layout.area_bytes (layout_of area.version) (sizes_of area.limits) }
    ensures read { OnOk result (D.honest disk.new
        → part.new ≡ take (length part.old) (drop (CELL_RECORD * cells)
        (area_of (layout_of area.version) (sizes_of area.limits) area.number (D.now disk.old).bytes))) }
    ensures reads { ReadsOrFails D.Disk disk.old disk.new result }
{
    let begin = area.version.area_at(area.limits, area.number as usize);
    // A read changes nothing, so a stop before or within it leaves what was there.
    disk.read(begin + CELL_RECORD * cells, part)
}

fn zeros(alloc: Global, count: usize) -> Result<Vec<u8>, AllocError>
    ensures { IfOk result (λ v. length v.items ≡ count) }
{
    vec![in alloc; 0; count]
}

// The number of pieces of cells that are read one by one. At least one cell is left for the last read.
fn piece_count(limits: Limits) -> usize
    ensures { PIECE_CELLS * result ≤ limits.cells }
{
    (limits.cells as usize - 1) / PIECE_CELLS
}

// Reads a piece of an area's cells, and puts them behind those of earlier pieces.
fn read_piece<D: Disk>(
    disk: &mut D,
    area: Area,
    piece: &mut [u8],
    cells: &mut CellRow,
) -> Result<(), Refusal>
    requires area { IsAreaOf (layout_of area.version) (sizes_of area.limits) area.number
        (D.honest disk.old) (D.now disk.old).bytes }
    requires few { CELL_RECORD * length cells.old + length piece.old ≤ CELL_RECORD * area.limits.cells }
    ensures found { OnOk result (D.honest disk.new
        → StayFirstCells (layout_of area.version) (sizes_of area.limits) area.number
        (D.now disk.old).bytes cells.old cells.new) }
    ensures count { OnOk result (length cells.new ≡ length cells.old + length piece.old / CELL_RECORD) }
    ensures bad { IsErrOf result Refusal.BadPage → D.honest disk.new → (r : Records)
        → HasRecords (layout_of area.version) (sizes_of area.limits) area.number (D.now disk.old).bytes r → ⊥ }
    ensures reads { ReadsOrRefuses D.Disk disk.old disk.new result MayRefuseArea }
{
    match read_part(disk, area, cells.len(), piece) {
        Ok(()) => read_more_cells(cells, area.version, area.limits, piece),
        Err(_) => Err(Refusal::Device),
    }
}

// Reads all pieces of an area's cells, each into the same buffer. Reading all bytes at once would use fresh pages of
// memory, which cost more than the reading.
fn read_pieces<D: Disk>(
    alloc: Global,
    disk: &mut D,
    area: Area,
    cells: &mut CellRow,
) -> Result<(), Refusal>
    requires area { IsAreaOf (layout_of area.version) (sizes_of area.limits) area.number
        (D.honest disk.old) (D.now disk.old).bytes }
    requires none { cells.old ≡ [] }
    ensures found { OnOk result (D.honest disk.new
        → HasFirstCells (layout_of area.version) (sizes_of area.limits) area.number (D.now disk.old).bytes cells.new) }
    ensures few { OnOk result (length cells.new ≤ area.limits.cells) }
    ensures bad { IsErrOf result Refusal.BadPage → D.honest disk.new → (r : Records)
        → HasRecords (layout_of area.version) (sizes_of area.limits) area.number (D.now disk.old).bytes r → ⊥ }
    ensures reads { ReadsOrRefuses D.Disk disk.old disk.new result MayRefuseArea }
{
    let Ok(mut piece) = zeros(alloc, CELL_RECORD * PIECE_CELLS) else {
        return Err(Refusal::NoMemory);
    };
    for i in 0..piece_count(area.limits) {
        let part = piece.as_mut_slice();
        if let Err(refusal) = read_piece(disk, area, part, cells) {
            return Err(refusal);
        }
    }
    Ok(())
}

// The cells of an area's pieces, in a row with room for all cells.
fn first_cells<D: Disk>(alloc: Global, disk: &mut D, area: Area) -> Result<CellRow, Refusal>
    requires area { IsAreaOf (layout_of area.version) (sizes_of area.limits) area.number
        (D.honest disk.old) (D.now disk.old).bytes }
    ensures found { IfOk result (λ cells. D.honest disk.new
        → HasFirstCells (layout_of area.version) (sizes_of area.limits) area.number (D.now disk.old).bytes cells) }
    ensures few { IfOk result (λ cells. length cells ≤ area.limits.cells) }
    ensures bad { IsErrOf result Refusal.BadPage → D.honest disk.new → (r : Records)
        → HasRecords (layout_of area.version) (sizes_of area.limits) area.number (D.now disk.old).bytes r → ⊥ }
    ensures reads { ReadsOrRefuses D.Disk disk.old disk.new result MayRefuseArea }
{
    let Ok(mut cells) = CellRow::with_capacity(alloc, area.limits.cells as usize) else {
        return Err(Refusal::NoMemory);
    };
    if piece_count(area.limits) == 0 {
        return Ok(cells);
    }
    match read_pieces(alloc, disk, area, &mut cells) {
        Ok(()) => Ok(cells),
        Err(refusal) => Err(refusal),
    }
}

// Reads an area from behind its first `cells` cells to its end.
fn read_rest<D: Disk>(
    alloc: Global,
    disk: &mut D,
    area: Area,
    cells: usize,
) -> Result<Vec<u8>, Refusal>
    requires area { IsAreaOf (layout_of area.version) (sizes_of area.limits) area.number
        (D.honest disk.old) (D.now disk.old).bytes }
    requires few { cells ≤ area.limits.cells }
    ensures rest { IfOk result (λ v. D.honest disk.new → v.items ≡ drop (CELL_RECORD * cells)
        (area_of (layout_of area.version) (sizes_of area.limits) area.number (D.now disk.old).bytes)) }
    ensures size { IfOk result (λ v. CELL_RECORD * cells + length v.items
        ≡ layout.area_bytes (layout_of area.version) (sizes_of area.limits)) }
    ensures reads { ReadsOrRefuses D.Disk disk.old disk.new result
        (λ e. (e ≡ Refusal.NoMemory) ⊎ (e ≡ Refusal.Device)) }
{
    let left = PAGE * area.version.area_pages(area.limits) - CELL_RECORD * cells;
    let Ok(mut rest) = zeros(alloc, left) else {
        return Err(Refusal::NoMemory);
    };
    match read_part(disk, area, cells, rest.as_mut_slice()) {
        Ok(()) => Ok(rest),
        Err(_) => Err(Refusal::Device),
    }
}

// The records of an area.
fn read_records<D: Disk>(alloc: Global, disk: &mut D, area: Area) -> Result<AreaRecords, Refusal>
    requires area { IsAreaOf (layout_of area.version) (sizes_of area.limits) area.number
        (D.honest disk.old) (D.now disk.old).bytes }
    ensures found { IfOk result (λ r. D.honest disk.new
        → HasRecords (layout_of area.version) (sizes_of area.limits) area.number (D.now disk.old).bytes r) }
    ensures count { IfOk result (λ r. length r.nodes
        ≡ layout.node_count (layout_of area.version) (sizes_of area.limits)) }
    ensures bad { IsErrOf result Refusal.BadPage → D.honest disk.new → (r : Records)
        → HasRecords (layout_of area.version) (sizes_of area.limits) area.number (D.now disk.old).bytes r → ⊥ }
    ensures reads { ReadsOrRefuses D.Disk disk.old disk.new result MayRefuseArea }
{
    let cells = match first_cells(alloc, disk, area) {
        Ok(cells) => cells,
        Err(refusal) => return Err(refusal),
    };
    match read_rest(alloc, disk, area, cells.len()) {
        Ok(rest) => read_rest_of_area(alloc, area.version, area.limits, cells, &rest),
        Err(refusal) => Err(refusal),
    }
}

/// Returns the memory that the area of a header in force shows. Returns `BadPage` only if it shows none, and `Device`
/// if a read failed.
///
/// It only reads the area. It reads pieces of 8,192 cells, each with one call, while more cells follow, and then the
/// rest with one more call. It takes memory for the records, and for the bytes of a piece (262,144) or of the rest (at
/// most 589,824). It frees those bytes before it makes the memory. Returns `NoMemory` if any of this is refused.
pub fn read_memory<D: Disk>(alloc: Global, disk: &mut D, header: &Header) -> Result<Memory, Refusal>
    requires area { header.now.area ≤ 1 }
    requires sound { D.honest disk.old → HasHeader (seen header.now) (D.now disk.old).bytes }
    ensures shown { IfOk result
        (λ m. D.honest disk.new → IsShown (layout_in (D.now disk.old).bytes) (D.now disk.old).bytes m.contents) }
    ensures sizes { IfOk result (λ m. HasSizes (sizes_of header.now.limits) m.contents) }
    ensures bad { IsErrOf result Refusal.BadPage → D.honest disk.new
        → (m : Contents) → IsShown (layout_in (D.now disk.old).bytes) (D.now disk.old).bytes m → ⊥ }
    ensures reads { ReadsOrRefuses D.Disk disk.old disk.new result MayRefuseArea }
{
    let area = Area {
        version: header.layout(),
        limits: header.limits,
        number: header.area,
    };
    match read_records(alloc, disk, area) {
        Ok(records) => show(alloc, header.limits, records),
        Err(refusal) => Err(refusal),
    }
}
