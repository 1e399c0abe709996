//! What is wrong with the bytes of an area, or with the slots behind it. [`crate::find_damage`] asks it of what it has
//! read.

use crate::damage::{Damage, RecordOf};
use crate::records::{bad_block, bad_cell, bad_list, bad_node, bad_padding, bad_window};
use crate::slots::of_journal;
use im_image::{Header, PAGE, cell_pages, decode};
use im_records::{CELLS_ON_A_PAGE, NODES_ON_A_PAGE, read_area};
use im_types::Limits;
use im_types::layout::{CELL_RECORD, NODE_RECORD, Version, cell_bytes};
use std::alloc::Global;

/// Returns what is wrong with the slots of a ring, after the memory of this area.
pub(crate) fn of_ring(alloc: Global, area: &[u8], ring: &[u8], header: &Header) -> Damage {
    let (version, limits) = (header.layout(), header.limits);
    if area.len() != PAGE * version.area_pages(limits) {
        return Damage::Unknown;
    }
    match decode(alloc, version, area, limits) {
        Ok(mut memory) => of_journal(ring, &mut memory, limits.slots, header.count),
        Err(_) => Damage::Unknown,
    }
}

// What is wrong with a part of an area that begins at this page: a record some pages behind it, or else a byte behind
// the records.
fn of_part(
    page: usize,
    record: Option<(usize, RecordOf)>,
    padding: Option<usize>,
) -> Option<Damage> {
    if let Some((behind, of)) = record {
        return Some(Damage::Record(page.saturating_add(behind), of));
    }
    Some(Damage::Padding(page.saturating_add(padding?)))
}

// What is wrong with the cells' part.
fn of_cells(version: Version, part: &[u8], limits: Limits) -> Option<Damage> {
    let cells = limits.cells as usize;
    let bad = bad_cell(part, cells, version.node_count(limits));
    let record = bad.map(|at| (at / CELLS_ON_A_PAGE, RecordOf::Cell(at)));
    of_part(0, record, bad_padding(part, CELL_RECORD * cells))
}

// What is wrong with the nodes' part.
fn of_nodes(version: Version, part: &[u8], limits: Limits) -> Option<Damage> {
    let nodes = version.node_count(limits);
    let record = bad_node(part, nodes).map(|at| (at / NODES_ON_A_PAGE, RecordOf::Node(at)));
    of_part(
        cell_pages(limits),
        record,
        bad_padding(part, NODE_RECORD * nodes),
    )
}

// What is wrong with the windows' part.
fn of_windows(version: Version, part: &[u8], limits: Limits) -> Option<Damage> {
    let elements = limits.elements as usize;
    let page = cell_pages(limits).saturating_add(version.node_pages(limits));
    let size = version.session_record();
    let record = bad_window(version, part, elements).map(|at| (
        size.saturating_mul(at) / PAGE,
        RecordOf::Window(at),
    ));
    of_part(page, record, bad_padding(part, size * elements))
}

// What is wrong with the records of an area, each by itself.
fn of_records(version: Version, area: &[u8], limits: Limits) -> Option<Damage> {
    let (cells, behind) = area.split_at_checked(cell_bytes(limits))?;
    let (nodes, windows) = behind.split_at_checked(version.node_bytes(limits))?;
    if let Some(damage) = of_cells(version, cells, limits) {
        return Some(damage);
    }
    if let Some(damage) = of_nodes(version, nodes, limits) {
        return Some(damage);
    }
    of_windows(version, windows, limits)
}

/// Returns what is wrong with an area that shows no memory.
pub(crate) fn of_area(alloc: Global, version: Version, area: &[u8], limits: Limits) -> Damage {
    if let Some(damage) = of_records(version, area, limits) {
        return damage;
    }
    if area.len() != PAGE * version.area_pages(limits) {
        return Damage::Unknown;
    }
    let Ok(records) = read_area(alloc, version, area, limits) else {
        return Damage::Unknown;
    };
    if let Some(at) = bad_block(records.cells()) {
        return Damage::Blocks(at / CELLS_ON_A_PAGE, at);
    }
    match bad_list(records.cells(), records.nodes()) {
        Some(at) => Damage::List(at / CELLS_ON_A_PAGE, at),
        None => Damage::Waiters,
    }
}
