//! The first bad record of an area, of each kind, and the first cell that doesn't agree with others. The search of an
//! area asks for them. They are only tested.

use im_cell::CellRow;
use im_image::PAGE;
use im_records::{read_cell, read_node, read_session};
use im_types::layout::{CELL_RECORD, NODE_RECORD, Version};
use im_types::{Block, CellRecord, NONE, NodeRecord, PresenceTag};

// Whether a link leads to one of so many records, or nowhere.
fn is_link(count: usize, link: u32) -> bool {
    link == NONE || (link as usize) < count
}

// Returns whether a cell's record is within its bounds: its hole or its block, and its links.
fn leads(cell: CellRecord, cells: usize, nodes: usize) -> bool {
    match cell {
        CellRecord::Free { hole, next } => hole as usize <= cells && is_link(cells, next),
        CellRecord::Held { block, tag } => {
            let is_whole = block.base as u64 + block.length as u64 <= cells as u64;
            match tag {
                PresenceTag::Waiting { first, last } => {
                    is_whole && (first as usize) < nodes && (last as usize) < nodes
                }
                _ => is_whole,
            }
        }
    }
}

fn is_cell(bytes: &[u8], cells: usize, nodes: usize) -> bool {
    match read_cell(bytes) {
        Some(cell) => leads(cell, cells, nodes),
        None => false,
    }
}

fn is_node(bytes: &[u8], nodes: usize) -> bool {
    match read_node(bytes) {
        Some(NodeRecord::Free { next }) | Some(NodeRecord::Listed { next, .. }) => {
            is_link(nodes, next)
        }
        None => false,
    }
}

/// Returns the first cell of this part of an area whose record isn't spelled as it should be, or leads past the last
/// record.
pub fn bad_cell(part: &[u8], cells: usize, nodes: usize) -> Option<usize> {
    for (at, bytes) in part.chunks(CELL_RECORD).enumerate() {
        if at < cells && !is_cell(bytes, cells, nodes) {
            return Some(at);
        }
    }
    None
}

/// Returns the first waiter node of this part whose record isn't spelled as it should be, or leads past the last
/// record.
pub fn bad_node(part: &[u8], nodes: usize) -> Option<usize> {
    for (at, bytes) in part.chunks(NODE_RECORD).enumerate() {
        if at < nodes && !is_node(bytes, nodes) {
            return Some(at);
        }
    }
    None
}

/// Returns the first element of this part whose window isn't spelled as it should be.
pub fn bad_window(version: Version, part: &[u8], elements: usize) -> Option<usize> {
    for (at, bytes) in part.chunks(version.session_record()).enumerate() {
        if at < elements && read_session(version, bytes).is_none() {
            return Some(at);
        }
    }
    None
}

/// Returns the page of this part with the first nonzero byte behind `records` bytes of records.
pub fn bad_padding(part: &[u8], records: usize) -> Option<usize> {
    for (at, byte) in part.iter().enumerate() {
        if at >= records && *byte != 0 {
            return Some(at / PAGE);
        }
    }
    None
}

// The block of a cell, if it lies in one.
fn block_of(cell: CellRecord) -> Option<Block> {
    match cell {
        CellRecord::Held { block, .. } => Some(block),
        CellRecord::Free { .. } => None,
    }
}

// Returns whether the cell at an address lies in this block.
fn is_within(block: Block, address: usize) -> bool {
    let base = block.base as usize;
    base <= address && address - base < block.length as usize
}

/// Returns the first cell that isn't in the block named by its record or by its neighbour's.
pub fn bad_block(cells: &CellRow) -> Option<usize> {
    let mut current: Option<Block> = None;
    for address in 0..cells.len() {
        let wanted = match current {
            Some(block) if is_within(block, address) => Some(block),
            _ => None,
        };
        let found = block_of(cells.at(address));
        let begins = match found {
            Some(block) => wanted.is_none() && block.base as usize == address && block.length > 0,
            None => false,
        };
        if found != wanted && !begins {
            return Some(address);
        }
        current = found;
    }
    None
}

// Returns whether the list from the first node ends in the last one and leads nowhere else.
fn is_list(nodes: &[NodeRecord], first: u32, last: u32) -> bool {
    let mut at = first;
    for _node in nodes {
        match nodes.get(at as usize) {
            Some(NodeRecord::Listed { next, .. }) => {
                if at == last {
                    return *next == NONE;
                }
                at = *next;
            }
            _ => return false,
        }
    }
    false
}

/// Returns the first cell whose list of waiters leads astray.
pub fn bad_list(cells: &CellRow, nodes: &[NodeRecord]) -> Option<usize> {
    for address in 0..cells.len() {
        if let CellRecord::Held {
            tag: PresenceTag::Waiting { first, last },
            ..
        } = cells.at(address)
        {
            if !is_list(nodes, first, last) {
                return Some(address);
            }
        }
    }
    None
}
