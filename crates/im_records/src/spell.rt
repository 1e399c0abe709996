//! Spells the records of an area. All numbers are little endian, and bytes outside the fields are zero.
ghost use Rattle.std.specs.Prelude.{◌≡◌};
ghost use Rattle.im_types.specs.Types.{cell_bytes, node_bytes, place_bytes};

use crate::fields::{entry_code, entry_number, kind_code, tag_code, tag_ends, tag_value};
use byteorder::{ByteOrder, LittleEndian};
use im_types::codes::{address_of, op_code, op_value};
use im_types::layout::{CELL_RECORD, NODE_RECORD, PLACE};
use im_types::{CellRecord, Kept, NodeRecord};

/// Returns the bytes of a cell.
pub fn spell_cell(cell: &CellRecord) -> [u8; CELL_RECORD]
    ensures { result ≡ cell_bytes cell.now }
{
    let mut bytes = [0; CELL_RECORD];
    match *cell {
        CellRecord::Free { hole, next } => {
            LittleEndian::write_u32(&mut bytes[4..8], hole);
            LittleEndian::write_u32(&mut bytes[8..12], next);
            bytes[12..20].fill(0xFF);
        }
        CellRecord::Held { block, tag } => {
            let (first, last) = tag_ends(tag);
            bytes[0] = tag_code(tag);
            bytes[1] = kind_code(block.kind);
            LittleEndian::write_u32(&mut bytes[4..8], block.base);
            LittleEndian::write_u32(&mut bytes[8..12], block.length);
            LittleEndian::write_u32(&mut bytes[12..16], first);
            LittleEndian::write_u32(&mut bytes[16..20], last);
            LittleEndian::write_u64(&mut bytes[24..32], tag_value(tag));
        }
    }
    bytes
}

/// Returns the bytes of a waiter node.
pub fn spell_node(node: &NodeRecord) -> [u8; NODE_RECORD]
    ensures { result ≡ node_bytes node.now }
{
    let mut bytes = [0; NODE_RECORD];
    match *node {
        NodeRecord::Free { next } => LittleEndian::write_u32(&mut bytes[0..4], next),
        NodeRecord::Listed { next, waiter } => {
            LittleEndian::write_u32(&mut bytes[0..4], next);
            LittleEndian::write_u16(&mut bytes[4..6], waiter.element);
            bytes[6] = 1;
            LittleEndian::write_u64(&mut bytes[8..16], waiter.number);
        }
    }
    bytes
}

/// Returns the bytes of a place of a session record: a kept entry, or an empty place.
pub fn spell_place(place: Option<Kept>) -> [u8; PLACE]
    ensures { result ≡ place_bytes place }
{
    let mut bytes = [0; PLACE];
    if let Some(kept) = place {
        bytes[0] = op_code(kept.op);
        bytes[2] = entry_code(kept.entry);
        LittleEndian::write_u32(&mut bytes[4..8], address_of(kept.op));
        LittleEndian::write_u64(&mut bytes[8..16], op_value(kept.op));
        LittleEndian::write_u64(&mut bytes[16..24], entry_number(kept.entry));
    }
    bytes
}
