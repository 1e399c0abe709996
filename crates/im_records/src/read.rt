//! Reads the records of an area. The fields say which record the bytes may be. What is beside the fields of a cell says
//! whether they are; for other records their spelling says it.
ghost use Rattle.std.specs.Prelude.{◌≡◌, ◌+◌, ◌*◌, ◌≤◌, ◌↔◌, length, if◌then◌else◌, IsTrue, Some, None};
ghost use Rattle.im_types.specs.Types.{same_bytes, number_at, node_bytes};
ghost use Rattle.im_formats.specs.Reading.{cell_if, cell_in, kept_of, node_in, place_if, place_in, read_cell};
ghost use Rattle.im_formats.specs.Reading.{read_node, read_place};
ghost use Rattle.im_records.specs.Filled.{AreUnusedZero, FillCell, FillTag};

use crate::fields::{entry_of, kind_of, tag_of};
use crate::spell::{spell_node, spell_place};
use byteorder::{ByteOrder, LittleEndian};
use im_types::codes::op_of;
use im_types::layout::{CELL_RECORD, NODE_RECORD, PLACE};
use im_types::{Block, CellRecord, Entry, Kept, Kind, NodeRecord, Op, PresenceTag, Waiter};

// The record that the fields stand for. It ignores all other bytes.
#[tactic(auto, unfolding(im_formats::specs::Reading::cell_in))]
fn cell_in(bytes: &[u8; CELL_RECORD]) -> Option<CellRecord>
    ensures { result ≡ cell_in bytes.now }
{
    let base = LittleEndian::read_u32(&bytes[4..8]);
    let length = LittleEndian::read_u32(&bytes[8..12]);
    if bytes[1] == 0 {
        return Some(CellRecord::Free {
            hole: base,
            next: length,
        });
    }
    let kind = kind_of(bytes[1])?;
    let first = LittleEndian::read_u32(&bytes[12..16]);
    let last = LittleEndian::read_u32(&bytes[16..20]);
    let value = LittleEndian::read_u64(&bytes[24..32]);
    let tag = tag_of(bytes[0], first, last, value)?;
    Some(CellRecord::Held {
        block: Block { base, length, kind },
        tag,
    })
}

// The number in eight bytes at a place.
fn word(bytes: &[u8; CELL_RECORD], at: usize) -> u64
    requires { at + 8 ≤ CELL_RECORD }
    ensures { result ≡ number_at 8 at bytes.now }
{
    LittleEndian::read_u64(&bytes[at..at + 8])
}

// Returns whether bytes of which this tag was read say that a cell with it has no waiter node, or no value.
fn fill_tag(bytes: &[u8; CELL_RECORD], tag: PresenceTag) -> bool
    ensures { IsTrue result ↔ FillTag bytes.now tag }
{
    match tag {
        PresenceTag::Empty => word(bytes, 12) == u64::MAX && word(bytes, 24) == 0,
        PresenceTag::Waiting { .. } => word(bytes, 24) == 0,
        PresenceTag::Full(_) => word(bytes, 12) == u64::MAX,
        PresenceTag::Clashed(_) => word(bytes, 12) == u64::MAX,
    }
}

// Returns whether the bytes that no record uses are zero.
fn are_unused_zero(bytes: &[u8; CELL_RECORD]) -> bool
    ensures { IsTrue result ↔ AreUnusedZero bytes.now }
{
    LittleEndian::read_u16(&bytes[2..4]) == 0 && LittleEndian::read_u32(&bytes[20..24]) == 0
}

// Returns whether bytes of which this cell was read have beside its fields what its spelling has there.
fn fill_cell(bytes: &[u8; CELL_RECORD], cell: &CellRecord) -> bool
    ensures { IsTrue result ↔ FillCell bytes.now cell.now }
{
    let tag = match *cell {
        CellRecord::Free { .. } => {
            if bytes[0] != 0 {
                return false;
            }
            PresenceTag::Empty
        }
        CellRecord::Held { tag, .. } => tag,
    };
    fill_tag(bytes, tag) && are_unused_zero(bytes)
}

fn cell_if(bytes: &[u8; CELL_RECORD], cell: CellRecord) -> Option<CellRecord>
    requires { cell_in bytes.now ≡ Some cell }
    ensures { result ≡ cell_if bytes.now cell }
{
    if fill_cell(bytes, &cell) {
        Some(cell)
    } else {
        None
    }
}

/// Returns the record of a cell that these bytes spell, or `None`.
pub fn read_cell(bytes: &[u8]) -> Option<CellRecord>
    ensures { result ≡ read_cell bytes.now }
{
    let Some(bytes) = bytes.as_array::<CELL_RECORD>() else {
        return None;
    };
    cell_if(bytes, cell_in(bytes)?)
}

#[tactic(auto, unfolding(im_formats::specs::Reading::node_in))]
fn node_in(bytes: &[u8; NODE_RECORD]) -> NodeRecord
    ensures { result ≡ node_in bytes.now }
{
    let next = LittleEndian::read_u32(&bytes[0..4]);
    if LittleEndian::read_u16(&bytes[6..8]) == 0 {
        return NodeRecord::Free { next };
    }
    let element = LittleEndian::read_u16(&bytes[4..6]);
    let number = LittleEndian::read_u64(&bytes[8..16]);
    NodeRecord::Listed {
        next,
        waiter: Waiter { element, number },
    }
}

fn node_if(bytes: &[u8; NODE_RECORD], node: NodeRecord) -> Option<NodeRecord>
    ensures { result ≡ if same_bytes bytes.now (node_bytes node) then Some node else None }
{
    if *bytes == spell_node(&node) {
        Some(node)
    } else {
        None
    }
}

/// Returns the waiter node that these bytes spell, or `None`.
pub fn read_node(bytes: &[u8]) -> Option<NodeRecord>
    ensures { result ≡ read_node bytes.now }
{
    let Some(bytes) = bytes.as_array::<NODE_RECORD>() else {
        return None;
    };
    node_if(bytes, node_in(bytes))
}

fn kept_of(op: Option<Op>, entry: Option<Entry>) -> Option<Option<Kept>>
    ensures { result ≡ kept_of op entry }
{
    let op = op?;
    let entry = entry?;
    Some(Some(Kept { op, entry }))
}

#[tactic(auto, unfolding(im_formats::specs::Reading::place_in))]
fn place_in(bytes: &[u8; PLACE]) -> Option<Option<Kept>>
    ensures { result ≡ place_in bytes.now }
{
    if bytes[0] == 0 {
        return Some(None);
    }
    let address = LittleEndian::read_u32(&bytes[4..8]);
    let value = LittleEndian::read_u64(&bytes[8..16]);
    let number = LittleEndian::read_u64(&bytes[16..24]);
    kept_of(op_of(bytes[0], address, value), entry_of(bytes[2], number))
}

fn place_if(bytes: &[u8; PLACE], place: Option<Kept>) -> Option<Option<Kept>>
    ensures { result ≡ place_if bytes.now place }
{
    if *bytes == spell_place(place) {
        Some(place)
    } else {
        None
    }
}

/// Returns what these bytes spell as a place of a session record, or `None`. A place is a kept entry, or empty.
pub fn read_place(bytes: &[u8]) -> Option<Option<Kept>>
    ensures { result ≡ read_place bytes.now }
{
    let Some(bytes) = bytes.as_array::<PLACE>() else {
        return None;
    };
    place_if(bytes, place_in(bytes)?)
}
