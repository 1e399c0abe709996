// Checks whether a record is within its bounds.
ghost use Rattle.std.specs.Prelude.{◌≡◌, ◌↔◌, length, IsTrue};
ghost use Rattle.im_types.specs.Types.{zeros, IsLink, FitsTag, FitsCell, FitsNode};

use im_types::{CellRecord, NONE, NodeRecord, PresenceTag};

fn is_link(count: u32, link: u32) -> bool
    ensures { IsTrue result ↔ IsLink count link }
{
    link == NONE || link < count
}

fn fits_tag(nodes: u32, tag: PresenceTag) -> bool
    ensures { IsTrue result ↔ FitsTag nodes tag }
{
    match tag {
        PresenceTag::Empty => true,
        PresenceTag::Waiting { first, last } => first < nodes && last < nodes,
        PresenceTag::Full(_) => true,
        PresenceTag::Clashed(_) => true,
    }
}

/// Returns whether the record of a cell is within its bounds: a hole is at most as long as there are cells, a block
/// ends within the cells, and each link is within its range.
pub(crate) fn fits_cell(cells: u32, nodes: u32, cell: CellRecord) -> bool
    ensures { IsTrue result ↔ FitsCell cells nodes cell }
{
    match cell {
        CellRecord::Free { hole, next } => hole <= cells && is_link(cells, next),
        CellRecord::Held { block, tag } => {
            block.base as u64 + block.length as u64 <= cells as u64 && fits_tag(nodes, tag)
        }
    }
}

/// Returns whether a waiter node is within its bounds: its link leads to a node or is none.
pub(crate) fn fits_node(nodes: u32, node: NodeRecord) -> bool
    ensures { IsTrue result ↔ FitsNode nodes node }
{
    match node {
        NodeRecord::Free { next } => is_link(nodes, next),
        NodeRecord::Listed { next, .. } => is_link(nodes, next),
    }
}

/// Returns whether all bytes are zero.
pub(crate) fn are_zero(bytes: &[u8]) -> bool
    ensures { IsTrue result ↔ (bytes.now ≡ zeros (length bytes.now)) }
{
    bytes.iter().all(|b| *b == 0)
}
