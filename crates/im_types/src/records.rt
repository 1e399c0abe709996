//! The records on the pages of an image.

use crate::operations::{Block, Waiter};

/// The presence tag of a cell, with the data that its record adds.
#[derive(Clone, Copy, Debug, PartialEq, Eq)]
pub enum PresenceTag {
    /// The cell has no value, and no request waits for it.
    Empty,
    /// Requests wait for the cell. Their list has a first and a last node.
    Waiting {
        /// The node of the first request that waits.
        first: u32,
        /// The node of the last request that waits.
        last: u32,
    },
    /// The value in the cell.
    Full(u64),
    /// The value of a cell that was written while it was full.
    Clashed(u64),
}

/// The record of a cell on a page.
#[derive(Clone, Copy, Debug, PartialEq, Eq)]
pub enum CellRecord {
    /// A cell in no block.
    Free {
        /// The number of free cells in a row from here, if a hole begins here.
        hole: u32,
        /// The cell where the next hole begins, or [`NONE`](crate::NONE).
        next: u32,
    },
    /// A cell of a block.
    Held {
        /// The block.
        block: Block,
        /// Its presence tag.
        tag: PresenceTag,
    },
}

/// The record of a waiter node on a page.
#[derive(Clone, Copy, Debug, PartialEq, Eq)]
pub enum NodeRecord {
    /// A node in no list.
    Free {
        /// The next free node, or [`NONE`](crate::NONE).
        next: u32,
    },
    /// A node of a list.
    Listed {
        /// The next node of the list, or [`NONE`](crate::NONE) at the last one.
        next: u32,
        /// The request that waits.
        waiter: Waiter,
    },
}
