//! Operations on the memory, and their answers.

/// The kind of a block.
///
/// I cells are written at most once (Arvind, Nikhil, Pingali 1989). A put fills an M cell and a take empties it (Barth,
/// Nikhil, Arvind 1991).
#[derive(Clone, Copy, Debug, PartialEq, Eq)]
pub enum Kind {
    /// Cells of an I-structure, for fetch and store.
    I,
    /// Cells of an M-structure, for take and put.
    M,
}

/// An operation on a block of cells, or on the cell at an address.
#[derive(Clone, Copy, Debug, PartialEq, Eq)]
pub enum Op {
    /// Makes a block with the given number of cells, all empty, at the least base where it has room.
    Alloc(Kind, u32),
    /// Frees the block with this base, unless a request waits for one of its cells.
    Release(u32),
    /// Empties the cells of the block with this base, unless a request waits for one of them.
    Reset(u32),
    /// Reads an I cell. If the cell is not yet written, the read is deferred.
    Fetch(u32),
    /// Writes an I cell, and answers each deferred read of it.
    Store(u32, u64),
    /// Reads an M cell and leaves it empty. If the cell is not full, the take waits.
    Take(u32),
    /// Fills an M cell, or answers the first take that waits for it.
    Put(u32, u64),
}

/// The answer to an operation.
#[derive(Clone, Copy, Debug, PartialEq, Eq)]
pub enum Reply {
    /// The block was made, and has this base.
    Base(u32),
    /// No row of free cells is long enough.
    NoSpace,
    /// The length is 0: a block has at least one cell.
    BadLength,
    /// The value that was read.
    Value(u64),
    /// The value was written, or given to the requests that waited for it.
    Stored,
    /// The cell was written while it was full. It stays clashed until its block is released or reset.
    Clash,
    /// The address lies in no block.
    NoCell,
    /// The block is of the other kind.
    WrongKind,
    /// The block was released.
    Released,
    /// The address is not the base of a block.
    NoBlock,
    /// A request waits for a cell of the block.
    StillWaiting,
    /// The block's cells were emptied.
    Cleared,
}

/// The entry that is kept for a request.
#[derive(Clone, Copy, Debug, PartialEq, Eq)]
pub enum Entry {
    /// The request is deferred: its answer comes later.
    Waiting,
    /// The request has this answer.
    Answered(Reply),
}

/// A continuation: the element and the number of a request.
#[derive(Clone, Copy, Debug, PartialEq, Eq)]
pub struct Waiter {
    /// The element's number, from 0.
    pub element: u16,
    /// The request's number, from 1.
    pub number: u64,
}

/// A block of cells: `length` cells from `base` on.
#[derive(Clone, Copy, Debug, PartialEq, Eq)]
pub struct Block {
    /// The address of its first cell.
    pub base: u32,
    /// The number of its cells.
    pub length: u32,
    /// The kind of its cells.
    pub kind: Kind,
}

/// An operation, and the entry that is kept for it.
#[derive(Clone, Copy, Debug, PartialEq, Eq)]
pub struct Kept {
    /// The operation.
    pub op: Op,
    /// The entry.
    pub entry: Entry,
}
