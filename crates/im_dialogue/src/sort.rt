//! What is counted of a memory's cells.

/// A sort of addresses that are counted: the bases of blocks, or the cells of blocks in one state.
#[derive(Clone, Copy, Debug, PartialEq, Eq)]
pub(crate) enum Sort {
    /// Bases of blocks.
    Base,
    /// Empty cells, at which no request waits.
    Empty,
    /// Cells at which a request waits.
    Waiting,
    /// Full cells.
    Full,
    /// Cells that were written while they were full.
    Clashed,
}
