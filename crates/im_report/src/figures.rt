//! Numbers that are counted of a memory.

/// The numbers of one kind: of its blocks, and of its cells in each state.
#[derive(Clone, Copy, Debug, PartialEq, Eq)]
pub(crate) struct KindFigures {
    /// The number of blocks.
    pub(crate) blocks: u64,
    /// The number of cells that are empty, with nobody waiting.
    pub(crate) empty: u64,
    /// The number of cells that somebody waits for.
    pub(crate) waiting: u64,
    /// The number of full cells.
    pub(crate) full: u64,
    /// The number of clashed cells.
    pub(crate) clashed: u64,
}

/// The numbers of the cells that lie in no block.
#[derive(Clone, Copy, Debug, PartialEq, Eq)]
pub(crate) struct FreeFigures {
    /// The number of these cells.
    pub(crate) cells: u64,
    /// The number of holes: rows of such cells, as long as they go.
    pub(crate) holes: u64,
    /// The cells of the longest hole.
    pub(crate) longest: u64,
}

/// The numbers of the requests that wait.
#[derive(Clone, Copy, Debug, PartialEq, Eq)]
pub struct QueueFigures {
    /// The number of these requests.
    pub requests: u64,
    /// How many of them wait at the cell with the longest queue.
    pub longest: u64,
    /// The lowest address of such a cell.
    pub at: u32,
}

/// The numbers of the windows.
#[derive(Clone, Copy, Debug, PartialEq, Eq)]
pub struct WindowFigures {
    /// The number of elements that have asked anything.
    pub asked: u64,
    /// The number of entries that are kept.
    pub kept: u64,
    /// The number of windows that have no room for another request.
    pub full: u64,
}
