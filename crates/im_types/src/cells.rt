//! The state of a cell as a reader sees it.

/// The presence tag of a cell of a block, with its value if it has one.
///
/// The tags are those of I-structures (Arvind, Nikhil, Pingali 1989); `Clashed` is our own.
#[derive(Clone, Copy, Debug, PartialEq, Eq)]
pub enum Cell {
    /// The cell has no value, and no request waits for it.
    Empty,
    /// The cell has no value, and at least one request waits for it.
    Waiting,
    /// The cell has this value.
    Full(u64),
    /// The cell was written while it was full. This is the value that it had then.
    Clashed(u64),
}
