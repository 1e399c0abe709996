//! How a command changes the full cells.

/// The change that an accepted command makes to the full I cells.
#[derive(Clone, Copy, Debug, PartialEq, Eq)]
pub enum Change {
    /// No full cell changes.
    Same,
    /// The cell at this address is now full and has this value.
    Full(u32, u64),
    /// From this address on, the given number of cells are no longer full.
    Gone(u32, u32),
}
