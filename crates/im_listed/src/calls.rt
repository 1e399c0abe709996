//! The calls of a disk over a caller's bytes, as contracts know them.
use std::snapshot::Snapshot;

/// A call on the disk. Only clauses read it; it takes no memory of the bytes.
#[derive(Drop)]
pub(crate) enum ListedCall {
    /// The list of steps was emptied.
    Emptied,
    /// The file was handed in, with these bytes.
    Given(Snapshot<Vec<u8>>),
    /// A part was read.
    Read,
    /// These bytes were written at this offset.
    Written(usize, Snapshot<Vec<u8>>),
    /// All that was written was synced.
    Synced,
}
