//! How things stand under the lock.

/// How things stand under the lock, as an observer is told at the end of a turn of the thread that keeps checkpoints.
#[derive(Clone, Copy, Debug, PartialEq, Eq)]
pub struct Standing {
    /// How many elements' servers wait for an entry.
    pub waits: u32,
    /// How many more commands the journal has room for.
    pub room: u32,
}
