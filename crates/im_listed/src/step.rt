//! The steps of a caller on its file.

/// A step on the file. The caller carries it out in its place in the list.
#[derive(Drop)]
pub enum Step {
    /// Write these bytes at this offset.
    Write(usize, Vec<u8>),
    /// Put all that was written on the disk, before any later step.
    Sync,
}
