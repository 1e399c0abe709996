//! The failures of a file.

use std::io::ErrorKind;

/// What failed on a file, and the system's name for the failure.
#[derive(Clone, Copy, Debug, PartialEq, Eq)]
pub enum Failure {
    /// The length could not be read or differs from the length at the opening, or a call asked for a range outside the
    /// file.
    Length,
    /// A read failed.
    Read(ErrorKind),
    /// A write failed, or wrote only a part.
    Write(ErrorKind),
    /// A sync failed. Anything written since the last good sync may be lost, whatever the next sync returns.
    Sync(ErrorKind),
}
