//! What an observer of a migration or a copy is told.

use crate::misfits::Misfit;

/// What an observer of a migration or a copy is told.
#[derive(Clone, Copy, Debug)]
pub enum MoveNews {
    /// A page or a slot of the new file is written next.
    Writes {
        /// The number of pages and slots written so far.
        written: u64,
        /// The number of all pages and slots of the new file.
        all: u64,
    },
    /// A copy is refused with `BadLimits`, since this doesn't fit.
    Misfits(Misfit),
}
