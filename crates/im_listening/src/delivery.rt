//! What was heard of a reader.

use std::io::ErrorKind;

/// What the reader gave and no read has taken yet. The end is kept, since it is read only once.
#[derive(Clone, Copy)]
pub(crate) enum Delivery {
    /// Nothing.
    Nothing,
    /// A byte.
    Byte(u8),
    /// The end of the input.
    End,
    /// An error.
    Error(ErrorKind),
}
