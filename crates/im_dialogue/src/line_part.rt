//! What was read of a line.

/// What was read of a line.
#[derive(Clone, Copy, PartialEq, Eq)]
pub(crate) enum LinePart {
    /// Bytes of it, and more may come.
    More,
    /// The rest of it, with its line feed.
    Last,
    /// Nothing: the input is at its end.
    None,
}
