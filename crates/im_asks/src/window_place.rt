//! Where an element's next request stands.

/// Where an element's next request stands in its window.
#[derive(Clone, Copy, Debug, PartialEq, Eq)]
pub enum WindowPlace {
    /// It has this number.
    Next(u64),
    /// The window is full. The entries from its base on are answered up to the second number, and have to be confirmed
    /// first: they are dropped then.
    Confirm { base: u64, upto: u64 },
    /// The window is full, and its first entry isn't answered yet.
    Full,
}
