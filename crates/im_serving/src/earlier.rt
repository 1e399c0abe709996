//! What is kept of earlier scripts.

use im_types::Entry;

/// The answer that is kept for a request of an earlier script.
#[derive(Clone, Copy, Debug, PartialEq, Eq)]
pub struct EarlierAnswer {
    /// The element.
    pub element: u16,
    /// The request's number.
    pub number: u64,
    /// The request's entry.
    pub entry: Entry,
}
