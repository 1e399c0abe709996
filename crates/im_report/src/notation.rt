//! How a report or a statistic is written.

/// How a report or a statistic is written.
#[derive(Clone, Copy, Debug, PartialEq, Eq)]
pub(crate) enum Notation {
    /// In words.
    Lines,
    /// As objects of JSON.
    Json,
}
