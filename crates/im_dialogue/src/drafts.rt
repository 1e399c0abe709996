//! Room that is kept from line to line.
ghost use Rattle.std.specs.Prelude.{◌≡◌, [], string_bytes};

use crate::saying::Draft;
use std::alloc::Global;

/// Room that is kept from line to line.
#[derive(Drop)]
pub(crate) struct Drafts {
    /// A line that was read.
    pub(crate) line: Vec<u8>,
    /// For each command of the next group, what those that watch are told behind its answer. Empty if nobody watches.
    pub(crate) nows: Vec<String>,
    /// The text of answers.
    pub(crate) draft: Draft,
}

impl Drafts {
    /// Makes room for lines, in which nothing is yet.
    pub(crate) fn new(alloc: Global) -> Drafts
        ensures { string_bytes result.draft.text ≡ [] }
    {
        Drafts {
            line: Vec::new(alloc),
            nows: Vec::new(alloc),
            draft: Draft::new(alloc),
        }
    }
}
