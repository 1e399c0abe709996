//! An element's window of kept entries. A session record spells it.
ghost use Rattle.std.specs.Prelude.{◌≡◌, ◌+◌, ◌-◌, ◌%◌, ◌<◌, ◌≤◌, [], ◌∷◌, ◌++◌, length};
ghost use Rattle.im_types.specs.Types.{layout_of, entry_at};
ghost use Rattle.im_records.specs.Entries.{FitEntries};

use im_types::layout::Version;
use im_types::{Entry, Kept, Op, WINDOW, WINDOW_1};
use std::marker::Model;

/// The maximum number of entries in a window.
pub(crate) const PLACES: usize = WINDOW as usize;

// The same of the first version.
const PLACES_1: usize = WINDOW_1 as usize;

/// The entries kept for an element, numbered from a base on. Contracts see the base and the entries.
///
/// There are at most [`WINDOW`](im_types::WINDOW) of them. They lie in the value itself, so nothing is allocated.
#[derive(Drop)]
pub struct WindowRecord {
    base: u64,
    count: usize,
    entries: [Kept; PLACES],
}

impl Model for WindowRecord {
    ghost use Rattle.std.specs.Prelude.{take};
    ghost use Rattle.im_types.specs.Types.{Window};
    ghost use Rattle.im_records.specs.Entries.{AreEntries};

    ghost Value = { Window };

    ghost view = { λ w. record { base = w.base; kept = take w.count w.entries } };

    ghost invariant = { λ w. AreEntries w.count w.entries };
}

impl WindowRecord {
    /// A window with no entry, numbered from a base on.
    pub fn new(base: u64) -> WindowRecord
        ensures { result ≡ record { base = base; kept = [] } }
    {
        let blank = Kept {
            op: Op::Release(0),
            entry: Entry::Waiting,
        };
        WindowRecord {
            base,
            count: 0,
            entries: [blank; PLACES],
        }
    }

    /// Adds an entry under the next number.
    pub fn push(&mut self, kept: Kept)
        requires { length self.old.kept < WINDOW }
        ensures { self.new ≡ record { base = self.old.base; kept = self.old.kept ++ kept ∷ [] } }
    {
        self.entries[self.count] = kept;
        self.count += 1;
    }

    /// The number of the first entry.
    pub fn base(&self) -> u64
        ensures { result ≡ self.now.base }
    {
        self.base
    }

    /// The entries, in the order of their numbers.
    pub fn kept(&self) -> &[Kept]
        ensures entries { result.now ≡ self.now.kept }
        ensures few { length self.now.kept ≤ WINDOW }
        ensures fit { FitEntries self.now.kept }
    {
        &self.entries[..self.count]
    }

    /// Returns the entry at a place of a version's ring.
    pub(crate) fn entry_at(&self, version: Version, place: usize) -> Option<Kept>
        requires { place < (layout_of version).window }
        ensures { result ≡ entry_at (layout_of version).window self.now place }
    {
        self.kept().get(past_of(version, self.base, place)).copied()
    }
}

// How far past the base the numbers of this place of a version's ring are.
fn past_of(version: Version, base: u64, place: usize) -> usize
    requires { place < (layout_of version).window }
    ensures { result
        ≡ (place + (layout_of version).window - base % (layout_of version).window) % (layout_of version).window }
{
    match version {
        Version::One => (place + PLACES_1 - (base % WINDOW_1) as usize) % PLACES_1,
        Version::Two => (place + PLACES - (base % WINDOW) as usize) % PLACES,
    }
}

/// Returns the place in a version's ring of the number that is `past` more than the base.
pub(crate) fn place_of(version: Version, base: u64, past: usize) -> usize
    requires { past < (layout_of version).window }
    ensures at { result ≡ (base % (layout_of version).window + past) % (layout_of version).window }
    ensures below { result < (layout_of version).window }
{
    match version {
        Version::One => ((base % WINDOW_1) as usize + past) % PLACES_1,
        Version::Two => ((base % WINDOW) as usize + past) % PLACES,
    }
}
