//! The types that all crates of the memory share, and in `specs/` their meaning. That is a memory of cells with
//! presence tags and windows of kept replies, one command on it, a list of commands, and the bytes of an image. The
//! module [`layout`] gives the places in an image. The module [`codes`] gives the spelling of an operation there.
#![tactic(auto)]

mod cells;
mod changes;
pub mod codes;
mod commands;
mod groups;
pub mod layout;
mod observers;
mod operations;
mod records;
mod refusals;
mod sizes;

pub use cells::Cell;
pub use changes::Change;
pub use commands::{Call, Command, Judged, Line, Outcome, Request};
pub use groups::Served;
pub use observers::{Observer, Unobserved};
pub use operations::{Block, Entry, Kept, Kind, Op, Reply, Waiter};
pub use records::{CellRecord, NodeRecord, PresenceTag};
pub use refusals::Refusal;
pub use sizes::Limits;

/// The most cells that a memory may have.
pub const MAX_CELLS: u32 = 1_048_576;

/// The most elements that a memory may have.
pub const MAX_ELEMENTS: u16 = 64;

/// The fewest slots that a journal may have.
pub const MIN_SLOTS: u32 = 16;

/// The most slots that a journal may have.
pub const MAX_SLOTS: u32 = 4_096;

/// The most commands in a group of the journal.
pub const MAX_GROUP: usize = 16;

/// The most entries that a window keeps.
pub const WINDOW: u64 = 64;

/// The most entries that a window of the first version keeps.
pub const WINDOW_1: u64 = 16;

/// The greatest request number, sequence number, count of commands and generation.
pub const LAST: u64 = 1 << 62;

/// The link that leads to no cell and to no node.
pub const NONE: u32 = 0xFFFF_FFFF;
