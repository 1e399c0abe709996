//! The memory: a table of cells, an arena of the requests that wait for them, and a window of kept replies for each
//! element. One command is one call of [`Memory::step`].
//!
//! Stands on `im_cell`, `im_arena` and `im_sessions`, and on `im_istore` and `im_mstore` for the four operations on a
//! cell. Contracts see the contents by the definitions of `im_types`. `im_laws` has the laws of what stays true of
//! them, and `im_histories` the laws of whole histories.
#![tactic(auto)]

mod accepting;
mod acts;
mod memory;
mod record_pages;
mod records;
mod restore;
mod serving;
mod touches;
mod windows;

pub use im_arena::Waiters;
pub use memory::Memory;
pub use records::MemoryRecords;
pub use restore::Restoring;
