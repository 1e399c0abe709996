//! The memory that the records of an image show: lists of waiters in linked nodes, blocks, and who waits for what.
#![tactic(auto)]

mod blocks;
mod contents;
mod lists;
mod waiting;
mod walk;

pub use blocks::are_blocks;
pub use contents::{one_memory_is_shown, read_contents};
pub use lists::Lists;
pub use waiting::agree;
pub use walk::{one_list_is_shown, read_lists};
