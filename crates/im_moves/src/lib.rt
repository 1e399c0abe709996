//! What moving an image by its dump comes to: the text of it, loaded into a new file, means the same memory there.
//!
//! Stands on `im_dump` and `im_migration`. No program calls it: `imem dump` and `imem load` do a half of it each.
#![tactic(auto)]

mod moving;

pub use moving::move_by_dump;
