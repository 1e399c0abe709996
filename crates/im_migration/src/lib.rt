//! Puts the memory of an image into a new file: migrates an image of the first version of the layout to the layout in
//! use, or copies an image, in other sizes if they are asked for. The old file is only read.
//!
//! Stands on `im_image` and `im_disk`. A stop leaves a file in which no header is open, or one that means what the old
//! file means. In the first case, begin again. docs/MIGRATION.md explains both for users.
#![tactic(auto)]

mod asked;
mod copying;
mod laying;
mod misfits;
mod moving;
mod news;
mod place;
mod preparing;
mod putting;
mod resized;
mod resizing;

pub use asked::Asked;
pub use copying::{copy, length_for_copy};
pub use misfits::Misfit;
pub use moving::{length_for, migrate};
pub use news::MoveNews;
pub use preparing::{Original, prepare, put_memory, put_new};
pub use resized::Resized;
