//! Checkpoints: how the memory gets to the area that isn't in force, turn by turn, and how that area comes into force.
//!
//! A turn makes at most four device calls. Between two turns the journal continues. The state that the first turn took
//! stays as it was, and later commands stay in the journal. Stands on `im_image` for pages and headers, on
//! `im_journal`, and on the laws of `im_meaning`, which say what each write leaves of an image.
#![tactic(auto)]

mod checkpoint;
mod header;
mod left_pages;
mod old_slots;
mod page_copies;
mod steps;

pub use checkpoint::{Checkpoint, TurnDone};
