//! An image in the hands of a caller that does its own writing. [`Listed`] is a disk over the caller's bytes. It lists
//! the writes and syncs of the file in their order.
#![tactic(auto)]

mod again;
mod asking;
mod calls;
mod chain;
mod image;
mod listed;
mod looking;
mod settling;
mod step;

pub use again::{Resent, send_over_steps};
pub use image::Image;
pub use listed::Listed;
pub use step::Step;
