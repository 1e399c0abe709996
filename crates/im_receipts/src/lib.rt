//! What receipts of threads say: two receipts of one request tell it alike, and it acted once. What a receipt tells is
//! on the disk from then on, and so is an entry that was found. Their times are in the order of their lines.
//!
//! The crate stands on `im_controller` and `im_promise`. No program calls it. A client that compares its receipts does,
//! and contracts alone see what it says.
#![tactic(auto)]

mod alike;
mod durable;
mod timed;

pub use alike::told_alike;
pub use durable::{finish_with_found, finish_with_receipt};
pub use timed::finish_with_two;
