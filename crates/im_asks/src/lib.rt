//! What an element asks next of a memory: a request with its number, or before it the confirmation of a full window.
#![tactic(auto)]

mod behind;
mod places;
mod window_place;

pub use behind::{bounds_asked, place_up_to, windows_stand_as_reckoned};
pub use places::next_place;
pub use window_place::WindowPlace;
