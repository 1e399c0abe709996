//! Serves a script's requests one after another on the image of a disk.
#![tactic(auto)]

mod asking;
mod comparing;
mod hearing;
mod meeting;
mod naming;
mod notes;
mod once;
mod past;
mod room;
mod serial;
mod server;
mod stops;
mod waits;

pub use notes::WaitNote;
pub use past::{Past, first_open};
pub use serial::{StyledScript, both, serial_on, serial_once_on};
pub use server::{Desk, Server};
pub use stops::{Interrupted, Stop, new_images_have_begun, serial_over_stops};
