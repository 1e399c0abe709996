//! Element threads. Each element has a thread that sends what it asks for into a pipe, and one that takes it out and
//! serves it: operations through its port, glances past the lock.
//!
//! The crate stands on `im_controller` and `im_pipes`.
#![tactic(auto)]

mod asking;
mod awaiting;
mod context;
mod earlier;
mod elements;
mod ending;
mod gate;
mod glances;
mod host;
mod intent;
mod numbers;
mod orders;
mod parts;
mod running;
mod sender;
mod server;
mod starting;
mod teller;
mod telling;

pub use context::Context;
pub use earlier::EarlierAnswer;
pub use elements::serve_elements;
pub use gate::{Gate, Open};
pub use glances::{Glanced, Glances};
pub use host::Host;
pub use im_controller::Standing;
pub use intent::Intent;
pub use numbers::ServedNumbers;
pub use orders::{are_in_order, ask_twice};
pub use parts::{Done, Part};
pub use sender::{Sent, send_all};
pub use server::serve_element;
pub use starting::PIPE;
pub use teller::Teller;
