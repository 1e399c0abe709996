//! Readers that can tell whether a read would wait, and readers that wait if the one below doesn't.
#![tactic(auto)]

mod delivery;
mod ear;
mod input_bytes;
mod listener;
mod loan;
mod patient;

pub use ear::Ear;
pub use input_bytes::InputBytes;
pub use listener::Listener;
pub use patient::Patient;
