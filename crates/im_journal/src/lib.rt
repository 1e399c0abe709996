//! The journal of an image: a ring of slots of 64 bytes. Each slot is a command behind a gate. Commands stand in groups
//! of one or more. A group counts once the gate of its first slot is open on the disk. The bodies of the next group may
//! be on the disk before, and then one sync is for that gate and for the bodies behind it.
#![tactic(auto)]

mod ahead;
mod bytes;
mod gate;
mod group;
mod journal;
mod laid;
mod ring;
mod room;
mod slot;

pub use journal::Journal;
pub use slot::{read, spell};
