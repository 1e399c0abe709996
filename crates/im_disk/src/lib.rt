//! One file of fixed length: what can be read from it, and what a crash at each moment may leave. [`Disk`] is the
//! contract. [`MemDisk`] is a disk in memory that can be made to crash. [`FuseDisk`] is one whose calls fail on demand.
//! [`FileDisk`] is a file of the operating system. docs/CRASH.md describes the model and what it assumes of a real
//! file.
#![tactic(auto)]

mod account;
mod calls;
mod disk;
mod failing;
mod failure;
mod file;
mod fuse;
mod gate;
mod memory;
mod opening;
mod record;
mod start;

pub use disk::{DeviceFault, Disk};
pub use failure::Failure;
pub use file::FileDisk;
pub use fuse::{FuseDisk, Mode};
pub use gate::{open_gate, write_behind_gate};
pub use memory::{Crash, MemDisk};
pub use opening::OpenFault;
pub use start::{Start, Unknown};
