//! What the system gives to the program.

use std::fs::File;
use std::io::{Eprint, Print};
use std::rt::Files;
use std::sync::Wait;
use std::thread::Threads;
use std::time::Clock;

/// A machine has files, memory, standard streams, a clock and threads. Each type that has them is one.
pub trait Machine: Files<File = File>
    + AllocGlobal
    + Print
    + Eprint
    + Clock
    + Threads
    + Wait
    + Copy
    + Drop
    + Send
    + Sync
    + 'static {}

impl<
    R: Files<File = File>
        + AllocGlobal
        + Print
        + Eprint
        + Clock
        + Threads
        + Wait
        + Copy
        + Drop
        + Send
        + Sync
        + 'static,
> Machine for R {}
