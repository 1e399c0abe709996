//! What stands for the files that are opened.

use im_files::Waiting;
use std::time::Clock;

/// Makes what stands for the first moments of two files, if an opening waits at most so many seconds for a file's lock.
pub(crate) trait Openings<S, T> {
    fn starts(&self, wait: u32) -> (S, T);
}

/// Openings that look at the clock while they wait.
#[derive(Drop)]
pub(crate) struct Clocked<R> {
    pub(crate) rt: R,
}

impl<R: Clock + Copy + Drop> Openings<Waiting<R>, Waiting<R>> for Clocked<R> {
    fn starts(&self, wait: u32) -> (Waiting<R>, Waiting<R>) {
        (Waiting::new(self.rt, wait), Waiting::new(self.rt, wait))
    }
}
