//! Bells beside the lock. A thread that waits reads its bell while it holds the lock, releases the lock, and sleeps
//! until the bell has been rung since. A thread that changes what lies under the lock rings after that. So no wake-up
//! is lost.
use std::alloc::{AllocError, Global};
use std::sync::{Condvar, Mutex, Wait};

/// A bell. It counts how often it was rung, and wakes those that sleep beside it.
#[derive(Drop)]
pub struct Bell {
    rung: Mutex<u64>,
    wakes: Condvar,
}

impl Bell {
    /// Makes a bell that wasn't rung yet.
    pub const fn new() -> Bell {
        Bell {
            rung: Mutex::new(0),
            wakes: Condvar::new(),
        }
    }

    /// Returns how often it was rung, wrapping.
    pub fn read<R: Wait>(&self, rt: &R) -> u64 {
        *self.rung.lock(rt)
    }

    /// Rings it: all that sleep beside it wake.
    pub fn ring<R: Wait>(&self, rt: &R) {
        let mut guard = self.rung.lock(rt);
        *guard = (*guard).wrapping_add(1);
        drop(guard);
        self.wakes.notify_all();
    }

    /// Sleeps until it has been rung since it was read.
    pub fn wait_past<R: Wait>(&self, rt: &R, seen: u64) {
        drop(
            self.wakes
                .wait_while(rt, self.rung.lock(rt), |rung| *rung == seen),
        );
    }
}

/// A bell for each element's port.
#[derive(Drop)]
pub struct Bells {
    all: Vec<Bell>,
}

impl Bells {
    /// Makes bells for the given number of elements. Returns `AllocError` if `alloc` refuses the memory.
    pub fn new(alloc: Global, elements: u16) -> Result<Bells, AllocError> {
        let mut all = Vec::with_capacity(alloc, elements as usize)?;
        for _ in 0..elements {
            all.push(Bell::new())?;
        }
        Ok(Bells { all })
    }

    /// Returns how often an element's bell was rung, wrapping, and 0 if there is no such element.
    pub fn read<R: Wait>(&self, rt: &R, element: u16) -> u64 {
        match self.all.get(element as usize) {
            Some(bell) => bell.read(rt),
            None => 0,
        }
    }

    /// Rings the bells of these elements.
    pub fn ring<R: Wait>(&self, rt: &R, elements: &[u16]) {
        for element in elements {
            if let Some(bell) = self.all.get(*element as usize) {
                bell.ring(rt);
            }
        }
    }

    /// Rings all bells.
    pub fn ring_all<R: Wait>(&self, rt: &R) {
        for bell in self.all.iter() {
            bell.ring(rt);
        }
    }

    /// Sleeps until an element's bell has been rung since it was read.
    pub fn wait_past<R: Wait>(&self, rt: &R, element: u16, seen: u64) {
        if let Some(bell) = self.all.get(element as usize) {
            bell.wait_past(rt, seen);
        }
    }
}
