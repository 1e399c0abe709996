//! A queue in front of the lock: first come, first served. A lock that isn't fair is taken again by whoever releases
//! it, before those that it wakes, and then no group gets large.
//!
//! Threads whose answers wait go past the queue together, as they only have to take them. Nobody else goes before the
//! last of them has left the lock. By then most of them ask again, and one group serves them.
//!
//! The thread that keeps checkpoints goes if nobody else waits, or after so many others have gone before it. No clause
//! speaks of this queue; `models/lock.pml` is searched for what comes of it.
use arrayvec::ArrayVec;
use std::alloc::{AllocError, Global};
use std::sync::{Condvar, Mutex, Wait};

// How many others at most go before the keeper in their turn, once it is first. Those that go past it because their
// answers wait aren't counted: they lend nothing.
const PATIENCE: u32 = 16;

#[derive(Drop)]
struct Queue {
    within: usize, // How many are past it, and have not left the lock yet.
    together: ArrayVec<usize, 65>, // Those that were last called past it.
    waiting: ArrayVec<usize, 65>, // The places of 64 elements, and the keeper's.
    bypassed: u32, // How many others went before the keeper in their turn while it was first.
}

#[derive(Drop)]
struct QueuePlace {
    called: Mutex<u64>,
    wakes: Condvar,
}

/// The queue, with a place for each element and one for the thread that keeps checkpoints.
#[derive(Drop)]
pub struct Turns {
    queue: Mutex<Queue>,
    places: Vec<QueuePlace>,
}

/// A thread's turn. It is true if the thread went through the queue.
#[derive(Clone, Copy)]
pub struct Turn(bool);

// Returns whether a place is that of one of these elements.
fn is_among(place: usize, elements: &[u16]) -> bool {
    for element in elements {
        if *element as usize == place {
            return true;
        }
    }
    false
}

// Returns whether a place is one of these.
fn is_one_of(place: usize, places: &[usize]) -> bool {
    for other in places {
        if *other == place {
            return true;
        }
    }
    false
}

impl Queue {
    // Returns whether a place is let past because its answer waits, given the elements that have an answer waiting.
    // Those that were last past the queue together aren't: each of them may have taken its answer after the list was
    // made, and may wait for its next turn.
    fn is_let_past(&self, place: usize, elements: &[u16]) -> bool {
        is_among(place, elements) && !is_one_of(place, self.together.as_slice())
    }

    // Returns the index of the next one in a list of those who wait. It is the first, unless that is the keeper and it
    // lets another go before it.
    fn next_of(&mut self, waiting: &[usize], keeper: usize) -> usize {
        if waiting.first() != Some(&keeper) {
            return 0;
        }
        if waiting.len() > 1 && self.bypassed < PATIENCE {
            self.bypassed = self.bypassed.saturating_add(1);
            return 1;
        }
        self.bypassed = 0;
        0
    }

    // Takes out who goes past the queue next: all of these elements that wait in it, or else the next one.
    fn take_next(&mut self, elements: &[u16], keeper: usize) -> ArrayVec<usize, 65> {
        let mut next = ArrayVec::new();
        let mut rest = ArrayVec::new();
        for place in self.waiting.as_slice() {
            let list = if self.is_let_past(*place, elements) {
                &mut next
            } else {
                &mut rest
            };
            let _room = list.try_push(*place);
        }
        if next.is_empty() {
            let at = self.next_of(rest.as_slice(), keeper);
            if at < rest.len() {
                let _room = next.try_push(rest.remove(at));
            }
        }
        self.waiting = rest;
        self.within = next.len();
        self.together.clear();
        let _room = self.together.try_extend_from_slice(next.as_slice());
        next
    }
}

impl Turns {
    /// Makes a queue with so many places, of which the last one is the keeper's. Returns `AllocError` if `alloc`
    /// refuses the memory.
    pub fn new(alloc: Global, places: usize) -> Result<Turns, AllocError> {
        let mut all = Vec::with_capacity(alloc, places)?;
        for _ in 0..places {
            all.push(QueuePlace {
                called: Mutex::new(0),
                wakes: Condvar::new(),
            })?;
        }
        Ok(Turns {
            queue: Mutex::new(Queue {
                within: 0,
                together: ArrayVec::new(),
                waiting: ArrayVec::new(),
                bypassed: 0,
            }),
            places: all,
        })
    }

    // The place of the thread that keeps checkpoints, after those of the elements.
    fn keeper(&self) -> usize {
        self.places.len().saturating_sub(1)
    }

    /// Waits until it is the keeper's turn.
    pub fn wait_to_keep<R: Wait>(&self, rt: &R) -> Turn {
        self.wait(rt, self.keeper())
    }

    /// Waits until it is this thread's turn. If the queue is full, the thread goes past it.
    pub fn wait<R: Wait>(&self, rt: &R, place: usize) -> Turn {
        let Some(mine) = self.places.get(place) else {
            return Turn(false);
        };
        let mut guard = self.queue.lock(rt);
        let queue = &mut *guard;
        if queue.within == 0 {
            queue.within = 1;
            queue.together.clear();
            return Turn(true);
        }
        if queue.waiting.try_push(place).is_err() {
            return Turn(false);
        }
        drop(guard);
        let mut called = mine
            .wakes
            .wait_while(rt, mine.called.lock(rt), |called| *called == 0);
        *called = (*called).saturating_sub(1);
        Turn(true)
    }

    // Tells the thread that waits at a place that its turn has come.
    fn call<R: Wait>(&self, rt: &R, place: usize) {
        if let Some(place) = self.places.get(place) {
            let mut called = place.called.lock(rt);
            *called = (*called).saturating_add(1);
            drop(called);
            place.wakes.notify_one();
        }
    }

    /// Passes the turn on, once the last of those that were called together does so. It goes to all of these elements
    /// that wait in the queue, whose answers are there, or else to the next one in the queue.
    pub fn pass_on<R: Wait>(&self, rt: &R, turn: Turn, answered: &[u16]) {
        if !turn.0 {
            return;
        }
        let mut guard = self.queue.lock(rt);
        let queue = &mut *guard;
        queue.within = queue.within.saturating_sub(1);
        if queue.within > 0 {
            return;
        }
        let next = queue.take_next(answered, self.keeper());
        drop(guard);
        for place in next.as_slice() {
            self.call(rt, *place);
        }
    }
}
