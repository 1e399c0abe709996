//! All waiting requests, in their order of arrival.

use im_types::{Entry, Waiter};

/// A waiting request, and the address of the cell that it waits at.
#[derive(Clone, Copy)]
pub struct Deferred {
    pub address: u32,
    pub waiter: Waiter,
}

/// Returns the number of requests that wait at a cell.
pub fn count_at(queue: &[Deferred], a: u32) -> usize {
    let mut count = 0usize;
    for deferred in queue {
        if deferred.address == a {
            count = count.saturating_add(1);
        }
    }
    count
}

/// Returns the request at this place, from 0, among those that wait at a cell, or `None` past the last one.
pub fn nth_at(queue: &[Deferred], a: u32, place: usize) -> Option<Waiter> {
    let mut left = place;
    for deferred in queue {
        if deferred.address == a {
            if left == 0 {
                return Some(deferred.waiter);
            }
            left -= 1;
        }
    }
    None
}

/// Puts a request at the end of the queue if its entry is Waiting.
pub fn park(queue: &mut Vec<Deferred>, a: u32, waiter: Waiter, entry: Entry) {
    if let Entry::Waiting = entry {
        let _parked = queue.push(Deferred { address: a, waiter });
    }
}

/// Returns the place in the queue of the first request that waits at a cell, or `None` if none waits.
fn first_at(queue: &[Deferred], a: u32) -> Option<usize> {
    for i in 0..queue.len() {
        if queue[i].address == a {
            return Some(i);
        }
    }
    None
}

/// Removes and returns the first request that waits at a cell, or returns `None` if none waits.
pub fn pop_first(queue: &mut Vec<Deferred>, a: u32) -> Option<Waiter> {
    match first_at(queue.as_slice(), a) {
        Some(i) if i < queue.len() => Some(queue.remove(i).waiter),
        _ => None,
    }
}
