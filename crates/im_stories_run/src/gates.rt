//! Gates that hold servers back.

use im_serving::Gate;
use std::sync::{Mutex, Wait};

// The most turns for which a server is held.
const MOST_TURNS: usize = 200_000_000;

/// Holds the requests of one of the elements 1 and 2 until one of the other's is answered.
#[derive(Drop)]
pub struct After {
    first: u16,
    // A request of the first element is answered.
    answered: Mutex<bool>,
    // The last request of the other was released by that, and not by the number of turns.
    held: Mutex<bool>,
}

impl After {
    /// Starts with nothing answered. The other element's requests are held until one of `first` is answered.
    pub fn new(first: u16) -> After {
        After {
            first,
            answered: Mutex::new(false),
            held: Mutex::new(false),
        }
    }

    // Returns whether a request of the first element is answered. If so, the other was held until then.
    fn is_answered<R: Wait>(&self, rt: &R) -> bool {
        let answered = *self.answered.lock(rt);
        *self.held.lock(rt) = answered;
        answered
    }

    /// Returns whether the last request that was held was released by the first element's answer, and not by the number
    /// of turns.
    pub fn has_held<R: Wait>(&self, rt: &R) -> bool {
        *self.held.lock(rt)
    }
}

impl Gate for After {
    fn before<R: Wait>(&self, rt: &R, element: u16, _number: u64) {
        let other = if self.first == 1 { 2 } else { 1 };
        if element != other {
            return;
        }
        for _turn in 0..MOST_TURNS {
            if self.is_answered(rt) {
                return;
            }
        }
    }

    fn after<R: Wait>(&self, rt: &R, element: u16, _number: u64) {
        if element == self.first {
            *self.answered.lock(rt) = true;
        }
    }
}
