//! A gate that makes requests be submitted in one order.

use im_serving::Gate;
use std::sync::{Mutex, Wait};

// The most turns for which a request is held.
const MOST_TURNS: usize = 200_000_000;

// How many elements the orders have: 1, 2 and so on.
const ELEMENTS: u32 = 3;

/// How many numbers there are that may be an order's number.
pub const NUMBERS: u32 = 729;

/// Returns whose turn it is in an order after `behind` others. The digits of the order's number are the elements.
pub fn turn(order: u32, behind: u32) -> u32 {
    let mut rest = order;
    for _ in 0..behind {
        rest /= ELEMENTS;
    }
    (rest % ELEMENTS).saturating_add(1)
}

/// Returns whether the order with this number gives each element a turn for each of its two requests.
pub fn is_order(order: u32) -> bool {
    for element in 1..=ELEMENTS {
        let mut turns = 0u32;
        for behind in 0..2 * ELEMENTS {
            turns = turns.saturating_add(u32::from(turn(order, behind) == element));
        }
        if turns != 2 {
            return false;
        }
    }
    true
}

/// Holds each request until all that come before it in an order are answered.
#[derive(Drop)]
pub struct OneOrder {
    order: u32,
    // How many are answered.
    answered: Mutex<u32>,
}

impl OneOrder {
    /// Starts with nothing answered.
    pub fn new(order: u32) -> OneOrder {
        OneOrder {
            order,
            answered: Mutex::new(0),
        }
    }
}

impl Gate for OneOrder {
    fn before<R: Wait>(&self, rt: &R, element: u16, _number: u64) {
        for _turn in 0..MOST_TURNS {
            let answered = *self.answered.lock(rt);
            if turn(self.order, answered) == u32::from(element) {
                return;
            }
        }
    }

    fn after<R: Wait>(&self, rt: &R, _element: u16, _number: u64) {
        let mut answered = self.answered.lock(rt);
        *answered = (*answered).saturating_add(1);
    }
}
