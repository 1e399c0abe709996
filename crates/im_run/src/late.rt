//! The requests of earlier scripts that are answered while a script is run.

use crate::sheet::Order;
use im_memory::Memory;
use im_text::{News, Waited};
use im_types::{Entry, Observer};
use std::alloc::{AllocError, Global};

// Returns the number of the first request of an element that these orders send, or `next` if they send none.
fn first_sent(orders: &[Order], element: u16, next: u64) -> u64 {
    for order in orders {
        if order.element == element {
            return order.next;
        }
    }
    next
}

// Adds an element's requests that wait, among these numbers.
fn add_waits(
    waits: &mut Vec<Waited>,
    memory: &Memory,
    element: u16,
    numbers: (u64, u64),
) -> Result<(), AllocError> {
    let (base, upto) = numbers;
    for number in base..upto {
        if memory.collect(element, number) == Ok(Entry::Waiting) {
            let entry = Entry::Waiting;
            waits.push(Waited {
                element,
                number,
                entry,
            })?;
        }
    }
    Ok(())
}

/// Returns the requests that wait in a memory, but for those that these orders send again.
pub(crate) fn waits_in(
    alloc: Global,
    memory: &Memory,
    orders: &[Order],
) -> Result<Vec<Waited>, AllocError> {
    let mut waits = Vec::new(alloc);
    for element in 0..memory.elements() {
        if let Ok((base, next)) = memory.window(element) {
            let upto = first_sent(orders, element, next);
            add_waits(&mut waits, memory, element, (base, upto))?;
        }
    }
    Ok(waits)
}

// Tells the answer to a request, if there is one.
fn tell_answer<N: Observer<News>>(memory: &Memory, who: Waited, observer: &mut N) {
    let (element, number) = (who.element, who.number);
    match memory.collect(element, number) {
        Ok(Entry::Waiting) => {}
        Ok(entry) => observer.tell(News::Answered(Waited {
            element,
            number,
            entry,
        })),
        Err(_) => {} // It was confirmed, and told before that.
    }
}

/// Tells the answers to those of these requests that are answered and still kept.
pub(crate) fn tell_late<N: Observer<News>>(memory: &Memory, waits: &[Waited], observer: &mut N) {
    for who in waits {
        tell_answer(memory, *who, observer);
    }
}
