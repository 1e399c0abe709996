//! Whether all of a script was served, at the end of a run that does it once.
ghost use Rattle.std.specs.Prelude.{◌≡◌, true, IfSome, IfNone, IsOk};
ghost use Rattle.im_run.specs.Planned.{all_below, AreServed, next_or};

use crate::numbering::next_of;
use crate::sheet::{AllOrders, Order};
use im_memory::Memory;
use im_serving::Intent;
use im_text::Reason;
use im_types::Refusal;

// Returns whether the requests among these, the first of which has this number, lie below a number.
fn are_below(next: u64, first: u64, intents: &[Intent]) -> bool
    ensures { result ≡ true → all_below next first intents.now ≡ true }
{
    let mut number = first;
    let mut rest = intents;
    while let Some((intent, later)) = rest.split_first() {
        if let Intent::Request(_op) = *intent {
            if number >= next {
                return false;
            }
            number += 1;
        }
        rest = later;
    }
    true
}

// Returns whether the requests of an order were served.
fn is_served(memory: &Memory, order: &Order) -> bool
    ensures { result ≡ true → all_below (next_or memory.now.contents.windows order.now.element) order.now.next
        order.now.intents.items ≡ true }
{
    let next = next_of(memory, order.element);
    are_below(next, order.next, order.intents.as_slice())
}

// Returns an element with a request that wasn't served, if there is one.
fn find_unserved(memory: &Memory, orders: &[Order]) -> Option<u16>
    ensures { IfNone result (AreServed memory.now.contents.windows orders.now) }
{
    for order in orders {
        if !is_served(memory, order) {
            return Some(order.element);
        }
    }
    None
}

/// Returns why a run ended. If nothing was refused, all requests of the script were served, if they are known.
pub fn with_whole(
    memory: &Memory,
    whole: &Option<AllOrders>,
    done: Result<(), Reason>,
) -> Result<(), Reason>
    ensures done { IsOk result → IsOk done }
    ensures served { IsOk result → IfSome whole.now (λ w. AreServed memory.now.contents.windows w.orders.items) }
{
    let Some(whole) = whole else {
        return done;
    };
    match done {
        Ok(()) => match find_unserved(memory, whole.orders.as_slice()) {
            Some(element) => Err(Reason::Request(element, Refusal::BadPlan)), // It would not be the script's end.
            None => Ok(()),
        },
        Err(reason) => Err(reason),
    }
}
