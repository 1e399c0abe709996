//! The requests that wait at a cell, for C.
ghost use Rattle.std.specs.Prelude.{◌≡◌, min, map, length, IsSome};
ghost use Rattle.im_types.specs.Types.{waiters_at};
ghost use Rattle.im_c.specs.{Handing.ShowsHeld, Waiting.first_places, Waiting.TellsWaiters, Waiting.waiter_told};

use crate::image::LtImage;
use crate::plain::LtWaiter;
use im_listed::Image;
use im_types::Waiter;

// A request that waits, in C's form.
fn waiter_told(who: Waiter) -> LtWaiter
    ensures { result ≡ waiter_told who }
{
    LtWaiter {
        element: who.element,
        number: who.number,
    }
}

// Writes the requests that wait at a cell, as many as there are places. Returns how many it wrote.
fn tell_waiters(image: &Image, address: u32, places: &mut [LtWaiter]) -> usize
    ensures count { let who = waiters_at image.now.engine.memory.cells address in
        result ≡ min (length who) (length places.old) }
    ensures first { let who = waiters_at image.now.engine.memory.cells address in
        places.new ≡ first_places (map waiter_told who) places.old }
{
    let mut count = 0;
    for who in image.waiters(address) {
        if count == places.len() {
            return count;
        }
        places[count] = waiter_told(who);
        count += 1;
    }
    count
}

// The same, but none after a lost step.
fn told_waiters(image: &Image, address: u32, places: &mut [LtWaiter]) -> usize
    ensures { TellsWaiters image.now address places.old result places.new }
{
    match image.is_lost() {
        true => 0,
        false => tell_waiters(image, address, places),
    }
}

/// Writes the requests that wait at a cell at `waiters`, in their order of arrival, as many as there are places.
/// Returns how many it wrote: 0 if the address lies in no block, and after a lost step. Nothing changes.
#[unsafe(no_mangle)]
pub extern "C" fn lt_held_waiters(
    image: LtImage,
    address: u32,
    next: &mut LtImage,
    waiters: &mut [LtWaiter],
) -> usize
    requires some { IsSome image.value }
    ensures told { ShowsHeld image.value next.new.value (λ i. TellsWaiters i address waiters.old result waiters.new) }
{
    let held = image.into_box();
    let count = told_waiters(&held, address, waiters);
    *next = LtImage::of_box(held);
    count
}
