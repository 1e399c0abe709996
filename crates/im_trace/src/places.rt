//! The answers that wait for their ports, each in its element's place.
ghost use Rattle.std.specs.Prelude.{◌≡◌, ◌<◌, ◌≤◌, true, false, length, IfSome, IfOk, if◌then◌else◌, slice_get};
ghost use Rattle.std.specs.Prelude.{slice_set, MatchOption, Some, None, sum_by};
ghost use Rattle.im_trace.specs.Log.{AreClaimed, AreVacant, sender_of, Takes, unclaimed_lines};

use crate::log::{Unclaimed, element_of};
use crate::record::leaves_line;
use im_types::Command;
use std::alloc::{AllocError, Global};

// Puts an answer into its element's place.
pub(crate) fn put_in(places: &mut Vec<Option<Unclaimed>>, answer: Unclaimed)
    requires { slice_get places.old.items (sender_of answer.command) ≡ Some None }
    ensures { places.new.items ≡ slice_set places.old.items (sender_of answer.command) (Some answer) }
{
    let element = element_of(&answer.command) as usize;
    places[element] = Some(answer);
}

// Takes the answer to a command out of its element's place, if it waits there.
pub(crate) fn take_from(
    places: &mut Vec<Option<Unclaimed>>,
    element: u16,
    command: &Command,
    seen: usize,
) -> Option<Unclaimed>
    ensures takes { Takes places.old.items element command.now result places.new.items }
    ensures later { IfSome result (λ w. seen ≤ w.before) }
{
    let at = element as usize;
    if at >= places.len() || !is_of(&places[at], command, seen) {
        return None;
    }
    places[at].take()
}

// Returns whether the answer that waits in a place is the answer to this command.
fn is_of(place: &Option<Unclaimed>, command: &Command, seen: usize) -> bool
    ensures same { result ≡ true → MatchOption place.now ⊥ (λ w. w.command ≡ command.now) }
    ensures later { result ≡ true → MatchOption place.now ⊥ (λ w. seen ≤ w.before) }
{
    match place {
        // It was served after the port asked, so its line stands after all that the port has seen. No clause of the
        // inbox says so.
        Some(waiting) => waiting.command == *command && seen <= waiting.before,
        None => false,
    }
}

// Makes the given number of places, all of them free.
pub(crate) fn free_places(
    alloc: Global,
    elements: u16,
) -> Result<Vec<Option<Unclaimed>>, AllocError>
    ensures { IfOk result (λ places. AreVacant places.items) }
{
    let mut places = Vec::with_capacity(alloc, elements as usize)?;
    for _ in 0..elements {
        places.push(None)?;
    }
    Ok(places)
}

// Returns whether the answer that waits in a place left a line.
fn has_line(place: &Option<Unclaimed>) -> bool
    ensures { length (unclaimed_lines place.now) ≡ (if result then 1 else 0) }
{
    match place {
        Some(waiting) => leaves_line(waiting.answer),
        None => false,
    }
}

// Returns whether no line waits in these places.
pub(crate) fn are_claimed(places: &[Option<Unclaimed>]) -> bool
    ensures claimed { result ≡ true → AreClaimed places.now }
    ensures waits { result ≡ false → 0 < sum_by (λ place. length (unclaimed_lines place)) places.now }
{
    for place in places {
        if has_line(place) {
            return false;
        }
    }
    true
}
