//! Where an element's next request stands in its window.
ghost use Rattle.std.specs.Prelude.{◌≡◌, ◌≤◌, IfOk, IfErr, Err};
ghost use Rattle.im_types.specs.Types.{bounds};
ghost use Rattle.im_asks.specs.Windows.{AreAnsweredUpTo, is_answered_at, IsPlaceWithin, IsWindowPlace};

use crate::window_place::WindowPlace;
use im_memory::Memory;
use im_types::{Entry, Refusal, WINDOW};

// Returns whether the entry under an element's number is kept and answered.
fn is_answered_at(memory: &Memory, element: u16, number: u64) -> bool
    ensures { result ≡ is_answered_at memory.now.contents element number }
{
    match memory.kept(element, number) {
        Some(kept) => !matches!(kept.entry, Entry::Waiting),
        None => false,
    }
}

/// Returns the first number within these bounds whose entry isn't answered, or the next number.
pub(crate) fn first_unanswered(memory: &Memory, element: u16, bounds: (u64, u64)) -> u64
    requires { bounds.0 ≤ bounds.1 }
    ensures { AreAnsweredUpTo memory.now.contents element bounds result }
{
    for number in bounds.0..bounds.1 {
        if !is_answered_at(memory, element, number) {
            return number;
        }
    }
    bounds.1
}

// Returns where the next request of an element stands within these bounds.
fn place_within(memory: &Memory, element: u16, bounds: (u64, u64)) -> WindowPlace
    ensures { IsPlaceWithin memory.now.contents element bounds result }
{
    if bounds.1.saturating_sub(bounds.0) < WINDOW {
        return WindowPlace::Next(bounds.1);
    }
    let upto = first_unanswered(memory, element, bounds);
    if upto == bounds.0 {
        return WindowPlace::Full;
    }
    WindowPlace::Confirm {
        base: bounds.0,
        upto,
    }
}

/// Returns where an element's next request stands.
///
/// A window has 64 entries at most. While there is a place in it, the next request has the next number, which may be
/// past the last one of all. A full window, and no other, is to be confirmed: up to its first entry that isn't answered
/// yet.
///
/// Refused with `NoElement`.
pub fn next_place(memory: &Memory, element: u16) -> Result<WindowPlace, Refusal>
    ensures found { IfOk result (λ place. IsWindowPlace memory.now.contents element place) }
    ensures refused { IfErr result (λ refusal. bounds memory.now.contents.windows element ≡ Err refusal) }
{
    match memory.window(element) {
        Ok(bounds) => Ok(place_within(memory, element, bounds)),
        Err(refusal) => Err(refusal),
    }
}
