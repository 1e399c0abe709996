//! Where an element's next request stands behind commands that are asked and haven't acted yet.
ghost use Rattle.std.specs.Prelude.{◌≡◌, ℕ, List};
ghost use Rattle.{im_types.specs.Types.Command, im_types.specs.Types.Contents, im_groups.specs.Commands.answers_with};
ghost use Rattle.im_asks.specs.Behind.{bounds_asked, IsPlaceUpTo, NoneIsMissed, StandsAsReckoned, takes_next};

use crate::places::first_unanswered;
use crate::window_place::WindowPlace;
use im_memory::Memory;
use im_types::{Command, LAST, Request, WINDOW};
use std::cmp::{max, min};

// Returns whether a request is the next one within these bounds, and they have a place for it.
fn takes_next(bounds: (u64, u64), request: &Request) -> bool
    ensures { result ≡ takes_next bounds request.now }
{
    request.number == bounds.1
        && bounds.1.saturating_sub(bounds.0) < WINDOW
        && request.number < LAST + 1
}

/// Returns the bounds of an element's window behind a command that is asked. The next request takes its number, and a
/// confirmation within the window moves the base.
pub fn bounds_asked(bounds: (u64, u64), element: u16, command: &Command) -> (u64, u64)
    ensures { result ≡ bounds_asked element command.now bounds }
{
    match command {
        Command::Request(request) => {
            if request.element == element && takes_next(bounds, request) {
                (bounds.0, bounds.1 + 1)
            } else {
                bounds
            }
        }
        Command::Confirm {
            element: other,
            upto,
        } => {
            if *other == element && bounds.0 < *upto && *upto <= bounds.1 {
                (*upto, bounds.1)
            } else {
                bounds
            }
        }
    }
}

/// Returns where an element's next request stands in a window that will have these bounds, once what is asked has
/// acted. Its entries from `most` on are kept: a full window is confirmed up to there, or up to its first entry that
/// isn't answered yet.
pub fn place_up_to(memory: &Memory, element: u16, bounds: (u64, u64), most: u64) -> WindowPlace
    ensures { IsPlaceUpTo memory.now.contents element most bounds result }
{
    if bounds.1.saturating_sub(bounds.0) < WINDOW {
        return WindowPlace::Next(bounds.1);
    }
    let end = max(bounds.0, min(most, bounds.1));
    let upto = first_unanswered(memory, element, (bounds.0, end));
    if upto == bounds.0 {
        return WindowPlace::Full;
    }
    WindowPlace::Confirm {
        base: bounds.0,
        upto,
    }
}

/// An element's window stands, once what is asked has acted, where it was reckoned to stand: its bounds are those of
/// [`bounds_asked`], one command after another.
///
/// Two answers are the exceptions: `NotAnswered` to a confirmation, and `JournalFull`. It holds if no command is
/// answered so, with any number of places in the journal.
pub fn windows_stand_as_reckoned()
    ensures range { (m : Contents) (left element : ℕ) (commands : List Command)
        → NoneIsMissed (answers_with m left commands) → StandsAsReckoned m left element commands }
{}
