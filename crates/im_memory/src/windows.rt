//! Confirmations that are judged before they are done.
ghost use Rattle.std.specs.Prelude.{◌≡◌, ◌-◌, take, slice_get, slice_index_or, Some};
ghost use Rattle.std.specs.List.{list_any};
ghost use Rattle.im_types.specs.Types.{Window, new_window, kept_for, is_waiting, confirm_window};
ghost use Rattle.im_memory.specs.Confirming.{does_wait, forgets};

use im_sessions::Sessions;
use im_types::{Entry, Kept, Refusal};

// Returns whether the entry under an element's number waits.
fn waits(sessions: &Sessions, element: u16, number: u64) -> bool
    ensures { result ≡ does_wait (kept_for sessions.now (record { element = element; number = number })) }
{
    match sessions.kept(element, number) {
        Some(kept) => matches!(kept.entry, Entry::Waiting),
        None => false,
    }
}

// Returns whether an entry below a number waits.
fn any_waits(sessions: &Sessions, element: u16, base: u64, upto: u64) -> bool
    ensures { (w : Window) → slice_get sessions.now element ≡ Some w → w.base ≡ base
        → result ≡ list_any is_waiting (take (upto - base) w.kept) }
{
    for number in base..upto {
        if waits(sessions, element, number) {
            return true;
        }
    }
    false
}

/// Returns whether a confirmation would drop an entry, or why it would be refused.
pub fn judge_confirm(sessions: &Sessions, element: u16, upto: u64) -> Result<bool, Refusal>
    ensures { let windows = sessions.now in result
        ≡ forgets upto (slice_index_or windows element new_window) (confirm_window upto (slice_get windows element)) }
{
    let (base, next) = match sessions.window(element) {
        Ok(bounds) => bounds,
        Err(refusal) => return Err(refusal),
    };
    if upto > next {
        return Err(Refusal::Gap);
    }
    if any_waits(sessions, element, base, upto) {
        return Err(Refusal::NotAnswered);
    }
    Ok(base < upto)
}
