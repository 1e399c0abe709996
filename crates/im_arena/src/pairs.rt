//! Calls on two lists in turn, through the public calls of an arena alone.
ghost use Rattle.std.specs.Prelude.{◌≡◌, ℕ, ◌<◌, ◌≢◌, [], ◌∷◌, ◌++◌, length, drop, IfSome, IfNone, slice_get};
ghost use Rattle.im_arena.specs.Lists.{free, IsHandedOver, list_at};

use crate::Arena;
use im_types::Waiter;

/// Takes the first waiter off the list `from`, and puts another one at the end of the list `to`. Returns the waiter
/// that it took. If the list `from` is empty, it returns `None` and changes nothing. A waiter on one list is never
/// reached from another list, whatever node it stands on.
pub fn hand_over(arena: &mut Arena, from: u32, to: u32, waiter: Waiter) -> Option<Waiter>
    requires from { from < length arena.old.held.lists }
    requires to { to < length arena.old.held.lists }
    requires apart { from ≢ to }
    requires room { 0 < free arena.old.held }
    ensures first { result ≡ slice_get (list_at arena.old.held from) 0 }
    ensures lists { IfSome result (λ _. IsHandedOver from to waiter arena.old.held arena.new.held) }
    ensures none { IfNone result (arena.new ≡ arena.old) }
{
    let first = arena.pop_front(from)?;
    let _ = arena.push_back(to, waiter);
    Some(first)
}
