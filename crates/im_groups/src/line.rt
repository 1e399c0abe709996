//! What is ahead of a member that is judged: the commands of the group before its own, and those of the members before
//! it.
ghost use Rattle.std.specs.Prelude.{◌≡◌, ◌+◌, ◌≤◌, ◌++◌, length, ◌==◌};
ghost use Rattle.std.specs.List.{list_any};
ghost use Rattle.im_types.specs.Types.{MAX_GROUP, LAST};
ghost use Rattle.im_groups.specs.Ahead.{asks_at_once, bounds_behind_all};

use crate::ahead::{is_asked_at_once, moved_behind};
use im_types::Command;
use std::marker::Model;

/// The commands ahead of a member: at most 16 of a group ahead, and at most 16 of the members before it. Contracts see
/// all of them, in their order. (Own.)
#[derive(Drop)]
pub struct CommandsAhead<'a> {
    group: &'a [Command],
    members: &'a [Command],
}

impl<'a> Model for CommandsAhead<'a> {
    ghost use Rattle.std.specs.Prelude.{◌≤◌, List, ◌++◌, length};
    ghost use Rattle.im_types.specs.Types.{Command, MAX_GROUP};

    ghost Value = { List Command };

    ghost view = { λ a. a.group.now ++ a.members.now };

    ghost invariant = { λ a. (length a.group.now ≤ MAX_GROUP) × (length a.members.now ≤ MAX_GROUP) };
}

impl<'a> CommandsAhead<'a> {
    /// The commands of a group, and those of the members before.
    #[inline(always)]
    pub fn of(group: &'a [Command], members: &'a [Command]) -> CommandsAhead<'a>
        requires group { length group.now ≤ MAX_GROUP }
        requires members { length members.now ≤ MAX_GROUP }
        ensures { result ≡ group.now ++ members.now }
    {
        CommandsAhead { group, members }
    }

    /// Whether there is none.
    pub fn is_empty(&self) -> bool
        ensures { result ≡ (length self.now == 0) }
    {
        self.group.len() + self.members.len() == 0
    }

    /// The bounds of an element's window after them.
    pub(crate) fn move_bounds(&self, bounds: (u64, u64), element: u16) -> (u64, u64)
        requires low { bounds.1 ≤ LAST + 1 }
        ensures { result ≡ bounds_behind_all element self.now bounds }
    {
        let moved = moved_behind(bounds, element, self.group);
        moved_behind(moved, element, self.members)
    }

    /// Whether one of them is the request under an element's number, and is answered at once.
    pub(crate) fn ask_at_once(&self, element: u16, number: u64) -> bool
        ensures { result ≡ list_any (asks_at_once (record { element = element; number = number })) self.now }
    {
        let in_group = is_asked_at_once(self.group, element, number);
        let in_members = is_asked_at_once(self.members, element, number);
        in_group | in_members
    }
}
