//! The members of a group, judged in their order before any of them acts.
ghost use Rattle.std.specs.Prelude.{◌≡◌, ◌+◌, ◌-◌, ◌<◌, ◌≤◌, ◌&&◌, ◌⊎◌, [], ◌∷◌, ◌++◌, length, take, IfSome};
ghost use Rattle.std.specs.Prelude.{if◌then◌else◌, IsNone, nat_lt, None};
ghost use Rattle.im_types.specs.Types.{MAX_GROUP, after, accept_each};
ghost use Rattle.im_groups.specs.Ahead.{AreAccepted, ServesBehind, ServesPrefix};
ghost use Rattle.im_groups.specs.Commands.{commands_at, takes_at, takes_place};

use crate::ahead::{accepts, judge_member, take_member};
use crate::line::CommandsAhead;
use crate::marks::{mark, mark_all};
use arrayvec::ArrayVec;
use im_memory::Memory;
use im_types::{Command, MAX_ELEMENTS, MAX_GROUP};

const ELEMENTS: usize = MAX_ELEMENTS as usize;

/// Returns whether a command takes one of the places that are left: the memory accepts it, and there is one. (Own.)
pub fn takes_place(memory: &Memory, left: u64, command: &Command) -> bool
    ensures { result ≡ takes_place memory.now.contents left command.now }
{
    accepts(memory, command) && left > 0
}

// Adds a member's command if it is accepted and has a place. Returns whether it has.
fn add_member(
    accepted: bool,
    left: &mut u64,
    member: &Command,
    commands: &mut ArrayVec<Command, MAX_GROUP>,
) -> bool
    requires room { length commands.old.items < MAX_GROUP }
    ensures commands { commands.new.items
        ≡ commands.old.items ++ (if accepted && nat_lt 0 left.old then member.now ∷ [] else []) }
    ensures left { left.new ≡ (if accepted && nat_lt 0 left.old then left.old - 1 else left.old) }
    ensures taken { result ≡ (accepted && nat_lt 0 left.old) }
{
    if accepted && *left > 0 {
        commands.push(*member);
        *left -= 1;
        true
    } else {
        false
    }
}

/// Judges the members of a group, each after the members before it, with the given number of places for commands. It
/// puts the commands that are accepted and have a place into `commands`, and returns the number of judged members. It
/// takes no memory. (Own.)
///
/// It stops before the first member whose acceptance isn't known before the others act (`judge_behind`). It judges at
/// least one member if there are any, and all of them if they are requests.
pub fn judge_members(
    memory: &Memory,
    places: u64,
    members: &[Command],
    commands: &mut ArrayVec<Command, MAX_GROUP>,
) -> usize
    requires fits { length members.now ≤ MAX_GROUP }
    requires empty { commands.old.items ≡ [] }
    ensures commands { commands.new.items ≡ commands_at memory.now.contents places (take result members.now) }
    ensures begins { ServesPrefix memory.now.contents commands.new.items members.now result }
{
    let mut taken = ArrayVec::new();
    judge_each(memory, places, members, commands, &mut taken)
}

/// Judges the members of a group as [`judge_members`] does, and puts for each judged member into `taken` whether it is
/// accepted and has a place. (Own.)
pub fn judge_each(
    memory: &Memory,
    places: u64,
    members: &[Command],
    commands: &mut ArrayVec<Command, MAX_GROUP>,
    taken: &mut ArrayVec<bool, MAX_GROUP>,
) -> usize
    requires fits { length members.now ≤ MAX_GROUP }
    requires empty { commands.old.items ≡ [] }
    requires none { taken.old.items ≡ [] }
    ensures commands { commands.new.items ≡ commands_at memory.now.contents places (take result members.now) }
    ensures taken { taken.new.items ≡ takes_at memory.now.contents places (take result members.now) }
    ensures begins { ServesPrefix memory.now.contents commands.new.items members.now result }
{
    let mut left = places;
    let mut marks = [false; ELEMENTS];
    for i in 0..members.len() {
        let ahead = CommandsAhead::of(&[], commands.as_slice());
        match judge_member(memory, &ahead, &marks, &members[i]) {
            Some(accepted) => {
                mark(&mut marks, &members[i]);
                taken.push(add_member(accepted, &mut left, &members[i], commands));
            }
            None => return i,
        }
    }
    members.len()
}

/// Judges the members of a group as [`judge_each`] does, if each judged member is accepted and has a place. Returns the
/// number of judged members then: their commands are the members themselves, so none is copied. Returns `None` if there
/// are fewer places than members, or if a member isn't accepted in its turn. It takes no memory. (Own.)
pub fn judge_whole(memory: &Memory, places: u64, members: &[Command]) -> Option<usize>
    requires fits { length members.now ≤ MAX_GROUP }
    ensures accepted { IfSome result (λ many. AreAccepted memory.now.contents (take many members.now)) }
    ensures enough { IfSome result (λ many. many ≤ places) }
    ensures begins { IfSome result (λ many.
        ServesPrefix memory.now.contents (take many members.now) members.now many) }
    ensures none { IsNone result
        → (places < length members.now) ⊎ (accept_each memory.now.contents members.now ≡ None) }
{
    if members.len() as u64 > places {
        return None;
    }
    judge_whole_next(memory, &[], members)
}

/// Judges members as [`judge_next`] does, if each judged member is accepted. Returns the number of judged members then:
/// their commands are the members themselves, so none is copied. Returns `None` if a member isn't accepted in its turn.
/// It takes no memory. (Own.)
#[inline(always)]
pub fn judge_whole_next(memory: &Memory, group: &[Command], members: &[Command]) -> Option<usize>
    requires fits { (length group.now ≤ MAX_GROUP) × (length members.now ≤ MAX_GROUP) }
    requires accepted { AreAccepted memory.now.contents group.now }
    ensures accepted { IfSome result (λ many.
        AreAccepted (after memory.now.contents group.now) (take many members.now)) }
    ensures begins { IfSome result (λ many.
        ServesBehind memory.now.contents group.now (take many members.now) members.now many) }
    ensures none { IsNone result → accept_each (after memory.now.contents group.now) members.now ≡ None }
{
    let mut marks = [false; ELEMENTS];
    mark_all(&mut marks, group);
    for i in 0..members.len() {
        let member = &members[i];
        let ahead = CommandsAhead::of(group, &members[..i]);
        match take_member(memory, &ahead, &mut marks, member) {
            Some(accepted) => {
                if !accepted {
                    return None;
                }
            }
            None => return Some(i),
        }
    }
    Some(members.len())
}

/// Judges members behind the commands of a group that is ahead of theirs, before any of both acts. There is a place for
/// each of them: they are no more than there are places. It puts the commands that are accepted into `commands`, and
/// for each judged member into `taken` whether it is. It returns the number of judged members. It takes no memory.
/// (Own.)
///
/// It stops before the first member whose acceptance isn't known before the others act (`judge_behind`): that may be
/// the first one if a command is ahead.
pub fn judge_next(
    memory: &Memory,
    group: &[Command],
    members: &[Command],
    commands: &mut ArrayVec<Command, MAX_GROUP>,
    taken: &mut ArrayVec<bool, MAX_GROUP>,
) -> usize
    requires fits { (length group.now ≤ MAX_GROUP) × (length members.now ≤ MAX_GROUP) }
    requires accepted { AreAccepted memory.now.contents group.now }
    requires empty { (commands.old.items ≡ []) × (taken.old.items ≡ []) }
    ensures commands { commands.new.items
        ≡ commands_at (after memory.now.contents group.now) (length members.now) (take result members.now) }
    ensures taken { taken.new.items
        ≡ takes_at (after memory.now.contents group.now) (length members.now) (take result members.now) }
    ensures begins { ServesBehind memory.now.contents group.now commands.new.items members.now result }
{
    let mut left = members.len() as u64;
    let mut marks = [false; ELEMENTS];
    mark_all(&mut marks, group);
    for i in 0..members.len() {
        let ahead = CommandsAhead::of(group, commands.as_slice());
        match judge_member(memory, &ahead, &marks, &members[i]) {
            Some(accepted) => {
                mark(&mut marks, &members[i]);
                taken.push(add_member(accepted, &mut left, &members[i], commands));
            }
            None => return i,
        }
    }
    members.len()
}
