//! Lists of waiters, over one table of nodes, and a random walk beside lists that are kept plainly.
ghost use Rattle.std.specs.Prelude.{◌<◌, length};

use im_arena::{Arena, hand_over};
use im_story::{Dice, Phrase, Saying};
use im_types::{NONE, NodeRecord, Waiter};
use std::alloc::Global;
use std::collections::VecDeque;

/// A list that is kept plainly.
pub type Queue = VecDeque<Waiter>;

// Makes a call of one list, if it exists.
fn tell_of(arena: &mut Arena, call: &Phrase, said: &mut Saying) {
    let list = call.address(0);
    if list >= arena.list_count() {
        return said.fail("no such list");
    }
    match call.form() {
        "list _ push _._" => said.number(arena.push_back(list, call.waiter(1))),
        "list _ pop" => said.waiter(arena.pop_front(list)),
        "list _ front" => said.waiter(arena.front(list)),
        "list _ at _" => said.waiter(arena.at(list, call.address(1))),
        "list _ length" => said.number(arena.len(list)),
        "list _ empty" => said.number(arena.is_empty(list)),
        "list _ ends" => said.either(arena.ends(list).is_none(), "none", "some"),
        _ => said.fail("no call of lists"),
    }
}

// Takes the first waiter off a list and puts another one on another list, if both lists exist and a node is free.
fn tell_handed(arena: &mut Arena, call: &Phrase, said: &mut Saying) {
    let (from, to, lists) = (call.address(0), call.address(1), arena.list_count());
    if from >= lists || to >= lists || from == to || arena.is_full() {
        return said.fail("no such lists, or no node is free");
    }
    said.waiter(hand_over(arena, from, to, call.waiter(2)))
}

/// Makes a call of lists.
pub fn tell(arena: &mut Arena, call: &Phrase, said: &mut Saying) {
    match call.form() {
        "hand over _ _ _._" => tell_handed(arena, call, said),
        "lists" => said.number(arena.list_count()),
        "nodes" => said.number(arena.node_count()),
        "free" => said.number(arena.free_count()),
        "full" => said.number(arena.is_full()),
        _ => tell_of(arena, call, said),
    }
}

// Pushes a waiter on a list and on the plain one, if a node is free, or pops one of each. Returns whether they answer
// the same.
fn call_both(arena: &mut Arena, list: u32, queue: &mut Queue, pushed: Option<Waiter>) -> bool
    requires { list < length arena.old.held.lists }
{
    match pushed {
        None => arena.pop_front(list) == queue.pop_front(),
        Some(who) if arena.is_full() => !arena.push_back(list, who),
        Some(who) => arena.push_back(list, who) && queue.push_back(who).is_ok(),
    }
}

// Returns whether a list is this one, read by its places, by a walk, and by the links of its nodes.
fn is_list(arena: &Arena, list: u32, queue: &Queue) -> bool
    requires { list < length arena.now.held.lists }
{
    let mut walk = arena.waiters(list);
    let (mut link, end) = match arena.ends(list) {
        Some(ends) => (ends.first, ends.last),
        None => (NONE, NONE),
    };
    let mut last = NONE;
    for place in 0..arena.len(list) {
        if link >= arena.node_count() {
            return false;
        }
        let NodeRecord::Listed { next, waiter } = arena.node(link) else {
            return false;
        };
        let wanted = Some(waiter);
        if queue.get(place as usize).copied() != wanted
            || arena.at(list, place) != wanted
            || walk.next() != wanted
        {
            return false;
        }
        last = link;
        link = next;
    }
    walk.next() == None
        && link == NONE
        && end == last
        && arena.len(list) as usize == queue.len()
        && arena.is_empty(list) == queue.is_empty()
        && arena.front(list) == queue.front().copied()
}

// Returns how many nodes hold a waiter.
fn used(arena: &Arena) -> u32 {
    let mut used = 0u32;
    for index in 0..arena.node_count() {
        let is_used = matches!(arena.node(index), NodeRecord::Listed { .. });
        used = used.saturating_add(u32::from(is_used));
    }
    used
}

// Returns whether the lists are these, and the counts of nodes are right.
fn agrees(arena: &Arena, plain: &[Queue]) -> bool {
    let mut held = 0u32;
    for list in 0..arena.list_count() {
        let Some(queue) = plain.get(list as usize) else {
            return false;
        };
        if !is_list(arena, list, queue) {
            return false;
        }
        held = held.saturating_add(arena.len(list));
    }
    arena.list_count() as usize == plain.len()
        && used(arena) == held
        && arena.free_count().saturating_add(held) == arena.node_count()
        && arena.is_full() == (held == arena.node_count())
}

/// Makes so many empty lists.
pub fn queues(alloc: Global, count: u32) -> Option<Vec<Queue>> {
    let mut plain = Vec::new(alloc);
    for _list in 0..count {
        plain.push(VecDeque::new(alloc)).ok()?;
    }
    Some(plain)
}

/// Makes a thrown call of this number. Returns whether the lists are then as they are kept plainly.
pub fn step(arena: &mut Arena, plain: &mut [Queue], number: u64, dice: &mut Dice) -> bool {
    if arena.list_count() == 0 {
        return false;
    }
    let (list, pushes) = (dice.below(arena.list_count()), dice.below(2) == 0);
    let Some(queue) = plain.get_mut(list as usize) else {
        return false;
    };
    let who = Waiter { element: 1, number };
    call_both(arena, list, queue, pushes.then_some(who)) && agrees(arena, plain)
}
