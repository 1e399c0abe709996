//! A random walk of commands over both memories, and what stays true of them.

use crate::memories::Memories;
use im_memory::Memory;
use im_story::Dice;
use im_types::{Cell, Command, Entry, Kept, Kind, Op, Waiter};

// Returns a command of one of three elements, or of one that doesn't exist.
fn any_command(dice: &mut Dice, memory: &Memory) -> Command {
    let element = match dice.below(20) {
        0 => 3,
        thrown => (thrown % 3) as u16,
    };
    let window = memory.window(element).unwrap_or((1, 1));
    dice.command(element, window, memory.cells())
}

// Makes one command. Returns whether it is accepted exactly if it changes something of its element's window.
fn turns(memories: &mut Memories, command: &Command) -> bool {
    let (element, number) = match command {
        Command::Request(request) => (request.element, request.number),
        Command::Confirm { element, .. } => (*element, 0),
    };
    let seen = |memory: &Memory| (memory.kept(element, number), memory.window(element));
    let (judged, before) = (memories.fast.judge(command), seen(&memories.fast));
    let answer = memories.step(command);
    let changed = seen(&memories.fast) != before;
    match answer {
        Some(Ok(_)) => judged == Ok(changed),
        Some(Err(refusal)) => judged == Err(refusal) && !changed,
        None => false,
    }
}

// Returns the cell that an entry waits for, if it waits.
fn awaited(memory: &Memory, kept: Kept) -> Option<u32> {
    let has_kind = |a, kind| memory.block(a).is_some_and(|block| block.kind == kind);
    match (kept.op, kept.entry) {
        (Op::Fetch(a), Entry::Waiting) if has_kind(a, Kind::I) => Some(a),
        (Op::Take(a), Entry::Waiting) if has_kind(a, Kind::M) => Some(a),
        _ => None,
    }
}

// Returns whether a request waits once at the cell that its entry waits for, and at no other.
fn waits_right(memory: &Memory, who: Waiter, kept: Kept) -> bool {
    let cell = awaited(memory, kept);
    (0..memory.cells()).all(|a| {
        let mut found = memory.waiters(a).filter(|waiter| *waiter == who);
        found.next().is_some() == (cell == Some(a)) && found.next().is_none()
    })
}

// Returns whether the window of an element is the same in both memories, with an entry for each request in it, which
// waits where it has to, and none beside it.
fn window_is_right(memories: &Memories, element: u16) -> bool {
    let (fast, plain) = (&memories.fast, &memories.plain);
    let (base, next) = fast.window(element).unwrap_or((1, 1));
    let is_right = |number: u64| {
        let kept = fast.kept(element, number);
        kept == plain.kept(element, number)
            && kept.is_some() == (base <= number && number < next)
            && kept.is_none_or(|kept| waits_right(fast, Waiter { element, number }, kept))
    };
    fast.window(element) == plain.window(element)
        && (base.saturating_sub(1)..next.saturating_add(2)).all(is_right)
}

// Returns whether a cell is the same in both memories with its waiters, is shown as waiting exactly if somebody waits
// for it, and exists exactly if its block does.
fn cell_is_right(memories: &Memories, a: u32) -> bool {
    let (fast, plain) = (&memories.fast, &memories.plain);
    let (cell, block) = (fast.cell(a), fast.block(a));
    (cell == Some(Cell::Waiting)) == fast.waiter(a, 0).is_some()
        && cell.is_some() == block.is_some()
        && plain.cell(a) == cell
        && plain.block(a) == block
        && memories.has_same_waiters(a)
}

// Returns whether each address of a block is in that block, and the block lies below the cell count.
fn block_is_whole(memory: &Memory, a: u32) -> bool {
    let Some(block) = memory.block(a) else {
        return true;
    };
    let end = block.base.wrapping_add(block.length);
    let is_there = block.base <= a && a < end && end <= memory.cells();
    is_there && (block.base..end).all(|b| memory.block(b) == Some(block))
}

/// Makes a thrown command. Returns whether both memories are the same then, and all that has to stay true of them
/// holds.
pub fn step(memories: &mut Memories, dice: &mut Dice) -> bool {
    let command = any_command(dice, &memories.fast);
    if !turns(memories, &command) {
        return false;
    }
    let fast = &memories.fast;
    (0..fast.elements().saturating_add(1)).all(|element| window_is_right(memories, element))
        && (0..fast.cells()).all(|a| cell_is_right(memories, a) && block_is_whole(fast, a))
}
