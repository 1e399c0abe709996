// Workloads on one list of an arena, which has as many nodes as a memory may have cells.
ghost use Rattle.std.specs.Prelude.{◌<◌, length, IfOk};

use im_arena::Arena;
use im_types::{MAX_CELLS, Refusal, Waiter};
use std::alloc::Global;

fn one_list(alloc: Global) -> Result<Arena, Refusal>
    ensures { IfOk result (λ arena. 0 < length arena.held.lists) }
{
    Arena::new(alloc, MAX_CELLS, 1)
}

fn push_one(arena: &mut Arena, number: u32) -> u64
    requires { 0 < length arena.old.held.lists }
    ensures { 0 < length arena.new.held.lists }
{
    let waiter = Waiter {
        element: 0,
        number: number as u64,
    };
    arena.push_back(0, waiter) as u64
}

fn pop_one(arena: &mut Arena) -> u64
    requires { 0 < length arena.old.held.lists }
    ensures { 0 < length arena.new.held.lists }
{
    match arena.pop_front(0) {
        Some(waiter) => waiter.number,
        None => 0,
    }
}

/// Puts waiters at the end of a list.
pub fn push(alloc: Global, count: u32) -> Result<u64, Refusal> {
    let mut arena = one_list(alloc)?;
    let mut sum = 0u64;
    for number in 0..count {
        sum = sum.wrapping_add(push_one(&mut arena, number));
    }
    Ok(sum)
}

/// Takes waiters off a list that has every node.
pub fn pop(alloc: Global, count: u32) -> Result<u64, Refusal> {
    let mut arena = one_list(alloc)?;
    for number in 0..MAX_CELLS {
        let _ = push_one(&mut arena, number);
    }
    let mut sum = 0u64;
    for _ in 0..count {
        sum = sum.wrapping_add(pop_one(&mut arena));
    }
    Ok(sum)
}

/// Puts a waiter on an empty list and takes it off, `count` times.
pub fn push_and_pop(alloc: Global, count: u32) -> Result<u64, Refusal> {
    let mut arena = one_list(alloc)?;
    let mut sum = 0u64;
    for number in 0..count {
        sum = sum.wrapping_add(push_one(&mut arena, number));
        sum = sum.wrapping_add(pop_one(&mut arena));
    }
    Ok(sum)
}
