// Workloads on one block of all cells, and on who waits for them. Each call is of the next cell. Past the last cell
// each call is refused.
ghost use Rattle.std.specs.Prelude.{◌≡◌, ◌<◌, List, length, IfOk, Option};
ghost use Rattle.im_cell.specs.declared.Slot.{Slot};
ghost use Rattle.im_istore.specs.Agreement.{Agree, AgreeBut};

use im_arena::Arena;
use im_cell::CellTable;
use im_istore::{fetch, next_reader, store};
use im_mstore::{put, take};
use im_types::{Entry, Kind, MAX_CELLS, Refusal, Reply, Waiter};
use std::alloc::Global;

fn one_block(alloc: Global, kind: Kind) -> Result<(CellTable, Arena), Refusal>
    ensures { IfOk result (λ made. Agree made.0 made.1) }
{
    let mut table = CellTable::new(alloc, MAX_CELLS)?;
    let arena = Arena::new(alloc, MAX_CELLS, MAX_CELLS)?;
    let _ = table.place(kind, MAX_CELLS);
    Ok((table, arena))
}

fn waiter(number: u32) -> Waiter {
    Waiter {
        element: 0,
        number: number as u64,
    }
}

fn digest(entry: Entry) -> u64 {
    match entry {
        Entry::Answered(Reply::Value(value)) => value,
        Entry::Answered(_) => 1,
        Entry::Waiting => 2,
    }
}

// Fetches from each cell, or takes from it.
#[inline(always)]
fn read_each(kind: Kind, table: &mut CellTable, arena: &mut Arena, count: u32) -> u64
    requires { Agree table.old arena.old }
    ensures { Agree table.new arena.new }
{
    let mut sum = 0u64;
    for a in 0..count {
        if arena.is_full() {
            return sum;
        }
        let entry = match kind {
            Kind::I => fetch(table, arena, a, waiter(a)),
            Kind::M => take(table, arena, a, waiter(a)),
        };
        sum = sum.wrapping_add(digest(entry));
    }
    sum
}

// Takes the readers of a cell that a store made full.
fn resume_readers(arena: &mut Arena, a: u32) -> u64
    requires { a < length arena.old.held.lists }
    ensures { (slots : List (Option Slot)) → AgreeBut a slots arena.old → Agree slots arena.new }
{
    let mut sum = 0u64;
    while let Some(reader) = next_reader(arena, a) {
        sum = sum.wrapping_add(reader.number);
    }
    sum
}

fn store_each(table: &mut CellTable, arena: &mut Arena, count: u32) -> u64
    requires { Agree table.old arena.old }
    ensures { Agree table.new arena.new }
{
    let mut sum = 0u64;
    for a in 0..count {
        if let Reply::Stored = store(table, arena, a, a as u64) {
            sum = sum.wrapping_add(resume_readers(arena, a));
        }
    }
    sum
}

fn put_each(table: &mut CellTable, arena: &mut Arena, count: u32) -> u64
    requires { Agree table.old arena.old }
    ensures { Agree table.new arena.new }
{
    let mut sum = 0u64;
    for a in 0..count {
        if let (_, Some(taker)) = put(table, arena, a, a as u64) {
            sum = sum.wrapping_add(taker.number);
        }
    }
    sum
}

// Stores to each cell, or puts to it.
#[inline(always)]
fn write_each(kind: Kind, table: &mut CellTable, arena: &mut Arena, count: u32) -> u64
    requires { Agree table.old arena.old }
    ensures { Agree table.new arena.new }
{
    match kind {
        Kind::I => store_each(table, arena, count),
        Kind::M => put_each(table, arena, count),
    }
}

/// Fetches from `count` cells of a block of this kind, or takes from them. The first `full` cells are full.
#[inline(always)]
pub fn reads(alloc: Global, kind: Kind, full: u32, count: u32) -> Result<u64, Refusal> {
    let (mut table, mut arena) = one_block(alloc, kind)?;
    let _ = write_each(kind, &mut table, &mut arena, full);
    Ok(read_each(kind, &mut table, &mut arena, count))
}

/// Stores to `count` cells of a block of this kind, or puts to them. At each of the first `waiters` cells one waits.
#[inline(always)]
pub fn writes(alloc: Global, kind: Kind, waiters: u32, count: u32) -> Result<u64, Refusal> {
    let (mut table, mut arena) = one_block(alloc, kind)?;
    let _ = read_each(kind, &mut table, &mut arena, waiters);
    Ok(write_each(kind, &mut table, &mut arena, count))
}
