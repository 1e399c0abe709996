//! A table of cells, the table that is restored from the records of its cells, and a random walk beside slots that are
//! kept plainly.
ghost use Rattle.std.specs.Prelude.{◌≡◌, ◌^◌, ◌<◌, map, length, IfOk};
ghost use Rattle.im_cell.specs.Slots.{HoldsBlocks, shown_cell, shown_slot, slot_at};

use im_cell::{CellTable, Slot};
use im_story::{Phrase, Saying};
use im_types::{Block, Cell, CellRecord, Kind, PresenceTag};
use std::alloc::{AllocError, Global};

// Returns the tag of a cell. The table doesn't know who waits.
fn tag_of(cell: Cell) -> PresenceTag
    ensures { shown_cell result ≡ cell }
{
    match cell {
        Cell::Empty => PresenceTag::Empty,
        Cell::Waiting => PresenceTag::Waiting { first: 5, last: 3 },
        Cell::Full(value) => PresenceTag::Full(value),
        Cell::Clashed(value) => PresenceTag::Clashed(value),
    }
}

// Returns the record of a cell, with a wrong hole if the cell is free.
fn record_at(table: &CellTable, a: u32) -> CellRecord
    ensures { shown_slot result ≡ slot_at table.now a }
{
    match table.slot(a) {
        Some(slot) => CellRecord::Held {
            block: slot.block,
            tag: tag_of(slot.cell),
        },
        None => CellRecord::Free { hole: 7, next: a },
    }
}

fn records_of(alloc: Global, table: &CellTable) -> Result<Vec<CellRecord>, AllocError>
    ensures shown { IfOk result (λ records. map shown_slot records.items ≡ table.now) }
    ensures few { length table.now < 2 ^ 32 }
    ensures blocks { HoldsBlocks table.now }
{
    // The contract of this call says that blocks are whole.
    let _ = table.block_of(0);
    let mut records = Vec::new(alloc);
    for a in 0..table.cells() {
        records.push(record_at(table, a))?;
    }
    Ok(records)
}

// Returns the table that is restored from the records of its cells.
fn restored(alloc: Global, table: &CellTable) -> Result<CellTable, AllocError> {
    let records = records_of(alloc, table)?;
    CellTable::restore(alloc, records.as_slice()).map_err(|_| AllocError)
}

// Puts the restored table in the place of a table. Returns whether there was memory for it.
fn restore(alloc: Global, table: &mut CellTable) -> bool {
    restored(alloc, table).map(|other| *table = other).is_ok()
}

// Makes I blocks of one cell, each at the next address from 0 on. Returns how many of them are made there.
fn place_ones(table: &mut CellTable, count: u32) -> u32 {
    let otherwise = (0..count).find(|a| table.place(Kind::I, 1) != Some(*a));
    otherwise.unwrap_or(count)
}

// Releases blocks, in steps of two from one on, upwards or downwards. Returns how many are released.
fn release_each(table: &mut CellTable, count: u32, first: u32, ups: bool) -> u32 {
    let by = if ups { 2 } else { u32::MAX - 1 };
    let base_of = |done: u32| first.wrapping_add(done.wrapping_mul(by));
    let otherwise = (0..count).find(|done| !table.release(base_of(*done)));
    otherwise.unwrap_or(count)
}

// Makes a block. A block of no cell has no base.
fn place(table: &mut CellTable, kind: Kind, length: u32) -> Option<u32> {
    if length == 0 {
        return None;
    }
    table.place(kind, length)
}

// Sets a cell. Returns whether it is in a block.
fn set(table: &mut CellTable, a: u32, cell: Cell) -> bool {
    let is_there = table.slot(a).is_some();
    if is_there {
        table.set(a, cell)
    }
    is_there
}

/// Makes a call of a table.
pub fn tell(table: &mut CellTable, call: &Phrase, said: &mut Saying) {
    let (a, first, value) = (call.address(0), call.address(1), call.number(1));
    match call.form() {
        "place i _" => said.number_or_none(place(table, Kind::I, a)),
        "place m _" => said.number_or_none(place(table, Kind::M, a)),
        "release _" => said.number(table.release(a)),
        "reset _" => said.number(table.reset(a)),
        "set _ empty" => said.so(set(table, a, Cell::Empty), "set"),
        "set _ waiting" => said.so(set(table, a, Cell::Waiting), "set"),
        "set _ full _" => said.so(set(table, a, Cell::Full(value)), "set"),
        "set _ clashed _" => said.so(set(table, a, Cell::Clashed(value)), "set"),
        "cell _" => said.place(table.get(a), table.block_of(a)),
        "cells" => said.number(table.cells()),
        "restore" => {
            said.so(restore(call.alloc(), table), "");
            write!(said, "{} cells", table.cells())
        }
        "fill _" => write!(said, "{} blocks", place_ones(table, a)),
        "release _ from _ up" => write!(said, "{} blocks", release_each(table, a, first, true)),
        "release _ from _ down" => write!(said, "{} blocks", release_each(table, a, first, false)),
        _ => said.fail("no call of a table"),
    }
}

fn slot_at(slots: &[Option<Slot>], a: u32) -> Option<Slot> {
    slots.get(a as usize).copied().flatten()
}

// Writes so many slots from one on.
fn write(slots: &mut [Option<Slot>], from: u32, length: u32, slot: Option<Slot>) {
    for place in slots.iter_mut().skip(from as usize).take(length as usize) {
        *place = slot;
    }
}

// Returns whether so many slots from one on are there, and free.
fn are_free(slots: &[Option<Slot>], from: usize, length: u32) -> bool {
    let part = slots.get(from..from.saturating_add(length as usize));
    part.is_some_and(|part| part.iter().all(|slot| slot.is_none()))
}

// Makes a block at the least base where it has room.
fn place_plainly(slots: &mut [Option<Slot>], kind: Kind, length: u32) -> Option<u32> {
    let base = (0..slots.len()).find(|base| are_free(slots, *base, length))?;
    let base = u32::try_from(base).ok()?;
    let (block, cell) = (Block { base, length, kind }, Cell::Empty);
    write(slots, base, length, Some(Slot { block, cell }));
    Some(base)
}

// Releases a block, or empties its cells.
fn end_plainly(slots: &mut [Option<Slot>], base: u32, is_held: bool) -> bool {
    let Some(Slot { block, .. }) = slot_at(slots, base) else {
        return false;
    };
    let slot = |cell| Some(Slot { block, cell });
    if block.base != base || slots.contains(&slot(Cell::Waiting)) {
        return false;
    }
    let left = if is_held { slot(Cell::Empty) } else { None };
    write(slots, base, block.length, left);
    true
}

// Sets the same cell in both, if it is in a block.
fn set_both(table: &mut CellTable, slots: &mut [Option<Slot>], a: u32, cell: Cell) -> bool {
    let Some(Slot { block, .. }) = slot_at(slots, a) else {
        return true;
    };
    write(slots, a, 1, Some(Slot { block, cell }));
    set(table, a, cell)
}

// Makes one thrown call on the table and on the plain slots. Returns whether they answer the same.
fn call_both(table: &mut CellTable, slots: &mut [Option<Slot>], thrown: u64) -> bool {
    let number = thrown >> 40;
    let a = (number % 26) as u32;
    let n = (number % 6) as u32 + 1;
    let kind = if number % 5 < 3 { Kind::I } else { Kind::M };
    match (thrown >> 33 & 7, number % 4) {
        (0 | 1, _) => table.place(kind, n) == place_plainly(slots, kind, n),
        (2, _) => table.release(a) == end_plainly(slots, a, false),
        (3, _) => table.reset(a) == end_plainly(slots, a, true),
        (_, 0) => set_both(table, slots, a, Cell::Empty),
        (_, 1) => set_both(table, slots, a, Cell::Waiting),
        (_, 2) => set_both(table, slots, a, Cell::Full(number)),
        _ => set_both(table, slots, a, Cell::Clashed(number)),
    }
}

// Returns whether each address shows what the plain slots have, also past the last cell.
fn agrees(table: &CellTable, slots: &[Option<Slot>]) -> bool {
    (0..table.cells().saturating_add(2)).all(|a| {
        let slot = slot_at(slots, a);
        table.get(a) == slot.map(|slot| slot.cell)
            && table.block_of(a) == slot.map(|slot| slot.block)
    })
}

/// Makes a thrown call on the table. Returns whether it is as the plain slots are.
pub fn step(table: &mut CellTable, slots: &mut [Option<Slot>], thrown: u64) -> bool {
    call_both(table, slots, thrown) && agrees(table, slots)
}

/// Restores the table. Returns whether it is as the plain slots are.
pub fn restore_beside(alloc: Global, table: &mut CellTable, slots: &[Option<Slot>]) -> bool {
    restore(alloc, table) && agrees(table, slots)
}
