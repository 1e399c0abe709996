//! The changes that commands make to the full I cells, and the cells that are full, for a pane that shows them.
//! Contracts name the definitions of `im_types`.
#![tactic(auto)]

ghost use Rattle.std.specs.Prelude.{◌≡◌, ◌+◌, ◌≤◌, true, ◌++◌, length, take, drop, IfSome, IfOk, OnOk, Option};
ghost use Rattle.std.specs.Prelude.{option_map};
ghost use Rattle.std.specs.List.{AllByRecursion, list_any};
ghost use Rattle.im_types.specs.Types.{Held, held_at, full_in, presence_in, block_with_base, is_waiting_cell, is_below};
ghost use Rattle.im_types.specs.Types.{store_change_in, emptying_change, change_of, change_by, fill_at, opening};

use im_memory::Memory;
use im_types::{Block, Cell, Change, Command, Kind, Op};
use std::alloc::{AllocError, Global};

// Returns whether requests wait for a cell.
fn is_waiting(cell: Option<Cell>) -> bool
    ensures { (held : Option Held) → cell ≡ presence_in held → result ≡ is_waiting_cell held }
{
    matches!(cell, Some(Cell::Waiting))
}

// Returns the value of a full I cell, or `None` for any other cell.
fn full_value(block: Option<Block>, cell: Option<Cell>) -> Option<u64>
    ensures { (held : Option Held) → block ≡ option_map (λ h. h.block) held → cell ≡ presence_in held
        → result ≡ full_in held }
{
    match block {
        None => None,
        Some(block) => match block.kind {
            Kind::I => match cell {
                Some(Cell::Full(value)) => Some(value),
                _ => None,
            },
            Kind::M => None,
        },
    }
}

// Returns the change of a store.
fn store_change(a: u32, value: u64, block: Option<Block>, cell: Option<Cell>) -> Change
    ensures { (held : Option Held) → block ≡ option_map (λ h. h.block) held → cell ≡ presence_in held
        → result ≡ store_change_in a value held }
{
    match block {
        None => Change::Same,
        Some(block) => match block.kind {
            Kind::I => match cell {
                Some(Cell::Empty) => Change::Full(a, value),
                Some(Cell::Waiting) => Change::Full(a, value),
                Some(Cell::Full(_)) => Change::Gone(a, 1),
                Some(Cell::Clashed(_)) => Change::Same,
                None => Change::Same,
            },
            Kind::M => Change::Same,
        },
    }
}

// Returns the block if the address is its base.
fn with_base(a: u32, block: Option<Block>) -> Option<Block>
    ensures { (held : Option Held) → block ≡ option_map (λ h. h.block) held → result ≡ block_with_base a held }
{
    match block {
        None => None,
        Some(block) => { if block.base == a { Some(block) } else { None } }
    }
}

// Returns whether requests wait for one of `count` cells from `base` on.
fn is_one_waiting(memory: &Memory, base: u32, count: u32) -> bool
    requires { base + count ≤ length memory.now.contents.cells }
    ensures { result ≡ list_any is_waiting_cell (take count (drop base memory.now.contents.cells)) }
{
    let _cells = memory.cells();
    for i in 0..count {
        if is_waiting(memory.cell(base + i)) {
            return true;
        }
    }
    false
}

// Returns the change of a release or a reset.
fn emptying_change(memory: &Memory, a: u32) -> Change
    ensures { let cells = memory.now.contents.cells in
        result ≡ emptying_change cells a (block_with_base a (held_at cells a)) }
{
    let _cells = memory.cells();
    match with_base(a, memory.block(a)) {
        None => Change::Same,
        Some(block) => {
            if is_one_waiting(memory, a, block.length) {
                Change::Same
            } else {
                Change::Gone(a, block.length)
            }
        }
    }
}

// Returns the change of an operation.
fn change_of(memory: &Memory, op: Op) -> Change
    ensures { result ≡ change_of memory.now.contents.cells op }
{
    match op {
        Op::Alloc(_, _) => Change::Same,
        Op::Release(a) => emptying_change(memory, a),
        Op::Reset(a) => emptying_change(memory, a),
        Op::Fetch(_) => Change::Same,
        Op::Store(a, value) => store_change(a, value, memory.block(a), memory.cell(a)),
        Op::Take(_) => Change::Same,
        Op::Put(_, _) => Change::Same,
    }
}

/// Returns the change that a command would make to the full I cells, if the memory accepted it. The change names only
/// the memory's own cells. It takes one step for each cell of a block that is released or reset, and no memory.
pub fn change_by(memory: &Memory, command: &Command) -> Change
    ensures change { result ≡ change_by memory.now.contents command.now }
    ensures below { is_below (length memory.now.contents.cells) result ≡ true }
{
    let _cells = memory.cells();
    match command {
        Command::Request(request) => change_of(memory, request.op),
        Command::Confirm {
            element: _,
            upto: _,
        } => Change::Same,
    }
}

// Adds the change that fills a cell, if the cell has a value.
fn add_full(changes: &mut Vec<Change>, a: u32, value: Option<u64>) -> Result<(), AllocError>
    ensures { OnOk result (changes.new.items ≡ changes.old.items ++ fill_at a value) }
{
    match value {
        None => Ok(()),
        Some(value) => {
            changes.push(Change::Full(a, value))?;
            Ok(())
        }
    }
}

/// Returns the full I cells of a memory, in the order of their addresses. It returns them as changes that start from
/// cells of which none is full. They take 16 bytes each. Returns `AllocError` if that memory is refused.
pub fn full_cells(alloc: Global, memory: &Memory) -> Result<Vec<Change>, AllocError>
    ensures opening { IfOk result (λ changes. changes.items ≡ opening memory.now.contents) }
    ensures below { IfOk result (λ changes.
        AllByRecursion (λ c. is_below (length memory.now.contents.cells) c ≡ true) changes.items) }
{
    let mut changes = Vec::new(alloc);
    for a in 0..memory.cells() {
        add_full(&mut changes, a, full_value(memory.block(a), memory.cell(a)))?;
    }
    Ok(changes)
}
