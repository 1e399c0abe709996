//! The cells by address, without the requests that wait for them.

use im_types::{Block, Cell, MAX_CELLS};

/// The content of a cell, whether or not requests wait for it.
#[derive(Clone, Copy)]
pub enum Content {
    Empty,
    Full(u64),
    Clashed(u64),
}

/// A cell of a block.
#[derive(Clone, Copy)]
pub struct PlainSlot {
    pub block: Block,
    pub state: Content,
}

/// Returns a cell with this state at which `waiting` requests wait.
pub fn presence_of(state: Content, waiting: usize) -> Cell {
    match state {
        Content::Empty if waiting == 0 => Cell::Empty,
        Content::Empty => Cell::Waiting,
        Content::Full(value) => Cell::Full(value),
        Content::Clashed(value) => Cell::Clashed(value),
    }
}

/// Returns the slot at an address, or `None` if it is in no block.
pub fn slot_at(slots: &[Option<PlainSlot>], a: u32) -> Option<PlainSlot> {
    let at = a as usize;
    if at < slots.len() { slots[at] } else { None }
}

/// Changes the state of the cell at an address, if it is in a block.
pub fn set(slots: &mut [Option<PlainSlot>], a: u32, state: Content) {
    let at = a as usize;
    if let Some(slot) = slot_at(slots, a)
        && at < slots.len()
    {
        slots[at] = Some(PlainSlot {
            block: slot.block,
            state,
        });
    }
}

/// Returns whether the first `n` slots exist and are in no block.
pub fn begins_free(slots: &[Option<PlainSlot>], n: u32) -> bool {
    for i in 0..n as usize {
        if i >= slots.len() || slots[i].is_some() {
            return false;
        }
    }
    true
}

/// Returns the least base from which `n` slots are in no block, or `None` if there is none.
pub fn place(slots: &[Option<PlainSlot>], n: u32) -> Option<u32> {
    for base in 0..MAX_CELLS {
        let at = base as usize;
        if at >= slots.len() {
            return None;
        }
        if begins_free(&slots[at..], n) {
            return Some(base);
        }
    }
    None
}

// Returns a block's slot with an empty cell. A slot in no block stays as it is.
fn emptied(slot: Option<PlainSlot>) -> Option<PlainSlot> {
    match slot {
        Some(slot) => Some(PlainSlot {
            block: slot.block,
            state: Content::Empty,
        }),
        None => None,
    }
}

/// Empties the cells of `n` slots from `base` on. Slots past the end are left out.
pub fn empty(slots: &mut [Option<PlainSlot>], base: u32, n: u32) {
    for i in 0..n {
        let at = base as usize + i as usize;
        if at < slots.len() {
            slots[at] = emptied(slots[at]);
        }
    }
}

/// Sets `n` slots from `base` on. Slots past the end are left out.
pub fn fill(slots: &mut [Option<PlainSlot>], base: u32, n: u32, slot: Option<PlainSlot>) {
    for i in 0..n {
        let at = base as usize + i as usize;
        if at < slots.len() {
            slots[at] = slot;
        }
    }
}
