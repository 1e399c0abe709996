//! Operations on the cells and on the queue of all that wait.

use crate::cells::{Content, PlainSlot, empty, fill, place, set, slot_at};
use crate::effects::access;
use crate::queue::{Deferred, count_at, park};
use im_types::{Block, Entry, Kind, MAX_CELLS, Op, Reply, Waiter};

/// The effect of an operation: the asker's entry. Of the requests that wait at `address`, the first `count` are still
/// to be given `value`.
#[derive(Clone, Copy)]
pub struct Effect {
    pub entry: Entry,
    pub address: u32,
    pub count: usize,
    pub value: u64,
}

fn tells(reply: Reply) -> Effect {
    Effect {
        entry: Entry::Answered(reply),
        address: 0,
        count: 0,
        value: 0,
    }
}

/// An operation on one cell, with the kind of block that it needs and the cell's address.
#[derive(Clone, Copy)]
pub struct CellOp {
    pub op: Op,
    pub kind: Kind,
    pub address: u32,
}

// Does an operation on one cell.
fn access_at(
    slots: &mut [Option<PlainSlot>],
    queue: &mut Vec<Deferred>,
    who: Waiter,
    at: CellOp,
) -> Effect {
    let Some(slot) = slot_at(slots, at.address) else {
        return tells(Reply::NoCell);
    };
    if slot.block.kind != at.kind {
        return tells(Reply::WrongKind);
    }
    let waiting = count_at(queue.as_slice(), at.address);
    let served = access(slot.state, waiting, at.op);
    park(queue, at.address, who, served.entry);
    set(slots, at.address, served.state);
    Effect {
        entry: served.entry,
        address: at.address,
        count: served.count,
        value: served.value,
    }
}

/// Makes a block.
fn allocate(slots: &mut [Option<PlainSlot>], queue: &[Deferred], kind: Kind, n: u32) -> Effect {
    if n == 0 {
        return tells(Reply::BadLength);
    }
    let Some(base) = place(slots, n) else {
        return tells(Reply::NoSpace);
    };
    let slot = PlainSlot {
        block: Block {
            base,
            length: n,
            kind,
        },
        state: Content::Empty,
    };
    fill(slots, base, n, Some(slot));
    tells(Reply::Base(base))
}

// Returns whether a request waits at a cell with this state and `waiting` requests in its queue.
fn has_waiter(state: Content, waiting: usize) -> bool {
    match state {
        Content::Empty => waiting > 0,
        Content::Full(_) | Content::Clashed(_) => false,
    }
}

// Returns whether a request waits at the cell at an address.
fn is_waiting(slots: &[Option<PlainSlot>], queue: &[Deferred], a: u32) -> bool {
    match slot_at(slots, a) {
        Some(slot) => has_waiter(slot.state, count_at(queue, a)),
        None => false,
    }
}

// Returns whether a request waits at one of `n` cells from `base` on.
fn any_waits(slots: &[Option<PlainSlot>], queue: &[Deferred], base: u32, n: u32) -> bool {
    for i in 0..n {
        if is_waiting(slots, queue, base.saturating_add(i)) {
            return true;
        }
    }
    false
}

// Returns the length of the block with this base, or the reply that leaves its cells as they are.
fn unwaited_for(slots: &[Option<PlainSlot>], queue: &[Deferred], a: u32) -> Result<u32, Reply> {
    let Some(slot) = slot_at(slots, a) else {
        return Err(Reply::NoBlock);
    };
    if slot.block.base != a {
        return Err(Reply::NoBlock);
    }
    if any_waits(slots, queue, a, slot.block.length) {
        return Err(Reply::StillWaiting);
    }
    Ok(slot.block.length)
}

/// Frees the block with this base, unless a request waits for one of its cells.
fn release(slots: &mut [Option<PlainSlot>], queue: &[Deferred], a: u32) -> Effect {
    match unwaited_for(slots, queue, a) {
        Ok(n) => {
            fill(slots, a, n, None);
            tells(Reply::Released)
        }
        Err(reply) => tells(reply),
    }
}

/// Empties the cells of the block with this base, unless a request waits for one of them.
fn reset(slots: &mut [Option<PlainSlot>], queue: &[Deferred], a: u32) -> Effect {
    match unwaited_for(slots, queue, a) {
        Ok(n) => {
            empty(slots, a, n);
            tells(Reply::Cleared)
        }
        Err(reply) => tells(reply),
    }
}

/// Does an asker's operation on the cells. The requests that it resumes are left in the queue.
pub fn act(
    slots: &mut [Option<PlainSlot>],
    queue: &mut Vec<Deferred>,
    who: Waiter,
    op: Op,
) -> Effect {
    match op {
        Op::Alloc(kind, n) => allocate(slots, queue.as_slice(), kind, n),
        Op::Release(a) => release(slots, queue.as_slice(), a),
        Op::Reset(a) => reset(slots, queue.as_slice(), a),
        Op::Fetch(a) | Op::Store(a, _) => {
            let at = CellOp {
                op,
                kind: Kind::I,
                address: a,
            };
            access_at(slots, queue, who, at)
        }
        Op::Take(a) | Op::Put(a, _) => {
            let at = CellOp {
                op,
                kind: Kind::M,
                address: a,
            };
            access_at(slots, queue, who, at)
        }
    }
}
