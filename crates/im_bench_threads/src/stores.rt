//! The stores of elements. Each stores into cells of its own, and confirms its window when it is full. Also the engine
//! alone, which serves them.

use im_disk::Disk;
use im_engine::Engine;
use im_types::{Command, Op, Refusal, Request, WINDOW};

/// Returns the store with an index of an element, given how many stores each element does.
pub fn store(element: u16, index: u32, count: u32) -> Op {
    let first = u32::from(element.saturating_sub(1)).saturating_mul(count);
    let a = first.saturating_add(index);
    Op::Store(a, u64::from(a).saturating_add(7))
}

/// Returns the number of the request with an index.
pub fn number(index: u32) -> u64 {
    u64::from(index).saturating_add(1)
}

/// Returns whether the entries before the store with an index are confirmed first, because the window is full.
pub fn confirms(index: u32) -> bool {
    index > 0 && u64::from(index) % WINDOW == 0
}

// Serves a store of element 1, after its confirmation if there is one.
fn serve_one<D: Disk>(engine: &mut Engine<D>, index: u32, count: u32) -> Result<(), Refusal> {
    let number = number(index);
    if confirms(index) {
        let _confirmed = engine.serve(&Command::Confirm {
            element: 1,
            upto: number,
        })?;
    }
    let _entry = engine.serve(&Command::Request(Request {
        element: 1,
        number,
        op: store(1, index, count),
    }))?;
    Ok(())
}

/// Serves the stores of element 1, each by itself, up to the first that is refused. Returns how many were answered.
pub fn serve<D: Disk>(engine: &mut Engine<D>, count: u32) -> u64 {
    for index in 0..count {
        if serve_one(engine, index, count).is_err() {
            return u64::from(index);
        }
    }
    u64::from(count)
}
