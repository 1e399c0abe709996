// Requests to an engine on a file, one by one and in groups of sixteen, and turns of a checkpoint. The elements take
// turns. None asks for more than its window keeps, and each stores into a cell of its own.
use arrayvec::ArrayVec;
use im_disk::{Disk, FileDisk, Unknown};
use im_engine::{Engine, are_apart};
use im_types::{Command, MAX_CELLS, MAX_GROUP, Op, Refusal, Request, Served};

// How many elements ask. Element 0 made the block.
const ASKERS: u32 = 48;

// How many stores come before a turn.
const BEFORE: u32 = 16;

// The cells of a page. On an image of the largest size, as many stores as it has pages are each on a page of its own.
const STEP: u32 = 128;

// Returns the request with an index, which stores into this cell.
fn store_into(index: u32, cell: u32) -> Request {
    Request {
        element: (index % ASKERS + 1) as u16,
        number: (index / ASKERS) as u64 + 1,
        op: Op::Store(cell, index as u64 + 7),
    }
}

// Returns the request with an index.
fn store(index: u32) -> Request {
    store_into(index, index)
}

// Returns sixteen requests, from the one with this index on.
fn members(first: u32) -> ArrayVec<Request, MAX_GROUP> {
    let mut members = ArrayVec::new();
    for more in 0..16u32 {
        let _is_full = members.try_push(store(first.wrapping_add(more)));
    }
    members
}

// Returns how many members were served.
fn done(served: &[Served]) -> u64 {
    let mut sum = 0u64;
    for answer in served {
        if let Served::Done(_) = *answer {
            sum = sum.wrapping_add(1);
        }
    }
    sum
}

/// Serves `count` requests, each by itself. Returns how many were answered.
pub fn one_by_one<D: Disk>(engine: &mut Engine<D>, count: u32) -> u64 {
    let mut sum = 0u64;
    for index in 0..count {
        if engine.serve(&Command::Request(store(index))).is_ok() {
            sum = sum.wrapping_add(1);
        }
    }
    sum
}

/// Serves `count` requests, in groups of sixteen. Returns how many were answered.
pub fn together<D: Disk>(engine: &mut Engine<D>, count: u32) -> u64 {
    let mut sum = 0u64;
    for group in 0..count / 16 {
        let members = members(group.wrapping_mul(16));
        if are_apart(members.as_slice()) {
            let mut served = ArrayVec::new();
            engine.serve_group(&members, &mut served);
            sum = sum.wrapping_add(done(served.as_slice()));
        }
    }
    sum
}

/// Makes the same groups, and serves none: this is what `together` costs besides the engine. Returns how many requests
/// they have.
pub fn made(count: u32) -> u64 {
    let mut sum = 0u64;
    for group in 0..count / 16 {
        let members = members(group.wrapping_mul(16));
        if are_apart(members.as_slice()) {
            sum = sum.wrapping_add(members.len() as u64);
        }
    }
    sum
}

// Returns sixteen commands, the requests from the one with this index on.
fn commands(first: u32) -> ArrayVec<Command, MAX_GROUP> {
    let mut commands = ArrayVec::new();
    for more in 0..16u32 {
        let _is_full = commands.try_push(Command::Request(store(first.wrapping_add(more))));
    }
    commands
}

/// Serves `count` requests as a chain of groups of sixteen, each behind the one ahead. Returns how many were answered.
pub fn in_a_chain<D: Disk>(engine: &mut Engine<D>, count: u32) -> u64 {
    let mut sum = 0u64;
    for group in 0..count / 16 {
        let mut served = ArrayVec::new();
        let _ahead = engine.advance(&commands(group.wrapping_mul(16)), &mut served);
        sum = sum.wrapping_add(done(served.as_slice()));
    }
    let mut served = ArrayVec::new();
    let _none = engine.advance(&ArrayVec::new(), &mut served);
    sum.wrapping_add(done(served.as_slice()))
}

/// Makes the same groups, and serves none. Returns how many requests they have.
pub fn chain_made(count: u32) -> u64 {
    let mut sum = 0u64;
    for group in 0..count / 16 {
        sum = sum.wrapping_add(commands(group.wrapping_mul(16)).len() as u64);
    }
    sum
}

// Serves the requests with these indexes, each by itself. On an image of the largest size each is on a page of its own.
// Returns how many were answered.
fn on_pages<D: Disk>(engine: &mut Engine<D>, from: u32, to: u32) -> u64 {
    let mut sum = 0u64;
    for index in from..to {
        let request = store_into(index, index.wrapping_mul(STEP) % MAX_CELLS);
        if engine.serve(&Command::Request(request)).is_ok() {
            sum = sum.wrapping_add(1);
        }
    }
    sum
}

// Makes `count` turns. Returns how many weren't refused.
fn make_turns<D: Disk>(engine: &mut Engine<D>, count: u32) -> u64 {
    let mut sum = 0u64;
    for _turn in 0..count {
        if engine.turn().is_ok() {
            sum = sum.wrapping_add(1);
        }
    }
    sum
}

/// Serves a few stores, then makes `count` turns, the first of which begins a checkpoint. Returns how many weren't
/// refused.
pub fn turns<D: Disk>(engine: &mut Engine<D>, count: u32) -> u64 {
    let _served = on_pages(engine, 0, BEFORE);
    make_turns(engine, count)
}

/// Serves a few stores, makes `turns` turns, and serves `count` more stores while pages of a checkpoint are left.
/// Without a turn there is no checkpoint. Returns how many of the later stores were answered.
pub fn after_turns<D: Disk>(engine: &mut Engine<D>, turns: u32, count: u32) -> u64 {
    let _served = on_pages(engine, 0, BEFORE);
    let _made = make_turns(engine, turns);
    on_pages(engine, BEFORE, count.saturating_add(BEFORE))
}

// Does a workload's calls. Returns `None` if no workload has this name.
fn work<D: Disk>(engine: &mut Engine<D>, workload: &str, count: u32) -> Option<u64> {
    let sum = match workload {
        "stores_one_by_one" => one_by_one(engine, count),
        "stores_together" => together(engine, count),
        "stores_made" => made(count),
        "stores_in_a_chain" => in_a_chain(engine, count),
        "chain_made" => chain_made(count),
        "turns" => turns(engine, count),
        "stores_with_no_checkpoint" => after_turns(engine, 0, count),
        "stores_beside_a_checkpoint" => after_turns(engine, 1, count),
        _ => return None,
    };
    Some(sum)
}

/// Opens the image at a path, and does a workload's calls on it. Returns `None` if no workload has this name.
pub fn on_file(
    rt: &HostRuntime,
    workload: &str,
    path: &str,
    count: u32,
) -> Option<Result<u64, Refusal>> {
    let Ok(disk) = FileDisk::open(rt, path, Unknown) else {
        return Some(Err(Refusal::Device));
    };
    match Engine::open(rt.alloc(), disk) {
        Ok(mut engine) => work(&mut engine, workload, count).map(Ok),
        Err((refusal, _)) => Some(Err(refusal)),
    }
}
