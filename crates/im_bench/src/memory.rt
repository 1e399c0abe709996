// Requests to a whole memory. The elements take turns, and each confirms its window when it is full.
use im_arena::Arena;
use im_cell::CellTable;
use im_memory::Memory;
use im_types::{
    Command, Entry, Kind, Limits, MAX_CELLS, MAX_ELEMENTS, MIN_SLOTS, NONE, Op, Outcome, Refusal,
    Reply, Request, WINDOW,
};
use std::alloc::Global;

const ELEMENTS: u32 = MAX_ELEMENTS as u32;

// How many blocks there are at once.
const LIVE: usize = 64;

fn element_of(index: u32) -> u16 {
    (index % ELEMENTS) as u16
}

fn number_of(index: u32) -> u64 {
    (index / ELEMENTS) as u64 + 1
}

fn digest_reply(reply: Reply) -> u64 {
    match reply {
        Reply::Value(value) => value,
        Reply::Base(base) => base as u64,
        Reply::NoSpace => 101,
        Reply::BadLength => 102,
        Reply::Stored => 103,
        Reply::Clash => 104,
        Reply::NoCell => 105,
        Reply::WrongKind => 106,
        Reply::Released => 107,
        Reply::NoBlock => 108,
        Reply::StillWaiting => 109,
        Reply::Cleared => 110,
    }
}

fn digest(entry: Entry) -> u64 {
    match entry {
        Entry::Answered(reply) => digest_reply(reply),
        Entry::Waiting => 100,
    }
}

// Adds an entry to a checksum.
fn mixed(sum: u64, entry: Entry) -> u64 {
    sum.wrapping_mul(31).wrapping_add(digest(entry))
}

// Adds the bounds of each window to a checksum.
fn with_windows(sum: u64, memory: &Memory) -> Result<u64, Refusal> {
    let mut sum = sum;
    for element in 0..memory.elements() {
        let (base, next) = memory.window(element)?;
        sum = sum
            .wrapping_mul(31)
            .wrapping_add(base)
            .wrapping_mul(31)
            .wrapping_add(next);
    }
    Ok(sum)
}

// Makes a memory of the given numbers of cells and elements.
fn empty(alloc: Global, cells: u32, elements: u16) -> Result<Memory, Refusal> {
    match Limits::new(cells, elements, MIN_SLOTS) {
        Some(limits) => Memory::new(alloc, limits),
        None => Err(Refusal::BadLimits),
    }
}

// Asks the request with an index: each element asks its first one, then each its second one, and so on.
fn ask(memory: &mut Memory, index: u32, op: Op) -> Result<Entry, Refusal> {
    let element = element_of(index);
    let number = number_of(index);
    if number > WINDOW && number % WINDOW == 1 {
        let upto = number;
        let _ = memory.step(&Command::Confirm { element, upto })?;
    }
    let request = Request {
        element,
        number,
        op,
    };
    match memory.step(&Command::Request(request))? {
        Outcome::Entry(entry) => Ok(entry),
        Outcome::Confirmed => Ok(Entry::Waiting),
    }
}

// Makes the largest memory.
fn largest(alloc: Global) -> Result<Memory, Refusal> {
    empty(alloc, MAX_CELLS, MAX_ELEMENTS)
}

fn read(kind: Kind, a: u32) -> Op {
    match kind {
        Kind::I => Op::Fetch(a),
        Kind::M => Op::Take(a),
    }
}

fn write(kind: Kind, a: u32) -> Op {
    let value = a as u64 + 7;
    match kind {
        Kind::I => Op::Store(a, value),
        Kind::M => Op::Put(a, value),
    }
}

// Makes a block of all cells by the first request, and writes to `count` cells, each read by the next element.
fn write_then_read(memory: &mut Memory, kind: Kind, count: u32) -> Result<u64, Refusal> {
    let _ = ask(memory, 0, Op::Alloc(kind, MAX_CELLS))?;
    let mut sum = 0u64;
    for a in 0..count {
        let index = a.wrapping_mul(2).wrapping_add(1);
        sum = mixed(sum, ask(memory, index, write(kind, a))?);
        sum = mixed(sum, ask(memory, index.wrapping_add(1), read(kind, a))?);
    }
    with_windows(sum, memory)
}

/// Writes to `count` cells, each read by the next element.
pub fn write_and_read(alloc: Global, kind: Kind, count: u32) -> Result<u64, Refusal> {
    let mut memory = largest(alloc)?;
    write_then_read(&mut memory, kind, count)
}

// Makes a block of all cells by the first request, and makes `count` reads that wait, each until the next element
// writes.
fn read_then_write(memory: &mut Memory, kind: Kind, count: u32) -> Result<u64, Refusal> {
    let _ = ask(memory, 0, Op::Alloc(kind, MAX_CELLS))?;
    let mut sum = 0u64;
    for a in 0..count {
        let index = a.wrapping_mul(2).wrapping_add(1);
        sum = mixed(sum, ask(memory, index, read(kind, a))?);
        sum = mixed(sum, ask(memory, index.wrapping_add(1), write(kind, a))?);
        sum = mixed(sum, memory.collect(element_of(index), number_of(index))?);
    }
    with_windows(sum, memory)
}

/// Makes `count` reads that wait. Each waits until the next element writes the cell; then its answer is collected.
pub fn read_and_write(alloc: Global, kind: Kind, count: u32) -> Result<u64, Refusal> {
    let mut memory = largest(alloc)?;
    read_then_write(&mut memory, kind, count)
}

// Makes a block, and writes and reads its last cell. Returns the block's base and the checksum.
fn use_block(memory: &mut Memory, index: u32, n: u32, sum: u64) -> Result<(u32, u64), Refusal> {
    let made = ask(memory, index, Op::Alloc(Kind::I, n))?;
    let Entry::Answered(Reply::Base(base)) = made else {
        return Ok((NONE, mixed(sum, made)));
    };
    let last = base.wrapping_add(n).wrapping_sub(1);
    let stored = ask(memory, index.wrapping_add(1), write(Kind::I, last))?;
    let fetched = ask(memory, index.wrapping_add(2), read(Kind::I, last))?;
    Ok((base, mixed(mixed(mixed(sum, made), stored), fetched)))
}

// Releases a block and makes another, `count` times.
fn release_then_allocate(memory: &mut Memory, count: u32) -> Result<u64, Refusal> {
    let mut bases = [NONE; LIVE];
    let mut seed = 1u32;
    let mut sum = 0u64;
    for round in 0..count {
        seed = seed.wrapping_mul(1_664_525).wrapping_add(1_013_904_223);
        let place = (seed >> 26) as usize % LIVE;
        let n = (seed >> 16) % 16 + 1;
        let index = round.wrapping_mul(4);
        sum = mixed(sum, ask(memory, index, Op::Release(bases[place]))?);
        let (base, with_block) = use_block(memory, index.wrapping_add(1), n, sum)?;
        bases[place] = base;
        sum = with_block;
    }
    with_windows(sum, memory)
}

/// Releases a block and makes another of 1 to 16 cells, `count` times. One cell of the new block is written and read.
/// An arithmetic sequence says which block is released and how long the new one is.
pub fn release_and_allocate(alloc: Global, count: u32) -> Result<u64, Refusal> {
    let mut memory = largest(alloc)?;
    release_then_allocate(&mut memory, count)
}

/// Makes a memory of `count` cells and one element.
pub fn cells(alloc: Global, count: u32) -> Result<u64, Refusal> {
    let memory = empty(alloc, count, 1)?;
    Ok(memory.cells() as u64)
}

/// Makes a memory of one cell and `count` elements.
pub fn elements(alloc: Global, count: u32) -> Result<u64, Refusal> {
    let Ok(elements) = u16::try_from(count) else {
        return Err(Refusal::BadLimits);
    };
    let memory = empty(alloc, 1, elements)?;
    Ok(memory.elements() as u64)
}

/// Makes a table of `count` cells.
pub fn table(alloc: Global, count: u32) -> Result<u64, Refusal> {
    let table = CellTable::new(alloc, count)?;
    Ok(table.cells() as u64)
}

/// Makes an arena of `count` nodes.
pub fn nodes(alloc: Global, count: u32) -> Result<u64, Refusal> {
    let arena = Arena::new(alloc, count, 1)?;
    Ok(arena.node_count() as u64)
}
