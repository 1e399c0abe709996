//! Reads of a pane, alone and beside the thread that shows, and the cost of a show.
ghost use Rattle.std.specs.Prelude.{◌≡◌};
ghost use Rattle.im_types.specs.Types.{is_below};

use crate::joining::join_all;
use im_glass::{Glance, Pane, PaneName, Unnamed, open};
use im_types::{Change, Refusal};
use std::alloc::Global;
use std::marker::Brand;
use std::sync::Wait;
use std::thread;
use std::thread::{JoinHandle, Scope, Threads};

// How many cells there are.
const CELLS: u32 = 65_536;

// How many readers a pane has.
const READERS: u16 = 16;

// How many threads read beside the one that shows, and how many readers each of them uses in turn.
const BESIDE: u16 = 3;

const IN_TURN: u16 = 5;

/// What is done on a pane.
#[derive(Clone, Copy)]
pub enum Reading {
    /// This thread reads full cells. The result is the sum of what it read.
    Alone,
    /// Each of three threads reads, while this one shows a quarter as many changes. The result is the sum of what they
    /// read.
    Beside,
    /// This thread shows changes, sixteen at once. The result is how many it showed.
    Shows,
}

// Returns the address that is read or written at an index. Addresses are spread over all cells.
fn address(index: u32) -> u32 {
    index.wrapping_mul(40_503) % CELLS
}

// Returns the change at an index: a cell becomes full, and in the next round not full.
fn change(index: u32) -> Change {
    if index / CELLS % 2 == 0 {
        Change::Full(address(index), u64::from(index))
    } else {
        Change::Gone(address(index), 1)
    }
}

// Returns whether a change is of these cells alone.
fn is_inside(change: Change, cells: usize) -> bool
    ensures { result ≡ is_below cells change }
{
    match change {
        Change::Same => true,
        Change::Full(a, _) => (a as usize) < cells,
        Change::Gone(base, count) => base as usize + count as usize <= cells,
    }
}

// Puts the change at an index ahead. Returns whether there was room for it.
fn put<J: PaneName>(pane: &mut Pane<J>, index: u32) -> bool {
    let change = change(index);
    if is_inside(change, pane.cell_count()) {
        return pane.put_ahead(change).is_ok();
    }
    false
}

// Puts `count` changes ahead, and shows every sixteen. Returns how many there was room for.
fn show<J: PaneName, R: Wait>(rt: &R, pane: &mut Pane<J>, count: u32) -> u64 {
    let mut shown = 0u64;
    for index in 0..count {
        if put(pane, index) {
            shown = shown.saturating_add(1);
        }
        if index % 16 == 15 {
            let _told = pane.show(rt);
        }
    }
    shown
}

// Reads `count` cells. Returns the sum of those that are full.
fn read<J: PaneName>(glance: Glance<J>, count: u32) -> u64 {
    let mut glance = glance;
    let mut sum = 0u64;
    for index in 0..count {
        if let Ok(Some(value)) = glance.glance(address(index)) {
            sum = sum.wrapping_add(value);
        }
    }
    sum
}

// Returns `count` of the readers that are left.
fn readers<J: PaneName>(alloc: Global, pane: &mut Pane<J>, count: u16) -> Vec<Glance<J>> {
    let mut glances = Vec::new(alloc);
    for _ in 0..count {
        if let Some(glance) = pane.glance() {
            let _kept = glances.push(glance);
        }
    }
    glances
}

// Reads `count` cells with each of these readers in turn. The time of one may depend on where its words lie in the
// memory.
fn read_in_turn<J: PaneName>(glances: Vec<Glance<J>>, count: u32) -> u64 {
    let mut sum = 0u64;
    for glance in glances {
        sum = sum.wrapping_add(read(glance, count));
    }
    sum
}

// Shows all cells as full, and then reads with this thread.
fn read_alone<J: PaneName, R: Wait>(rt: &R, alloc: Global, pane: &mut Pane<J>, count: u32) -> u64 {
    let _shown = show(rt, pane, CELLS);
    read_in_turn(readers(alloc, pane, READERS), count / u32::from(READERS))
}

// Starts a thread that reads, if it can be made.
fn begin<'s, E, J: PaneName + Send + Sync + 's>(
    alloc: Global,
    scope: &Scope<'s, E>,
    pane: &mut Pane<J>,
    count: u32,
) -> Option<JoinHandle<u64>> {
    let glances = readers(alloc, pane, IN_TURN);
    match scope.spawn(move || read_in_turn(glances, count / u32::from(IN_TURN))) {
        Ok(thread) => Some(thread),
        Err(_) => None,
    }
}

// Starts all threads that read.
fn begin_all<'s, E, J: PaneName + Send + Sync + 's>(
    alloc: Global,
    scope: &Scope<'s, E>,
    pane: &mut Pane<J>,
    count: u32,
    threads: &mut Vec<Option<JoinHandle<u64>>>,
) {
    for _ in 0..BESIDE {
        let _kept = threads.push(begin(alloc, scope, pane, count));
    }
}

// Reads with three threads, while this one shows.
fn read_beside<J: PaneName + Send + Sync, R: Threads + Wait + Sync>(
    rt: &R,
    alloc: Global,
    pane: &mut Pane<J>,
    count: u32,
) -> u64 {
    let mut threads = Vec::new(alloc);
    thread::scope(thread::scope_env(), rt, move |scope| {
        begin_all(alloc, scope, pane, count, &mut threads);
        let _shown = show(rt, pane, count / 4);
        join_all(rt, threads)
    })
}

// Does a reading on a pane that has a name.
fn run_named<J: PaneName + Send + Sync, R: Threads + Wait + Sync>(
    rt: &R,
    alloc: Global,
    pane: Unnamed,
    reading: Reading,
    count: u32,
) -> u64
    requires { pane.book ≡ J.book }
{
    let mut pane = pane.named::<J>();
    let done = match reading {
        Reading::Alone => read_alone(rt, alloc, &mut pane, count),
        Reading::Beside => read_beside(rt, alloc, &mut pane, count),
        Reading::Shows => show(rt, &mut pane, count),
    };
    pane.end(rt);
    done
}

/// Does a reading `count` times on a new pane, none of whose cells is full.
pub fn run<R: Threads + Wait + Sync>(
    rt: &R,
    alloc: Global,
    reading: Reading,
    count: u32,
) -> Result<u64, Refusal> {
    let pane = open(rt, alloc, CELLS, READERS, &[])?;
    Ok(run_named::<Brand, R>(rt, alloc, pane, reading, count))
}
