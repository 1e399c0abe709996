//! A random walk of accesses, beside cells by the rules, one by one.

use crate::accesses::Accesses;
use im_types::{Cell, Entry, Kind, Reply, Waiter};
use std::alloc::Global;
use std::collections::VecDeque;

/// A cell in a block of its own, kept plainly.
#[derive(Drop)]
pub struct PlainCell {
    kind: Kind,
    value: Option<u64>,
    clashed: bool,
    waiters: VecDeque<Waiter>,
}

impl PlainCell {
    // Makes an empty cell.
    fn new(alloc: Global, kind: Kind) -> PlainCell {
        PlainCell {
            kind,
            value: None,
            clashed: false,
            waiters: VecDeque::new(alloc),
        }
    }

    // Reads: a fetch, which asks for an I cell, or a take, which asks for an M cell. Returns `None` if there is no
    // memory for who waits.
    fn read(&mut self, kind: Kind, who: Waiter) -> Option<Entry> {
        match self.value {
            _ if self.kind != kind => Some(Entry::Answered(Reply::WrongKind)),
            _ if self.clashed => Some(Entry::Answered(Reply::Clash)),
            Some(value) => {
                self.value = if kind == Kind::I { Some(value) } else { None };
                Some(Entry::Answered(Reply::Value(value)))
            }
            None => {
                self.waiters.push_back(who).ok()?;
                Some(Entry::Waiting)
            }
        }
    }

    // Writes: a store or a put.
    fn write(&mut self, kind: Kind, value: u64) -> Reply {
        if self.kind != kind {
            return Reply::WrongKind;
        }
        if self.clashed || self.value.is_some() {
            self.clashed = true;
            return Reply::Clash;
        }
        if kind == Kind::I || self.waiters.is_empty() {
            self.value = Some(value);
        }
        Reply::Stored
    }

    // Returns what the cell shows.
    fn cell(&self) -> Cell {
        match self.value {
            Some(value) if self.clashed => Cell::Clashed(value),
            Some(value) => Cell::Full(value),
            None if self.waiters.is_empty() => Cell::Empty,
            None => Cell::Waiting,
        }
    }

    // Makes a store. Its readers have to be those that wait by the rules.
    fn store(&mut self, accesses: &mut Accesses, a: u32, value: u64) -> bool {
        let alloc = *self.waiters.allocator();
        let Some((reply, readers)) = accesses.store(alloc, a, value) else {
            return false;
        };
        let mut readers = readers.iter().copied();
        reply == self.write(Kind::I, value)
            && readers.all(|reader| Some(reader) == self.waiters.pop_front())
    }

    // Makes a put. Its taker has to be the first that waits by the rules.
    fn put(&mut self, accesses: &mut Accesses, a: u32, value: u64) -> bool {
        let (reply, taker) = accesses.put(a, value);
        let agrees = reply == self.write(Kind::M, value);
        let first = match reply {
            Reply::Stored => self.waiters.pop_front(),
            _ => None,
        };
        agrees && taker == first
    }

    // Replaces a clashed cell by a new block of the other kind.
    fn renew(&mut self, accesses: &mut Accesses, a: u32) -> bool {
        if !self.clashed {
            return true;
        }
        self.kind = match self.kind {
            Kind::I => Kind::M,
            Kind::M => Kind::I,
        };
        self.value = None;
        self.clashed = false;
        accesses.release(a) && accesses.place(self.kind, 1) == Some(a)
    }

    // Makes one of the calls. Returns whether it answers as by the rules, and the cell at this address and its list are
    // then as by the rules.
    fn call(&mut self, accesses: &mut Accesses, a: u32, number: u64) -> bool {
        let who = Waiter { element: 1, number };
        let agrees = match number % 5 {
            0 => accesses.read(Kind::I, a, who) == self.read(Kind::I, who),
            1 => accesses.read(Kind::M, a, who) == self.read(Kind::M, who),
            2 => self.store(accesses, a, number),
            3 => self.put(accesses, a, number),
            _ => self.renew(accesses, a),
        };
        agrees
            && accesses.waiting(a) == u32::try_from(self.waiters.len()).ok()
            && accesses.get(a) == Some(self.cell())
    }
}

// Makes four blocks of one cell each, of the two kinds in turn. Returns whether they are at the first four cells.
fn begin(accesses: &mut Accesses, plain: &mut Vec<PlainCell>) -> bool {
    let alloc = *plain.allocator();
    (0..4u32).all(|a| {
        let kind = if a % 2 == 0 { Kind::I } else { Kind::M };
        plain.push(PlainCell::new(alloc, kind)).is_ok() && accesses.place(kind, 1) == Some(a)
    })
}

/// Makes a thrown call on four cells of a new table, which the first step makes. Returns whether it answers as by the
/// rules.
pub fn step(accesses: &mut Accesses, plain: &mut Vec<PlainCell>, thrown: u64) -> bool {
    if plain.is_empty() && !begin(accesses, plain) {
        return false;
    }
    let a = (thrown >> 60) as u32 % 4;
    match plain.get_mut(a as usize) {
        Some(cell) => cell.call(accesses, a, thrown >> 33),
        None => false,
    }
}
