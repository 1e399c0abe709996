//! Accesses of cells: a table of cells with the lists of their waiters.
ghost use Rattle.std.specs.Prelude.{◌≡◌, ◌<◌, List, length, IfOk, Option};
ghost use Rattle.im_cell.specs.declared.Slot.{Slot};
ghost use Rattle.im_istore.specs.Agreement.{Agree, AgreeBut};

use im_arena::Arena;
use im_cell::CellTable;
use im_istore::{fetch, look, next_reader, store, store_and_drain};
use im_mstore::{put, take};
use im_story::{Phrase, Saying};
use im_types::{Cell, Entry, Kind, Refusal, Reply, Waiter};
use std::alloc::Global;
use std::marker::Model;

/// A table and the lists of its cells. A cell waits exactly if somebody is on its list.
#[derive(Drop)]
pub struct Accesses {
    table: CellTable,
    arena: Arena,
}

impl Model for Accesses {
    ghost use Rattle.std.specs.Prelude.{List, Option};
    ghost use Rattle.{im_types.specs.Types.Held, im_istore.specs.Agreement.Agree, im_istore.specs.Joined.cells_of};

    ghost Value = { List (Option Held) };

    ghost view = { λ m. cells_of m.table m.arena };

    ghost invariant = { λ m. Agree m.table m.arena };
}

// Makes the given numbers of free cells and of free nodes.
fn pair(alloc: Global, cells: u32, nodes: u32) -> Result<(CellTable, Arena), Refusal>
    ensures { IfOk result (λ made. Agree made.0 made.1) }
{
    let table = CellTable::new(alloc, cells)?;
    let arena = Arena::new(alloc, nodes, cells)?;
    Ok((table, arena))
}

fn place(table: &mut CellTable, arena: &Arena, kind: Kind, n: u32) -> Option<u32>
    requires agree { Agree table.old arena.now }
    requires some { 0 < n }
    ensures { Agree table.new arena.now }
{
    let _ = arena;
    table.place(kind, n)
}

fn release(table: &mut CellTable, arena: &Arena, base: u32) -> bool
    requires { Agree table.old arena.now }
    ensures { Agree table.new arena.now }
{
    let _ = arena;
    table.release(base)
}

// Takes the readers of a cell that a store made full, one after the other, and tells them. Asks once more when none is
// left.
fn resume(arena: &mut Arena, a: u32, said: &mut Saying) -> Option<Waiter>
    requires { a < length arena.old.held.lists }
    ensures { (slots : List (Option Slot)) → AgreeBut a slots arena.old → Agree slots arena.new }
{
    let mut is_first = true;
    while let Some(reader) = next_reader(arena, a) {
        said.either(is_first, " for ", " ");
        said.name(reader.element, reader.number);
        is_first = false;
    }
    next_reader(arena, a)
}

impl Accesses {
    /// Makes the given numbers of free cells and of free nodes for waiters.
    pub fn new(alloc: Global, cells: u32, nodes: u32) -> Result<Accesses, Refusal> {
        let (table, arena) = pair(alloc, cells, nodes)?;
        Ok(Accesses { table, arena })
    }

    /// Makes a block. Returns `None` if there is no room for it, or it has no cell.
    pub fn place(&mut self, kind: Kind, n: u32) -> Option<u32> {
        if n == 0 {
            return None;
        }
        place(&mut self.table, &self.arena, kind, n)
    }

    /// Releases a block.
    pub fn release(&mut self, base: u32) -> bool {
        release(&mut self.table, &self.arena, base)
    }

    /// Reads a cell: a fetch of an I cell, or a take of an M cell. Returns `None` if no node is free.
    pub fn read(&mut self, kind: Kind, a: u32, who: Waiter) -> Option<Entry> {
        if self.arena.is_full() {
            return None;
        }
        match kind {
            Kind::I => Some(fetch(&mut self.table, &mut self.arena, a, who)),
            Kind::M => Some(take(&mut self.table, &mut self.arena, a, who)),
        }
    }

    /// Gives a value to an M cell. Returns the reply, and the taker that gets the value.
    pub fn put(&mut self, a: u32, value: u64) -> (Reply, Option<Waiter>) {
        put(&mut self.table, &mut self.arena, a, value)
    }

    /// Writes an I cell, and takes its readers off their list together with the store. Returns `None` if there is no
    /// such cell, or no memory.
    pub fn store(&mut self, alloc: Global, a: u32, value: u64) -> Option<(Reply, Vec<Waiter>)> {
        if a >= self.arena.list_count() {
            return None;
        }
        let mut readers = Vec::with_capacity(alloc, self.arena.len(a) as usize).ok()?;
        let reply = store_and_drain(&mut self.table, &mut self.arena, a, value, &mut readers);
        Some((reply, readers))
    }

    // Writes an I cell, and takes its readers off their list one by one. Tells them, and who comes after the last.
    fn store_first(&mut self, a: u32, value: u64, said: &mut Saying) {
        if a >= self.arena.list_count() {
            return said.fail("no such cell");
        }
        let reply = store(&mut self.table, &self.arena, a, value);
        said.reply(reply);
        if reply == Reply::Stored {
            let next = resume(&mut self.arena, a, said);
            said.text(", then ");
            said.waiter(next)
        }
    }

    /// Returns what a cell holds.
    pub fn get(&self, a: u32) -> Option<Cell> {
        self.table.get(a)
    }

    /// Returns how many wait for a cell, or `None` past the last one.
    pub fn waiting(&self, a: u32) -> Option<u32> {
        if a < self.arena.list_count() {
            Some(self.arena.len(a))
        } else {
            None
        }
    }
}

// Adds the result of a write, and the waiters that it answers, in order.
fn add_written(said: &mut Saying, reply: Reply, resumed: &[Waiter]) {
    said.reply(reply);
    for (at, who) in resumed.iter().enumerate() {
        said.either(at == 0, " for ", " ");
        said.waiter(Some(*who));
    }
}

// Returns the kind of a call: its last word, or that of what it reads.
fn kind_of(word: &str) -> Kind {
    match word {
        "take" | "m" => Kind::M,
        _ => Kind::I,
    }
}

/// Makes an access.
pub fn tell(accesses: &mut Accesses, call: &Phrase, said: &mut Saying) {
    let (a, value, kind) = (call.address(0), call.number(1), kind_of(call.word(1)));
    match call.form() {
        "_._ fetch _" | "_._ take _" => {
            let read = accesses.read(kind, call.address(2), call.waiter(0));
            said.given(read, "no node is free", |entry, said| said.entry(entry))
        }
        "store _ _" => accesses.store_first(a, value, said),
        "store _ _ drained" => {
            let stored = accesses.store(call.alloc(), a, value);
            said.given(stored, "no such cell", |(reply, readers), said| {
                add_written(said, reply, readers.as_slice())
            })
        }
        "put _ _" => {
            let (reply, taker) = accesses.put(a, value);
            add_written(said, reply, taker.as_slice())
        }
        "place i _" | "place m _" => said.number_or_none(accesses.place(kind, a)),
        _ => tell_state(accesses, call, said),
    }
}

// Tells what the cells and the lists show.
fn tell_state(accesses: &Accesses, call: &Phrase, said: &mut Saying) {
    let (table, arena, a) = (&accesses.table, &accesses.arena, call.address(0));
    match call.form() {
        "cell _" => said.place(table.get(a), table.block_of(a)),
        "look _ i" | "look _ m" => match look(table, a, kind_of(call.word(2))) {
            Ok(cell) => said.cell(cell),
            Err(reply) => said.reply(reply),
        },
        "waiting _" => said.number_or_none(accesses.waiting(a)),
        "free" => said.number(arena.free_count()),
        "lists" => said.number(arena.list_count()),
        _ => said.fail("no access"),
    }
}
