//! A memory that is made from the pages of an image.
ghost use Rattle.std.specs.Prelude.{◌≡◌, ◌+◌, ◌*◌, ◌<◌, ◌≤◌, [], length, replicate, IfOk, IfErr, slice_index_or};
ghost use Rattle.std.specs.Prelude.{slice_set, sum_by};
ghost use Rattle.im_types.specs.Types.{WINDOW, new_window, IsWindow};
ghost use Rattle.im_arena.specs.Lists.{list_at, with_list};
ghost use Rattle.im_memory.specs.Restoring.{AreComplete, contents_shown};

use crate::memory::Memory;
use im_arena::Arena;
use im_cell::{CellRow, CellTable, TableRoom};
use im_sessions::Sessions;
use im_types::{Kept, Limits, Refusal, WINDOW, Waiter};
use std::alloc::Global;
use std::marker::Model;

/// A memory while it is put together. Its parts are the records of its cells, the requests that wait at each cell, and
/// each element's window. Contracts see these parts.
pub struct Restoring {
    cells: CellRow,
    room: TableRoom,
    arena: Arena,
    sessions: Sessions,
}

// By one call, so that whoever owns the parts isn't proved to let go each of its fields wherever it may end.
impl Drop for Restoring {
    fn drop(self) {
        let Restoring {
            cells: _,
            room: _,
            arena: _,
            sessions: _,
        } = self;
    }
}

impl Model for Restoring {
    ghost use Rattle.im_memory.specs.Restoring.{HaveRoom, Parts};

    ghost Value = { Parts };

    ghost view = { λ r. record { cells = r.cells; lists = r.arena.held.lists; windows = r.sessions } };

    ghost invariant = { λ r. HaveRoom r.cells r.room r.arena r.sessions };
}

// Puts these waiters on an empty list, in their order.
fn push_each(arena: &mut Arena, list: u32, waiters: &[Waiter])
    requires list { list < length arena.old.held.lists }
    requires empty { list_at arena.old.held list ≡ [] }
    requires room { sum_by length arena.old.held.lists + length waiters.now ≤ arena.old.held.nodes }
    ensures { arena.new.held ≡ with_list arena.old.held list waiters.now }
{
    for waiter in waiters {
        let _pushed = arena.push_back(list, *waiter);
    }
}

impl Restoring {
    /// Makes the parts of a memory of these sizes. It has these records of its cells, which stay where they lie, no
    /// waiting request, and new windows. It takes all other room that the memory will need, and returns `NoMemory` if
    /// that is refused.
    pub fn new(alloc: Global, limits: Limits, cells: CellRow) -> Result<Restoring, Refusal>
        requires { length cells ≡ limits.cells }
        ensures parts { IfOk result (λ r. r ≡ record {
          cells = cells;
          lists = replicate limits.cells [];
          windows = replicate limits.elements new_window;
        }) }
        ensures only { IfErr result (λ refusal. refusal ≡ Refusal.NoMemory) }
    {
        let nodes = WINDOW as u32 * limits.elements as u32;
        let Ok(room) = TableRoom::new(alloc, limits.cells) else {
            return Err(Refusal::NoMemory);
        };
        let Ok(arena) = Arena::new(alloc, nodes, limits.cells) else {
            return Err(Refusal::NoMemory);
        };
        let Ok(sessions) = Sessions::new(alloc, limits.elements) else {
            return Err(Refusal::NoMemory);
        };
        Ok(Restoring {
            cells,
            room,
            arena,
            sessions,
        })
    }

    /// Puts the requests that wait at a cell on its list, in their order. The list must be empty. It takes one step for
    /// each of them.
    pub fn put_list(&mut self, a: u32, waiters: &[Waiter])
        requires cell { a < length self.old.lists }
        requires empty { slice_index_or self.old.lists a [] ≡ [] }
        requires room { sum_by length self.old.lists + length waiters.now ≤ WINDOW * length self.old.windows }
        ensures { self.new ≡ record self.old { lists = slice_set self.old.lists a waiters.now } }
    {
        push_each(&mut self.arena, a, waiters);
    }

    /// Replaces an element's window by one with these entries, numbered from `base` on.
    pub fn put_window(&mut self, element: u16, base: u64, kept: &[Kept])
        requires element { element < length self.old.windows }
        requires window { IsWindow (record { base = base; kept = kept.now }) }
        ensures { self.new ≡ record self.old {
          windows = slice_set self.old.windows element
              (record { base = base; kept = kept.now });
        } }
    {
        self.sessions.restore(element, base, kept);
    }

    /// Returns the memory that the parts stand for. It takes no memory.
    pub fn finish(self) -> Memory
        requires { AreComplete self }
        ensures { result.contents ≡ contents_shown self }
    {
        let Restoring {
            cells,
            room,
            arena,
            sessions,
        } = self;
        Memory {
            table: CellTable::in_room(room, cells),
            arena,
            sessions,
        }
    }
}
