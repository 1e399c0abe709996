//! A new request: its operation, its entry, and the requests that it resumes.
ghost use Rattle.std.specs.Prelude.{◌≡◌, Ok};
ghost use Rattle.im_types.specs.Types.{Command, Fresh, act, judge, asker, serve};
ghost use Rattle.im_memory.specs.MakesMemory.{contents_of, MakesMemory};
ghost use Rattle.im_memory.specs.{Shown.records_of, State.memory_state, Touched.ChangesOnly, Touched.touched};

use crate::acts::{act, resume};
use im_arena::Arena;
use im_cell::CellTable;
use im_sessions::Sessions;
use im_types::{Entry, Request, Waiter};

/// Serves a new request: does its operation, keeps its entry, and answers the requests that it resumes. It is a part of
/// its caller, [`Memory::step`](crate::Memory::step).
#[inline(always)]
pub(crate) fn serve(
    table: &mut CellTable,
    arena: &mut Arena,
    sessions: &mut Sessions,
    request: &Request,
) -> Entry
    requires memory { MakesMemory table.old arena.old sessions.old }
    requires fresh { judge sessions.old request.now ≡ Ok Fresh }
    ensures answer { let m = contents_of table.old arena.old sessions.old in result
        ≡ (act m.cells (asker request.now) request.now.op).entry }
    ensures contents { let m = contents_of table.old arena.old sessions.old in
        contents_of table.new arena.new sessions.new
        ≡ (serve m request.now (act m.cells (asker request.now) request.now.op)).contents }
    ensures memory { MakesMemory table.new arena.new sessions.new }
    ensures changes { let m = memory_state table.old arena.old sessions.old in
        ChangesOnly (touched m (Command.Request request.now)) m.records (records_of table.new arena.new sessions.new) }
{
    let who = Waiter {
        element: request.element,
        number: request.number,
    };
    // A copy, which the changes to the memory leave: it is read once.
    let asked = *request;
    let acted = act(table, arena, sessions, who, &asked);
    resume(sessions, arena, acted.resumed);
    acted.entry
}

/// Does what [`serve`] does, as a call of its own: a member of a group costs more with all of it inside.
#[inline(never)]
pub(crate) fn serve_apart(
    table: &mut CellTable,
    arena: &mut Arena,
    sessions: &mut Sessions,
    request: &Request,
) -> Entry
    requires memory { MakesMemory table.old arena.old sessions.old }
    requires fresh { judge sessions.old request.now ≡ Ok Fresh }
    ensures answer { let m = contents_of table.old arena.old sessions.old in result
        ≡ (act m.cells (asker request.now) request.now.op).entry }
    ensures contents { let m = contents_of table.old arena.old sessions.old in
        contents_of table.new arena.new sessions.new
        ≡ (serve m request.now (act m.cells (asker request.now) request.now.op)).contents }
    ensures memory { MakesMemory table.new arena.new sessions.new }
    ensures changes { let m = memory_state table.old arena.old sessions.old in
        ChangesOnly (touched m (Command.Request request.now)) m.records (records_of table.new arena.new sessions.new) }
{
    serve(table, arena, sessions, request)
}
