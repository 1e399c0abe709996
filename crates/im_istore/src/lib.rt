//! Fetch and store on the cells of a table. Their waiters stand on the lists of an arena (I cells: Arvind, Nikhil,
//! Pingali, TOPLAS 11(4), 1989). The list of a cell's waiters has the cell's address as its number.
//!
//! Stands on `im_cell`, `im_arena` and `im_types`. Contracts see the cells that the table and the arena stand for. They
//! state the effect of a call on them by the definitions of `im_types`.
#![tactic(auto)]

ghost use Rattle.std.specs.Prelude.{◌≡◌, ℕ, ◌+◌, ◌<◌, ◌≤◌, ◌≢◌, List, [], ◌∷◌, ◌++◌, length, drop, IfSome, IfNone};
ghost use Rattle.std.specs.Prelude.{IsSome, slice_get, slice_set, Err, vec_len, vec_capacity, Option};
ghost use Rattle.im_types.specs.Types.{Reply, Waiting, Answered, I, Fetch, Store, Stored, act};
ghost use Rattle.im_arena.specs.Lists.{free, IsPopped, IsPushed, list_at, with_list};
ghost use Rattle.im_cell.specs.{declared.Slot.Slot, Slots.slot_at, Slots.with_cell};
ghost use Rattle.im_istore.specs.{Access.access_in, Access.askers_of, Access.replies_to, Agreement.Agree};
ghost use Rattle.im_istore.specs.{Agreement.AgreeBut, Joined.cells_of, Records.LeavesCells, Records.LeavesRest};

use im_arena::Arena;
use im_cell::{CellTable, Slot};
use im_types::{Cell, Entry, Kind, Reply, Waiter};

// Returns the cell of a slot in a block of this kind.
fn cell_for(found: Option<Slot>, kind: Kind) -> Result<Cell, Reply>
    ensures { result ≡ access_in kind found }
{
    let Some(slot) = found else {
        return Err(Reply::NoCell);
    };
    if slot.block.kind != kind {
        return Err(Reply::WrongKind);
    }
    Ok(slot.cell)
}

/// Returns the cell at an address in a block of this kind. Returns `NoCell` if the address lies in no block, or past
/// the last cell. Returns `WrongKind` if the block is of the other kind.
#[inline(always)]
pub fn look(table: &CellTable, a: u32, kind: Kind) -> Result<Cell, Reply>
    ensures { result ≡ access_in kind (slot_at table.now a) }
{
    cell_for(table.slot(a), kind)
}

/// [`look`] at a cell that is written next: one look at the table does for both.
#[inline(always)]
pub fn look_to_write(table: &mut CellTable, a: u32, kind: Kind) -> Result<Cell, Reply>
    ensures cell { result ≡ access_in kind (slot_at table.old a) }
    ensures same { table.new ≡ table.old }
{
    cell_for(table.slot_to_write(a), kind)
}

/// Puts `who` behind the requests that wait for the cell at an address. The cell is in a block and has no value. The
/// call takes a node.
#[inline(always)]
pub fn wait(table: &mut CellTable, arena: &mut Arena, a: u32, who: Waiter)
    requires some { IsSome (slot_at table.old a) }
    requires inside { a < length arena.old.held.lists }
    requires room { 0 < free arena.old.held }
    ensures cells { table.new ≡ slice_set table.old a (with_cell Cell.Waiting (slot_at table.old a)) }
    ensures waiters { arena.new.held ≡ with_list arena.old.held a (list_at arena.old.held a ++ who ∷ []) }
    ensures links { IsPushed a arena.old arena.new }
{
    table.set(a, Cell::Waiting);
    let _ = arena.push_back(a, who);
}

/// Reads the cell at an address for `who`. A full cell gives its value, and a clashed one a clash. If the cell has no
/// value yet, `who` waits behind the others and takes a node.
#[tactic(auto, using(crate::proofs::Cells::there))]
#[inline(always)]
pub fn fetch(table: &mut CellTable, arena: &mut Arena, a: u32, who: Waiter) -> Entry
    requires agree { Agree table.old arena.old }
    requires room { 0 < free arena.old.held }
    ensures entry { result ≡ (act (cells_of table.old arena.old) who (Fetch a)).entry }
    ensures cells { cells_of table.new arena.new ≡ (act (cells_of table.old arena.old) who (Fetch a)).cells }
    ensures nobody { (act (cells_of table.old arena.old) who (Fetch a)).resumed ≡ [] }

    ensures agree { Agree table.new arena.new }

    // The parts that stay. All cells stay unless `who` waits.
    ensures kept { LeavesRest I a result table.old table.new arena.old arena.new }
    ensures same { result ≢ Waiting → table.new ≡ table.old }
{
    let cell = match look_to_write(table, a, Kind::I) {
        Ok(cell) => cell,
        Err(reply) => return Entry::Answered(reply),
    };
    match cell {
        Cell::Full(value) => Entry::Answered(Reply::Value(value)),
        Cell::Clashed(_) => Entry::Answered(Reply::Clash),
        _ => {
            wait(table, arena, a, who);
            Entry::Waiting
        }
    }
}

/// Writes the cell at an address. A cell that has a value keeps it, and is clashed.
///
/// After `Stored` the cell's readers, if there are any, still stand on its list. [`next_reader`] hands them out, and
/// each of them is to get the value. The two calls are for a caller that answers each reader at once.
/// [`store_and_drain`] states their effect together.
#[tactic(auto, using(crate::proofs::Cells::there))]
#[inline(always)]
pub fn store(table: &mut CellTable, arena: &Arena, a: u32, value: u64) -> Reply
    requires { Agree table.old arena.now }

    // For every asker.
    ensures reply { (who : Waiter) → Answered result ≡ (act (cells_of table.old arena.now) who (Store a value)).entry }
    ensures cells { (who : Waiter)
        → cells_of table.new arena.now ≡ (act (cells_of table.old arena.now) who (Store a value)).cells }

    // The readers are those on the list. Until they are off it, cells and lists don't agree at this cell.
    ensures readers { (who : Waiter) → result ≡ Stored
        → (act (cells_of table.old arena.now) who (Store a value)).resumed
        ≡ replies_to (list_at arena.now.held a) value }
    ensures draining { result ≡ Stored → AgreeBut a table.new arena.now }

    // After any other reply no reader is to be answered, and cells and lists agree.
    ensures nobody { (who : Waiter) → result ≢ Stored
        → (act (cells_of table.old arena.now) who (Store a value)).resumed ≡ [] }
    ensures agree { result ≢ Stored → Agree table.new arena.now }

    ensures kept { LeavesCells I a table.old table.new }
{
    let cell = match look_to_write(table, a, Kind::I) {
        Ok(cell) => cell,
        Err(reply) => return reply,
    };
    match cell {
        Cell::Full(kept) => {
            table.set(a, Cell::Clashed(kept));
            Reply::Clash
        }
        Cell::Clashed(_) => Reply::Clash,
        _ => {
            table.set(a, Cell::Full(value));
            Reply::Stored
        }
    }
}

/// Takes the first reader off the list of a cell that a store made full, and frees its node. Returns `None` if no
/// reader is left, and then cells and lists agree again.
#[inline(always)]
pub fn next_reader(arena: &mut Arena, a: u32) -> Option<Waiter>
    requires { a < length arena.old.held.lists }
    ensures first { result ≡ slice_get (list_at arena.old.held a) 0 }
    ensures rest { arena.new.held ≡ with_list arena.old.held a (drop 1 (list_at arena.old.held a)) }
    ensures none { IfNone result (arena.new ≡ arena.old) }
    ensures links { IfSome result (λ _. IsPopped a arena.old arena.new) }

    // For each table with this full cell.
    ensures cells { (slots : List (Option Slot)) → AgreeBut a slots arena.old
        → cells_of slots arena.new ≡ cells_of slots arena.old }
    ensures draining { (slots : List (Option Slot)) → AgreeBut a slots arena.old → AgreeBut a slots arena.new }
    ensures whole { (slots : List (Option Slot)) → AgreeBut a slots arena.old → IfNone result (Agree slots arena.new) }
{
    arena.pop_front(a)
}

/// Takes all readers off the list of a cell that a store made full. It puts them in their order at the end of
/// `readers`.
pub fn drain(arena: &mut Arena, a: u32, readers: &mut Vec<Waiter>)
    requires list { a < length arena.old.held.lists }
    requires room { vec_len readers.old + length (list_at arena.old.held a) ≤ vec_capacity readers.old }
    ensures readers { readers.new.items ≡ readers.old.items ++ list_at arena.old.held a }
    ensures rest { arena.new.held ≡ with_list arena.old.held a [] }

    // For each table with this full cell.
    ensures cells { (slots : List (Option Slot)) → AgreeBut a slots arena.old
        → cells_of slots arena.new ≡ cells_of slots arena.old }
    ensures whole { (slots : List (Option Slot)) → AgreeBut a slots arena.old → Agree slots arena.new }
{
    while let Some(reader) = next_reader(arena, a) {
        readers.push_reserved(reader);
    }
}

/// Writes the cell at an address, and takes its readers off its list. The readers get the value, and are put at the end
/// of `readers` in their order of arrival. A cell that has a value keeps it, and is clashed.
///
/// The call is [`store`], and then [`next_reader`] until no reader is left.
pub fn store_and_drain(
    table: &mut CellTable,
    arena: &mut Arena,
    a: u32,
    value: u64,
    readers: &mut Vec<Waiter>,
) -> Reply
    requires agree { Agree table.old arena.old }
    requires room { vec_len readers.old + length (list_at arena.old.held a) ≤ vec_capacity readers.old }

    // For every asker.
    ensures entry { (who : Waiter) → Answered result ≡ (act (cells_of table.old arena.old) who (Store a value)).entry }
    ensures cells { (who : Waiter)
        → cells_of table.new arena.new ≡ (act (cells_of table.old arena.old) who (Store a value)).cells }
    ensures resumed { (who : Waiter) → let resumed = (act (cells_of table.old arena.old) who (Store a value)).resumed in
        readers.new.items ≡ readers.old.items ++ askers_of resumed }
    ensures values { (who : Waiter) → let resumed = (act (cells_of table.old arena.old) who (Store a value)).resumed in
        resumed ≡ replies_to (askers_of resumed) value }

    ensures agree { Agree table.new arena.new }
    ensures nodes { arena.new.held.nodes ≡ arena.old.held.nodes }
{
    let reply = store(table, arena, a, value);
    let Reply::Stored = reply else {
        return reply;
    };
    drain(arena, a, readers);
    reply
}
