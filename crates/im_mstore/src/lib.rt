//! Take and put on the cells of a table. Their waiters stand on the lists of an arena (M cells: Barth, Nikhil, Arvind,
//! 1991). The list of a cell's waiters has the cell's address as its number.
//!
//! Stands on `im_istore`. It gives the meaning of cells and lists, their agreement, and the checks before an access.
//! Contracts state the effect of a call on the cells by the definitions of `im_types`.
#![tactic(auto)]

ghost use Rattle.std.specs.Prelude.{◌≡◌, ℕ, ◌<◌, ◌≢◌, [], ◌∷◌, length, drop, IsSome, slice_get, slice_set, MatchOption};
ghost use Rattle.std.specs.Prelude.{Err};
ghost use Rattle.im_types.specs.Types.{Reply, Answered, M, Take, Put, act};
ghost use Rattle.im_arena.specs.Lists.{free, IsPopped, list_at, with_list};
ghost use Rattle.im_cell.specs.Slots.{slot_at, with_cell};
ghost use Rattle.im_istore.specs.{Access.access_in, Access.replies_to, Agreement.Agree, Joined.cells_of};
ghost use Rattle.im_istore.specs.Records.{LeavesCells, LeavesRest};
ghost use Rattle.im_mstore.specs.Access.{open_cell};

use im_arena::Arena;
use im_cell::CellTable;
use im_istore::{look_to_write, wait};
use im_types::{Cell, Entry, Kind, Reply, Waiter};

// Returns the cell without a value whose waiters are on this list.
fn open_cell(arena: &Arena, list: u32) -> Cell
    requires { list < length arena.now.held.lists }
    ensures { result ≡ open_cell (list_at arena.now.held list) }
{
    if arena.is_empty(list) {
        Cell::Empty
    } else {
        Cell::Waiting
    }
}

// Takes the first request off the list of those that wait for a cell in a block. If others are left, the cell still
// waits.
#[inline(always)]
fn first_taker(table: &mut CellTable, arena: &mut Arena, a: u32) -> Option<Waiter>
    requires some { IsSome (slot_at table.old a) }
    requires inside { a < length arena.old.held.lists }
    ensures first { result ≡ slice_get (list_at arena.old.held a) 0 }
    ensures rest { arena.new.held ≡ with_list arena.old.held a (drop 1 (list_at arena.old.held a)) }
    ensures cells { table.new
        ≡ slice_set table.old a (with_cell (open_cell (list_at arena.new.held a)) (slot_at table.old a)) }
    ensures links { MatchOption result (arena.new ≡ arena.old) (λ _. IsPopped a arena.old arena.new) }
{
    let taker = arena.pop_front(a);
    table.set(a, open_cell(arena, a));
    taker
}

/// Takes the value of the cell at an address for `who`, and leaves the cell empty. A clashed cell gives a clash and
/// stays. If the cell has no value yet, `who` waits behind the others and takes a node.
#[tactic(auto, using(im_istore::proofs::Cells::there))]
#[inline(always)]
pub fn take(table: &mut CellTable, arena: &mut Arena, a: u32, who: Waiter) -> Entry
    requires agree { Agree table.old arena.old }
    requires room { 0 < free arena.old.held }
    ensures entry { result ≡ (act (cells_of table.old arena.old) who (Take a)).entry }
    ensures cells { cells_of table.new arena.new ≡ (act (cells_of table.old arena.old) who (Take a)).cells }
    ensures nobody { (act (cells_of table.old arena.old) who (Take a)).resumed ≡ [] }

    ensures agree { Agree table.new arena.new }
    ensures kept { LeavesRest M a result table.old table.new arena.old arena.new }
{
    let cell = match look_to_write(table, a, Kind::M) {
        Ok(cell) => cell,
        Err(reply) => return Entry::Answered(reply),
    };
    match cell {
        Cell::Full(value) => {
            table.set(a, Cell::Empty);
            Entry::Answered(Reply::Value(value))
        }
        Cell::Clashed(_) => Entry::Answered(Reply::Clash),
        _ => {
            wait(table, arena, a, who);
            Entry::Waiting
        }
    }
}

/// Puts a value into the cell at an address. If requests wait for the cell, the first of them gets the value. It is
/// returned beside the reply, and its node is freed. If none waits, the cell keeps the value. A cell that has a value
/// already keeps that one, and is clashed.
#[tactic(auto, using(im_istore::proofs::Cells::there))]
#[inline(always)]
pub fn put(table: &mut CellTable, arena: &mut Arena, a: u32, value: u64) -> (Reply, Option<Waiter>)
    requires { Agree table.old arena.old }

    // For every asker.
    ensures reply { (who : Waiter) → Answered result.0 ≡ (act (cells_of table.old arena.old) who (Put a value)).entry }
    ensures cells { (who : Waiter)
        → cells_of table.new arena.new ≡ (act (cells_of table.old arena.old) who (Put a value)).cells }
    ensures taker { (who : Waiter) → let resumed = (act (cells_of table.old arena.old) who (Put a value)).resumed in
        MatchOption result.1 (resumed ≡ []) (λ taker. resumed ≡ replies_to (taker ∷ []) value) }

    ensures agree { Agree table.new arena.new }
    ensures nodes { arena.new.held.nodes ≡ arena.old.held.nodes }

    // The parts that stay.
    ensures kept { LeavesCells M a table.old table.new }
    ensures links { MatchOption result.1 (arena.new ≡ arena.old) (λ _. IsPopped a arena.old arena.new) }
{
    let cell = match look_to_write(table, a, Kind::M) {
        Ok(cell) => cell,
        Err(reply) => return (reply, None),
    };
    match cell {
        Cell::Full(kept) => {
            table.set(a, Cell::Clashed(kept));
            (Reply::Clash, None)
        }
        Cell::Clashed(_) => (Reply::Clash, None),
        Cell::Empty => {
            table.set(a, Cell::Full(value));
            (Reply::Stored, None)
        }
        Cell::Waiting => {
            let taker = first_taker(table, arena, a);
            (Reply::Stored, taker)
        }
    }
}
