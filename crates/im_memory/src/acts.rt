//! The effect of an operation on the cells, and the requests that it answers.
ghost use Rattle.std.specs.Prelude.{◌≡◌, ◌<◌, false, List, length, Ok, Option};
ghost use Rattle.im_types.specs.Types.{Answered, I, M, Fresh, held_at, store, put, at_cell, allocate, block_with_base};
ghost use Rattle.im_types.specs.Types.{release_block, reset_block, act, judge, note, answer_each};
ghost use Rattle.{im_laws.specs.Blocks.TellsOnly, im_arena.specs.Lists.free, im_arena.specs.Lists.list_at};
ghost use Rattle.im_cell.specs.{declared.Slot.Slot, Slots.is_releasable};
ghost use Rattle.im_istore.specs.{Access.replies_to, Agreement.Agree, Agreement.AgreeBut, Joined.cells_of};
ghost use Rattle.im_memory.specs.Changing.{AreAmong, ChangesAt, IsDrained, LeavesOthers, places_in};
ghost use Rattle.im_memory.specs.Resuming.{AgreeFor, AreAwaited, AreListed, HasActed, replies_of, telling};

use im_arena::Arena;
use im_cell::CellTable;
use im_istore::{fetch, next_reader};
use im_mstore::take;
use im_sessions::Sessions;
use im_types::{Entry, Kind, Op, Reply, Request, Waiter};

/// The waiting requests that an operation answers.
#[derive(Clone, Copy)]
pub enum Resumed {
    /// None.
    Nobody,
    /// The first take that waited, with this value.
    Taker(Waiter, u64),
    /// Each reader on the list of this cell, with this value.
    Readers(u32, u64),
}

/// The effect of an operation: the asker's entry, and the waiting requests that are still to be answered.
#[derive(Clone, Copy)]
pub struct Acted {
    pub entry: Entry,
    pub resumed: Resumed,
}

// Returns the effect of an operation that answers no waiting request.
fn told(entry: Entry) -> Acted
    ensures { result ≡ record { entry = entry; resumed = Resumed.Nobody } }
{
    Acted {
        entry,
        resumed: Resumed::Nobody,
    }
}

// Does a store. Its readers stay on the cell's list until `resume` answers them.
#[inline(always)]
fn store(table: &mut CellTable, arena: &Arena, a: u32, value: u64) -> Acted
    requires { Agree table.old arena.now }
    ensures acted { let cells = cells_of table.old arena.now in HasActed table.new arena.now result
        (at_cell I (store value) cells a (held_at cells a)) }
    ensures changes { let places = places_in table.old arena.now (Op.Store a value) in
        ChangesAt places table.old arena.now table.new arena.now }
    ensures among { AreAmong (places_in table.old arena.now (Op.Store a value)) result.resumed arena.now }
{
    let reply = im_istore::store(table, arena, a, value);
    match reply {
        Reply::Stored => Acted {
            entry: Entry::Answered(reply),
            resumed: Resumed::Readers(a, value),
        },
        _ => told(Entry::Answered(reply)),
    }
}

// Does a put. If a take waits, it is taken off the cell's list.
#[inline(always)]
fn put(table: &mut CellTable, arena: &mut Arena, a: u32, value: u64) -> Acted
    requires { Agree table.old arena.old }
    ensures acted { let cells = cells_of table.old arena.old in HasActed table.new arena.new result
        (at_cell M (put value) cells a (held_at cells a)) }
    ensures nodes { arena.new.held.nodes ≡ arena.old.held.nodes }
    ensures changes { let places = places_in table.old arena.old (Op.Put a value) in
        ChangesAt places table.old arena.old table.new arena.new }
    ensures among { AreAmong (places_in table.old arena.old (Op.Put a value)) result.resumed arena.new }
{
    let (reply, taker) = im_mstore::put(table, arena, a, value);
    match taker {
        Some(taker) => Acted {
            entry: Entry::Answered(reply),
            resumed: Resumed::Taker(taker, value),
        },
        None => told(Entry::Answered(reply)),
    }
}

// Makes a block. As `release` and `reset` do, it returns the reply alone. So no `Acted` is written through memory, and
// that of an access stays in registers.
#[inline(never)]
fn allocate(table: &mut CellTable, arena: &Arena, kind: Kind, n: u32) -> Reply
    requires { Agree table.old arena.now }
    ensures acted { HasActed table.new arena.now (telling result) (allocate (cells_of table.old arena.now) kind n) }
    ensures changes { let places = places_in table.old arena.now (Op.Alloc kind n) in
        ChangesAt places table.old arena.now table.new arena.now }
{
    if n == 0 {
        return Reply::BadLength;
    }
    match table.place(kind, n) {
        Some(base) => Reply::Base(base),
        None => Reply::NoSpace,
    }
}

// Returns why the cells of the block with this base stay as they are.
fn reason(table: &CellTable, arena: &Arena, a: u32) -> Reply
    requires agree { Agree table.now arena.now }
    requires stays { is_releasable table.now a ≡ false }
    ensures { TellsOnly (cells_of table.now arena.now) a result }
{
    match table.block_of(a) {
        Some(block) if block.base == a => Reply::StillWaiting,
        _ => Reply::NoBlock,
    }
}

// Frees the block with this base, unless a request waits for one of its cells.
#[inline(never)]
fn release(table: &mut CellTable, arena: &Arena, a: u32) -> Reply
    requires { Agree table.old arena.now }
    ensures acted { let cells = cells_of table.old arena.now in HasActed table.new arena.now (telling result)
        (release_block cells a (block_with_base a (held_at cells a))) }
    ensures changes { let places = places_in table.old arena.now (Op.Release a) in
        ChangesAt places table.old arena.now table.new arena.now }
{
    if table.release(a) {
        Reply::Released
    } else {
        reason(table, arena, a)
    }
}

// Empties the cells of the block with this base, unless a request waits for one of them.
#[inline(never)]
fn reset(table: &mut CellTable, arena: &Arena, a: u32) -> Reply
    requires { Agree table.old arena.now }
    ensures acted { let cells = cells_of table.old arena.now in HasActed table.new arena.now (telling result)
        (reset_block cells a (block_with_base a (held_at cells a))) }
    ensures changes { let places = places_in table.old arena.now (Op.Reset a) in
        ChangesAt places table.old arena.now table.new arena.now }
{
    if table.reset(a) {
        Reply::Cleared
    } else {
        reason(table, arena, a)
    }
}

// Keeps the entry of an operation that answers no waiting request, and returns its effect.
#[inline(always)]
fn keep(sessions: &mut Sessions, request: &Request, entry: Entry) -> Acted
    requires fresh { judge sessions.old request.now ≡ Ok Fresh }
    ensures told { result ≡ record { entry = entry; resumed = Resumed.Nobody } }
    ensures noted { sessions.new ≡ note sessions.old request.now result.entry }
{
    sessions.note(request, entry);
    told(entry)
}

// Keeps the reply of an operation on a block. It takes a copy of the request, so that an access has its own in
// registers.
#[inline(never)]
fn note_reply(sessions: &mut Sessions, request: Request, reply: Reply)
    requires { judge sessions.old request ≡ Ok Fresh }
    ensures { sessions.new ≡ note sessions.old request (Answered reply) }
{
    sessions.note(&request, Entry::Answered(reply));
}

// Does what `keep` does for the reply of an operation on a block. These are rarer than accesses.
fn keep_reply(sessions: &mut Sessions, request: &Request, reply: Reply) -> Acted
    requires fresh { judge sessions.old request.now ≡ Ok Fresh }
    ensures told { result ≡ telling reply }
    ensures noted { sessions.new ≡ note sessions.old request.now result.entry }
{
    note_reply(sessions, *request, reply);
    told(Entry::Answered(reply))
}

/// Does an asker's operation on the cells, and keeps the new request with its entry. A free node must be there, in case
/// the asker waits.
///
/// Each access keeps its own entry, while it's known which ones it may have: so none is packed by a table of all.
#[inline(always)]
pub fn act(
    table: &mut CellTable,
    arena: &mut Arena,
    sessions: &mut Sessions,
    who: Waiter,
    request: &Request,
) -> Acted
    requires agree { Agree table.old arena.old }
    requires room { 0 < free arena.old.held }
    requires fresh { judge sessions.old request.now ≡ Ok Fresh }
    ensures acted { HasActed table.new arena.new result (act (cells_of table.old arena.old) who request.now.op) }
    ensures nodes { arena.new.held.nodes ≡ arena.old.held.nodes }
    ensures noted { sessions.new ≡ note sessions.old request.now result.entry }

    // The records that it may change.
    ensures changes { ChangesAt (places_in table.old arena.old request.now.op) table.old arena.old table.new arena.new }
    ensures among { AreAmong (places_in table.old arena.old request.now.op) result.resumed arena.new }
{
    match request.op {
        Op::Alloc(kind, n) => keep_reply(sessions, request, allocate(table, arena, kind, n)),
        Op::Release(a) => keep_reply(sessions, request, release(table, arena, a)),
        Op::Reset(a) => keep_reply(sessions, request, reset(table, arena, a)),
        Op::Fetch(a) => keep(sessions, request, fetch(table, arena, a, who)),
        Op::Store(a, value) => {
            let acted = store(table, arena, a, value);
            sessions.note(request, acted.entry);
            acted
        }
        Op::Take(a) => keep(sessions, request, take(table, arena, a, who)),
        Op::Put(a, value) => {
            let acted = put(table, arena, a, value);
            sessions.note(request, acted.entry);
            acted
        }
    }
}

// Answers each reader on a list with a value, and takes it off the list. After its store, `im_istore::store_and_drain`
// does the same, but hands the readers out. This function answers them, and takes no memory.
#[inline(always)]
fn drain(sessions: &mut Sessions, arena: &mut Arena, a: u32, value: u64)
    requires awaited { AreAwaited sessions.old (replies_to (list_at arena.old.held a) value) }
    requires listed { a < length arena.old.held.lists }
    ensures windows { sessions.new ≡ answer_each sessions.old (replies_to (list_at arena.old.held a) value) }
    ensures nodes { arena.new.held.nodes ≡ arena.old.held.nodes }

    // For each table with this full cell.
    ensures cells { (slots : List (Option Slot)) → AgreeBut a slots arena.old
        → cells_of slots arena.new ≡ cells_of slots arena.old }
    ensures agree { (slots : List (Option Slot)) → AgreeBut a slots arena.old → Agree slots arena.new }
    ensures drained { IsDrained a arena.old arena.new }
{
    while let Some(reader) = next_reader(arena, a) {
        sessions.answer(reader, Reply::Value(value));
    }
}

/// Answers the requests that an operation resumes. After it, table and arena agree.
#[inline(always)]
pub fn resume(sessions: &mut Sessions, arena: &mut Arena, resumed: Resumed)
    requires awaited { AreAwaited sessions.old (replies_of resumed arena.old) }
    requires listed { AreListed resumed arena.old }
    ensures windows { sessions.new ≡ answer_each sessions.old (replies_of resumed arena.old) }
    ensures nodes { arena.new.held.nodes ≡ arena.old.held.nodes }

    // For each table that the operation may have left.
    ensures cells { (slots : List (Option Slot)) → AgreeFor resumed slots arena.old
        → cells_of slots arena.new ≡ cells_of slots arena.old }
    ensures agree { (slots : List (Option Slot)) → AgreeFor resumed slots arena.old → Agree slots arena.new }
    ensures others { LeavesOthers resumed arena.old arena.new }
{
    match resumed {
        Resumed::Nobody => {}
        Resumed::Taker(who, value) => sessions.answer(who, Reply::Value(value)),
        Resumed::Readers(a, value) => drain(sessions, arena, a, value),
    }
}
