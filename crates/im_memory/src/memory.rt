//! A memory, and one command on it.
//!
//! A struct that a call returns through memory costs its caller some 25 instructions, and so at each level that hands
//! it on. So a step is inlined into its caller; a confirmation, which is rarer, isn't.
ghost use Rattle.std.specs.Prelude.{◌≡◌, ◌*◌, ◌≤◌, false, List, [], ◌∷◌, ◌++◌, length, IfOk, IfErr, OnErr, slice_get};
ghost use Rattle.im_types.specs.Types.{Command, held_at, waiters_at, kept_for, block_at, empty_contents, presence_in};
ghost use Rattle.im_types.specs.Types.{IsMemory, KeepsEntries, ask, bounds, step, is_accepted, acceptance, after};
ghost use Rattle.im_types.specs.Types.{ValueLaw, MatchingLaw, Sizes, ShowsRecords};
ghost use Rattle.im_memory.specs.{State.empty_records, Touched.ChangesOnly, Touched.touched};

use crate::records::{MemoryRecords, are_threaded};
use crate::serving::serve;
use crate::windows::judge_confirm;
use im_arena::{Arena, Waiters};
use im_cell::CellTable;
use im_sessions::Sessions;
use im_types::{
    Block, Cell, Command, Entry, Judged, Kept, Limits, MAX_CELLS, MAX_ELEMENTS, Outcome, Refusal,
    Request, WINDOW, Waiter,
};
use std::alloc::Global;
use std::marker::Model;

/// A memory. Contracts see three parts. The contents are always those of a memory, and the records show it on the pages
/// of an image. The third part is the waiter node that the next waiting request takes.
///
/// [`Memory::new`] takes the room for all requests that may wait. A waiting request is kept in its element's window, so
/// there are never more of them than entries.
pub struct Memory {
    pub(crate) table: CellTable,
    pub(crate) arena: Arena,
    pub(crate) sessions: Sessions,
}

// By one call, so that whoever owns a memory isn't proved to let go each of its fields wherever it may end.
impl Drop for Memory {
    fn drop(self) {
        let Memory {
            table: _,
            arena: _,
            sessions: _,
        } = self;
    }
}

impl Model for Memory {
    ghost use Rattle.im_memory.specs.State.{memory_state, MemoryState};

    ghost Value = { MemoryState };

    ghost use Rattle.im_memory.specs.MakesMemory.{MakesMemory};

    ghost view = { λ m. memory_state m.table m.arena m.sessions };

    ghost invariant = { λ m. MakesMemory m.table m.arena m.sessions };
}

impl Memory {
    /// Makes a memory of these sizes, with no block and no entry. It takes all its memory here, and returns `NoMemory`
    /// if that is refused.
    pub fn new(alloc: Global, limits: Limits) -> Result<Self, Refusal>
        ensures empty { IfOk result (λ m. m.contents ≡ empty_contents limits.cells limits.elements) }
        ensures memory { IfOk result (λ m. IsMemory limits.cells limits.elements m.contents) }
        ensures records { IfOk result (λ m. m.records ≡ empty_records limits.cells limits.elements) }
        ensures refused { IfErr result (λ refusal. refusal ≡ Refusal.NoMemory) }
    {
        let nodes = WINDOW as u32 * limits.elements as u32;
        let Ok(table) = CellTable::new(alloc, limits.cells) else {
            return Err(Refusal::NoMemory);
        };
        let Ok(arena) = Arena::new(alloc, nodes, limits.cells) else {
            return Err(Refusal::NoMemory);
        };
        are_threaded(&arena);
        let Ok(sessions) = Sessions::new(alloc, limits.elements) else {
            return Err(Refusal::NoMemory);
        };
        Ok(Memory {
            table,
            arena,
            sessions,
        })
    }

    /// Serves one command, and returns its outcome or its refusal. A refusal changes nothing. The call takes no memory.
    ///
    /// A command of an element that doesn't exist is refused with `NoElement`. A request is refused with `Forgotten`
    /// below its window, and with `Mismatch` under a number that is kept for another operation. It is refused with
    /// `Gap` past the next number and past the last number of all, and with `WindowFull` while 64 entries are kept. A
    /// confirmation is refused with `Gap` past the next number, and with `NotAnswered` if an entry that it would drop
    /// still waits.
    #[inline(always)]
    pub fn step(&mut self, command: &Command) -> Result<Outcome, Refusal>
        ensures answer { result ≡ (step self.old.contents command.now).answer }
        ensures contents { self.new.contents ≡ (step self.old.contents command.now).contents }
        ensures unaccepted { is_accepted self.old.contents command.now ≡ false → self.new ≡ self.old }

        // Only these of its records change.
        ensures changes { ChangesOnly (touched self.old command.now) self.old.records self.new.records }

        // It stays a memory, each waiting request has a waiting entry, and entries stay kept until they are confirmed.
        ensures memory { let m = self.old.contents in IsMemory (length m.cells) (length m.windows) self.new.contents }
        ensures keeps { KeepsEntries self.old.contents command.now self.new.contents }

        // The laws of whole histories hold after any commands on the empty memory, followed by this one.
        ensures values { let m = self.old.contents in
            let empty = empty_contents (length m.cells) (length m.windows) in
            (commands : List Command) → m ≡ after empty commands → ValueLaw empty (commands ++ command.now ∷ []) }
        ensures matching { let m = self.old.contents in
            let empty = empty_contents (length m.cells) (length m.windows) in
            (commands : List Command) → m ≡ after empty commands → MatchingLaw empty (commands ++ command.now ∷ []) }
    {
        match command {
            Command::Request(request) => self.request(request),
            Command::Confirm { element, upto } => self.confirm(*element, *upto),
        }
    }

    #[inline(always)]
    fn request(&mut self, request: &Request) -> Result<Outcome, Refusal>
        ensures answer { result ≡ (step self.old.contents (Command.Request request.now)).answer }
        ensures contents { self.new.contents ≡ (step self.old.contents (Command.Request request.now)).contents }
        ensures was_memory { let m = self.old.contents in IsMemory (length m.cells) (length m.windows) m }
        ensures refused { OnErr result (self.new ≡ self.old) }
        ensures unaccepted { is_accepted self.old.contents (Command.Request request.now) ≡ false → self.new ≡ self.old }
        ensures changes { let command = Command.Request request.now in
            ChangesOnly (touched self.old command) self.old.records self.new.records }
    {
        match self.sessions.judge(request) {
            Err(refusal) => Err(refusal),
            Ok(Judged::Repeat(entry)) => Ok(Outcome::Entry(entry)),
            Ok(Judged::Fresh) => {
                let entry = serve(
                    &mut self.table,
                    &mut self.arena,
                    &mut self.sessions,
                    request,
                );
                Ok(Outcome::Entry(entry))
            }
        }
    }

    #[inline(never)]
    pub(crate) fn confirm(&mut self, element: u16, upto: u64) -> Result<Outcome, Refusal>
        ensures answer { result ≡ (step self.old.contents (Command.Confirm element upto)).answer }
        ensures contents { self.new.contents ≡ (step self.old.contents (Command.Confirm element upto)).contents }
        ensures was_memory { let m = self.old.contents in IsMemory (length m.cells) (length m.windows) m }
        ensures refused { OnErr result (self.new ≡ self.old) }
        ensures unaccepted { is_accepted self.old.contents (Command.Confirm element upto) ≡ false
            → self.new ≡ self.old }
        ensures changes { let command = Command.Confirm element upto in
            ChangesOnly (touched self.old command) self.old.records self.new.records }
    {
        match self.sessions.confirm(element, upto) {
            Ok(()) => Ok(Outcome::Confirmed),
            Err(refusal) => Err(refusal),
        }
    }

    /// Returns whether [`Memory::step`] would accept this command, or the refusal that it would return. It accepts a
    /// command if and only if the command changes the memory.
    pub fn judge(&self, command: &Command) -> Result<bool, Refusal>
        ensures { result ≡ acceptance self.now.contents command.now }
    {
        match command {
            Command::Request(request) => match self.sessions.judge(request) {
                Ok(Judged::Fresh) => Ok(true),
                Ok(Judged::Repeat(_)) => Ok(false),
                Err(refusal) => Err(refusal),
            },
            Command::Confirm { element, upto } => judge_confirm(&self.sessions, *element, *upto),
        }
    }

    /// Returns the entry that is kept under an element's number. Returns `NoElement` if there is no such element,
    /// `Forgotten` below its window, and `Gap` if the number isn't used yet.
    #[inline(always)]
    pub fn collect(&self, element: u16, number: u64) -> Result<Entry, Refusal>
        ensures { result ≡ ask self.now.contents.windows (record { element = element; number = number }) }
    {
        self.sessions.entry(element, number)
    }

    /// Returns the base of an element's window, and the number of its next new request. The entries are numbered from
    /// the base on. Returns `NoElement` if there is no such element.
    pub fn window(&self, element: u16) -> Result<(u64, u64), Refusal>
        ensures { result ≡ bounds self.now.contents.windows element }
    {
        self.sessions.window(element)
    }

    /// Returns the number of cells, at most 1,048,576.
    pub fn cells(&self) -> u32
        ensures count { result ≡ length self.now.contents.cells }
        ensures few { result ≤ MAX_CELLS }
        ensures memory { let m = self.now.contents in IsMemory (length m.cells) (length m.windows) m }
    {
        self.arena.list_count()
    }

    /// Returns the number of elements, at most 64.
    pub fn elements(&self) -> u16
        ensures count { result ≡ length self.now.contents.windows }
        ensures few { result ≤ MAX_ELEMENTS }
        ensures memory { let m = self.now.contents in IsMemory (length m.cells) (length m.windows) m }
    {
        self.sessions.elements() as u16
    }

    /// Returns the cell at an address, or `None` if the address lies in no block.
    pub fn cell(&self, a: u32) -> Option<Cell>
        ensures { result ≡ presence_in (held_at self.now.contents.cells a) }
    {
        self.table.get(a)
    }

    /// Returns the block that an address lies in, or `None` if it lies in none.
    pub fn block(&self, a: u32) -> Option<Block>
        ensures { result ≡ block_at self.now.contents.cells a }
    {
        self.table.block_of(a)
    }

    /// Returns the requests that wait at a cell, in their order of arrival. There are none if the address lies in no
    /// block. Each request takes one step.
    pub fn waiters(&self, a: u32) -> Waiters<'_>
        ensures { result ≡ waiters_at self.now.contents.cells a }
    {
        self.arena.waiters(a)
    }

    /// Returns the request at this place among those that wait at a cell, or `None` past the last one. Places count
    /// from 0. It takes one step for each place.
    pub fn waiter(&self, a: u32, place: usize) -> Option<Waiter>
        ensures { result ≡ slice_get (waiters_at self.now.contents.cells a) place }
    {
        self.waiters(a).nth(place)
    }

    /// Returns the operation and the entry that are kept under an element's number, or `None` if there are none.
    pub fn kept(&self, element: u16, number: u64) -> Option<Kept>
        ensures { result ≡ kept_for self.now.contents.windows (record { element = element; number = number }) }
    {
        self.sessions.kept(element, number)
    }

    /// Returns the records of the memory as it is now, for the pages of an image.
    pub fn records(&self) -> MemoryRecords<'_>
        ensures view { result ≡ self.now.records }
        ensures shows { let m = self.now.contents in
            (s : Sizes) → s.cells ≡ length m.cells → s.elements ≡ length m.windows → ShowsRecords s result m }
        ensures cells { length result.cells ≡ length self.now.contents.cells }
        ensures nodes { length result.nodes ≡ WINDOW * length self.now.contents.windows }
        ensures windows { result.windows ≡ self.now.contents.windows }
    {
        MemoryRecords::new(&self.table, &self.arena, &self.sessions)
    }
}
