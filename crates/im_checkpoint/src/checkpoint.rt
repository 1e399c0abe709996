//! A checkpoint, and its turns. In each state a turn does one thing, and its answer says which:
//!
//! | state | the turn | its answer | the next state |
//! |---|---|---|---|
//! | no checkpoint, old slots to be swept | closes the gates of three at most | `Swept` | no checkpoint |
//! | no checkpoint, none to be swept, new commands | takes the changed pages and the count | `Began` | pages left |
//! | no checkpoint, none of either | nothing | `Idle` | no checkpoint |
//! | pages left | writes the next page into the other area | `Page` | pages left; after the last, pages done |
//! | pages done | syncs the pages, and closes the other header's gate | `Synced` | synced |
//! | synced | writes the other area's header, and opens its gate | `InForce` | no checkpoint |
//!
//! The other area is the one that isn't in force, and new commands are those since the header's count. The pages that
//! changed are those that a command named since the other area's last checkpoint began; where there are none, all pages
//! are done at once. Nothing is copied then: a page that is left is copied by [`Checkpoint::before`], before the first
//! command that changes it. A turn that answers `Device` leaves the state as it was. After the last generation no
//! checkpoint begins. The table is `Turned` (`specs/Turns.antt`); what holds of the disk in each state, and what a stop
//! leaves, is `IsKept` (`specs/Keeping.antt`), told in docs/CRASH.md. The engine calls it between two commands.
ghost use Rattle.std.specs.Prelude.{◌≡◌, ◌*◌, ◌<◌, ◌≤◌, replicate, IfOk, IfErr, OnErr};
ghost use Rattle.im_types.specs.Types.{Device, NoMemory, Contents, layout_in_use, sizes_of};
ghost use Rattle.im_journal.specs.Holding.{AllHold, with_room};
ghost use Rattle.im_image.specs.{Headers.seen, Reading.HasSizes};
ghost use Rattle.im_checkpoint.specs.Keeping.{ComesTo, Fits, IsKept, Paged, paged, Prepares, StaysMeant, TurnLeaves};
ghost use Rattle.im_checkpoint.specs.Step.{IsPagesLeft, NoCheckpoint, PagedCheckpoint};
ghost use Rattle.im_checkpoint.specs.Turns.{calls_to_sweep, IsIdle, MakesSweep, MakesTurn, swept_at_once};
ghost use Rattle.im_types.specs.Layout as layout;

use crate::left_pages::{LeftPages, copy_pages};
use crate::old_slots::sweep_more;
use crate::page_copies::PageCopies;
use im_disk::Disk;
use im_image::Header;
use im_journal::Journal;
use im_memory::Memory;
use im_pages::PageSet;
use im_types::layout::area_pages;
use im_types::{Command, Limits, Refusal};
use std::alloc::Global;
use std::marker::Model;

/// The work that a turn did.
#[derive(Clone, Copy, Debug, PartialEq, Eq)]
pub enum TurnDone {
    /// Nothing, because there was nothing to do.
    Idle,
    /// It took the changed pages and the current count.
    Began,
    /// It wrote the page with this number.
    Page(u32),
    /// It put the pages on the disk. The other header's gate is closed.
    Synced,
    /// It put the header of the written area in force.
    InForce,
    /// It closed the gates of slots whose commands are held by the area in force.
    Swept,
}

/// The progress of a checkpoint.
#[derive(Clone, Copy, Debug, PartialEq, Eq)]
pub(crate) enum Phase {
    NoCheckpoint,
    PagesLeft,
    PagesDone,
    Synced,
}

/// The header in force, the progress of the next area, and the pages that changed.
///
/// [`Checkpoint::idle`] takes the memory once: for the sets of pages, and for copies of all pages of an area. It
/// doesn't fill the space for copies.
#[derive(Drop)]
pub struct Checkpoint {
    pub(crate) header: Header,
    pub(crate) step: Phase,
    pub(crate) count: u64,
    // The pages that changed since the last checkpoint began.
    pub(crate) recent: PageSet,
    // The pages that changed between the start of the checkpoint before the last one and the start of the last one.
    pub(crate) older: PageSet,
    // Of these pages, those from `next` on are left.
    pub(crate) left: PageSet,
    pub(crate) next: usize,
    // The pages that a command names.
    pub(crate) named: PageSet,
    // Copies of pages that are left and have changed since. A copy has the page as it was.
    pub(crate) copies: PageCopies,
}

impl Model for Checkpoint {
    ghost use Rattle.{im_pages.specs.PageSets.pages_from, im_image.specs.Headers.seen};
    ghost use Rattle.im_checkpoint.specs.Step.{IsCheckpoint, PagedCheckpoint, step_by_phase};

    ghost Value = { PagedCheckpoint };

    ghost view = { λ c. record {
      state = record { header = seen c.header; step = step_by_phase c.step c.count (pages_from c.next c.left) };
      recent = c.recent;
      older = c.older;
      copies = c.copies;
    } };

    ghost invariant = { λ c.
        IsCheckpoint (seen c.header) c.step c.recent c.older c.left c.named c.next c.copies };
}

// A set with all pages of an area, or with none.
fn all_or_none(alloc: Global, limits: Limits, all: bool) -> Result<PageSet, Refusal>
    ensures set { IfOk result (λ set. set ≡ replicate (layout.area_pages layout_in_use (sizes_of limits)) all) }
    ensures only { IfErr result (λ e. e ≡ NoMemory) }
{
    let Ok(mut set) = PageSet::new(alloc, limits) else {
        return Err(Refusal::NoMemory);
    };
    if !all {
        return Ok(set);
    }
    set.fill();
    Ok(set)
}

impl Checkpoint {
    /// Returns a state with no checkpoint under way and this header in force. All pages of both areas count as changed.
    /// If the image was just formatted, only those of the other area do. It takes memory for the sets of pages and for
    /// copies of an area, and returns `NoMemory` if that is refused.
    pub fn idle(alloc: Global, header: &Header, formatted: bool) -> Result<Checkpoint, Refusal>
        requires { header.now.area ≤ 1 }
        ensures idle { IfOk result (λ c. IsIdle (seen header.now) formatted c) }
        ensures only { IfErr result (λ e. e ≡ NoMemory) }
    {
        let limits = header.limits;
        let Ok(recent) = all_or_none(alloc, limits, !formatted) else {
            return Err(Refusal::NoMemory);
        };
        let Ok(older) = all_or_none(alloc, limits, formatted) else {
            return Err(Refusal::NoMemory);
        };
        let Ok(left) = PageSet::new(alloc, limits) else {
            return Err(Refusal::NoMemory);
        };
        let Ok(named) = PageSet::new(alloc, limits) else {
            return Err(Refusal::NoMemory);
        };
        let Ok(copies) = PageCopies::new(alloc, area_pages(limits)) else {
            return Err(Refusal::NoMemory);
        };
        Ok(Checkpoint {
            header: *header,
            step: Phase::NoCheckpoint,
            count: 0,
            recent,
            older,
            left,
            next: 0,
            named,
            copies,
        })
    }

    /// Returns the header in force.
    pub fn header(&self) -> Header
        ensures { seen result ≡ self.now.state.header }
    {
        self.header // As it was put in force.
    }

    // Does the work of `before` while pages are left.
    #[inline(never)]
    fn copy_named(&mut self, memory: &Memory, command: &Command)
        requires step { IsPagesLeft self.old.state.step }
        requires sizes { HasSizes self.old.state.header.sizes memory.now.contents }
        ensures { Prepares self.old memory.now command.now self.new }
    {
        self.named.clear();
        memory.touches(command, &mut self.named);
        let pages = LeftPages {
            memory,
            limits: self.header.limits,
            left: &self.left,
            recent: &self.recent,
        };
        copy_pages(&pages, &self.named, self.next, &mut self.copies);
        self.recent.union_with(&self.named);
    }

    /// Prepares for a command. It must be called before a command that the memory accepts acts. From then on, each page
    /// with a record that the command may change counts as changed in both areas. If a checkpoint under way still has
    /// to write such a page, this copies it as it is, unless it was copied before. It takes no memory and makes no call
    /// of the disk.
    pub fn before(&mut self, memory: &Memory, command: &Command)
        requires sizes { HasSizes self.old.state.header.sizes memory.now.contents }
        ensures { Prepares self.old memory.now command.now self.new }
    {
        match self.step {
            Phase::PagesLeft => self.copy_named(memory, command),
            _ => memory.touches(command, &mut self.recent),
        }
    }

    /// Makes one turn, which continues from what was done before. It takes the changed pages, or writes one of them, or
    /// puts them on the disk, or puts the header of their area in force, or closes gates. It closes at most three gates
    /// of slots whose commands the area in force holds. Returns `Idle` if nothing is to be done. It makes at most four
    /// device calls and takes no memory. The memory and the journal must be those that the header's image means.
    ///
    /// Returns `Device` if a call of the disk failed. The checkpoint and the journal are then as they were. The disk
    /// may be further along, so the image has to be opened again.
    pub fn turn<D: Disk>(
        &mut self,
        disk: &mut D,
        memory: &Memory,
        journal: &mut Journal,
    ) -> Result<TurnDone, Refusal>
        requires fits { Fits self.old.state memory.now.contents journal.old }
        requires kept { D.honest disk.old
            → IsKept self.old.state (paged self.old memory.now) memory.now.contents journal.old (D.now disk.old) }
        // The table of turns gives the answer and the next state, and how far a checkpoint still has to go.
        ensures turned { IfOk result (λ answer. ComesTo self.old journal.old memory.now.contents answer self.new
            journal.new) }
        ensures same { OnErr result ((self.new ≡ self.old) × (journal.new ≡ journal.old)) }
        // Each file that a crash may leave, from the start to the end of the turn, means the memory after all its
        // commands.
        ensures keeps { TurnLeaves D.Disk disk.old disk.new result memory.now journal.old self.new journal.new }
        ensures runs { MakesTurn D.Disk disk.old disk.new result }
    {
        match self.step {
            Phase::NoCheckpoint => self.rest(disk, memory, journal),
            Phase::PagesLeft => self.write_page(disk, memory),
            Phase::PagesDone => self.sync_pages(disk),
            Phase::Synced => self.put_in_force(disk, journal),
        }
    }

    /// Closes the gates of the oldest slots whose commands the area in force holds, `most` at most. It makes one device
    /// call for each slot and one sync for all, and returns their number. It makes no call if there are no such slots,
    /// or while a checkpoint is under way. It takes no memory.
    ///
    /// Returns `Device` if a call of the disk failed. The journal is then as it was, and the image has to be opened
    /// again.
    pub fn sweep<D: Disk>(
        &self,
        disk: &mut D,
        journal: &mut Journal,
        most: u32,
    ) -> Result<u32, Refusal>
        requires holds { D.honest disk.old → AllHold journal.old (D.now disk.old) }
        ensures swept { IfOk result (λ n. (n ≡ swept_at_once self.now.state.step journal.old most)
            × (journal.new ≡ with_room journal.old n)) }
        ensures same { OnErr result (journal.new ≡ journal.old) }
        // Each file that a crash may leave, from the start to the end, means the memory after all its commands.
        ensures keeps { D.honest disk.new → (x : Paged) (m : Contents)
            → StaysMeant D.Disk disk.old disk.new result self.now.state x self.now.state x m journal.old journal.new }
        // It makes one call of the disk for each slot and one more, or none if no slot is swept.
        ensures runs { MakesSweep D.Disk disk.old disk.new
            (calls_to_sweep self.now.state.step journal.old most) result }
    {
        match self.step {
            Phase::NoCheckpoint => sweep_more(disk, journal, most),
            _ => Ok(0),
        }
    }
}
