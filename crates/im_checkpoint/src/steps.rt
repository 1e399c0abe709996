//! The steps of a checkpoint, one for each of its states. [`Checkpoint::turn`] makes the one for the state that it
//! finds.
ghost use Rattle.std.specs.Prelude.{◌≡◌, ℕ, ◌*◌, ◌<◌, ◌≤◌, ◌⊎◌, length, IfOk, OnErr};
ghost use Rattle.{im_types.specs.Types.Contents, im_types.specs.Types.layout_in_use, im_pages.specs.PageSets.IsNext};
ghost use Rattle.{im_pages.specs.PageSets.pages_from, im_journal.specs.Holding.JournalState};
ghost use Rattle.{im_meaning.specs.Images.other, im_memory.specs.State.MemoryState, im_image.specs.Reading.HasSizes};
ghost use Rattle.im_disk.specs.{Gate.IsClosed, Moment.Moment};
ghost use Rattle.im_checkpoint.specs.Keeping.{FitsIdle, HasPagesLeft, IsKept, IsReady, paged, TurnKeeps, TurnLeaves};
ghost use Rattle.im_checkpoint.specs.Step.{changed_in, IsPagesDone, NoCheckpoint, pages_step, step_by_phase};
ghost use Rattle.im_checkpoint.specs.Turns.{BeginsCheckpoint, is_due, MakesTurn, Moved, Turned};
ghost use Rattle.im_types.specs.Layout as layout;

use crate::checkpoint::{Checkpoint, Phase, TurnDone};
use crate::header::{close_other, next_header, open_next};
use crate::left_pages::{LeftPages, page_for};
use crate::old_slots::sweep;
use im_disk::Disk;
use im_journal::Journal;
use im_memory::Memory;
use im_pages::PageSet;
use im_types::layout::{PAGE, area_at};
use im_types::{LAST, Refusal};
use std::mem::swap;

// The progress of a checkpoint whose pages from `from` on are left, and the first of those pages, if there is one.
fn next_left(left: &PageSet, from: usize) -> (Phase, usize)
    ensures step { (count : ℕ) → step_by_phase result.0 count (pages_from result.1 left.now)
        ≡ pages_step count (pages_from from left.now) }
    ensures some { result.0 ≡ Phase.PagesLeft → IsNext left.now from result.1 }
    ensures only { (result.0 ≡ Phase.PagesLeft) ⊎ (result.0 ≡ Phase.PagesDone) }
{
    match left.next_from(from) {
        Some(page) => (Phase::PagesLeft, page),
        None => (Phase::PagesDone, 0),
    }
}

impl Checkpoint {
    /// Writes the next page into the area that isn't in force.
    pub(crate) fn write_page<D: Disk>(
        &mut self,
        disk: &mut D,
        memory: &Memory,
    ) -> Result<TurnDone, Refusal>
        requires step { HasPagesLeft self.old.state memory.now.contents }
        requires inside { D.honest disk.old
            → layout.journal_at layout_in_use self.old.state.header.sizes ≤ length (D.now disk.old).bytes }
        ensures turned { IfOk result (λ answer. ((j : JournalState) → Turned self.old.state j answer self.new.state j)
            × Moved (changed_in self.old) answer self.new.state.step (changed_in self.new)) }
        ensures same { OnErr result (self.new ≡ self.old) }
        ensures keeps { D.honest disk.new → (m : Contents) (j : JournalState)
            → TurnKeeps D.Disk disk.old disk.new result self.old self.new memory.now m j j }
        ensures runs { MakesTurn D.Disk disk.old disk.new result }
    {
        let page = self.next;
        let limits = self.header.limits;
        let mut bytes = [0; PAGE];
        let pages = LeftPages {
            memory,
            limits,
            left: &self.left,
            recent: &self.recent,
        };
        page_for(&pages, &self.copies, page, &mut bytes);
        let at = area_at(limits, 1 - self.header.area as usize) + PAGE * page;
        // Nobody reads the area that isn't in force, so what a stop leaves of the page doesn't count.
        if let Err(_) = disk.write_at(at, &bytes) {
            return Err(Refusal::Device);
        }
        let (step, next) = next_left(&self.left, page + 1);
        self.step = step;
        self.next = next;
        Ok(TurnDone::Page(page as u32))
    }

    /// Puts the pages on the disk, and closes the other header's gate.
    pub(crate) fn sync_pages<D: Disk>(&mut self, disk: &mut D) -> Result<TurnDone, Refusal>
        requires step { IsPagesDone self.old.state.step }
        requires inside { D.honest disk.old → 8192 ≤ length (D.now disk.old).bytes }
        ensures turned { IfOk result (λ answer. ((j : JournalState) → Turned self.old.state j answer self.new.state j)
            × Moved (changed_in self.old) answer self.new.state.step (changed_in self.new)) }
        ensures same { OnErr result (self.new ≡ self.old) }
        ensures keeps { D.honest disk.new → (n : MemoryState) (m : Contents) (j : JournalState)
            → TurnKeeps D.Disk disk.old disk.new result self.old self.new n m j j }
        ensures runs { MakesTurn D.Disk disk.old disk.new result }
    {
        // A stop leaves the header in force, and has written nothing that this header needs.
        if let Err(_) = close_other(disk, &self.header) {
            return Err(Refusal::Device);
        }
        self.step = Phase::Synced;
        Ok(TurnDone::Synced)
    }

    /// Puts the header of the written area in force.
    pub(crate) fn put_in_force<D: Disk>(
        &mut self,
        disk: &mut D,
        journal: &mut Journal,
    ) -> Result<TurnDone, Refusal>
        requires ready { IsReady self.old.state journal.old }
        requires closed { D.honest disk.old → IsClosed (4096 * other self.old.state.header) 64 (D.now disk.old) }
        ensures turned { IfOk result (λ answer. Turned self.old.state journal.old answer self.new.state journal.new
            × Moved (changed_in self.old) answer self.new.state.step (changed_in self.new)) }
        ensures same { OnErr result ((self.new ≡ self.old) × (journal.new ≡ journal.old)) }
        ensures keeps { D.honest disk.new → (n : MemoryState) (m : Contents)
            → TurnKeeps D.Disk disk.old disk.new result self.old self.new n m journal.old journal.new }
        ensures runs { MakesTurn D.Disk disk.old disk.new result }
    {
        let next = next_header(&self.header, self.count);
        // A stop leaves the old header in force, or the new one. The image means the same with either.
        if let Err(_) = open_next(disk, &next) {
            return Err(Refusal::Device);
        }
        journal.begin_later(self.count);
        self.header = next;
        self.step = Phase::NoCheckpoint;
        Ok(TurnDone::InForce)
    }

    // Takes the changed pages and the current count.
    fn begin(&mut self, memory: &Memory, journal: &Journal)
        requires step { self.old.state.step ≡ NoCheckpoint }
        requires later { self.old.state.header.generation < LAST }
        requires sizes { HasSizes self.old.state.header.sizes memory.now.contents }
        ensures began { BeginsCheckpoint self.old.state.header journal.now.count self.new.state }
        ensures moved { Moved (changed_in self.old) TurnDone.Began self.new.state.step (changed_in self.new) }
        ensures kept { (now : Moment)
            → IsKept self.old.state (paged self.old memory.now) memory.now.contents journal.now now
            → IsKept self.new.state (paged self.new memory.now) memory.now.contents journal.now now }
    {
        // Nothing is copied: the checkpoint takes the memory's records as they are.
        let _records = memory.records();
        self.left.clear();
        self.left.union_with(&self.older);
        self.left.union_with(&self.recent);
        swap(&mut self.older, &mut self.recent);
        self.recent.clear();
        self.count = journal.count();
        let (step, next) = next_left(&self.left, 0);
        self.step = step;
        self.next = next;
    }

    // Returns whether there are commands since the header's count, and a later generation is possible.
    fn is_due(&self, journal: &Journal) -> bool
        ensures { result ≡ is_due self.now.state.header journal.now }
    {
        self.header.count < journal.count() && self.header.generation < LAST
    }

    /// A turn while no checkpoint is under way.
    pub(crate) fn rest<D: Disk>(
        &mut self,
        disk: &mut D,
        memory: &Memory,
        journal: &mut Journal,
    ) -> Result<TurnDone, Refusal>
        requires rests { FitsIdle self.old.state memory.now.contents journal.old }
        requires kept { D.honest disk.old
            → IsKept self.old.state (paged self.old memory.now) memory.now.contents journal.old (D.now disk.old) }
        ensures turned { IfOk result (λ answer. Turned self.old.state journal.old answer self.new.state journal.new
            × Moved (changed_in self.old) answer self.new.state.step (changed_in self.new)) }
        ensures same { OnErr result ((self.new ≡ self.old) × (journal.new ≡ journal.old)) }
        ensures keeps { TurnLeaves D.Disk disk.old disk.new result memory.now journal.old self.new journal.new }
        ensures runs { MakesTurn D.Disk disk.old disk.new result }
    {
        if journal.to_sweep() > 0 {
            return sweep(disk, journal);
        }
        if self.is_due(journal) {
            self.begin(memory, journal);
            return Ok(TurnDone::Began);
        }
        Ok(TurnDone::Idle)
    }
}
