//! Commands ahead of a journal's run: their bodies are on the disk, and the gate before them is opened with the sync of
//! the next ones. So a chain of groups makes one sync for each, and one more.
ghost use Rattle.std.specs.Prelude.{◌≡◌, ℕ, ◌+◌, ◌<◌, List, [], length, OnOk, MatchResult};
ghost use Rattle.im_disk.specs.Runs.{RunsOrRefuses};
ghost use Rattle.im_journal.specs.Holding.{AllHold, Holds, IsFullBy, IsFullFor, IsFullOrFault, IsJournal, Lays, longer};
ghost use Rattle.im_journal.specs.Holding.{MayLay, MayPut, Puts, slots_ahead, with_ahead};
ghost use Rattle.im_journal.specs.OnDisk.{KnownOf, LeadsFrom};

use crate::gate::write_gate;
use crate::group::lay_bodies;
use crate::journal::Journal;
use crate::laid::Laid;
use crate::room::{has_room, room_after};
use arrayvec::ArrayVec;
use im_disk::Disk;
use im_types::{Command, MAX_GROUP, Refusal};

impl Journal {
    /// How many commands are ahead: at most [`MAX_GROUP`], and no more than there is room for.
    pub fn ahead(&self) -> usize
        ensures { result ≡ length self.now.ahead }
    {
        self.laid.many()
    }

    /// Forgets the commands ahead. They have no effect on a file, and need no call of the disk to be undone.
    pub fn forget_ahead(&mut self)
        ensures state { self.new ≡ with_ahead [] self.old }
        ensures holds { (file : List ℕ) → Holds self.old file → Holds self.new file }
    {
        self.laid = Laid::none();
    }

    /// Puts commands ahead of the run where none are, as one group: the body of each, and a sync. These are as many
    /// calls of the disk as there are commands, and one. At `Ok` the bodies are on the disk, and the run is as it was.
    /// It takes no memory.
    ///
    /// `JournalFull` exactly where there is less room, or the count would pass [`LAST`](im_types::LAST); then no call
    /// is made. `Device` where a call of the disk failed; then the run and the known room are on the disk as they were.
    pub fn lay_ahead<D: Disk>(
        &mut self,
        disk: &mut D,
        next: &ArrayVec<Command, MAX_GROUP>,
    ) -> Result<(), Refusal>
        requires none { self.old.ahead ≡ [] }
        requires holds { KnownOf D.Disk disk.old (AllHold self.old) }
        // Each file that a crash may leave, from the start on, has the run and the known room.
        ensures runs { RunsOrRefuses D.Disk disk.old disk.new result IsFullOrFault (length next.now.items + 1)
            (MayLay self.old (D.now disk.old)) }
        // Once it is done, the bodies are on the disk.
        ensures laid { OnOk result (LeadsFrom D.Disk disk.old disk.new (Lays self.old self.new)) }
        ensures state { MatchResult result (λ _. self.new ≡ with_ahead next.now.items self.old)
            (λ _. self.new ≡ self.old) }
        ensures full { IsFullBy (IsFullFor self.old next.now.items) disk.old disk.new result }
        ensures known { IsJournal self.old }
    {
        let slice = next.as_slice();
        if !has_room(self.count, self.room, slice.len()) {
            return Err(Refusal::JournalFull);
        }
        // A stop leaves the gate in front of them closed.
        if let Err(_) = lay_bodies(disk, self.base, self.slots, self.count, slice) {
            return Err(Refusal::Device);
        }
        self.laid = Laid::of(next);
        Ok(())
    }

    /// Adds the commands ahead at the end of the run, and puts the next ones ahead, which may be none: the gate of the
    /// first command ahead, the body of each next one, a sync. These are two calls of the disk more than there are next
    /// commands. At `Ok` the commands that were ahead are on the disk, and so are the bodies of the next ones. It takes
    /// no memory.
    ///
    /// `JournalFull` exactly where there is less room than for both, or the count would pass [`LAST`](im_types::LAST);
    /// then no call is made. `Device` where a call of the disk failed; then all of the commands ahead are on the disk
    /// or none is, and none of the next ones; the journal is as it was, and the image has to be opened again.
    pub fn put_ahead<D: Disk>(
        &mut self,
        disk: &mut D,
        next: &ArrayVec<Command, MAX_GROUP>,
    ) -> Result<(), Refusal>
        requires some { 0 < length self.old.ahead }
        requires holds { KnownOf D.Disk disk.old (AllHold self.old) }
        // Each file that a crash may leave, from the start on, has the old run, or the old run and all that was ahead.
        ensures runs { RunsOrRefuses D.Disk disk.old disk.new result IsFullOrFault (length next.now.items + 2)
            (MayPut (slots_ahead self.old next.now.items) self.old self.old.ahead (D.now disk.old)) }
        // Once it is done, each has what was ahead, and the bodies of the next ones.
        ensures added { OnOk result (LeadsFrom D.Disk disk.old disk.new
            (Puts (slots_ahead self.old next.now.items) self.old self.new self.old.ahead)) }
        ensures state { MatchResult result
            (λ _. self.new ≡ with_ahead next.now.items (longer (length self.old.ahead) self.old))
            (λ _. self.new ≡ self.old) }
        ensures full { IsFullBy (IsFullFor self.old next.now.items) disk.old disk.new result }
        ensures known { IsJournal self.old }
    {
        let laid = self.laid.many();
        let slice = next.as_slice();
        if !has_room(self.count, self.room, laid + slice.len()) {
            return Err(Refusal::JournalFull);
        }
        let at = self.base + 64 * ((self.count % self.slots as u64) as usize);
        // A stop leaves that gate closed, or open over all of its group: the bodies are on the disk.
        if let Err(_) = write_gate(disk, at) {
            return Err(Refusal::Device);
        }
        let from = self.count + laid as u64;
        // The same, and the gate of the next group is closed.
        if let Err(_) = lay_bodies(disk, self.base, self.slots, from, slice) {
            return Err(Refusal::Device);
        }
        let room = room_after(self.count, laid, self.room);
        self.count = from;
        self.room = room;
        self.laid = Laid::of(next);
        Ok(())
    }
}
