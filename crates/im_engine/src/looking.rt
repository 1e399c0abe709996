//! What an engine shows.
ghost use Rattle.std.specs.Prelude.{◌≡◌, true, false, Err};
ghost use Rattle.im_types.specs.Types.{ask, bounds};
ghost use Rattle.{im_laws.specs.Groups.IsCounted, im_groups.specs.Commands.places};
ghost use Rattle.im_engine.specs.{Groups.reached_in, Leaving.LeavesState};

use crate::emptying::Empties;
use crate::engine::Engine;
use crate::groups::places_in;
use arrayvec::ArrayVec;
use im_disk::Disk;
use im_memory::Memory;
use im_types::{Command, Entry, MAX_GROUP, Refusal};

impl<D: Disk> Engine<D> {
    /// The entry that is kept under an element's number: refused with `Failed` where an earlier call failed on the
    /// disk, with `NoElement`, with `Forgotten` below the window, and with `Gap` where the number isn't used yet. No
    /// call of the disk.
    pub fn collect(&self, element: u16, number: u64) -> Result<Entry, Refusal>
        ensures failed { self.now.failed ≡ true → result ≡ Err Refusal.Failed }
        ensures answer { self.now.failed ≡ false
            → result ≡ ask self.now.memory.windows (record { element = element; number = number }) }
    {
        if self.failed {
            return Err(Refusal::Failed);
        }
        self.memory.collect(element, number)
    }

    /// The base of an element's window, from which on its entries are kept, and the number of its next new request:
    /// refused with `Failed` where an earlier call failed on the disk, and with `NoElement`. No call of the disk.
    pub fn window(&self, element: u16) -> Result<(u64, u64), Refusal>
        ensures failed { self.now.failed ≡ true → result ≡ Err Refusal.Failed }
        ensures answer { self.now.failed ≡ false → result ≡ bounds self.now.memory.windows element }
    {
        if self.failed {
            return Err(Refusal::Failed);
        }
        self.memory.window(element)
    }

    /// How many more commands can be accepted.
    pub fn room(&self) -> u32
        ensures { result ≡ self.now.room }
    {
        self.journal.room()
    }

    /// How many more commands are accepted at most, by the room and by the last count: behind that there is no room.
    /// (Own.)
    pub fn places(&self) -> u64
        ensures places { result ≡ places self.now.count self.now.room }
        ensures known { IsCounted (reached_in self.now) }
    {
        places_in(&self.journal)
    }

    /// How many commands have been accepted since the image was formatted.
    pub fn count(&self) -> u64
        ensures { result ≡ self.now.count }
    {
        self.journal.count()
    }

    /// Whether a call of the disk has failed. From then on `serve`, `turn`, `collect` and `window` only answer
    /// `Failed`. While none has, each file that a crash may leave means the memory and the count.
    pub fn failed(&self) -> bool
        ensures failed { result ≡ self.now.failed }
        ensures means { LeavesState D.Disk self.now }
    {
        self.failed // Nothing sets it back.
    }

    /// The memory.
    pub fn memory(&self) -> &Memory
        ensures { result.now.contents ≡ self.now.memory }
    {
        &self.memory
    }

    /// The members of the group ahead: none of them has acted.
    pub fn ahead(&self) -> &ArrayVec<Command, MAX_GROUP>
        ensures { result.now.items ≡ self.now.ahead }
    {
        &self.ahead.members
    }

    /// The disk.
    pub fn disk(&self) -> &D
        ensures { result.now ≡ self.now.disk }
    {
        &self.disk
    }
}

impl<D: Empties> Engine<D> {
    /// Empties the list that the disk keeps for its owner. All else stays, and no call of the disk is made.
    pub fn empty_list(&mut self)
        ensures emptied { self.new ≡ record self.old { disk = D.emptied self.old.disk } }
    {
        self.disk.empty();
    }
}
