//! The journal as its owner sees it: how far its run of commands has come, how a command is added, and how the slots of
//! commands before the run become room again.
ghost use Rattle.std.specs.Prelude.{◌≡◌, ℕ, ◌+◌, ◌-◌, ◌*◌, ◌<◌, ◌≤◌, min, ◌⊎◌, List, [], ◌∷◌, length, drop, IfOk};
ghost use Rattle.std.specs.Prelude.{IfErr, OnOk, MatchResult, Some, None};
ghost use Rattle.im_types.specs.Types.{tail};
ghost use Rattle.im_disk.specs.{Runs.ReadsOrRefuses, Runs.RunsOrRefuses, Since.Calls};
ghost use Rattle.im_journal.specs.Holding.{Adds, AllHold, AreClosed, Holds, IsFullBy, IsFullOrFault, IsJournal};
ghost use Rattle.im_journal.specs.Holding.{IsSwept, IsSweptBy, IsTail, longer, MayAppend, MayBeginAt, MaySweep};
ghost use Rattle.im_journal.specs.Holding.{rest_behind, ring_in, ring_under, Sweeps, to_sweep};
ghost use Rattle.im_journal.specs.OnDisk.{KnownOf, LeadsFrom};

use crate::bytes::read_bytes;
use crate::gate::close_gates;
use crate::group::write_bodies;
use crate::laid::Laid;
use crate::ring::tail_in;
use crate::room::{at_once, has_room, room_after};
use im_disk::{Disk, open_gate};
use im_types::layout::{Version, journal_at};
use im_types::{Command, LAST, Limits, MAX_GROUP, Refusal};
use std::alloc::Global;
use std::marker::Model;

/// The journal of an image: where its ring of slots is, and how far the run of commands in it has come. The command
/// with sequence number s stands in slot s mod slots. The commands themselves are on the disk alone. Commands may be
/// ahead: their bodies are on the disk, and they are no part of the run until the gate before them is open.
#[derive(Drop)]
pub struct Journal {
    pub(crate) base: usize,
    pub(crate) slots: u32,
    pub(crate) first: u64,
    pub(crate) count: u64,
    pub(crate) room: u32,
    pub(crate) laid: Laid,
}

impl Model for Journal {
    ghost use Rattle.im_journal.specs.Holding.{IsJournal, journal_state, JournalState};

    ghost Value = { JournalState };

    ghost view = { λ j. journal_state j.base j.slots j.first j.count j.room j.laid };

    ghost invariant = { λ j. IsJournal (journal_state j.base j.slots j.first j.count j.room j.laid) };
}

impl Journal {
    /// The journal of an image that was formatted under these limits: no commands yet, and room in every slot. It is
    /// the tail of each file whose gates are all closed.
    pub fn fresh(limits: Limits) -> Journal
        ensures state { result
            ≡ record { ring = ring_under limits; first = 0; count = 0; room = limits.slots; ahead = [] } }
        ensures holds { (file : List ℕ) → result.ring.base + 64 * result.ring.slots ≤ length file
            → AreClosed result.ring file → Holds result file }
    {
        Journal {
            base: journal_at(limits),
            slots: limits.slots,
            first: 0,
            count: 0,
            room: limits.slots,
            laid: Laid::none(),
        }
    }

    /// Reads the run of commands from a sequence number on, and the room behind it. `from` is the count of the header
    /// in force, at most [`LAST`], and the file is long enough for the ring. It writes nothing, and reads the ring
    /// whole by one call of the disk: 64 bytes a slot.
    ///
    /// `BadRecord` exactly where the file has no such tail: a slot of the run isn't spelled as it should be, a group
    /// goes more than once round the ring or past [`LAST`], or a slot from the first open gate behind the run on, up to
    /// the run's first slot, has a sequence number that isn't below `from`. `Device` where the call of the disk failed.
    /// `NoMemory`, where `alloc` refused the room for the ring's bytes or the commands. None of them changes anything.
    pub fn read_tail<D: Disk>(
        alloc: Global,
        disk: &mut D,
        version: Version,
        limits: Limits,
        from: u64,
    ) -> Result<(Journal, Vec<Command>), Refusal>
        requires last { from ≤ LAST }
        requires inside { D.honest disk.old
            → (ring_in version limits).base + 64 * limits.slots ≤ length (D.now disk.old).bytes }
        ensures tail { IfOk result (λ r. D.honest disk.new
            → IsTail (ring_in version limits) from r.0 r.1.items (D.now disk.old).bytes) }
        ensures bad { IfErr result (λ e. e ≡ Refusal.BadRecord → D.honest disk.new
            → tail (ring_in version limits) from (D.now disk.old).bytes ≡ None) }
        ensures journal { IfOk result (λ r. (r.0.ring ≡ ring_in version limits) × (r.0.first ≡ from)
            × (r.0.count ≡ from + length r.1.items) × (r.0.ahead ≡ [])) }
        ensures reads { ReadsOrRefuses D.Disk disk.old disk.new result
            (λ e. (e ≡ Refusal.BadRecord) ⊎ (e ≡ Refusal.NoMemory) ⊎ (e ≡ Refusal.Device)) }
        ensures calls { OnOk result (D.honest disk.new → Calls D.past disk.old disk.new 1) }
    {
        let base = version.journal_at(limits);
        let slots = limits.slots as usize;
        let ring = match read_bytes(alloc, disk, base, 64 * slots) {
            Ok(ring) => ring,
            Err(refusal) => return Err(refusal),
        };
        let (commands, room) = match tail_in(alloc, &ring, slots, from) {
            Ok(read) => read,
            Err(refusal) => return Err(refusal),
        };
        let journal = Journal {
            base,
            slots: limits.slots,
            first: from,
            count: from + commands.len() as u64,
            room: room as u32,
            laid: Laid::none(),
        };
        Ok((journal, commands))
    }

    /// The sequence number of the run's first command: the count of the header in force.
    pub fn first(&self) -> u64
        ensures { result ≡ self.now.first }
    {
        self.first // A run of no commands begins at the count.
    }

    /// The sequence number of the next command: how many there have been.
    pub fn count(&self) -> u64
        ensures count { result ≡ self.now.count }
        ensures known { IsJournal self.now }
    {
        self.count // Commands are numbered from 0.
    }

    /// How many more commands can be appended: 0 where the count is the last one that there is, else how many slots
    /// from the next one on are known to have their gates closed on the disk.
    pub fn room(&self) -> u32
        ensures { result ≡ self.now.room }
    {
        self.room // At most all slots.
    }

    /// How many slots are neither of the run nor known to be room: their commands lie before the run, and their gates
    /// may be open. 0 where the count is the last one that there is.
    pub fn to_sweep(&self) -> u32
        ensures { result ≡ to_sweep self.now }
    {
        if self.count == LAST {
            return 0;
        }
        self.slots - (self.count - self.first) as u32 - self.room
    }

    /// Begins the run at a later command, once the pages of the header in force hold the effects of those before it.
    /// Their slots are then to be swept, before they are room. No group goes on behind them: in the middle of one there
    /// is no gate that the run could begin at. It makes no call of the disk.
    pub fn begin_later(&mut self, first: u64)
        requires later { self.old.first ≤ first }
        requires counted { first ≤ self.old.count }
        ensures state { self.new ≡ record self.old { first = first } }
        ensures holds { (file : List ℕ) → Holds self.old file → MayBeginAt self.old first file → Holds self.new file }
        // The commands that are left of the run.
        ensures tail { (file : List ℕ) → (held : Holds self.old file) → MayBeginAt self.old first file
            → tail self.old.ring first file ≡ Some (rest_behind (first - self.old.first) held) }
    {
        self.first = first;
    }

    /// Adds a command at the end of the run, by four calls of the disk: its body, a sync, its gate, a sync. At `Ok` the
    /// command is on the disk. It takes no memory.
    ///
    /// `JournalFull` exactly where there is no room; then no call is made. `Device` where a call of the disk failed;
    /// then the command is on the disk or not, the journal is as it was, and the image has to be opened again.
    pub fn append<D: Disk>(&mut self, disk: &mut D, command: &Command) -> Result<(), Refusal>
        requires holds { KnownOf D.Disk disk.old (AllHold self.old) }
        // Each file that a crash may leave, from the start on, has the old run, or the old run and the command.
        ensures runs { RunsOrRefuses D.Disk disk.old disk.new result IsFullOrFault 4
            (MayAppend self.old (command.now ∷ []) (D.now disk.old)) }
        // Once it is done, each has the command.
        ensures added { OnOk result (LeadsFrom D.Disk disk.old disk.new (Adds self.old self.new (command.now ∷ []))) }
        ensures state { MatchResult result (λ _. self.new ≡ longer 1 self.old) (λ _. self.new ≡ self.old) }
        ensures full { IsFullBy (self.old.room ≡ 0) disk.old disk.new result }
    {
        self.append_group(disk, &[*command])
    }

    /// Adds commands at the end of the run as one group, 1 to [`MAX_GROUP`] of them: the body of each, a sync, the gate
    /// of the first, a sync. These are three calls of the disk more than there are commands. At `Ok` all of them are on
    /// the disk, and nothing is ahead: their slots are those of the commands that were. It takes no memory.
    ///
    /// `JournalFull` exactly where there is less room, or the count would pass [`LAST`]; then no call is made. `Device`
    /// where a call of the disk failed; then all of them are on the disk or none is, the journal is as it was, and the
    /// image has to be opened again.
    pub fn append_group<D: Disk>(
        &mut self,
        disk: &mut D,
        commands: &[Command],
    ) -> Result<(), Refusal>
        requires some { 0 < length commands.now }
        requires few { length commands.now ≤ MAX_GROUP }
        requires holds { KnownOf D.Disk disk.old (AllHold self.old) }
        // Each file that a crash may leave, from the start on, has the old run, or the old run and all of the commands.
        ensures runs { RunsOrRefuses D.Disk disk.old disk.new result IsFullOrFault (length commands.now + 3)
            (MayAppend self.old commands.now (D.now disk.old)) }
        // Once it is done, each has the commands.
        ensures added { OnOk result (LeadsFrom D.Disk disk.old disk.new (Adds self.old self.new commands.now)) }
        ensures state { MatchResult result (λ _. self.new ≡ longer (length commands.now) self.old)
            (λ _. self.new ≡ self.old) }
        ensures full { IsFullBy ((self.old.room < length commands.now) ⊎ (LAST < self.old.count + length commands.now))
            disk.old disk.new result }
        ensures known { IsJournal self.old }
    {
        let group = commands.len();
        if !has_room(self.count, self.room, group) {
            return Err(Refusal::JournalFull);
        }
        // A stop leaves the first slot's gate closed, and the others are read by it.
        if let Err(_) = write_bodies(disk, self.base, self.slots, self.count, commands) {
            return Err(Refusal::Device);
        }
        let at = self.base + 64 * ((self.count % self.slots as u64) as usize);
        // A stop leaves that gate closed, or open over all of the bodies.
        if let Err(_) = open_gate(disk, at) {
            return Err(Refusal::Device);
        }
        let room = room_after(self.count, group, self.room);
        self.count += group as u64;
        self.room = room;
        self.laid = Laid::none();
        Ok(())
    }

    /// Closes the gates of the oldest slots that are to be swept, so many at most: a write of one byte for each of
    /// them, and a sync. Once it is done, the slots are room. It answers how many there were. It takes no memory.
    ///
    /// `Device` where a call of the disk failed; then the journal is as it was, and so is each command of the run and
    /// the known room behind it on the disk.
    pub fn sweep<D: Disk>(&mut self, disk: &mut D, most: u32) -> Result<u32, Refusal>
        requires some { 0 < to_sweep self.old }
        requires holds { KnownOf D.Disk disk.old (AllHold self.old) }
        // Each file that a crash may leave, from the start on, has the run and the known room.
        ensures runs { RunsOrRefuses D.Disk disk.old disk.new result (λ e. e ≡ Refusal.Device)
            (min most (to_sweep self.old) + 1) (MaySweep self.old (D.now disk.old)) }
        // Once it is done, the room is on the disk.
        ensures swept { OnOk result (LeadsFrom D.Disk disk.old disk.new (Sweeps self.old self.new)) }
        ensures room { MatchResult result (λ n. IsSweptBy most self.old n self.new) (λ _. self.new ≡ self.old) }
    {
        let next = self.count + self.room as u64;
        let swept = at_once(self.to_sweep(), most);
        // Each slot is of a command before the run: nobody reads it, whatever a stop leaves of its gate.
        if let Err(_) = close_gates(disk, self.base, self.slots, next, swept) {
            return Err(Refusal::Device);
        }
        self.room += swept;
        Ok(swept)
    }

    /// Closes the gates of the oldest slots that are to be swept, three at most: a write of one byte for each of them,
    /// and a sync. Once it is done, the slots are room. It answers how many there were. It takes no memory.
    ///
    /// `Device` where a call of the disk failed; then the journal is as it was, and so is each command of the run and
    /// the known room behind it on the disk.
    pub fn sweep_turn<D: Disk>(&mut self, disk: &mut D) -> Result<u32, Refusal>
        requires some { 0 < to_sweep self.old }
        requires holds { KnownOf D.Disk disk.old (AllHold self.old) }
        // Each file that a crash may leave, from the start on, has the run and the known room.
        ensures runs { RunsOrRefuses D.Disk disk.old disk.new result (λ e. e ≡ Refusal.Device)
            (min 3 (to_sweep self.old) + 1) (MaySweep self.old (D.now disk.old)) }
        // Once it is done, the room is on the disk.
        ensures swept { OnOk result (LeadsFrom D.Disk disk.old disk.new (Sweeps self.old self.new)) }
        ensures room { MatchResult result (λ n. IsSwept self.old n self.new) (λ _. self.new ≡ self.old) }
    {
        self.sweep(disk, 3)
    }
}
