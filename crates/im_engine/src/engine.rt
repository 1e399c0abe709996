//! The engine: it serves one command, makes turns of a checkpoint, and sweeps.
ghost use Rattle.std.specs.Prelude.{◌≡◌, ◌+◌, true, false, [], OnOk};
ghost use Rattle.im_types.specs.Types.{step, is_accepted};
ghost use Rattle.im_disk.specs.{Moment.Faults, Since.CallsAtMost, Since.CallsBy, Since.LeavesNow};
ghost use Rattle.im_checkpoint.specs.{Keeping.Fits, Keeping.IsKept, Keeping.paged, Step.IsUnderWay, Step.turns_left};
ghost use Rattle.im_checkpoint.specs.Turns.{calls_to_sweep, most_calls};
ghost use Rattle.im_engine.specs.Answered.{Answered, calls_for, SweepAnswered, TurnAnswered};
ghost use Rattle.im_engine.specs.Leaving.{LeavesAfter, LeavesSince, LeavesState, LeavesThroughout};
ghost use Rattle.im_engine.specs.State.{engine_of, journal_in, MeansEither, MeansState, with_command};

use crate::ahead::GroupAhead;
use im_checkpoint::{Checkpoint, TurnDone};
use im_disk::Disk;
use im_journal::Journal;
use im_memory::Memory;
use im_types::{Command, Outcome, Refusal};
use std::marker::Model;

/// A memory that a disk keeps.
///
/// Contracts see its disk, the header in force, how far the next checkpoint has come, the pages that changed, the
/// memory, the count of all accepted commands, the room for more, the members of the group ahead
/// ([`advance`](Engine::advance)), and whether the disk has failed it. While it hasn't failed, each file that a crash
/// may leave means this memory and this count: what is ahead has no effect.
pub struct Engine<D: Disk> {
    pub(crate) disk: D,
    pub(crate) checkpoint: Checkpoint,
    pub(crate) journal: Journal,
    pub(crate) memory: Memory,
    pub(crate) ahead: GroupAhead,
    pub(crate) failed: bool,
}

// By one call, so that whoever owns an engine isn't proved to let go each of its fields wherever it may end.
impl<D: Disk + Drop> Drop for Engine<D> {
    fn drop(self) {
        let Engine {
            disk: _,
            checkpoint: _,
            journal: _,
            memory: _,
            ahead: _,
            failed: _,
        } = self;
    }
}

impl<D: Disk> Model for Engine<D> {
    ghost use Rattle.std.specs.Prelude.{◌≡◌, false};
    ghost use Rattle.im_checkpoint.specs.{Keeping.Fits, Keeping.IsKept, Keeping.paged, Step.changed_in};
    ghost use Rattle.im_engine.specs.{Chain.IsAhead, Chain.laid_of, State.EngineState};

    ghost Value = { EngineState D };

    ghost view = { λ e. record {
      disk = e.disk;
      header = e.checkpoint.state.header;
      step = e.checkpoint.state.step;
      pages = changed_in e.checkpoint;
      memory = e.memory.contents;
      count = e.journal.count;
      room = e.journal.room;
      ahead = e.ahead.members.items;
      failed = e.failed;
    } };

    ghost invariant = { λ e. Fits e.checkpoint.state e.memory.contents e.journal
        × (D.honest e.disk → e.failed ≡ false
        → IsKept e.checkpoint.state (paged e.checkpoint e.memory) e.memory.contents e.journal (D.now e.disk))
        × IsAhead e.memory.contents e.journal e.ahead.members.items
        (laid_of e.ahead.whole e.ahead.members.items e.ahead.commands.items) e.ahead.taken.items };
}

impl<D: Disk> Engine<D> {
    /// Serves one command and returns its answer. If the command is accepted, it is on the disk by then, and acts once.
    ///
    /// It is judged, and where it is accepted it is put on the disk, by four calls, and then acts. Any other command is
    /// answered with no call of the disk, and changes nothing: a repeat by its kept entry, a confirmation that forgets
    /// nothing by `Confirmed`. A group ahead is forgotten where the command is put on the disk: it had no effect. It
    /// takes no memory.
    ///
    /// `Failed` exactly where an earlier call failed on the disk. The refusals of numbers, where the command isn't
    /// accepted. `JournalFull` exactly where it would be accepted and there is no room. All of these leave all as it
    /// is. `Device` where a call of the disk failed: then the command is on the disk or not, the engine has failed, and
    /// the image has to be opened again.
    ///
    /// Ensures, in words:
    ///
    /// - `answered`: the answer and the engine after it are those of the definition of a step, or one of these
    ///   refusals.
    /// - `calls`: four calls of the disk for an accepted command, none for another; at a refusal no more.
    /// - `faults`: `Device` if a call of the disk failed, and only then; nothing else moves the count of failures.
    /// - `leaves`: if the engine worked, each file that a crash may leave from the start on means the state before the
    ///   command or after it.
    /// - `doubt`: so does each file that a crash may leave at the return.
    /// - `means`: if the engine works at the return, each such file means the state that the engine has.
    /// - `honest`: the disk was honest at the start, if it is at the end. What `calls` to `means` say holds of such a
    ///   disk.
    pub fn serve(&mut self, command: &Command) -> Result<Outcome, Refusal>
        ensures answered { Answered self.old command.now result self.new }
        // Four calls of the disk for an accepted command, and none for another.
        ensures calls { D.honest self.new.disk
            → CallsBy D.past self.old.disk self.new.disk (calls_for self.old.memory command.now) result }
        ensures faults { Faults (λ e. Unit {0}) result (D.failures self.old.disk) (D.failures self.new.disk) }

        // Each file that a crash may leave, from the start on, and now.
        ensures leaves { LeavesSince D.Disk self.old self.new
            (MeansEither self.old (with_command self.old command.now)) }
        ensures doubt { LeavesAfter D.Disk self.old self.new
            (MeansEither self.old (with_command self.old command.now)) }
        ensures means { LeavesState D.Disk self.new }
        ensures honest { D.honest self.new.disk → D.honest self.old.disk }
    {
        if self.failed {
            return Err(Refusal::Failed); // First of all: the disk may have more than the memory.
        }
        match self.memory.judge(command) {
            Ok(true) => self.accept(command),
            Ok(false) => self.memory.step(command),
            Err(refusal) => Err(refusal),
        }
    }

    // Serves a command that is accepted.
    fn accept(&mut self, command: &Command) -> Result<Outcome, Refusal>
        requires alive { self.old.failed ≡ false }
        requires accepted { is_accepted self.old.memory command.now ≡ true }
        ensures answered { Answered self.old command.now result self.new }
        ensures calls { D.honest self.new.disk → CallsBy D.past self.old.disk self.new.disk 4 result }
        ensures faults { Faults (λ e. Unit {0}) result (D.failures self.old.disk) (D.failures self.new.disk) }
        ensures leaves { LeavesThroughout D.Disk self.old self.new
            (MeansEither self.old (with_command self.old command.now)) }
        ensures means { LeavesState D.Disk self.new }
        ensures honest { D.honest self.new.disk → D.honest self.old.disk }
    {
        if self.journal.room() == 0 {
            return Err(Refusal::JournalFull);
        }
        // A stop in it leaves the command on the disk, whole, or not at all: its answer isn't given before.
        if let Err(_) = self.journal.append(&mut self.disk, command) {
            self.failed = true; // The command is there, or not.
            return Err(Refusal::Device);
        }
        self.ahead.forget(); // Its slots have the command.
        // Of a page that a checkpoint has still to write, what stood there before the command is wanted.
        self.checkpoint.before(&self.memory, command);
        self.memory.accept(command)
    }

    // An engine over a disk that keeps this.
    pub(crate) fn started(
        disk: D,
        checkpoint: Checkpoint,
        journal: Journal,
        memory: Memory,
    ) -> Engine<D>
        requires fits { Fits checkpoint.state memory.contents journal }
        requires none { journal.ahead ≡ [] }
        requires kept { D.honest disk
            → IsKept checkpoint.state (paged checkpoint memory) memory.contents journal (D.now disk) }
        ensures state { result ≡ engine_of disk checkpoint memory journal [] false }
        ensures means { D.honest result.disk → LeavesNow (D.now result.disk) (MeansState result) }
    {
        Engine {
            disk,
            checkpoint,
            journal,
            memory,
            ahead: GroupAhead::none(),
            failed: false,
        }
    }

    /// Makes one turn of a checkpoint: at most four calls of the disk, and what its answer says. The memory, the count
    /// and the group ahead stay. Where it answers `Began`, the pages to be written are those that changed since the
    /// last checkpoint of the area that isn't in force began, in rising order; each turn that answers `Page` writes the
    /// first of them, and the others are left. It takes no memory.
    ///
    /// `Failed` exactly where an earlier call failed on the disk. `Device` where a call of the disk failed: then the
    /// engine has failed, no command is in doubt, and the image has to be opened again.
    pub fn turn(&mut self) -> Result<TurnDone, Refusal>
        ensures answered { TurnAnswered self.old result self.new }
        // A checkpoint that is under way comes nearer to its end, and nothing else takes it back.
        ensures nearer { OnOk result (IsUnderWay self.old.step
            → turns_left self.old.step ≡ turns_left self.new.step + 1) }
        // As many calls of the disk as the table of turns says, and at most four.
        ensures calls { D.honest self.new.disk
            → CallsAtMost D.past self.old.disk self.new.disk (most_calls result) }
        ensures faults { Faults (λ e. Unit {0}) result (D.failures self.old.disk) (D.failures self.new.disk) }
        // Each file that a crash may leave, from the start on, and now.
        ensures leaves { LeavesSince D.Disk self.old self.new (MeansState self.old) }
        ensures now { LeavesAfter D.Disk self.old self.new (MeansState self.old) }
        ensures means { LeavesState D.Disk self.new }
        ensures honest { D.honest self.new.disk → D.honest self.old.disk }
    {
        if self.failed {
            return Err(Refusal::Failed);
        }
        // A stop in it leaves the memory as it is: by the header in force, or by the next one.
        match self
            .checkpoint
            .turn(&mut self.disk, &self.memory, &mut self.journal)
        {
            Ok(done) => Ok(done),
            Err(refusal) => {
                self.failed = true; // No command is in doubt.
                Err(refusal)
            }
        }
    }

    /// Closes the gates of the oldest slots that are to be swept, so many at most, by a call of the disk for each of
    /// them and one sync for all: how many they were. Where there are none, and while a checkpoint is under way, it
    /// makes no call. They are room from then on, as after turns that answer `Swept`. The memory, the count and the
    /// group ahead stay. It takes no memory.
    ///
    /// `Failed` exactly where an earlier call failed on the disk. `Device` where a call of the disk failed: then the
    /// engine has failed, no command is in doubt, and the image has to be opened again.
    pub fn sweep(&mut self, most: u32) -> Result<u32, Refusal>
        ensures answered { SweepAnswered self.old most result self.new }
        // As many calls of the disk as slots are swept, and one; none where there is none of them.
        ensures calls { D.honest self.new.disk → CallsBy D.past self.old.disk self.new.disk
            (calls_to_sweep self.old.step (journal_in self.old) most) result }
        ensures faults { Faults (λ e. Unit {0}) result (D.failures self.old.disk) (D.failures self.new.disk) }
        // Each file that a crash may leave, from the start on, and now.
        ensures leaves { LeavesSince D.Disk self.old self.new (MeansState self.old) }
        ensures now { LeavesAfter D.Disk self.old self.new (MeansState self.old) }
        ensures means { LeavesState D.Disk self.new }
        ensures honest { D.honest self.new.disk → D.honest self.old.disk }
    {
        if self.failed {
            return Err(Refusal::Failed);
        }
        // A stop in it leaves the memory as it is: the area in force holds the commands of these slots.
        match self
            .checkpoint
            .sweep(&mut self.disk, &mut self.journal, most)
        {
            Ok(swept) => Ok(swept),
            Err(refusal) => {
                self.failed = true; // As in a turn, no command is in doubt.
                Err(refusal)
            }
        }
    }

    /// Gives the disk back. It makes no call of the disk: each file that a crash may leave means what it meant before.
    pub fn close(self) -> D
        ensures disk { result ≡ self.disk }
        ensures means { D.honest result → self.failed ≡ false → LeavesNow (D.now result) (MeansState self) }
    {
        let Engine {
            disk,
            checkpoint: _,
            journal: _,
            memory: _,
            ahead: _,
            failed: _,
        } = self;
        disk // As it was: no call is made.
    }
}
