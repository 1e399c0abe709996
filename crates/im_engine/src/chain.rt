//! How an engine serves a chain of groups: the bodies of each share a sync with the gate of the one before.
ghost use Rattle.std.specs.Prelude.{◌≡◌, ◌≤◌, true, false, [], map, length, take, IfOk, OnOk, MatchResult};
ghost use Rattle.im_types.specs.Types.{MAX_GROUP, Contents, after, as_served};
ghost use Rattle.im_disk.specs.Moment.{Faults, Moment};
ghost use Rattle.im_journal.specs.Holding.{AllHold, JournalState, longer, with_ahead};
ghost use Rattle.{im_journal.specs.OnDisk.KnownOf, im_groups.specs.Ahead.AreAccepted, im_image.specs.Reading.HasSizes};
ghost use Rattle.im_groups.specs.Commands.{answers_with, contents_after_all, most_pages_with};
ghost use Rattle.im_checkpoint.specs.Keeping.{IsKept, paged};
ghost use Rattle.im_engine.specs.Chain.{Advances, BehindPut, FitsBehind, IsComing, laid_of, places_left, put_ahead};
ghost use Rattle.im_engine.specs.Chain.{ServesAhead, TakesNext, WereJudged};
ghost use Rattle.im_engine.specs.Groups.{KeepsAfter, LeavesAllOrNone, StaysBut};

use crate::ahead::{Coming, GroupAhead};
use crate::engine::Engine;
use crate::groups::{Members, act_all, places_in};
use arrayvec::ArrayVec;
use im_checkpoint::Checkpoint;
use im_disk::Disk;
use im_groups::{judge_next, judge_whole_next};
use im_journal::Journal;
use im_memory::Memory;
use im_types::{Command, MAX_GROUP, Refusal, Served};
use std::cmp::min;

// Opens the gate of the commands ahead of a journal, and puts the next ones ahead. It makes no call where there are
// none of both.
fn put_behind<D: Disk>(
    journal: &mut Journal,
    disk: &mut D,
    next: &ArrayVec<Command, MAX_GROUP>,
) -> Result<(), Refusal>
    requires fits { FitsBehind journal.old next.now.items }
    requires holds { KnownOf D.Disk disk.old (AllHold journal.old) }
    ensures leaves { D.honest disk.new → LeavesAllOrNone D.Disk journal.old journal.old.ahead disk.old disk.new }
    ensures kept { OnOk result (D.honest disk.new
        → KeepsAfter D.Disk journal.old journal.old.ahead disk.old disk.new journal.new) }
    ensures state { MatchResult result
        (λ _. journal.new ≡ with_ahead next.now.items (longer (length journal.old.ahead) journal.old))
        (λ _. journal.new ≡ journal.old) }
    ensures calls { BehindPut D.past (D.honest disk.new) disk.old disk.new journal.old.ahead next.now.items result }
    ensures faults { Faults (λ e. e ≡ Refusal.Device) result (D.failures disk.old) (D.failures disk.new) }
    ensures honest { D.honest disk.new → D.honest disk.old }
{
    if journal.ahead() > 0 {
        // A stop in it leaves all of the commands ahead, or none, and none of the next ones.
        return journal.put_ahead(disk, next);
    }
    if next.as_slice().is_empty() {
        return Ok(());
    }
    // A stop in it leaves what was there: no gate is written.
    journal.lay_ahead(disk, next)
}

// Lets the members of a group act in their order that were judged with a place for each. The disk already has the
// commands of those that are accepted.
fn act_ahead(
    checkpoint: &mut Checkpoint,
    memory: &mut Memory,
    ahead: &GroupAhead,
    served: &mut ArrayVec<Served, MAX_GROUP>,
)
    requires told { WereJudged memory.old.contents ahead.now.members.items
        (laid_of ahead.now.whole ahead.now.members.items ahead.now.commands.items) ahead.now.taken.items }
    requires empty { served.old.items ≡ [] }
    requires sizes { HasSizes checkpoint.old.state.header.sizes memory.old.contents }
    ensures answers { let members = ahead.now.members.items in served.new.items
        ≡ map as_served (answers_with memory.old.contents (length members) members) }
    ensures contents { let members = ahead.now.members.items in memory.new.contents
        ≡ contents_after_all memory.old.contents (length members) members }
    ensures sizes { HasSizes checkpoint.new.state.header.sizes memory.new.contents }
    ensures stays { let members = ahead.now.members.items in
        StaysBut (most_pages_with memory.old.contents (length members) members) checkpoint.old checkpoint.new }
    ensures kept { (m : Contents) (j : JournalState) (now : Moment)
        → IsKept checkpoint.old.state (paged checkpoint.old memory.old) m j now
        → IsKept checkpoint.new.state (paged checkpoint.new memory.new) m j now }
{
    let all = ahead.members.as_slice();
    let taken = ahead.taken.as_slice();
    let members = Members {
        all,
        whole: ahead.is_whole(),
        taken,
    };
    // As many places as members, so that none of them lacks one.
    act_all(checkpoint, memory, all.len() as u64, &members, served);
}

impl<D: Disk> Engine<D> {
    /// Lets the group ahead act, and puts the next one ahead of it, by one sync for both: so a chain of n groups makes
    /// n + 1 syncs, and not two for each. A group alone makes two: it is put ahead, and then nothing is.
    ///
    /// The gate of the group ahead is written, if it has commands that take places; then the body of each command of
    /// the next members; then all is synced. Where there is nothing of both, no call is made. Behind the sync the
    /// members of the group ahead act, in their order, and their answers go into `served`: those that [`Engine::serve`]
    /// would give one after another. Nothing of the next members acts or is answered: from now on they are the group
    /// ahead. It takes no memory.
    ///
    /// It answers how many of the next members are ahead: a beginning of them, judged behind the group ahead. It ends
    /// where there is no place more, and before the first confirmation of which it isn't known, before the group ahead
    /// acts, that each entry that it drops is answered. The rest is untouched, and is put again. (Own.)
    ///
    /// `Failed` exactly where an earlier call failed on the disk: all stays. `Device` where one fails now: then the
    /// memory stays, the commands of the group ahead are on the disk all together or not at all, none of the next
    /// members' is, nothing is ahead any more, the engine has failed, and the image has to be opened again. In both
    /// cases each member of the group ahead is refused so, and none of the next members was taken.
    pub fn advance(
        &mut self,
        next: &ArrayVec<Command, MAX_GROUP>,
        served: &mut ArrayVec<Served, MAX_GROUP>,
    ) -> Result<usize, Refusal>
        requires empty { served.old.items ≡ [] }
        ensures answered { Advances self.old next.now.items result served.new.items self.new }
        // How many of the next members are ahead, and where they end.
        ensures takes { IfOk result (λ many. TakesNext self.old next.now.items self.new many) }
        ensures runs { ServesAhead D.Disk self.old self.new (length next.now.items) result }
    {
        let _count = self.journal.count(); // So that it is known that it isn't past the last one.
        if self.failed {
            // First of all: the disk may have more than the memory.
            self.ahead.refuse(Refusal::Failed, served);
            return Err(Refusal::Failed);
        }
        let members = next.as_slice();
        if self.takes_all(members) {
            let coming = Coming {
                next: members,
                many: members.len(),
                commands: next,
                taken: &[],
            };
            return self.go_on(&coming, served);
        }
        self.advance_some(members, served)
    }

    // Returns whether all of the next members can be put behind the group ahead as they are: there is a place for each,
    // and each is accepted in its turn.
    #[inline(always)]
    fn takes_all(&self, next: &[Command]) -> bool
        requires few { length next.now ≤ MAX_GROUP }
        ensures accepted { result ≡ true → AreAccepted (after self.now.memory (put_ahead self.now)) next.now }
        ensures places { result ≡ true → length next.now ≤ places_left self.now }
    {
        let left = places_in(&self.journal) - self.journal.ahead() as u64;
        if next.len() as u64 > left {
            return false;
        }
        let group = self.ahead.put().as_slice();
        match judge_whole_next(&self.memory, group, next) {
            Some(many) => many == next.len(),
            None => false,
        }
    }

    // Judges the next members behind the group ahead, as many as there are places for, and goes on with those that are
    // judged.
    #[inline(never)]
    fn advance_some(
        &mut self,
        next: &[Command],
        served: &mut ArrayVec<Served, MAX_GROUP>,
    ) -> Result<usize, Refusal>
        requires alive { self.old.failed ≡ false }
        requires few { length next.now ≤ MAX_GROUP }
        requires empty { served.old.items ≡ [] }
        ensures answered { Advances self.old next.now result served.new.items self.new }
        ensures takes { IfOk result (λ many. TakesNext self.old next.now self.new many) }
        ensures runs { ServesAhead D.Disk self.old self.new (length next.now) result }
    {
        let mut commands = ArrayVec::new();
        let mut taken = ArrayVec::new();
        let many = self.judge_coming(next, &mut commands, &mut taken);
        let coming = Coming {
            next,
            many,
            commands: &commands,
            taken: taken.as_slice(),
        };
        self.go_on(&coming, served)
    }

    // Judges the next members behind the group ahead, as many as there are places for: how many are judged.
    fn judge_coming(
        &self,
        next: &[Command],
        commands: &mut ArrayVec<Command, MAX_GROUP>,
        taken: &mut ArrayVec<bool, MAX_GROUP>,
    ) -> usize
        requires few { length next.now ≤ MAX_GROUP }
        requires empty { (commands.old.items ≡ []) × (taken.old.items ≡ []) }
        ensures told { WereJudged (after self.now.memory (put_ahead self.now))
            (take result next.now) commands.new.items taken.new.items }
        ensures begins { IsComing self.now next.now commands.new.items result }
    {
        let places = places_in(&self.journal);
        let laid = self.journal.ahead();
        let left = places - laid as u64;
        let most = min(next.len() as u64, left);
        let asked = &next[..most as usize];
        let group = self.ahead.put().as_slice();
        judge_next(&self.memory, group, asked, commands, taken)
    }

    // Lets the group ahead act, and puts the members ahead that were judged behind it.
    fn go_on(
        &mut self,
        coming: &Coming,
        served: &mut ArrayVec<Served, MAX_GROUP>,
    ) -> Result<usize, Refusal>
        requires alive { self.old.failed ≡ false }
        requires few { (length coming.now.next.now ≤ MAX_GROUP) × (length coming.now.taken.now ≤ MAX_GROUP) }
        requires told { WereJudged (after self.old.memory (put_ahead self.old))
            (take coming.now.many coming.now.next.now) coming.now.commands.now.items coming.now.taken.now }
        requires begins { IsComing self.old coming.now.next.now coming.now.commands.now.items coming.now.many }
        requires empty { served.old.items ≡ [] }
        ensures answered { Advances self.old coming.now.next.now result served.new.items self.new }
        ensures takes { IfOk result (λ many. TakesNext self.old coming.now.next.now self.new many) }
        ensures runs { ServesAhead D.Disk self.old self.new (length coming.now.next.now) result }
    {
        let _count = self.journal.count(); // So that it is known that it isn't past the last one.
        // A stop in it leaves all of the group ahead on the disk, or nothing of it, and nothing of the next one: no
        // answer is given before.
        if let Err(_) = put_behind(&mut self.journal, &mut self.disk, coming.commands) {
            self.failed = true; // All of the group ahead is there, or nothing of it.
            self.ahead.refuse(Refusal::Device, served);
            self.ahead.forget();
            self.journal.forget_ahead();
            return Err(Refusal::Device);
        }
        act_ahead(&mut self.checkpoint, &mut self.memory, &self.ahead, served);
        self.ahead.renew(coming);
        Ok(coming.many)
    }
}
