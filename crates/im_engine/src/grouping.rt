//! How an engine serves several commands together.
ghost use Rattle.std.specs.Prelude.{◌≡◌, ◌≤◌, false, [], length, take};
ghost use Rattle.{im_types.specs.Types.MAX_GROUP, im_groups.specs.Ahead.ServesPrefix, im_groups.specs.Commands.places};
ghost use Rattle.im_engine.specs.Commands.{AreJudged, AreWhole, commands_put, CommandsAnswered, ServesCommands};
ghost use Rattle.im_engine.specs.Groups.{after_group, calls_for_group, group_put, GroupAnswered, GroupCalls};
ghost use Rattle.im_engine.specs.Groups.{GroupFaults};
ghost use Rattle.im_engine.specs.{Leaving.LeavesAfter, Leaving.LeavesSince, Leaving.LeavesState, State.MeansEither};

use crate::engine::Engine;
use crate::groups::{Members, act_all, commands_of, places_in, put_on, refuse_all};
use arrayvec::ArrayVec;
use im_disk::Disk;
use im_groups::{judge_each, judge_whole};
use im_types::{Command, MAX_GROUP, Refusal, Request, Served};

impl<D: Disk> Engine<D> {
    /// Serves the requests of a group as [`Engine::serve`] would one after another, those of one element in the order
    /// of their numbers, and puts all that are accepted and have room on the disk together, as one group: by a call
    /// for each and three more, or by none where there are none. The answers go into `served`, in the members' order.
    /// It takes no memory.
    ///
    /// A member is refused as `serve` would refuse it: `JournalFull` exactly where it would be accepted and those
    /// before it leave no room. All are refused with `Failed` exactly where an earlier call failed on the disk, and
    /// with `Device` where one fails now: then the memory stays, the accepted members are on the disk all together or
    /// not at all, the engine has failed, and the image has to be opened again.
    pub fn serve_group(
        &mut self,
        members: &ArrayVec<Request, MAX_GROUP>,
        served: &mut ArrayVec<Served, MAX_GROUP>,
    )
        requires empty { served.old.items ≡ [] }
        ensures answered { GroupAnswered self.old members.now.items served.new.items self.new }
        // A call of the disk for each command that is put there, and three more; none where there is none.
        ensures calls { D.honest self.new.disk → GroupCalls D.past self.old.disk self.new.disk self.new.failed
            (calls_for_group (length (group_put self.old members.now.items))) }
        ensures faults { GroupFaults self.old.failed self.new.failed
            (D.failures self.old.disk) (D.failures self.new.disk) }

        // Each file that a crash may leave, from the start on, and now.
        ensures leaves { LeavesSince D.Disk self.old self.new
            (MeansEither self.old (after_group self.old members.now.items)) }
        ensures doubt { LeavesAfter D.Disk self.old self.new
            (MeansEither self.old (after_group self.old members.now.items)) }
        ensures means { LeavesState D.Disk self.new }
        ensures honest { D.honest self.new.disk → D.honest self.old.disk }
    {
        let _count = self.journal.count(); // So that it is known that it isn't past the last one.
        let mut commands = ArrayVec::new();
        commands_of(members.as_slice(), &mut commands);
        // A stop in it leaves all of the group on the disk, or nothing of it: no answer is given before.
        self.serve_commands(&commands, served);
    }

    /// Serves commands as [`Engine::serve`] would one after another, each at what those before it come to: requests of
    /// one element in the order of their numbers, of several elements, and confirmations. All that are accepted and
    /// have room are put on the disk together, as one group: by a call for each and three more, or by none where there
    /// are none. The answers go into `served`, in the members' order. It takes no memory.
    ///
    /// Those members are served that are answered: a beginning of them, at least one where there are any. It ends
    /// before the first confirmation that would drop an entry of which it isn't known, before the others act, that it
    /// is answered: one that waits, or that a fetch or a take among them makes. The rest is untouched, and is put
    /// again. (Own.)
    ///
    /// A member is refused as `serve` would refuse it: `JournalFull` exactly where it would be accepted and those
    /// before it leave no room. All are refused with `Failed` exactly where an earlier call failed on the disk; and
    /// those that would be served with `Device` where one fails now: then the memory stays, those that are accepted
    /// are on the disk all together or not at all, the engine has failed, and the image has to be opened again.
    pub fn serve_commands(
        &mut self,
        members: &ArrayVec<Command, MAX_GROUP>,
        served: &mut ArrayVec<Served, MAX_GROUP>,
    )
        requires empty { served.old.items ≡ [] }
        // How many are served, and where it ends.
        ensures begins { let many = length served.new.items in ServesPrefix self.old.memory
            (commands_put self.old (take many members.now.items)) members.now.items many }
        ensures answered { CommandsAnswered self.old (take (length served.new.items) members.now.items)
            served.new.items self.new }
        ensures runs { ServesCommands D.Disk self.old self.new (take (length served.new.items) members.now.items) }
    {
        let members = members.as_slice();
        if self.failed {
            // First of all: the disk may have more than the memory.
            return refuse_all(members, Refusal::Failed, served);
        }
        let places = places_in(&self.journal);
        match judge_whole(&self.memory, places, members) {
            Some(judged) => self.serve_whole(&members[..judged], served),
            None => self.serve_some(members, served),
        }
    }

    // Serves judged members that all take places.
    fn serve_whole(&mut self, members: &[Command], served: &mut ArrayVec<Served, MAX_GROUP>)
        requires alive { self.old.failed ≡ false }
        requires whole { AreWhole self.old.memory (places self.old.count self.old.room) members.now }
        requires empty { served.old.items ≡ [] }
        ensures answered { CommandsAnswered self.old members.now served.new.items self.new }
        ensures length { length served.new.items ≡ length members.now }
        ensures runs { ServesCommands D.Disk self.old self.new members.now }
    {
        let judged = Members {
            all: members,
            whole: true,
            taken: &[],
        };
        // A stop in it leaves all of the group on the disk, or nothing of it: no answer is given before.
        self.serve_judged(&judged, members, served);
    }

    // Serves commands of which some may take no place.
    #[inline(never)]
    fn serve_some(&mut self, members: &[Command], served: &mut ArrayVec<Served, MAX_GROUP>)
        requires alive { self.old.failed ≡ false }
        requires few { length members.now ≤ MAX_GROUP }
        requires empty { served.old.items ≡ [] }
        ensures begins { let many = length served.new.items in ServesPrefix self.old.memory
            (commands_put self.old (take many members.now)) members.now many }
        ensures answered { CommandsAnswered self.old (take (length served.new.items) members.now)
            served.new.items self.new }
        ensures runs { ServesCommands D.Disk self.old self.new (take (length served.new.items) members.now) }
    {
        let places = places_in(&self.journal);
        let mut commands = ArrayVec::new();
        let mut taken = ArrayVec::new();
        let many = judge_each(&self.memory, places, members, &mut commands, &mut taken);
        let judged = Members {
            all: &members[..many],
            whole: false,
            taken: taken.as_slice(),
        };
        // A stop in it leaves all of the group on the disk, or nothing of it: no answer is given before.
        self.serve_judged(&judged, commands.as_slice(), served);
    }

    // Puts the commands of judged members on the disk as one group, and lets the members act behind that.
    fn serve_judged(
        &mut self,
        members: &Members,
        commands: &[Command],
        served: &mut ArrayVec<Served, MAX_GROUP>,
    )
        requires alive { self.old.failed ≡ false }
        requires members { AreJudged self.old.memory (places self.old.count self.old.room)
            members.now.all.now members.now.whole members.now.taken.now }
        requires few { length commands.now ≤ MAX_GROUP }
        requires judged { commands.now ≡ commands_put self.old members.now.all.now }
        requires empty { served.old.items ≡ [] }
        ensures answered { CommandsAnswered self.old members.now.all.now served.new.items self.new }
        ensures length { length served.new.items ≡ length members.now.all.now }
        ensures runs { ServesCommands D.Disk self.old self.new members.now.all.now }
    {
        let places = places_in(&self.journal);
        // A stop in it leaves all of the group on the disk, or nothing of it: no answer is given before.
        if let Err(_) = put_on(&mut self.journal, &mut self.disk, commands) {
            self.failed = true; // All of the group is there, or nothing of it.
            return refuse_all(members.all, Refusal::Device, served);
        }
        // The slots of a group ahead have these commands, if there are any. It had no effect.
        self.ahead.forget_behind(commands);
        act_all(
            &mut self.checkpoint,
            &mut self.memory,
            places,
            members,
            served,
        );
    }
}
