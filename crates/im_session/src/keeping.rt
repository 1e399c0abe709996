//! The calls of a session once more, for a caller who has to know since when what it put is kept, as the receipts of
//! threads have it. They also say how many calls of the disk they make, and where a group ends.
ghost use Rattle.std.specs.Prelude.{◌≡◌, ◌+◌, [], length, take, IfOk};
ghost use Rattle.im_disk.specs.Since.{CallsAtMost, CallsBy};
ghost use Rattle.{im_groups.specs.Ahead.ServesPrefix, im_checkpoint.specs.Turns.most_calls};
ghost use Rattle.im_engine.specs.Answered.{Answered, calls_for, SweepAnswered, TurnAnswered};
ghost use Rattle.im_engine.specs.{Chain.Advances, Chain.TakesNext, Commands.commands_put, Commands.CommandsAnswered};
ghost use Rattle.im_session.specs.Keeping.{KeepsPut, LeavesWhole, MakesAtMost, MakesFewCalls};
ghost use Rattle.im_session.specs.Serving.{Rests, served_one, served_together};

use crate::calls::GroupFound;
use crate::session::Session;
use arrayvec::ArrayVec;
use im_checkpoint::TurnDone;
use im_disk::Disk;
use im_types::{Command, MAX_GROUP, Outcome, Refusal, Served};
use std::snapshot::Snapshot;

impl<D: Disk> Session<D> {
    /// Does what [`Session::serve`] does. Each file that a crash may leave since then has all that was put before.
    pub fn serve_kept(&mut self, command: &Command) -> Result<Outcome, Refusal>
        ensures answered { Answered self.old.engine command.now result self.new.engine }
        ensures put { self.new ≡ served_one self.old command.now result self.new.engine }
        ensures keeps { KeepsPut D.Disk self.old self.new }
        ensures leaves { LeavesWhole D.Disk self.old self.new }
        ensures calls { D.honest self.new.engine.disk → CallsBy D.past self.old.engine.disk self.new.engine.disk
            (calls_for self.old.engine.memory command.now) result }
    {
        let memory = Snapshot::of(self.engine.memory());
        let answer = self.engine.serve(command);
        self.calls.note(memory, command, &answer);
        answer
    }

    /// Does what [`Session::serve_commands`] does. Each file that a crash may leave since then has all that was put
    /// before.
    pub fn serve_commands_kept(
        &mut self,
        members: &ArrayVec<Command, MAX_GROUP>,
        served: &mut ArrayVec<Served, MAX_GROUP>,
    )
        requires empty { served.old.items ≡ [] }
        // How many are served, and where it ends.
        ensures begins { let many = length served.new.items in ServesPrefix self.old.engine.memory
            (commands_put self.old.engine (take many members.now.items)) members.now.items many }
        ensures answered { CommandsAnswered self.old.engine (take (length served.new.items) members.now.items)
            served.new.items self.new.engine }
        ensures put { self.new ≡ served_together self.old (take (length served.new.items) members.now.items)
            self.new.engine }
        ensures keeps { KeepsPut D.Disk self.old self.new }
        ensures leaves { LeavesWhole D.Disk self.old self.new }
        ensures few { MakesFewCalls D.Disk self.old (take (length served.new.items) members.now.items) self.new }
    {
        let failed = self.engine.failed();
        let places = self.engine.places();
        let found = GroupFound {
            memory: Snapshot::of(self.engine.memory()),
            places: Snapshot::of(&places),
            failed: Snapshot::of(&failed),
            members: Snapshot::of(members),
        };
        self.engine.serve_commands(members, served);
        let failed = self.engine.failed();
        self.calls.note_all(found, served, failed);
    }

    /// Does what [`Session::advance`] does. Each file that a crash may leave since then has all that was put before.
    pub fn advance_kept(
        &mut self,
        next: &ArrayVec<Command, MAX_GROUP>,
        served: &mut ArrayVec<Served, MAX_GROUP>,
    ) -> Result<usize, Refusal>
        requires empty { served.old.items ≡ [] }
        ensures answered { Advances self.old.engine next.now.items result served.new.items self.new.engine }
        // How many of the next members are ahead, and where they end.
        ensures takes { IfOk result (λ many. TakesNext self.old.engine next.now.items self.new.engine many) }
        ensures put { self.new ≡ served_together self.old self.old.engine.ahead self.new.engine }
        ensures keeps { KeepsPut D.Disk self.old self.new }
        ensures leaves { LeavesWhole D.Disk self.old self.new }
        ensures few { MakesAtMost D.Disk self.old (length next.now.items + 2) self.new }
    {
        let failed = self.engine.failed();
        let places = self.engine.places();
        let found = GroupFound {
            memory: Snapshot::of(self.engine.memory()),
            places: Snapshot::of(&places),
            failed: Snapshot::of(&failed),
            members: Snapshot::of(self.engine.ahead()),
        };
        let result = self.engine.advance(next, served);
        let has_failed = self.engine.failed();
        self.calls.note_all(found, served, has_failed);
        result
    }

    /// Does what [`Session::turn`] does. Each file that a crash may leave since then has all that was put before.
    pub fn turn_kept(&mut self) -> Result<TurnDone, Refusal>
        ensures answered { TurnAnswered self.old.engine result self.new.engine }
        ensures same { Rests self.old self.new }
        ensures keeps { KeepsPut D.Disk self.old self.new }
        ensures leaves { LeavesWhole D.Disk self.old self.new }
        ensures calls { D.honest self.new.engine.disk
            → CallsAtMost D.past self.old.engine.disk self.new.engine.disk (most_calls result) }
    {
        self.engine.turn()
    }

    /// Does what [`Session::sweep`] does. Each file that a crash may leave since then has all that was put before.
    pub fn sweep_kept(&mut self, most: u32) -> Result<u32, Refusal>
        ensures answered { SweepAnswered self.old.engine most result self.new.engine }
        ensures same { Rests self.old self.new }
        ensures keeps { KeepsPut D.Disk self.old self.new }
        ensures leaves { LeavesWhole D.Disk self.old self.new }
    {
        self.engine.sweep(most)
    }
}
