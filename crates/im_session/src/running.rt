//! Runs commands, groups, groups put ahead, turns and sweeps one after another.
ghost use Rattle.std.specs.Prelude.{◌≡◌, not, ◌&&◌, IfOk, IfErr, OnErr};
ghost use Rattle.{im_types.specs.Types.NoMemory, im_engine.specs.Leaving.LeavesSince};
ghost use Rattle.im_session.specs.declared.events.Event.TheVariants.{Ahead as Follow, Group as Together};
ghost use Rattle.im_session.specs.Events.{after_event, after_events, AnsweredInTurn, EventAnswered, has_fault};
ghost use Rattle.im_session.specs.Events.{MeansEvents};
ghost use Rattle.im_session.specs.Keeping.{KeepsPut, LeavesWhole};

use crate::events::{Answer, Event};
use crate::session::Session;
use arrayvec::ArrayVec;
use im_disk::Disk;
use im_engine::{Group, commands_of, copy_members};
use im_types::Refusal;
use std::alloc::Global;

impl<D: Disk> Session<D> {
    // Serves a group, and tells the room that it found.
    fn take_group(&mut self, group: &Group) -> Answer
        ensures answered { EventAnswered self.old.engine (Together group.now) result self.new.engine }
        ensures put { self.new ≡ after_event self.old (Together group.now) result self.new.engine }
        ensures leaves { LeavesWhole D.Disk self.old self.new }
        ensures keeps { KeepsPut D.Disk self.old self.new }
    {
        let room = self.engine().room();
        let _places = self.engine().places(); // So that it is known that the count isn't past the last one.
        let mut commands = ArrayVec::new();
        commands_of(group.requests().as_slice(), &mut commands);
        let mut served = ArrayVec::new();
        self.serve_commands_kept(&commands, &mut served);
        Answer::Grouped(room, served)
    }

    // Puts a group ahead, and tells which members were ahead of it, and what they are answered.
    fn take_ahead(&mut self, group: &Group) -> Answer
        ensures answered { EventAnswered self.old.engine (Follow group.now) result self.new.engine }
        ensures put { self.new ≡ after_event self.old (Follow group.now) result self.new.engine }
        ensures leaves { LeavesWhole D.Disk self.old self.new }
        ensures keeps { KeepsPut D.Disk self.old self.new }
    {
        let mut ahead = ArrayVec::new();
        copy_members(self.engine().ahead().as_slice(), &mut ahead);
        let mut next = ArrayVec::new();
        commands_of(group.requests().as_slice(), &mut next);
        let mut served = ArrayVec::new();
        let result = self.advance_kept(&next, &mut served);
        Answer::Advanced(ahead, result, served)
    }

    // Serves a command or a group, puts a group ahead, makes a turn, or sweeps.
    fn take(&mut self, event: &Event) -> Answer
        ensures answered { EventAnswered self.old.engine event.now result self.new.engine }
        ensures put { self.new ≡ after_event self.old event.now result self.new.engine }
        ensures leaves { LeavesWhole D.Disk self.old self.new }
        ensures keeps { KeepsPut D.Disk self.old self.new }
    {
        match event {
            Event::Command(command) => Answer::Served(self.serve_kept(command)),
            Event::Group(group) => self.take_group(group),
            Event::Ahead(group) => self.take_ahead(group),
            Event::Turn => Answer::Turned(self.turn_kept()),
            Event::Sweep(most) => Answer::Swept(self.sweep_kept(*most)),
        }
    }

    /// Serves commands and groups, puts groups ahead, makes turns and sweeps in their order, and gives the answer to
    /// each.
    ///
    /// What is acknowledged is put. Where a command or a group was answered `Device`, its commands are in doubt; where
    /// a group that is put ahead was, those of the group that was ahead of it: what was only put ahead has no effect.
    /// Whenever it is stopped, a crash leaves the memory after the commands of a prefix of the events. `NoMemory` where
    /// `alloc` refused the room for the answers: then nothing was done.
    pub fn run(&mut self, alloc: Global, events: &[Event]) -> Result<Vec<Answer>, Refusal>
        ensures answers { IfOk result (λ v. AnsweredInTurn self.old.engine events.now v.items self.new.engine) }
        ensures put { IfOk result (λ v. self.new ≡ after_events self.old events.now v.items self.new.engine) }
        // Each file left within it: of each event all commands are there, or none.
        ensures leaves { IfOk result (λ v.
            LeavesSince D.Disk self.old.engine self.new.engine (MeansEvents self.old events.now v.items)) }
        // An answer is `Device` exactly if a call of the disk failed: the engine has failed since.
        ensures faults { IfOk result (λ v.
            has_fault v.items ≡ (self.new.engine.failed && not self.old.engine.failed)) }
        ensures refused { IfErr result (λ e. e ≡ NoMemory) }
        ensures same { OnErr result (self.new ≡ self.old) }
        ensures honest { D.honest self.new.engine.disk → D.honest self.old.engine.disk }
    {
        let Ok(mut answers) = Vec::with_capacity(alloc, events.len()) else {
            return Err(Refusal::NoMemory);
        };
        let _failed = self.engine().failed(); // So that it is known which memory it has.
        for event in events {
            let _failed = self.engine().failed(); // The same.
            // A stop in it leaves all its commands on the disk, or none; those before it are there.
            let answer = self.take(event);
            if let Err(_) = answers.push(answer) {
                unreachable!()
            }
        }
        Ok(answers)
    }
}
