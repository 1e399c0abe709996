//! A session, and its calls.
ghost use Rattle.std.specs.Prelude.{◌≡◌, [], length, take, IfOk};
ghost use Rattle.im_groups.specs.Ahead.{ServesPrefix};
ghost use Rattle.im_engine.specs.Answered.{Answered, SweepAnswered, TurnAnswered};
ghost use Rattle.im_engine.specs.{Chain.Advances, Chain.TakesNext, Commands.commands_put, Commands.CommandsAnswered};
ghost use Rattle.im_session.specs.Kept.{Kept};
ghost use Rattle.im_session.specs.Serving.{Rests, served_answer, served_one, served_together};

use crate::calls::SessionCalls;
use crate::opening::StartSnapshot;
use arrayvec::ArrayVec;
use im_checkpoint::TurnDone;
use im_disk::Disk;
use im_engine::Engine;
use im_memory::Memory;
use im_types::{Command, MAX_GROUP, Outcome, Refusal, Served};
use std::marker::Model;

/// An engine, and what was put on its disk since the session began.
///
/// Contracts see where the session begins (`start`), the commands that were acknowledged since (`put`), those in doubt
/// (`doubt`), and the engine now. Each session meets `Kept`, which says what a crash leaves of it:
/// [`Session::engine`] shows it.
pub struct Session<D: Disk> {
    pub(crate) engine: Engine<D>,
    pub(crate) start: StartSnapshot<D>,
    pub(crate) calls: SessionCalls,
}

// By one call, as for an engine.
impl<D: Disk + Drop> Drop for Session<D> {
    fn drop(self) {
        let Session {
            engine: _,
            start: _,
            calls: _,
        } = self;
    }
}

impl<D: Disk> Model for Session<D> {
    ghost use Rattle.im_session.specs.Kept.{Kept, session_of, SessionState};

    ghost Value = { SessionState D };

    ghost view = { λ s. session_of s.start s.calls.sure s.calls.doubt s.engine };

    ghost invariant = { λ s. Kept D.Disk (session_of s.start s.calls.sure s.calls.doubt s.engine) };
}

impl<D: Disk> Session<D> {
    /// Serves a command, as [`Engine::serve`] does. If it changes the memory, it is put, or at `Device` it is in doubt.
    pub fn serve(&mut self, command: &Command) -> Result<Outcome, Refusal>
        ensures answered { Answered self.old.engine command.now result self.new.engine }
        ensures put { self.new ≡ served_one self.old command.now result self.new.engine }
    {
        self.serve_kept(command)
    }

    /// Serves commands together, as [`Engine::serve_commands`] does. Those that change the memory are put, all of them,
    /// or at `Device` they are in doubt.
    pub fn serve_commands(
        &mut self,
        members: &ArrayVec<Command, MAX_GROUP>,
        served: &mut ArrayVec<Served, MAX_GROUP>,
    )
        requires empty { served.old.items ≡ [] }
        // How many are served, and where it ends.
        ensures begins { let many = length served.new.items in ServesPrefix self.old.engine.memory
            (commands_put self.old.engine (take many members.now.items)) members.now.items many }
        ensures answered { CommandsAnswered self.old.engine (take (length served.new.items) members.now.items)
            served.new.items self.new.engine }
        ensures put { self.new ≡ served_together self.old (take (length served.new.items) members.now.items)
            self.new.engine }
    {
        self.serve_commands_kept(members, served)
    }

    /// Lets the group ahead act, and puts the next one ahead of it, as [`Engine::advance`] does. The commands of the
    /// group ahead are put, all of them, or at `Device` they are in doubt. What is only put ahead is neither.
    pub fn advance(
        &mut self,
        next: &ArrayVec<Command, MAX_GROUP>,
        served: &mut ArrayVec<Served, MAX_GROUP>,
    ) -> Result<usize, Refusal>
        requires empty { served.old.items ≡ [] }
        ensures answered { Advances self.old.engine next.now.items result served.new.items self.new.engine }
        // How many of the next members are ahead, and where they end.
        ensures takes { IfOk result (λ many. TakesNext self.old.engine next.now.items self.new.engine many) }
        ensures put { self.new ≡ served_together self.old self.old.engine.ahead self.new.engine }
    {
        self.advance_kept(next, served)
    }

    /// Makes a turn of a checkpoint, as [`Engine::turn`] does. It puts nothing.
    pub fn turn(&mut self) -> Result<TurnDone, Refusal>
        ensures answered { TurnAnswered self.old.engine result self.new.engine }
        ensures same { Rests self.old self.new }
    {
        self.turn_kept()
    }

    /// Sweeps, as [`Engine::sweep`] does. It puts nothing.
    pub fn sweep(&mut self, most: u32) -> Result<u32, Refusal>
        ensures answered { SweepAnswered self.old.engine most result self.new.engine }
        ensures same { Rests self.old self.new }
    {
        self.sweep_kept(most)
    }

    /// The engine, to be looked at. Whoever looks knows what a crash leaves.
    pub fn engine(&self) -> &Engine<D>
        ensures state { result.now ≡ self.now.engine }
        ensures kept { Kept D.Disk self.now }
    {
        &self.engine
    }

    /// The memory of the engine.
    pub fn memory(&self) -> &Memory
        ensures { result.now.contents ≡ self.now.engine.memory }
    {
        self.engine.memory()
    }

    /// Ends the session, and gives the engine back.
    pub fn into_engine(self) -> Engine<D>
        ensures state { result ≡ self.engine }
        ensures kept { Kept D.Disk self }
    {
        let Session {
            engine,
            start: _,
            calls: _,
        } = self;
        engine
    }

    /// Ends the session, and gives the disk back. It makes no call of the disk.
    pub fn close(self) -> D
        ensures state { result ≡ self.engine.disk }
        ensures kept { Kept D.Disk self }
    {
        self.into_engine().close()
    }
}

/// Returns what one of the commands that were served together was answered. One that wasn't served has `NoMemory`.
pub fn served_answer(served: Served) -> Result<Outcome, Refusal>
    ensures { result ≡ served_answer served }
{
    match served {
        Served::Done(outcome) => Ok(outcome),
        Served::Refused(refusal) => Err(refusal),
        Served::Unserved => Err(Refusal::NoMemory),
    }
}
