//! Commands that were judged before they act.
ghost use Rattle.std.specs.Prelude.{◌≡◌, true, Ok};
ghost use Rattle.im_types.specs.Types.{step, is_accepted};
ghost use Rattle.im_memory.specs.Touched.{ChangesOnly, touched};

use crate::memory::Memory;
use crate::serving::serve_apart;
use im_types::{Command, Entry, Outcome, Refusal, Request};

impl Memory {
    /// Serves one command that the memory accepts, as [`Memory::step`] does, and doesn't judge it again. The call takes
    /// no memory.
    pub fn accept(&mut self, command: &Command) -> Result<Outcome, Refusal>
        requires accepted { is_accepted self.old.contents command.now ≡ true }
        ensures answer { result ≡ (step self.old.contents command.now).answer }
        ensures contents { self.new.contents ≡ (step self.old.contents command.now).contents }

        // Only these of its records change.
        ensures changes { ChangesOnly (touched self.old command.now) self.old.records self.new.records }
    {
        match command {
            Command::Request(request) => Ok(Outcome::Entry(self.accept_request(request))),
            Command::Confirm { element, upto } => self.confirm(*element, *upto),
        }
    }

    /// Serves a request that the memory accepts, as [`Memory::accept`] does, and returns the entry that it is answered
    /// with. The call takes no memory.
    #[inline(always)]
    pub fn accept_request(&mut self, request: &Request) -> Entry
        requires accepted { is_accepted self.old.contents (Command.Request request.now) ≡ true }
        ensures answer { Ok (Outcome.Entry result)
            ≡ (step self.old.contents (Command.Request request.now)).answer }
        ensures contents { self.new.contents ≡ (step self.old.contents (Command.Request request.now)).contents }
        ensures changes { let command = Command.Request request.now in
            ChangesOnly (touched self.old command) self.old.records self.new.records }
    {
        serve_apart(
            &mut self.table,
            &mut self.arena,
            &mut self.sessions,
            request,
        )
    }
}
