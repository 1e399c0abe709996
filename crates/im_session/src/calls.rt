//! The calls of a session, as contracts know them. They take one byte, and no code reads them.
ghost use Rattle.std.specs.Prelude.{◌≡◌, length, take};
ghost use Rattle.im_groups.specs.Commands.{commands_at};
ghost use Rattle.im_session.specs.Calls.{nothing_put, put_with, put_with_all};

use arrayvec::ArrayVec;
use im_memory::Memory;
use im_noted::NoteList;
use im_types::{Command, MAX_GROUP, Outcome, Refusal, Served};
use std::marker::Model;
use std::snapshot::Snapshot;

/// A call that may put commands.
#[derive(Drop)]
pub(crate) enum SessionCall {
    /// The memory that the call found, its command, and its answer.
    Alone(Snapshot<Memory>, Snapshot<Command>, Snapshot<Result<Outcome, Refusal>>),
    /// The memory and the places that a group found, its members, their answers, and whether the engine had failed
    /// before and after it.
    Together(
        Snapshot<Memory>,
        Snapshot<u64>,
        Snapshot<ArrayVec<Command, MAX_GROUP>>,
        Snapshot<ArrayVec<Served, MAX_GROUP>>,
        Snapshot<bool>,
        Snapshot<bool>,
    ),
}

/// What a group found: the memory, the places that were left, and whether the engine had failed; and its members.
pub(crate) struct GroupFound {
    pub memory: Snapshot<Memory>,
    pub places: Snapshot<u64>,
    pub failed: Snapshot<bool>,
    pub members: Snapshot<ArrayVec<Command, MAX_GROUP>>,
}

/// The calls of a session so far. Contracts see the commands that were acknowledged, and those in doubt.
#[derive(Drop)]
pub(crate) struct SessionCalls {
    noted: NoteList<SessionCall>,
}

impl Model for SessionCalls {
    ghost use Rattle.im_session.specs.Put.{PutList};

    ghost Value = { PutList };

    ghost use Rattle.im_session.specs.Calls.{put_by_calls};

    ghost view = { λ s. put_by_calls s.noted };
}

impl SessionCalls {
    /// No calls.
    pub(crate) fn new() -> SessionCalls
        ensures { result ≡ nothing_put }
    {
        SessionCalls {
            noted: NoteList::new(),
        }
    }

    /// Notes a command that was served on this memory, and its answer.
    pub(crate) fn note(
        &mut self,
        memory: Snapshot<Memory>,
        command: &Command,
        answer: &Result<Outcome, Refusal>,
    )
        ensures { self.new ≡ put_with self.old memory.value.contents command.now answer.now }
    {
        let call = SessionCall::Alone(memory, Snapshot::of(command), Snapshot::of(answer));
        self.noted.note(&call);
    }

    /// Notes members that were served together, as many as have answers, and whether the engine has failed since.
    pub(crate) fn note_all(
        &mut self,
        found: GroupFound,
        served: &ArrayVec<Served, MAX_GROUP>,
        failed: bool,
    )
        ensures { self.new ≡ put_with_all self.old (commands_at found.memory.value.contents found.places.value
            (take (length served.now.items) found.members.value.items)) found.failed.value failed }
    {
        let GroupFound {
            memory,
            places,
            failed: before,
            members,
        } = found;
        let call = SessionCall::Together(
            memory,
            places,
            members,
            Snapshot::of(served),
            before,
            Snapshot::of(&failed),
        );
        self.noted.note(&call);
    }
}
