//! Events of a session, and their answers.

use arrayvec::ArrayVec;
use im_checkpoint::TurnDone;
use im_engine::Group;
use im_types::{Command, MAX_GROUP, Outcome, Refusal, Served};

/// An event of a session.
#[derive(Debug, Drop)]
pub enum Event {
    /// A command is served.
    Command(Command),
    /// Requests are served as a group.
    Group(Group),
    /// Requests are put ahead as a group, and the group ahead of it is served.
    Ahead(Group),
    /// A turn of a checkpoint is made.
    Turn,
    /// The gates of at most this many old slots are closed, with one sync.
    Sweep(u32),
}

/// The answer to an event.
#[derive(Debug, Drop)]
pub enum Answer {
    /// The answer to a command.
    Served(Result<Outcome, Refusal>),
    /// The room that a group found, in commands, and the answers to its members, in their order. If all members are
    /// answered `Device`, the room says which of the group's commands are in doubt.
    Grouped(u32, ArrayVec<Served, MAX_GROUP>),
    /// The members that were ahead, how many requests are ahead now, and the answers to those members, in their order.
    /// If it is `Device`, the commands of those members are in doubt.
    Advanced(ArrayVec<Command, MAX_GROUP>, Result<usize, Refusal>, ArrayVec<Served, MAX_GROUP>),
    /// The answer to a turn.
    Turned(Result<TurnDone, Refusal>),
    /// The answer to a sweep.
    Swept(Result<u32, Refusal>),
}
