//! What an observer of the work is told, and the output doesn't say.

use crate::reasons::Reason;
use crate::replies::Waited;
use im_damage::Older;
use std::fmt;
use std::fmt::{Display, Formatter};

/// How far a script has been served.
#[derive(Clone, Copy, Debug, PartialEq, Eq)]
pub struct Progress {
    /// The number of requests served.
    pub served: u64,
    /// The number of commands that the journal still has room for.
    pub room: u32,
    /// The number of checkpoints that were put in force.
    pub checkpoints: u64,
}

/// Something odd about an image that is read all the same. Its text is for a person.
#[derive(Clone, Copy, Debug, PartialEq, Eq)]
pub enum Warning {
    /// A note of this boot says that a sync of the file failed.
    Unsynced,
    /// The system has made the file system read-only that was mounted to be written.
    TurnedReadOnly,
    /// A slot of the journal is older than any that can be open there.
    Older(Older),
}

impl Display for Warning {
    fn fmt<W: fmt::Write>(&self, f: &mut Formatter<W>) -> fmt::Result {
        match *self {
            Warning::Unsynced => f.write_str(
                "a sync of it failed since this machine was started: what is read here may not be on the disk",
            ),
            Warning::TurnedReadOnly => f.write_str(
                "the system has made its file system read-only, as it does behind an error: what is read here may not \
                 be on the disk",
            ),
            Warning::Older(older) => write!(f, "{older}"),
        }
    }
}

/// What a person who follows the work is told of it. Nothing of it is part of the output. An observer that listens has
/// each line of the output written as soon as it is true. Else lines are written in batches.
#[derive(Clone, Copy, Debug)]
pub enum News {
    /// The answer to a request that waited when the image was opened, and that is kept at the end.
    Answered(Waited),
    /// An entry of an earlier script that is confirmed next, since a window is full. Nobody may have seen it.
    Confirmed(Waited),
    /// How far the work has come. It is told before each request.
    Progressed(Progress),
    /// Why the work is refused.
    Refused(Reason),
    /// Something odd about an image that is read all the same.
    Warned(Warning),
}
