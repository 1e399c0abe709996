//! A command that is asked, and its answer.
use im_types::{Command, Served};

/// A command that is asked.
#[derive(Clone, Copy, Debug, Default, PartialEq, Eq)]
pub struct AskedCommand {
    /// What the asker knows it by. The queue makes nothing of it.
    pub ticket: u64,
    /// The command.
    pub command: Command,
}

/// The answer to a command that was asked.
#[derive(Clone, Copy, Debug, Default, PartialEq, Eq)]
pub struct ToldAnswer {
    /// What was asked.
    pub asked: AskedCommand,
    /// The answer.
    pub served: Served,
}
