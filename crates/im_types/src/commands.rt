//! Commands and their outcomes.
ghost use Rattle.std.specs.Prelude.{◌≡◌};
ghost use Rattle.im_types.specs.Groups.{no_request};

use crate::operations::{Entry, Op};
use crate::refusals::Refusal;

/// An operation that an element requests. The element gives each of its requests its own number.
#[derive(Clone, Copy, Debug, PartialEq, Eq)]
pub struct Request {
    /// The element that sends the request, counted from 0.
    pub element: u16,
    /// The request's number. Each element counts 1, 2, 3 and so on.
    pub number: u64,
    /// The requested operation.
    pub op: Op,
}

impl Default for Request {
    // No memory accepts this request: numbers begin with 1.
    fn default() -> Request
        ensures { result ≡ no_request }
    {
        Request {
            element: 0,
            number: 0,
            op: Op::Fetch(0),
        }
    }
}

/// A command to the memory.
#[derive(Clone, Copy, Debug, PartialEq, Eq)]
pub enum Command {
    /// Serve an operation.
    Request(Request),
    /// Forget the element's entries with a number below `upto`.
    Confirm { element: u16, upto: u64 },
}

impl Default for Command {
    fn default() -> Command
        ensures { result ≡ Command.Request no_request }
    {
        Command::Request(Request::default())
    }
}

/// The outcome of a command that isn't refused.
#[derive(Clone, Copy, Debug, PartialEq, Eq)]
pub enum Outcome {
    /// The entry that is now kept for the request.
    Entry(Entry),
    /// The entries are forgotten.
    Confirmed,
}

/// How a request that isn't refused is met.
#[derive(Clone, Copy, Debug, PartialEq, Eq)]
pub enum Judged {
    /// It is new and has the next number.
    Fresh,
    /// It was served before. This is its entry.
    Repeat(Entry),
}

/// A call to a memory.
#[derive(Clone, Copy, Debug, PartialEq, Eq)]
pub enum Call {
    /// A command.
    Command(Command),
    /// A question for the entry under a number.
    Collect { element: u16, number: u64 },
}

/// A call and its answer: one line of a trace.
#[derive(Clone, Copy, Debug, PartialEq, Eq)]
pub struct Line {
    /// The call.
    pub call: Call,
    /// The answer.
    pub answer: Result<Outcome, Refusal>,
}
