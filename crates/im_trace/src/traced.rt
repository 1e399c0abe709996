//! A line of the trace, in few bytes.
ghost use Rattle.std.specs.Prelude.{◌≡◌, true, ◌&&◌};
ghost use Rattle.im_trace.specs.{Lines.line_of, Lines.may_begin, Traced.call_with, Traced.traced_answer};

use im_types::{Call, Command, Entry, Line, Op, Outcome, Refusal, Reply, Request};
use std::marker::Model;

// What was asked.
#[derive(Clone, Copy)]
pub(crate) enum TracedCall {
    Request,
    Confirm,
    Collect,
}

// What was answered.
#[derive(Clone, Copy)]
pub(crate) enum TracedAnswer {
    Answered,
    Waiting,
    Confirmed,
    Refused(Refusal),
}

/// What happened between a line and the one before it.
#[derive(Clone, Copy, Debug, PartialEq, Eq)]
pub struct Since {
    /// Whether a group of commands began, which share the syncs that put them on the disk. The line is then the first
    /// one of that group with an outcome.
    pub group: bool,
    /// Whether a checkpoint was put in force.
    pub checkpoint: bool,
}

/// A line of the trace, in 48 bytes. A call beside its answer would take 88, since each of their layers has a tag of
/// its own. Contracts see the [`Line`].
#[derive(Drop)]
pub struct Traced {
    number: u64, // Of a confirmation, the number below which entries are confirmed.
    op: Op, // Of a request alone.
    reply: Reply, // Of an answer alone.
    element: u16,
    asked: TracedCall,
    said: TracedAnswer,
    group: bool,
    checkpoint: bool,
}

impl Model for Traced {
    ghost use Rattle.std.specs.Prelude.{◌≡◌, true};
    ghost use Rattle.im_types.specs.Types.{Line};
    ghost use Rattle.im_trace.specs.{Lines.may_begin, Traced.call_with, Traced.traced_answer};

    ghost Value = { Line };

    ghost view = { λ t. record {
      call = call_with t.asked t.element t.number t.op;
      answer = traced_answer t.said t.reply;
    } };

    ghost invariant = { λ t. t.group ≡ true
        → may_begin (call_with t.asked t.element t.number t.op) (traced_answer t.said t.reply) ≡ true };
}

// Returns whether a line may begin a group: a command's, with an outcome.
pub(crate) fn may_begin(call: Call, answer: Result<Outcome, Refusal>) -> bool
    ensures { result ≡ may_begin call answer }
{
    match call {
        Call::Command(_) => answer.is_ok(),
        Call::Collect { .. } => false,
    }
}

// Returns what a call asks, its element, its number and its operation.
fn parts_of(call: Call) -> (TracedCall, u16, u64, Op)
    ensures { call_with result.0 result.1 result.2 result.3 ≡ call }
{
    match call {
        Call::Command(Command::Request(request)) => {
            (
                TracedCall::Request,
                request.element,
                request.number,
                request.op,
            )
        }
        Call::Command(Command::Confirm { element, upto }) => {
            (TracedCall::Confirm, element, upto, Op::Fetch(0))
        }
        Call::Collect { element, number } => (TracedCall::Collect, element, number, Op::Fetch(0)),
    }
}

// Returns what an answer says, and its reply.
fn said_of(answer: Result<Outcome, Refusal>) -> (TracedAnswer, Reply)
    ensures { traced_answer result.0 result.1 ≡ answer }
{
    match answer {
        Ok(Outcome::Entry(Entry::Answered(reply))) => (TracedAnswer::Answered, reply),
        Ok(Outcome::Entry(Entry::Waiting)) => (TracedAnswer::Waiting, Reply::Stored),
        Ok(Outcome::Confirmed) => (TracedAnswer::Confirmed, Reply::Stored),
        Err(refusal) => (TracedAnswer::Refused(refusal), Reply::Stored),
    }
}

// The call with these parts.
fn call_with(asked: TracedCall, element: u16, number: u64, op: Op) -> Call
    ensures { result ≡ call_with asked element number op }
{
    match asked {
        TracedCall::Request => Call::Command(Command::Request(Request {
            element,
            number,
            op,
        })),
        TracedCall::Confirm => Call::Command(Command::Confirm {
            element,
            upto: number,
        }),
        TracedCall::Collect => Call::Collect { element, number },
    }
}

// The answer that says this.
fn answer_with(said: TracedAnswer, reply: Reply) -> Result<Outcome, Refusal>
    ensures { result ≡ traced_answer said reply }
{
    match said {
        TracedAnswer::Answered => Ok(Outcome::Entry(Entry::Answered(reply))),
        TracedAnswer::Waiting => Ok(Outcome::Entry(Entry::Waiting)),
        TracedAnswer::Confirmed => Ok(Outcome::Confirmed),
        TracedAnswer::Refused(refusal) => Err(refusal),
    }
}

impl Traced {
    // Returns the line of a call and its answer. It begins a group only if it may.
    pub(crate) fn new(call: Call, answer: Result<Outcome, Refusal>, since: Since) -> Traced
        ensures { result ≡ line_of call answer }
    {
        let (asked, element, number, op) = parts_of(call);
        let (said, reply) = said_of(answer);
        Traced {
            number,
            op,
            reply,
            element,
            asked,
            said,
            group: since.group && may_begin(call, answer),
            checkpoint: since.checkpoint,
        }
    }

    /// Returns the call and its answer.
    pub fn line(&self) -> Line
        ensures line { result ≡ self.now }
    {
        Line {
            call: call_with(self.asked, self.element, self.number, self.op),
            answer: answer_with(self.said, self.reply),
        }
    }

    /// Returns what happened since the line before. A collect or a refusal begins no group.
    pub fn since(&self) -> Since
        ensures group { result.group ≡ true → may_begin self.now.call self.now.answer ≡ true }
    {
        Since {
            group: self.group,
            checkpoint: self.checkpoint,
        }
    }
}
