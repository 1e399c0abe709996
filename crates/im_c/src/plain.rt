//! Commands and outcomes in C's form.
ghost use Rattle.std.specs.Prelude.{◌≡◌, Some, Ok};
ghost use Rattle.im_types.specs.Types.{entry_code, entry_number, op_of};
ghost use Rattle.im_c.specs.Plain.{entry_outcome, meant, outcome_of, refused};

use im_types::codes::op_of;
use im_types::{Command, Entry, Op, Outcome, Refusal, Reply, Request};

/// The number of the refusal of something that is no call, such as an unknown tag.
pub(crate) const NO_CALL: u8 = 255;

/// The number for a member of a group that isn't served, and changed nothing.
pub(crate) const UNSERVED: u8 = 254;

// The tag of a confirmation that was accepted.
const CONFIRMED: u8 = 128;

/// A command. Its tag is the code that the journal has for it:
///
/// - 1 and 2: an allocation of `address` cells of kind I and M.
/// - 3: a release of the block with the base `address`.
/// - 4, 5, 6 and 7: a fetch, a store, a take and a put at `address`.
/// - 8: a confirmation of all numbers below `number`.
/// - 9: a reset of the block with the base `address`.
///
/// Any other tag is no command.
#[repr(C)]
#[derive(Clone, Copy)]
pub struct LtCommand {
    /// What is asked, 1 to 9.
    pub tag: u8,
    /// The element that asks, from 0.
    pub element: u16,
    /// The address, or the length of an allocation; else unused.
    pub address: u32,
    /// The number of the request, or the number below which all is confirmed.
    pub number: u64,
    /// The value of a store or a put; else unused.
    pub value: u64,
}

/// The outcome of a call. `refusal` is 0, the number of the refusal, 254 for a member of a group that isn't served, or
/// 255 for something that is no call. If it isn't 0, the rest is 0. The tag is the code that the image has for an
/// entry: 0 it waits, 1 a base in `value`, 2 no space, 3 bad length, 4 a value in `value`, 5 stored, 6 clash, 7 no
/// cell, 8 wrong kind, 9 released, 10 no block, 11 still waiting, 12 cleared. The tag of an accepted confirmation is
/// 128.
#[repr(C)]
#[derive(Clone, Copy, Default)]
pub struct LtOutcome {
    /// 0, or the number of the refusal.
    pub refusal: u8,
    /// The code of the entry, or 128.
    pub tag: u8,
    /// The base or the value, else 0.
    pub value: u64,
}

/// The window of an element. Its entries are kept from `base` on, and `next` is the number of its next new request.
/// `refusal` is 0 or the number of the refusal. If it isn't 0, the rest is 0.
#[repr(C)]
#[derive(Clone, Copy)]
pub struct LtBounds {
    /// 0, or the number of the refusal.
    pub refusal: u8,
    /// The first number that is kept.
    pub base: u64,
    /// The number of the next new request.
    pub next: u64,
}

/// A request that waits: its element and its number.
#[repr(C)]
#[derive(Clone, Copy)]
pub struct LtWaiter {
    /// The element that asked.
    pub element: u16,
    /// The request's number.
    pub number: u64,
}

/// The sizes of an image.
#[repr(C)]
#[derive(Clone, Copy)]
pub struct LtLimits {
    /// The number of cells, 1 to 1,048,576.
    pub cells: u32,
    /// The number of elements, 1 to 64.
    pub elements: u16,
    /// The number of journal slots, 16 to 4,096.
    pub slots: u32,
}

/// A step on the caller's file. Its kind is 1 for a write of `length` bytes at `place`, 2 for a sync, and 0 if there is
/// no such step. The rest is 0 if the kind isn't 1.
#[repr(C)]
#[derive(Clone, Copy)]
pub struct LtStep {
    /// The kind of the step.
    pub kind: u8,
    /// The offset of the first byte.
    pub place: u64,
    /// The number of bytes.
    pub length: u64,
}

/// Returns the command that is meant, or `None` if no command has this tag.
pub(crate) fn meant(command: &LtCommand) -> Option<Command>
    ensures { result ≡ meant command.now }
{
    match op_of(command.tag, command.address, command.value) {
        Some(op) => Some(Command::Request(Request {
            element: command.element,
            number: command.number,
            op,
        })),
        None => {
            if command.tag == 8 {
                Some(Command::Confirm {
                    element: command.element,
                    upto: command.number,
                })
            } else {
                None
            }
        }
    }
}

/// Returns the command that is meant if its tag is that of this operation.
#[inline(always)]
pub(crate) fn request_of(command: &LtCommand, op: Op) -> Command
    requires { op_of command.now.tag command.now.address command.now.value ≡ Some op }
    ensures { meant command.now ≡ Some result }
{
    Command::Request(Request {
        element: command.element,
        number: command.number,
        op,
    })
}

// The code of an entry.
fn entry_code(entry: Entry) -> u8
    ensures { result ≡ entry_code entry }
{
    match entry {
        Entry::Waiting => 0,
        Entry::Answered(Reply::Base(_)) => 1,
        Entry::Answered(Reply::NoSpace) => 2,
        Entry::Answered(Reply::BadLength) => 3,
        Entry::Answered(Reply::Value(_)) => 4,
        Entry::Answered(Reply::Stored) => 5,
        Entry::Answered(Reply::Clash) => 6,
        Entry::Answered(Reply::NoCell) => 7,
        Entry::Answered(Reply::WrongKind) => 8,
        Entry::Answered(Reply::Released) => 9,
        Entry::Answered(Reply::NoBlock) => 10,
        Entry::Answered(Reply::StillWaiting) => 11,
        Entry::Answered(Reply::Cleared) => 12,
    }
}

// The number that an entry carries.
fn entry_number(entry: Entry) -> u64
    ensures { result ≡ entry_number entry }
{
    match entry {
        Entry::Answered(Reply::Base(base)) => base as u64,
        Entry::Answered(Reply::Value(value)) => value,
        _ => 0,
    }
}

/// The outcome of the refusal with this number.
pub(crate) fn refused(number: u8) -> LtOutcome
    ensures { result ≡ refused number }
{
    LtOutcome {
        refusal: number,
        tag: 0,
        value: 0,
    }
}

/// The outcome of an answer.
pub(crate) fn outcome_of(answer: Result<Outcome, Refusal>) -> LtOutcome
    ensures { result ≡ outcome_of answer }
{
    match answer {
        Ok(Outcome::Confirmed) => LtOutcome {
            refusal: 0,
            tag: CONFIRMED,
            value: 0,
        },
        Ok(Outcome::Entry(entry)) => LtOutcome {
            refusal: 0,
            tag: entry_code(entry),
            value: entry_number(entry),
        },
        Err(refusal) => refused(refusal.number()),
    }
}

// Writes the outcome of a call that isn't refused.
#[inline(always)]
fn tell_tag(tag: u8, value: u64, outcome: &mut LtOutcome)
    ensures { outcome.new ≡ record { refusal = 0; tag = tag; value = value } }
{
    outcome.refusal = 0;
    outcome.tag = tag;
    outcome.value = value;
}

// Writes the outcome of an entry. It is a call of its own, which an access with its usual answer is spared.
#[inline(never)]
fn tell_entry(entry: Entry, outcome: &mut LtOutcome)
    ensures { outcome.new ≡ entry_outcome (Ok entry) }
{
    tell_tag(entry_code(entry), entry_number(entry), outcome);
}

/// Writes the outcome of an answer, field by field, so that no padding is copied.
#[inline(always)]
pub(crate) fn tell(answer: Result<Outcome, Refusal>, outcome: &mut LtOutcome)
    ensures { outcome.new ≡ outcome_of answer }
{
    match answer {
        Ok(Outcome::Confirmed) => tell_tag(CONFIRMED, 0, outcome),
        Ok(Outcome::Entry(entry)) => tell_tag(entry_code(entry), entry_number(entry), outcome),
        Err(refusal) => tell_refused(refusal.number(), outcome),
    }
}

// Writes the outcome of an answer as [`tell`] does, but that of an entry by a call.
#[inline(always)]
fn tell_rest(answer: Result<Outcome, Refusal>, outcome: &mut LtOutcome)
    ensures { outcome.new ≡ outcome_of answer }
{
    match answer {
        Ok(Outcome::Entry(entry)) => tell_entry(entry, outcome),
        _ => tell(answer, outcome),
    }
}

/// Writes the outcome of an answer to a fetch or a take, as [`tell`] does. First it looks for a value, or whether the
/// request waits.
#[inline(always)]
pub(crate) fn tell_read(answer: Result<Outcome, Refusal>, outcome: &mut LtOutcome)
    ensures { outcome.new ≡ outcome_of answer }
{
    match answer {
        Ok(Outcome::Entry(Entry::Answered(Reply::Value(value)))) => tell_tag(4, value, outcome),
        Ok(Outcome::Entry(Entry::Waiting)) => tell_tag(0, 0, outcome),
        _ => tell_rest(answer, outcome),
    }
}

/// Writes the outcome of an answer to a store or a put, as [`tell`] does. First it looks whether the value was stored.
#[inline(always)]
pub(crate) fn tell_write(answer: Result<Outcome, Refusal>, outcome: &mut LtOutcome)
    ensures { outcome.new ≡ outcome_of answer }
{
    match answer {
        Ok(Outcome::Entry(Entry::Answered(Reply::Stored))) => tell_tag(5, 0, outcome),
        _ => tell_rest(answer, outcome),
    }
}

/// Writes the outcome of the refusal with this number.
pub(crate) fn tell_refused(number: u8, outcome: &mut LtOutcome)
    ensures { outcome.new ≡ refused number }
{
    outcome.refusal = number;
    outcome.tag = 0;
    outcome.value = 0;
}

/// The outcome of an entry that is kept, or of the refusal if none is.
pub(crate) fn entry_outcome(answer: Result<Entry, Refusal>) -> LtOutcome
    ensures { result ≡ entry_outcome answer }
{
    match answer {
        Ok(entry) => outcome_of(Ok(Outcome::Entry(entry))),
        Err(refusal) => outcome_of(Err(refusal)),
    }
}
