//! The texts of requests and replies.
ghost use Rattle.std.specs.Prelude.{◌≡◌, ◌++◌, OnOk, string_bytes};
ghost use Rattle.im_text.specs.Texts.{entry_text, kind_text, op_text, reply_text};

use im_types::{Entry, Kind, Op, Reply};
use std::alloc::AllocError;

/// A request that had to wait, with the entry that was last kept for it.
#[derive(Clone, Copy, Debug, PartialEq, Eq)]
pub struct Waited {
    /// The element that asked.
    pub element: u16,
    /// The request's number.
    pub number: u64,
    /// The entry that was last kept for it.
    pub entry: Entry,
}

/// The letter of a kind.
pub fn kind_text(kind: Kind) -> &'static str
    ensures { result.now ≡ kind_text kind }
{
    match kind {
        Kind::I => "i",
        Kind::M => "m",
    }
}

/// Adds the text of an operation.
pub fn add_op(out: &mut String, op: Op) -> Result<(), AllocError>
    ensures { OnOk result (string_bytes out.new ≡ string_bytes out.old ++ op_text op) }
{
    match op {
        Op::Alloc(kind, length) => {
            let kind = kind_text(kind);
            write!(out, "alloc {kind} {length}")
        }
        Op::Release(a) => write!(out, "release {a}"),
        Op::Reset(a) => write!(out, "reset {a}"),
        Op::Fetch(a) => write!(out, "fetch {a}"),
        Op::Store(a, value) => write!(out, "store {a} {value}"),
        Op::Take(a) => write!(out, "take {a}"),
        Op::Put(a, value) => write!(out, "put {a} {value}"),
    }
}

/// Adds the text of an answer.
fn add_reply(out: &mut String, reply: Reply) -> Result<(), AllocError>
    ensures { OnOk result (string_bytes out.new ≡ string_bytes out.old ++ reply_text reply) }
{
    match reply {
        Reply::Base(base) => write!(out, "base {base}"),
        Reply::NoSpace => out.push_str("nospace"),
        Reply::BadLength => out.push_str("badlength"),
        Reply::Value(value) => write!(out, "value {value}"),
        Reply::Stored => out.push_str("stored"),
        Reply::Clash => out.push_str("clash"),
        Reply::NoCell => out.push_str("nocell"),
        Reply::WrongKind => out.push_str("wrongkind"),
        Reply::Released => out.push_str("released"),
        Reply::NoBlock => out.push_str("noblock"),
        Reply::StillWaiting => out.push_str("stillwaiting"),
        Reply::Cleared => out.push_str("cleared"),
    }
}

/// Adds the text of an entry that is kept for a request.
pub fn add_entry(out: &mut String, entry: Entry) -> Result<(), AllocError>
    ensures { OnOk result (string_bytes out.new ≡ string_bytes out.old ++ entry_text entry) }
{
    match entry {
        Entry::Waiting => out.push_str("waiting"),
        Entry::Answered(reply) => add_reply(out, reply),
    }
}
