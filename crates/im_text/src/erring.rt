//! Whether replies and lines tell an error of the program that asked.
ghost use Rattle.std.specs.Prelude.{◌≡◌};
ghost use Rattle.im_text.specs.{Said.is_fault_line, Texts.is_fault_entry, Texts.is_fault_reply};

use crate::said::OutputLine;
use im_types::{Entry, Reply};

// Whether an answer tells an error of the program that asked.
fn is_fault_reply(reply: Reply) -> bool
    ensures { result ≡ is_fault_reply reply }
{
    match reply {
        Reply::NoSpace | Reply::BadLength | Reply::Clash | Reply::NoCell => true,
        Reply::WrongKind | Reply::NoBlock | Reply::StillWaiting => true,
        Reply::Base(_) | Reply::Value(_) | Reply::Stored => false,
        Reply::Released | Reply::Cleared => false,
    }
}

// The same of an entry.
fn is_fault_entry(entry: Entry) -> bool
    ensures { result ≡ is_fault_entry entry }
{
    match entry {
        Entry::Waiting => false,
        Entry::Answered(reply) => is_fault_reply(reply),
    }
}

/// Whether a line tells an error of the program that asked.
pub(crate) fn is_fault_line(line: OutputLine) -> bool
    ensures { result ≡ is_fault_line line }
{
    match line {
        OutputLine::Reply(it) | OutputLine::Now(it) => is_fault_entry(it.entry),
        OutputLine::Done(_, _) | OutputLine::Glance(_, _, _) | OutputLine::Refused(_) => false,
    }
}
