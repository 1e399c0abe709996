//! Notes the calls of a setup.
ghost use Rattle.std.specs.Prelude.{◌≡◌, ◌+◌, ◌<◌, ◌≤◌, vec_len, vec_capacity};

use im_memory::Memory;
use im_types::{Call, Command, Line, Outcome, Refusal, Request};

// Returns the line of a confirmation of element 0.
fn confirmed_line(upto: u64) -> Line {
    Line {
        call: Call::Command(Command::Confirm { element: 0, upto }),
        answer: Ok(Outcome::Confirmed),
    }
}

// Returns the line of a request of element 0, with what the memory keeps for it.
fn kept_line(memory: &Memory, number: u64) -> Option<Line> {
    let kept = memory.kept(0, number)?;
    let request = Request {
        element: 0,
        number,
        op: kept.op,
    };
    Some(Line {
        call: Call::Command(Command::Request(request)),
        answer: Ok(Outcome::Entry(kept.entry)),
    })
}

// Notes a confirmation, if element 0's window begins later than before.
fn note_confirmed(setup: &mut Vec<Line>, base: u64, first: u64)
    requires room { vec_len setup.old < vec_capacity setup.old }
    ensures few { vec_len setup.new ≤ vec_len setup.old + 1 }
    ensures capacity { vec_capacity setup.new ≡ vec_capacity setup.old }
{
    if base < first {
        setup.push_reserved(confirmed_line(first));
    }
}

// Notes element 0's request with a number, if the memory took it.
fn note_request(setup: &mut Vec<Line>, memory: &Memory, number: u64)
    requires room { vec_len setup.old < vec_capacity setup.old }
{
    if let Some(line) = kept_line(memory, number) {
        setup.push_reserved(line);
    }
}

/// Notes what was served for a block of the setup, given element 0's window before: entries may have been confirmed,
/// and then a request may have been served.
pub fn note_block(setup: &mut Vec<Line>, memory: &Memory, window: Result<(u64, u64), Refusal>)
    requires room { vec_len setup.old + 2 ≤ vec_capacity setup.old }
{
    if let (Ok((base, next)), Ok((first, _))) = (window, memory.window(0)) {
        note_confirmed(setup, base, first);
        note_request(setup, memory, next);
    }
}
