//! What a memory is asked, and what it answers.

use im_disk::FuseDisk;
use im_engine::Engine;
use im_story::{Saying, asked};
use im_types::{Entry, Kind, Op, Outcome, Refusal, Reply, Request};

/// How many requests there are.
pub const ALL: usize = 4;

/// How many of them make the block.
pub const FIRST: usize = 1;

/// Returns the request at a place. One makes a block of two cells; the others are a store and two fetches there. So
/// each gets the same answer when it is asked again.
pub fn request(at: usize) -> Request {
    match at {
        0 => asked(0, 1, Op::Alloc(Kind::I, 2)),
        1 => asked(2, 1, Op::Store(0, 5)),
        2 => asked(1, 1, Op::Fetch(0)),
        _ => asked(1, 2, Op::Fetch(1)),
    }
}

// Returns what is kept for a request.
fn answer(at: usize) -> Entry {
    match at {
        0 => Entry::Answered(Reply::Base(0)),
        1 => Entry::Answered(Reply::Stored),
        2 => Entry::Answered(Reply::Value(5)),
        _ => Entry::Waiting,
    }
}

/// Adds an answer.
pub fn add_answer(said: &mut Saying, outcome: Outcome) {
    said.text(" ");
    said.outcome(Ok(outcome));
    said.text(",")
}

/// Returns whether a memory has answered the first `many` requests, and nothing else was asked.
pub fn has_first(engine: &Engine<FuseDisk>, many: usize) -> bool {
    let is_right = |at| {
        let (asked, kept) = (
            request(at),
            if at < many {
                Ok(answer(at))
            } else {
                Err(Refusal::Gap)
            },
        );
        engine.collect(asked.element, asked.number) == kept
    };
    engine.count() == many as u64 && (0..ALL).all(is_right)
}

/// Checks that a call that makes no call of the disk is refused for want of memory, and that all is as it was.
pub fn lacks_memory(refusal: Refusal, is_same: bool, said: &mut Saying) {
    said.so(is_same && refusal == Refusal::NoMemory, "")
}

/// Checks the same of a call that may be refused by the disk, since the disk's record can't grow.
pub fn is_refused(refusal: Refusal, is_same: bool, said: &mut Saying) {
    said.so(
        is_same && matches!(refusal, Refusal::NoMemory | Refusal::Device),
        "",
    )
}
