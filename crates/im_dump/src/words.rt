//! Reads the words of a line. Nothing is promised here: what is loaded is compared with the text.
ghost use Rattle.std.specs.Prelude.{◌≤◌, IfOk};

use crate::faults::Wanted;
use im_script::{read_action, read_number};
use im_types::{Entry, Kind, LAST, Op, Reply, Waiter};
use indexmap::IndexSet;
use std::alloc::Global;

/// The first wrong or missing word of a line: its place among the words, and what a dump has there.
#[derive(Clone, Copy, Debug, PartialEq, Eq)]
pub(crate) struct Bad {
    pub(crate) at: usize,
    pub(crate) wanted: Wanted,
}

/// Whether there is this word at a place.
pub(crate) fn is_at(words: &[&[u8]], at: usize, this: &[u8]) -> bool {
    match words.get(at) {
        Some(word) => *word == this,
        None => false,
    }
}

/// Reads a number.
pub(crate) fn number_at(words: &[&[u8]], at: usize, most: u64, wanted: Wanted) -> Result<u64, Bad>
    ensures { IfOk result (λ number. number ≤ most) }
{
    let Some(word) = words.get(at) else {
        return Err(Bad { at, wanted });
    };
    match read_number(word, most) {
        Some(number) => Ok(number),
        None => Err(Bad { at, wanted }),
    }
}

/// Reads a kind.
pub(crate) fn kind_at(words: &[&[u8]], at: usize) -> Result<Kind, Bad> {
    if is_at(words, at, b"i") {
        Ok(Kind::I)
    } else if is_at(words, at, b"m") {
        Ok(Kind::M)
    } else {
        let wanted = Wanted::Kind;
        Err(Bad { at, wanted })
    }
}

/// Reads the end of a line.
pub(crate) fn ends_at(words: &[&[u8]], at: usize) -> Result<(), Bad> {
    let wanted = Wanted::End;
    if words.len() > at {
        Err(Bad { at, wanted })
    } else {
        Ok(())
    }
}

// Reads an element and a number, with a dot between them.
fn read_waiter(word: &[u8]) -> Option<Waiter> {
    let dot = word.iter().position(|byte| *byte == b'.')?;
    let (element, number) = word.split_at(dot);
    if number.is_empty() {
        return None;
    }
    let element = read_number(element, u16::MAX as u64)?;
    let number = read_number(&number[1..], LAST)?;
    Some(Waiter {
        element: element as u16,
        number,
    })
}

/// Reads an element and a number, with a dot between them.
pub(crate) fn waiter_at(words: &[&[u8]], at: usize, wanted: Wanted) -> Result<Waiter, Bad> {
    let Some(word) = words.get(at) else {
        return Err(Bad { at, wanted });
    };
    match read_waiter(word) {
        Some(waiter) => Ok(waiter),
        None => Err(Bad { at, wanted }),
    }
}

/// Returns the place of the sign between an operation and its answer, or the number of words if there is none.
pub(crate) fn arrow_in(words: &[&[u8]]) -> usize {
    for at in 0..words.len() {
        if is_at(words, at, b"->") {
            return at;
        }
    }
    words.len()
}

// Reads an operation from its words.
fn read_op(alloc: Global, words: &[&[u8]]) -> Option<Op> {
    let names = IndexSet::new(alloc);
    read_action(&names, words)?.op(&[])
}

/// Reads the operation that stands from the third word up to the sign at this place.
pub(crate) fn op_before(alloc: Global, words: &[&[u8]], arrow: usize) -> Result<Op, Bad> {
    let at = 2;
    let wanted = Wanted::Operation;
    if arrow > words.len() || arrow < at {
        return Err(Bad { at, wanted });
    }
    match read_op(alloc, &words[at..arrow]) {
        Some(op) => Ok(op),
        None => Err(Bad { at, wanted }),
    }
}

// The answers that are one word.
const PLAIN: [(&[u8], Reply); 10] = [
    (b"nospace", Reply::NoSpace),
    (b"badlength", Reply::BadLength),
    (b"stored", Reply::Stored),
    (b"clash", Reply::Clash),
    (b"nocell", Reply::NoCell),
    (b"wrongkind", Reply::WrongKind),
    (b"released", Reply::Released),
    (b"noblock", Reply::NoBlock),
    (b"stillwaiting", Reply::StillWaiting),
    (b"cleared", Reply::Cleared),
];

// Reads an answer that is one word.
fn plain_reply(word: &[u8]) -> Option<Reply> {
    for (name, reply) in &PLAIN {
        if word == *name {
            return Some(*reply);
        }
    }
    None
}

/// Reads the entry that stands from a place up to the end of the line.
pub(crate) fn entry_from(words: &[&[u8]], at: usize) -> Result<Entry, Bad> {
    let next = at.saturating_add(1);
    if is_at(words, at, b"base") {
        let base = number_at(words, next, u32::MAX as u64, Wanted::Value)?;
        ends_at(words, next.saturating_add(1))?;
        return Ok(Entry::Answered(Reply::Base(base as u32)));
    }
    if is_at(words, at, b"value") {
        let value = number_at(words, next, u64::MAX, Wanted::Value)?;
        ends_at(words, next.saturating_add(1))?;
        return Ok(Entry::Answered(Reply::Value(value)));
    }
    ends_at(words, next)?;
    if is_at(words, at, b"waiting") {
        return Ok(Entry::Waiting);
    }
    let wanted = Wanted::Answer;
    let Some(word) = words.get(at) else {
        return Err(Bad { at, wanted });
    };
    match plain_reply(word) {
        Some(reply) => Ok(Entry::Answered(reply)),
        None => Err(Bad { at, wanted }),
    }
}
