//! The effect of an operation on one cell, by the cell's content and how many requests wait there. `acts` calls it.

use crate::cells::Content;
use im_types::{Entry, Op, Reply};

/// The effect of an operation on one cell: the cell's new state and the asker's entry. Of the requests that wait there,
/// the first `count` are given `value`.
#[derive(Clone, Copy)]
pub struct CellEffect {
    pub state: Content,
    pub entry: Entry,
    pub count: usize,
    pub value: u64,
}

fn told(state: Content, reply: Reply) -> CellEffect {
    CellEffect {
        state,
        entry: Entry::Answered(reply),
        count: 0,
        value: 0,
    }
}

fn deferred() -> CellEffect {
    CellEffect {
        state: Content::Empty,
        entry: Entry::Waiting,
        count: 0,
        value: 0,
    }
}

// The effect of a write to an empty cell. The first `count` waiting requests are given the value.
fn stored(state: Content, count: usize, value: u64) -> CellEffect {
    CellEffect {
        state,
        entry: Entry::Answered(Reply::Stored),
        count,
        value,
    }
}

/// Returns the effect of a fetch on a cell. It is the same however many requests wait there.
fn fetch(state: Content) -> CellEffect {
    match state {
        Content::Empty => deferred(),
        Content::Full(value) => told(state, Reply::Value(value)),
        Content::Clashed(_) => told(state, Reply::Clash),
    }
}

/// Returns the effect of a store to a cell at which `waiting` requests wait.
fn store(state: Content, waiting: usize, value: u64) -> CellEffect {
    match state {
        Content::Empty => stored(Content::Full(value), waiting, value),
        Content::Full(first) | Content::Clashed(first) => told(
            Content::Clashed(first),
            Reply::Clash,
        ),
    }
}

/// Returns the effect of a take from a cell. It is the same however many requests wait there.
fn take_from(state: Content) -> CellEffect {
    match state {
        Content::Empty => deferred(),
        Content::Full(value) => told(Content::Empty, Reply::Value(value)),
        Content::Clashed(_) => told(state, Reply::Clash),
    }
}

/// Returns the effect of a put to a cell at which `waiting` requests wait.
fn put(state: Content, waiting: usize, value: u64) -> CellEffect {
    match state {
        Content::Empty if waiting == 0 => told(Content::Full(value), Reply::Stored),
        Content::Empty => stored(Content::Empty, 1, value),
        Content::Full(old) | Content::Clashed(old) => told(Content::Clashed(old), Reply::Clash),
    }
}

/// Returns the effect of an operation on a cell at which `waiting` requests wait.
pub fn access(state: Content, waiting: usize, op: Op) -> CellEffect {
    match op {
        Op::Fetch(_) => fetch(state),
        Op::Store(_, value) => store(state, waiting, value),
        Op::Take(_) => take_from(state),
        Op::Put(_, value) => put(state, waiting, value),
        Op::Alloc(..) | Op::Release(_) | Op::Reset(_) => told(state, Reply::NoCell),
    }
}
