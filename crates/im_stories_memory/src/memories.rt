//! The fast memory and the plain one, side by side. Each call is made on both, and both have to answer the same.

use im_memory::Memory;
use im_story::{Phrase, Saying, asked, command};
use im_story_plain::PlainMemory;
use im_types::{
    Cell, CellRecord, Command, Entry, Limits, NONE, NodeRecord, Op, Outcome, PresenceTag, Refusal,
};
use std::alloc::Global;

/// The two memories, and how many commands they accepted.
#[derive(Drop)]
pub struct Memories {
    /// The fast one.
    pub fast: Memory,
    /// The plain one.
    pub plain: PlainMemory,
    accepted: u32,
}

impl Memories {
    /// Makes two new memories of these sizes.
    pub fn new(alloc: Global, cells: u32, elements: u16) -> Option<Memories> {
        let limits = Limits::new(cells, elements, 16)?;
        let plain = PlainMemory::new(alloc, limits).ok()?;
        let fast = Memory::new(alloc, limits).ok()?;
        Some(Memories {
            fast,
            plain,
            accepted: 0,
        })
    }

    /// Puts one command to both, and counts it if it is accepted. Returns the answer of the fast one, or `None` if the
    /// two differ.
    pub fn step(&mut self, command: &Command) -> Option<Result<Outcome, Refusal>> {
        let judged = self.fast.judge(command);
        if judged != self.plain.judge(command) {
            return None;
        }
        self.accepted = self.accepted.saturating_add(u32::from(judged == Ok(true)));
        let answer = self.fast.step(command);
        (answer == self.plain.step(command)).then_some(answer)
    }

    /// Returns whether the same requests wait at a cell, in the same order.
    pub fn has_same_waiters(&self, a: u32) -> bool {
        let count = self
            .fast
            .waiters(a)
            .fold(0usize, |count, _| count.saturating_add(1));
        (0..=count).all(|place| self.fast.waiter(a, place) == self.plain.waiter(a, place))
    }
}

// Adds all waiters of a cell, in order. Returns whether they are those of the plain memory.
fn add_waiting(said: &mut Saying, memories: &Memories, a: u32) -> bool {
    for waiter in memories.fast.waiters(a) {
        said.who(waiter);
    }
    memories.has_same_waiters(a)
}

// Fetches a cell under the numbers from one to another. Returns how many fetches are accepted and wait.
fn fetches(memories: &mut Memories, call: &Phrase) -> u32 {
    let mut wait = 0u32;
    for number in call.number(1)..call.number(2).saturating_add(1) {
        let before = memories.accepted;
        let fetch = asked(call.element(0), number, Op::Fetch(call.address(3)));
        let answer = memories.step(&Command::Request(fetch));
        let waits = answer == Some(Ok(Outcome::Entry(Entry::Waiting)));
        wait = wait.saturating_add(u32::from(waits && memories.accepted > before));
    }
    wait
}

// Adds the record of a cell. If somebody waits, it doesn't add which nodes are in the cell's list.
fn add_cell_record(said: &mut Saying, record: CellRecord) {
    match record {
        CellRecord::Held {
            block,
            tag: PresenceTag::Waiting { .. },
        } => said.place(Some(Cell::Waiting), Some(block)),
        record => said.cell_record(record),
    }
}

// Adds the waiters in the nodes of a cell's list, from the first on. The last node has to be the one that the cell's
// record names, and to lead to none.
fn add_nodes(said: &mut Saying, memory: &Memory, record: CellRecord) {
    let CellRecord::Held {
        tag: PresenceTag::Waiting { first, last },
        ..
    } = record
    else {
        return said.fail("nobody waits");
    };
    let (mut at, mut before) = (first, NONE);
    for _ in 0..4_097u32 {
        let NodeRecord::Listed { next, waiter } = memory.records().node_record(at) else {
            break;
        };
        said.who(waiter);
        before = at;
        at = next;
    }
    if at != NONE || before != last {
        said.fail("the last node is another one")
    }
}

// Returns how many of the first nodes are in a list.
fn listed(memory: &Memory, nodes: u32) -> usize {
    let records = memory.records();
    (0..nodes)
        .filter(|n| matches!(records.node_record(*n), NodeRecord::Listed { .. }))
        .count()
}

// Tells what the fast memory answers. Returns whether the plain one answers the same, if both are asked.
fn tell_same(memories: &Memories, call: &Phrase, said: &mut Saying) -> Option<bool> {
    let (fast, plain) = (&memories.fast, &memories.plain);
    let (of, number, a) = (call.element(0), call.number(1), call.address(0));
    let is_same = match call.form() {
        "collect _._" => {
            said.answer(fast.collect(of, number));
            fast.collect(of, number) == plain.collect(of, number)
        }
        "window _" => {
            said.window(fast.window(of));
            fast.window(of) == plain.window(of)
        }
        "kept _._" => {
            said.kept(fast.kept(of, number));
            fast.kept(of, number) == plain.kept(of, number)
        }
        "cell _" => {
            said.place(fast.cell(a), fast.block(a));
            fast.cell(a) == plain.cell(a) && fast.block(a) == plain.block(a)
        }
        "waiting _" => add_waiting(said, memories, a),
        "waiter _ _" => {
            said.waiter(fast.waiter(a, call.place(1)));
            fast.waiter(a, call.place(1)) == plain.waiter(a, call.place(1))
        }
        "cells" => {
            said.number(fast.cells());
            fast.cells() == plain.cells()
        }
        "elements" => {
            said.number(fast.elements());
            fast.elements() == plain.elements()
        }
        _ => return None,
    };
    Some(is_same)
}

// Makes a call that is a command, or makes many, or shows records.
fn tell_other(memories: &mut Memories, call: &Phrase, said: &mut Saying) {
    let (a, fast) = (call.address(0), &memories.fast);
    match call.form() {
        "accepted" => said.number(memories.accepted),
        "_._ to _ fetch _" => write!(said, "{} wait", fetches(memories, call)),
        "record _" => add_cell_record(said, fast.records().cell_record(a)),
        "node _" => said.node_record(fast.records().node_record(a)),
        "nodes _" => add_nodes(said, fast, fast.records().cell_record(a)),
        "listed _" => said.number(listed(fast, a)),
        _ => said.given(command(call.words()), "no command", |command, said| {
            let answer = memories.step(&command);
            said.given(answer, "they differ", |it, said| said.outcome(it))
        }),
    }
}

/// Makes a call of both memories.
pub fn tell(memories: &mut Memories, call: &Phrase, said: &mut Saying) {
    match tell_same(memories, call, said) {
        Some(true) => {}
        Some(false) => said.fail("they differ"),
        None => tell_other(memories, call, said),
    }
}
