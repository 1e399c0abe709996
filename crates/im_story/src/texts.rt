//! The texts of operations, replies and records, and of what a memory has.
//!
//! ```text
//! free hole 3 next none                    the record of a cell in no block
//! waiting 9 12 in block 0 of 2 m           of a cell of the M block of 2 cells from 0 on; its list: nodes 9 to 12
//! free next 3                              of a waiter node in no list
//! 1.4 next none                            of a node of a list: element 1 waits for its request 4
//! ```

use crate::says::Saying;
use im_types::{
    Block, Cell, CellRecord, Command, Entry, Kept, Kind, NONE, NodeRecord, Op, Outcome,
    PresenceTag, Refusal, Reply, Waiter,
};

impl Saying {
    /// Adds a number, or `none`.
    pub fn number_or_none(&mut self, number: Option<u32>) {
        match number {
            Some(number) => self.number(number),
            None => self.text("none"),
        }
    }

    // Adds a link to a cell or a node.
    fn link(&mut self, link: u32) {
        self.number_or_none(if link == NONE { None } else { Some(link) })
    }

    /// Adds the name of a request.
    pub fn name(&mut self, element: u16, number: u64) {
        write!(self, "{element}.{number}")
    }

    /// Adds a waiter, or `none`.
    pub fn waiter(&mut self, waiter: Option<Waiter>) {
        match waiter {
            Some(who) => self.name(who.element, who.number),
            None => self.text("none"),
        }
    }

    /// Adds a waiter, with a space before it.
    pub fn who(&mut self, who: Waiter) {
        write!(self, " {}.{}", who.element, who.number)
    }

    /// Adds the letter of a kind.
    pub fn kind(&mut self, kind: Kind) {
        self.either(kind == Kind::I, "i", "m")
    }

    /// Adds what a cell holds.
    pub fn cell(&mut self, cell: Cell) {
        match cell {
            Cell::Empty => self.text("empty"),
            Cell::Waiting => self.text("waiting"),
            Cell::Full(value) => write!(self, "full {value}"),
            Cell::Clashed(value) => write!(self, "clashed {value}"),
        }
    }

    // Adds ` in block BASE of LENGTH KIND`.
    fn within(&mut self, block: Block) {
        write!(self, " in block {} of {} ", block.base, block.length);
        self.kind(block.kind)
    }

    /// Adds what the cell at an address holds and its block, or `free`.
    pub fn place(&mut self, cell: Option<Cell>, block: Option<Block>) {
        match (cell, block) {
            (Some(cell), Some(block)) => {
                self.cell(cell);
                self.within(block)
            }
            (None, None) => self.text("free"),
            _ => self.fail("a cell without a block, or a block without its cell"),
        }
    }

    // Adds the tag of a cell.
    fn tag(&mut self, tag: PresenceTag) {
        match tag {
            PresenceTag::Empty => self.cell(Cell::Empty),
            PresenceTag::Waiting { first, last } => {
                self.text("waiting ");
                self.link(first);
                self.text(" ");
                self.link(last)
            }
            PresenceTag::Full(value) => self.cell(Cell::Full(value)),
            PresenceTag::Clashed(value) => self.cell(Cell::Clashed(value)),
        }
    }

    /// Adds the record of a cell.
    pub fn cell_record(&mut self, cell: CellRecord) {
        match cell {
            CellRecord::Free { hole, next } => {
                write!(self, "free hole {hole} next ");
                self.link(next)
            }
            CellRecord::Held { block, tag } => {
                self.tag(tag);
                self.within(block)
            }
        }
    }

    /// Adds the record of a waiter node.
    pub fn node_record(&mut self, node: NodeRecord) {
        match node {
            NodeRecord::Free { next } => {
                self.text("free next ");
                self.link(next)
            }
            NodeRecord::Listed { next, waiter } => {
                self.waiter(Some(waiter));
                self.text(" next ");
                self.link(next)
            }
        }
    }

    /// Adds the text of an answer to an operation.
    pub fn reply(&mut self, reply: Reply) {
        match reply {
            Reply::Base(base) => write!(self, "base {base}"),
            Reply::NoSpace => self.text("nospace"),
            Reply::BadLength => self.text("badlength"),
            Reply::Value(value) => write!(self, "value {value}"),
            Reply::Stored => self.text("stored"),
            Reply::Clash => self.text("clash"),
            Reply::NoCell => self.text("nocell"),
            Reply::WrongKind => self.text("wrongkind"),
            Reply::Released => self.text("released"),
            Reply::NoBlock => self.text("noblock"),
            Reply::StillWaiting => self.text("stillwaiting"),
            Reply::Cleared => self.text("cleared"),
        }
    }

    /// Adds the text of what is kept for a request.
    pub fn entry(&mut self, entry: Entry) {
        match entry {
            Entry::Waiting => self.text("waiting"),
            Entry::Answered(reply) => self.reply(reply),
        }
    }

    /// Adds an operation, in the words in which it is asked.
    pub fn op(&mut self, op: Op) {
        match op {
            Op::Alloc(Kind::I, length) => write!(self, "alloc i {length}"),
            Op::Alloc(Kind::M, length) => write!(self, "alloc m {length}"),
            Op::Release(base) => write!(self, "release {base}"),
            Op::Reset(base) => write!(self, "reset {base}"),
            Op::Fetch(cell) => write!(self, "fetch {cell}"),
            Op::Store(cell, value) => write!(self, "store {cell} {value}"),
            Op::Take(cell) => write!(self, "take {cell}"),
            Op::Put(cell, value) => write!(self, "put {cell} {value}"),
        }
    }

    /// Adds a command in the same way, or `none`.
    pub fn command(&mut self, command: Option<Command>) {
        match command {
            Some(Command::Request(request)) => {
                self.name(request.element, request.number);
                self.text(" ");
                self.op(request.op)
            }
            Some(Command::Confirm { element, upto }) => write!(self, "confirm {element} {upto}"),
            None => self.text("none"),
        }
    }

    /// Adds `OPERATION -> REPLY`, or `none`.
    pub fn kept(&mut self, kept: Option<Kept>) {
        match kept {
            Some(kept) => {
                self.op(kept.op);
                self.text(" -> ");
                self.entry(kept.entry)
            }
            None => self.text("none"),
        }
    }

    // Adds the same byte, `count` times.
    fn run(&mut self, byte: u8, count: usize, least: usize) {
        if count >= least {
            return write!(self, " {byte:02x}*{count}");
        }
        for _ in 0..count {
            write!(self, " {byte:02x}");
        }
    }

    /// Adds bytes, as two hexadecimal digits each. At least so many equal ones in a row are added as `00*14`.
    pub fn bytes(&mut self, bytes: &[u8], least: usize) {
        let (mut run, mut count) = (0, 0usize);
        for byte in bytes {
            if *byte != run {
                self.run(run, count, least);
                (run, count) = (*byte, 0);
            }
            count = count.saturating_add(1);
        }
        self.run(run, count, least)
    }

    /// Adds so many of some bytes, from a place on, in the same way.
    pub fn part(&mut self, bytes: &[u8], at: usize, count: usize, least: usize) {
        let part = bytes.get(at..at.saturating_add(count));
        self.given(part, "too few bytes", |it, said| said.bytes(it, least))
    }

    /// Adds `refused N NAME`.
    pub fn refusal(&mut self, refusal: Refusal) {
        write!(self, "refused {} {refusal}", refusal.number())
    }

    /// Adds a text, or a refusal.
    pub fn done(&mut self, answer: Result<(), Refusal>, text: &str) {
        self.result(answer, |_, said| said.text(text))
    }

    /// Adds what is kept for a request, or why nothing is kept.
    pub fn answer(&mut self, answer: Result<Entry, Refusal>) {
        self.result(answer, |entry, said| said.entry(entry))
    }

    /// Adds the outcome of a command, or why it was refused.
    pub fn outcome(&mut self, answer: Result<Outcome, Refusal>) {
        match answer {
            Ok(Outcome::Entry(entry)) => self.entry(entry),
            Ok(Outcome::Confirmed) => self.text("confirmed"),
            Err(refusal) => self.refusal(refusal),
        }
    }

    /// Adds a window: the number of its first entry, and that of the next request.
    pub fn window(&mut self, window: Result<(u64, u64), Refusal>) {
        self.result(window, |(base, next), said| write!(said, "{base} {next}"))
    }
}
