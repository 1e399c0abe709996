//! A log before it has a name.
ghost use Rattle.std.specs.Prelude.{◌≡◌, ◌≤◌, true, false, [], IfOk, vec_capacity};
ghost use Rattle.im_trace.specs.Chains.{IsOpened};

use crate::books::{Books, Reserve};
use crate::chain::NewChain;
use crate::log::{Log, Unclaimed};
use crate::name::{LineLedger, Marked, Name};
use crate::places::free_places;
use crate::record::Record;
use crate::traced::Traced;
use std::alloc::{AllocError, Global};
use std::marker::Model;
use std::sync::ledger::Blank;

/// Room for a log, with the ledgers and the book of its lines. Contracts see how many lines it may have, how many ports
/// share in its ledgers, and which ledgers and which book these are.
#[derive(Drop)]
pub struct NewLog {
    trace: Vec<Traced>,
    recorded: bool,
    limit: usize,
    places: Vec<Option<Unclaimed>>,
    chain: NewChain,
    lines: Blank,
    marked: Blank,
    ports: u64,
}

impl Model for NewLog {
    ghost use Rattle.std.specs.Prelude.{◌≡◌, ◌≤◌, true, [], vec_capacity};
    ghost use Rattle.im_trace.specs.{Ends.NewLogState, Log.AreVacant};

    ghost Value = { NewLogState };

    ghost view = { λ n. record {
      limit = n.limit;
      recorded = n.recorded;
      ports = n.ports;
      lines_name = n.lines.name;
      marked_name = n.marked.name;
      book = n.chain;
    } };

    ghost invariant = { λ n. (n.lines.parts ≡ n.ports) × (n.marked.parts ≡ n.ports) × (n.trace.items ≡ [])
        × (n.recorded ≡ true → n.limit ≤ vec_capacity n.trace) × AreVacant n.places.items };
}

impl NewLog {
    /// Makes room for a trace of `trace_room` lines, 48 bytes each, for the answer of each element, and for the ledgers
    /// that count the lines. Returns `AllocError` if `alloc` refuses the memory.
    pub fn new(alloc: Global, trace_room: usize, elements: u16) -> Result<NewLog, AllocError>
        ensures limit { IfOk result (λ n. n.limit ≡ trace_room) }
        ensures recorded { IfOk result (λ n. n.recorded ≡ true) }
        ensures ports { IfOk result (λ n. n.ports ≡ elements) }
    {
        let trace = Vec::with_capacity(alloc, trace_room)?;
        NewLog::over(alloc, trace, true, trace_room, elements)
    }

    /// Makes the same for a trace whose lines aren't recorded. It takes no room for lines, and may have as many as a
    /// `usize` counts.
    pub fn unrecorded(alloc: Global, elements: u16) -> Result<NewLog, AllocError>
        ensures limit { IfOk result (λ n. n.limit ≡ 18446744073709551615) }
        ensures recorded { IfOk result (λ n. n.recorded ≡ false) }
        ensures ports { IfOk result (λ n. n.ports ≡ elements) }
    {
        NewLog::over(alloc, Vec::new(alloc), false, usize::MAX, elements)
    }

    // Makes a log over an empty trace.
    fn over(
        alloc: Global,
        trace: Vec<Traced>,
        recorded: bool,
        limit: usize,
        elements: u16,
    ) -> Result<NewLog, AllocError>
        requires empty { trace.items ≡ [] }
        requires room { recorded ≡ true → limit ≤ vec_capacity trace }
        ensures limit { IfOk result (λ n. n.limit ≡ limit) }
        ensures recorded { IfOk result (λ n. n.recorded ≡ recorded) }
        ensures ports { IfOk result (λ n. n.ports ≡ elements) }
    {
        let places = free_places(alloc, elements)?;
        let ports = u64::from(elements);
        Ok(NewLog {
            trace,
            recorded,
            limit,
            places,
            chain: NewChain::new(),
            lines: Blank::new(ports),
            marked: Blank::new(ports),
            ports,
        })
    }

    /// Begins the log, under the name that its caller's functions have for it. It takes no memory. Beside the log it
    /// returns the shares of all ports.
    pub fn named<K: Name>(self) -> (Log<K>, Reserve<K>)
        requires memory { IsOpened K.origin.memory }
        requires lines { self.lines_name ≡ K.origin.lines_name }
        requires marked { self.marked_name ≡ K.origin.marked_name }
        requires ports { self.ports ≡ K.origin.ports }
        requires book { (self.book ≡ K.origin.book.lines) × (self.recorded ≡ K.origin.book.recorded) }
        ensures trace { (result.0.state.trace ≡ []) × (result.0.times ≡ []) }
        ensures limit { result.0.state.limit ≡ self.limit }
        ensures reserve { result.1 ≡ K.origin.ports }
    {
        let NewLog {
            trace,
            recorded,
            limit,
            places,
            chain,
            lines,
            marked,
            ports,
        } = self;
        let (books, reserve) = open_books(lines, marked, ports);
        let log = Log {
            record: Record::begun(trace, recorded, limit, chain),
            books,
            places,
        };
        (log, reserve)
    }
}

// Opens the ledgers under their names. Beside the books it returns the shares of all ports.
fn open_books<K: Name>(lines: Blank, marked: Blank, ports: u64) -> (Books<K>, Reserve<K>)
    requires names { (lines.name ≡ K.origin.lines_name) × (marked.name ≡ K.origin.marked_name) }
    requires parts { (lines.parts ≡ ports) × (marked.parts ≡ ports) × (ports ≡ K.origin.ports) }
    ensures books { result.0 ≡ record { lines = 0; marked = 0 } }
    ensures reserve { result.1 ≡ K.origin.ports }
{
    let (lines_book, lines) = lines.open::<LineLedger<K>>();
    let (marked_book, marked) = marked.open::<Marked<K>>();
    let books = Books {
        lines: lines_book,
        marked: marked_book,
    };
    let reserve = Reserve {
        lines,
        marked,
        left: ports,
        ports,
    };
    (books, reserve)
}
