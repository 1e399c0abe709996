//! A log at its end: the shares of its ports come back, and its books are audited.
ghost use Rattle.std.specs.Prelude.{◌≡◌, ◌≤◌};
ghost use Rattle.im_types.specs.Types.{IsLegal};
ghost use Rattle.im_trace.specs.Ends.{CountsTrace, with_share_back};
ghost use mathlib.Core.List.{IsPrefix};

use crate::books::{Books, Reserve, Tally};
use crate::chain::Prefix;
use crate::log::Log;
use crate::name::{LineLedger, Marked, Name};
use crate::places::are_claimed;
use crate::record::{Record, Recording};
use std::marker::Model;
use std::sync::ledger::Share;

/// A log at its end. Contracts see its trace, whether no line waits for a port that didn't take its answer, how many
/// shares are back, and how many lines their ports were told.
#[derive(Drop)]
pub struct Ended<K: Name> {
    record: Record<K>,
    books: Books<K>,
    claimed: bool,
    lines: Share<LineLedger<K>>,
    marked: Share<Marked<K>>,
}

impl<K: Name> Model for Ended<K> {
    ghost use Rattle.std.specs.Prelude.{◌≡◌, ◌≤◌};
    ghost use Rattle.im_trace.specs.Ends.{CountsTrace, EndedState};

    ghost Value = { EndedState };

    ghost view = { λ e. record {
      trace = e.record.lines;
      times = e.record.times;
      claimed = e.claimed;
      back = e.lines.parts;
      told = record { lines = e.lines.amount; marked = e.marked.amount };
    } };

    ghost invariant = { λ e. CountsTrace K.origin.marks e.record.lines e.claimed e.books
        × (e.marked.parts ≡ e.lines.parts) × (e.lines.parts ≤ K.origin.ports) };
}

impl<K: Name> Ended<K> {
    /// Ends a log. The shares that weren't given out are back at once.
    pub fn of(log: Log<K>, reserve: Reserve<K>) -> Ended<K>
        ensures trace { (result.trace ≡ log.state.trace) × (result.times ≡ log.times) }
        ensures legal { IsLegal K.origin.memory log.state.trace }
        ensures back { result.back ≡ reserve }
        ensures told { result.told ≡ record { lines = 0; marked = 0 } }
    {
        let Log {
            record,
            books,
            places,
        } = log;
        let Reserve {
            lines,
            marked,
            left: _,
            ports: _,
        } = reserve;
        let claimed = are_claimed(places.as_slice());
        Ended {
            record,
            books,
            claimed,
            lines,
            marked,
        }
    }

    /// Takes the share of a port back. What the port has seen is a prefix of the trace.
    pub fn take_back(&mut self, tally: Tally<K>, seen: &Prefix<K>)
        ensures state { self.new ≡ with_share_back self.old tally }
        ensures few { self.new.back ≤ K.origin.ports }
        ensures known { IsPrefix seen.now self.old.trace }
    {
        self.record.knows(seen);
        let Tally { lines, marked } = tally;
        self.lines.merge(lines);
        self.marked.merge(marked);
    }

    /// Audits the books, and returns the trace, and whether no line waits for a port that didn't take its answer. If
    /// all shares are back, no line waits exactly if the ports were told as many lines as the trace has.
    pub fn close(self) -> (Recording, bool)
        ensures trace { result.0 ≡ record {
          items = self.trace;
          times = self.times;
          recorded = K.origin.book.recorded;
          book = K.origin.book.lines;
        } }
        ensures claimed { result.1 ≡ self.claimed }
        ensures counted { self.back ≡ K.origin.ports → CountsTrace K.origin.marks self.trace self.claimed self.told }
    {
        let Ended {
            record,
            books,
            claimed,
            mut lines,
            mut marked,
        } = self;
        let Books {
            lines: mut lines_book,
            marked: mut marked_book,
        } = books;
        lines_book.audit(&mut lines);
        marked_book.audit(&mut marked);
        (record.end(), claimed)
    }
}
