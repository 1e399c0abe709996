//! The books that count the lines of a trace, and the shares that ports have in them.
ghost use Rattle.std.specs.Prelude.{◌≡◌, ℕ, ◌+◌, ◌<◌, ◌≤◌, [], ◌∷◌, count_by};
ghost use Rattle.im_trace.specs.Lines.{counts_after, left_lines};

use crate::name::{LineLedger, Marked, Name};
use crate::record::leaves_line;
use im_types::{Call, Line, Outcome, Refusal};
use std::marker::Model;
use std::sync::ledger::{Book, Ledger, Share};

/// How many lines there are over all ports, and how many of them are marked.
#[derive(Drop)]
pub struct Books<K: Name> {
    pub(crate) lines: Book<LineLedger<K>>,
    pub(crate) marked: Book<Marked<K>>,
}

impl<K: Name> Model for Books<K> {
    ghost use Rattle.im_trace.specs.Lines.{LineCounts};

    ghost Value = { LineCounts };

    ghost view = { λ b. record { lines = b.lines.total; marked = b.marked.total } };
}

/// How many lines a port was told, and how many of these are marked. No two ports have the same share, so the counts of
/// the books are the sum of all tallies.
#[derive(Drop)]
pub struct Tally<K: Name> {
    pub(crate) lines: Share<LineLedger<K>>,
    pub(crate) marked: Share<Marked<K>>,
}

impl<K: Name> Model for Tally<K> {
    ghost use Rattle.std.specs.Prelude.{◌≡◌};
    ghost use Rattle.im_trace.specs.Lines.{LineCounts};

    ghost Value = { LineCounts };

    ghost view = { λ t. record { lines = t.lines.amount; marked = t.marked.amount } };

    ghost invariant = { λ t. (t.lines.parts ≡ 1) × (t.marked.parts ≡ 1) };
}

/// The shares of the ports that weren't given out yet. Contracts see how many these are.
#[derive(Drop)]
pub struct Reserve<K: Name> {
    pub(crate) lines: Share<LineLedger<K>>,
    pub(crate) marked: Share<Marked<K>>,
    pub(crate) left: u64,
    pub(crate) ports: u64,
}

impl<K: Name> Model for Reserve<K> {
    ghost use Rattle.std.specs.Prelude.{◌≡◌, ℕ, ◌≤◌};

    ghost Value = { ℕ };

    ghost view = { λ r. r.left };

    ghost invariant = { λ r. (r.lines.parts ≡ r.left) × (r.marked.parts ≡ r.left) × (r.lines.amount ≡ 0)
        × (r.marked.amount ≡ 0) × (r.ports ≡ K.origin.ports) × (r.left ≤ r.ports) };
}

impl<K: Name> Reserve<K> {
    /// Takes a tally for one more port, from the shares that are left.
    pub fn take(&mut self) -> Tally<K>
        requires some { 0 < self.old }
        ensures none { result ≡ record { lines = 0; marked = 0 } }
        ensures left { self.new + 1 ≡ self.old }
    {
        let Reserve {
            lines,
            marked,
            left,
            ports: _,
        } = self;
        let lines = lines.split_off(1, 0);
        let marked = marked.split_off(1, 0);
        *left -= 1;
        Tally { lines, marked }
    }

    /// Returns how many shares are left.
    pub fn left(&self) -> u64
        ensures left { result ≡ self.now }
        ensures few { self.now ≤ K.origin.ports }
    {
        self.left
    }

    /// Returns how many ports there are.
    pub fn ports(&self) -> u64
        ensures { result ≡ K.origin.ports }
    {
        self.ports
    }
}

// Counts the given amount in the book and in the share. No code knows the amount: contracts alone know which lines are
// marked.
fn note<L: Ledger>(book: &mut Book<L>, share: &mut Share<L>)
    ghost plus: { ℕ }
    requires { 0 < share.old.parts }
    ensures total { book.new.total ≡ book.old.total + plus }
    ensures amount { share.new.amount ≡ share.old.amount + plus }
    ensures parts { share.new.parts ≡ share.old.parts }
{}

fn note_line<K: Name>(book: &mut Book<Marked<K>>, share: &mut Share<Marked<K>>, line: &Line)
    ghost plus: { ℕ }
    requires part { 0 < share.old.parts }
    requires plus { plus ≡ count_by K.origin.marks (line.now ∷ []) }
    ensures total { book.new.total ≡ book.old.total + count_by K.origin.marks (line.now ∷ []) }
    ensures amount { share.new.amount ≡ share.old.amount + count_by K.origin.marks (line.now ∷ []) }
    ensures parts { share.new.parts ≡ share.old.parts }
{
    let _line = line;
    note(book, share);
}

impl<K: Name> Books<K> {
    /// Counts a line that the port of this tally was told.
    pub(crate) fn count(&mut self, tally: &mut Tally<K>, line: &Line)
        ensures books { self.new ≡ counts_after K.origin.marks self.old (line.now ∷ []) }
        ensures tally { tally.new ≡ counts_after K.origin.marks tally.old (line.now ∷ []) }
    {
        let Tally { lines, marked } = tally;
        self.lines.add(lines, 1);
        note_line(&mut self.marked, marked, line);
    }
}

// Counts a call's line in the books and in its port's tally, if it leaves one.
pub(crate) fn count_line<K: Name>(
    books: &mut Books<K>,
    tally: &mut Tally<K>,
    call: Call,
    answer: Result<Outcome, Refusal>,
)
    ensures books { books.new ≡ counts_after K.origin.marks books.old (left_lines call answer) }
    ensures tally { tally.new ≡ counts_after K.origin.marks tally.old (left_lines call answer) }
{
    if leaves_line(answer) {
        books.count(tally, &Line { call, answer });
    }
}
