//! The book of the lines: the trace, of which each port and each receipt has a prefix. It is one book of the
//! toolchain's `logbook`, and contracts alone see its entries. Who has the next pen knows all its lines, and nobody
//! else adds one.
ghost use Rattle.std.specs.Prelude.{◌≡◌, ◌<◌, ◌≤◌, [], ◌∷◌, ◌++◌, length, take};
ghost use Rattle.logbook.specs.Pages.{may_write};
ghost use Rattle.im_trace.specs.Chains.{first_of_book, IsOpened, KnowsAll, lines_from, times_from};
ghost use Rattle.im_trace.specs.Lines.{AreInOrder, time_at, times_of};
ghost use mathlib.Core.List.{IsPrefix};

use crate::name::Name;
use crate::rule::{Chained, KeepPen, Link, MakePen, NoGain, Signed, UsePen};
use crate::when::{When, Written};
use im_disk::Disk;
use im_types::Line;
use logbook::{Offer, Pen, Seen, Start, Word};
use std::marker::{Model, PhantomData};
use std::snapshot::Snapshot;

// Returns a pen that isn't used up.
fn new_pen(head: &Word<Link, u64, Chained>, seen: &Seen<Link, u64, Chained>) -> Pen
    requires { head.now ≡ first_of_book seen.now.book }
    ensures book { result.book ≡ seen.now.book }
    ensures right { result.nib.right ≡ may_write }
{
    let mut seen = seen.again();
    let mut offer: Offer<Link, u64, Chained, NoGain> = seen.plain::<NoGain, u64, KeepPen>(&0);
    let mut pen = seen.no_pen();
    let _zero = head.compare_exchange::<MakePen, NoGain>(0, 0, &mut seen, &mut offer, &mut pen);
    let _word: Word<Link, u64, Chained> = Word::tracked(0, &mut pen);
    pen
}

// Looks into the book with a pen that isn't used up: other pens wrote all that anyone has seen.
pub(crate) fn look(
    head: &Word<Link, u64, Chained>,
    known: &Seen<Link, u64, Chained>,
    pen: &mut Pen,
    seen: &Seen<Link, u64, Chained>,
)
    requires head { head.now ≡ first_of_book known.now.book }
    requires pen { (pen.old.book ≡ known.now.book) × (pen.old.nib.right ≡ may_write) }
    requires seen { seen.now.book ≡ known.now.book }
    ensures same { (pen.new.book ≡ pen.old.book) × (pen.new.nib ≡ pen.old.nib) }
    ensures known { KnowsAll pen.old.nib.key known.now.log seen.now.log }
{
    let mut all = known.again();
    all.learn(seen);
    let mut offer: Offer<Link, u64, Chained, NoGain> = all.plain::<NoGain, u64, KeepPen>(&0);
    let _zero = head.compare_exchange::<KeepPen, NoGain>(0, 0, &mut all, &mut offer, pen);
}

/// A book with no lines, which has no name yet. Contracts see which book it is.
#[derive(Drop)]
pub struct NewChain {
    head: Word<Link, u64, Chained>,
    seen: Seen<Link, u64, Chained>,
    pen: Pen,
    first: Snapshot<Pen>,
}

impl Model for NewChain {
    ghost use Rattle.std.specs.Prelude.{◌≡◌, []};
    ghost use Rattle.logbook.specs.Pages.{may_write};
    ghost use Rattle.im_trace.specs.{Books.LinesBook, Chains.first_of_book};

    ghost Value = { LinesBook };

    ghost view = { λ c. record { book = c.seen.book; root = c.pen.nib.key } };

    ghost invariant = { λ c. (c.seen.log ≡ []) × (c.head ≡ first_of_book c.seen.book)
        × (c.pen.book ≡ c.seen.book) × (c.pen.nib.right ≡ may_write) × (c.first.value.nib.key ≡ c.pen.nib.key) };
}

impl NewChain {
    // Makes a new book.
    pub(crate) fn new() -> NewChain {
        let (seen, mut first, _second) = Seen::open(Start::alone(), 0, 0);
        let head = Word::tracked(0, &mut first);
        let pen = new_pen(&head, &seen);
        let first = Snapshot::of(&pen);
        NewChain {
            head,
            seen,
            pen,
            first,
        }
    }

    // Returns the book under a name.
    pub(crate) fn named<K: Name>(self) -> Chain<K>
        requires book { self ≡ K.origin.book.lines }
        requires memory { IsOpened K.origin.memory }
        ensures { result ≡ record { lines = []; times = [] } }
    {
        let NewChain {
            head,
            seen,
            pen,
            first,
        } = self;
        Chain {
            head,
            seen,
            pen,
            first,
            of: PhantomData,
        }
    }
}

/// The book, with the pen that writes its next line. Contracts see its lines and their times.
#[derive(Drop)]
pub struct Chain<K: Name> {
    head: Word<Link, u64, Chained>,
    seen: Seen<Link, u64, Chained>,
    pen: Pen,
    first: Snapshot<Pen>,
    of: PhantomData<K>,
}

impl<K: Name> Model for Chain<K> {
    ghost use Rattle.std.specs.Prelude.{◌≡◌};
    ghost use Rattle.logbook.specs.Pages.{may_write};
    ghost use Rattle.im_trace.specs.Chains.{ChainState, first_of_book, IsOpened, lines_from, times_from, tip_from};

    ghost Value = { ChainState };

    ghost view = { λ c. record {
      lines = lines_from K.origin.book.lines.root c.seen.log;
      times = times_from K.origin.book.lines.root c.seen.log;
    } };

    ghost invariant = { λ c. (c.head ≡ first_of_book K.origin.book.lines.book)
        × (c.seen.book ≡ K.origin.book.lines.book)
        × (c.pen.book ≡ K.origin.book.lines.book) × (c.pen.nib.right ≡ may_write)
        × (tip_from K.origin.book.lines.root c.seen.log ≡ c.pen.nib.key) × IsOpened K.origin.memory
        × (c.first.value.nib.key ≡ K.origin.book.lines.root) };
}

impl<K: Name> Chain<K> {
    // Adds a line, at the time of a disk.
    pub(crate) fn add<D: Disk>(&mut self, line: &Line, disk: &D)
        ensures lines { self.new.lines ≡ self.old.lines ++ line.now ∷ [] }
        ensures times { self.new.times ≡ self.old.times ++ times_of (length (D.past disk.now)) (line.now ∷ []) }
    {
        let signed = Signed {
            line: Snapshot::of(line),
            disk: Snapshot::of(disk),
            next: new_pen(&self.head, &self.seen),
        };
        let mut offer: Offer<Link, u64, Chained, NoGain> = self
            .seen
            .plain::<NoGain, Signed<D>, UsePen>(&signed);
        let _zero = self
            .head
            .compare_exchange::<UsePen, NoGain>(0, 0, &mut self.seen, &mut offer, &mut self.pen);
        let Signed {
            line: _,
            disk: _,
            next,
        } = signed;
        self.pen = next;
    }

    // A prefix that anyone has seen is a prefix of these lines.
    pub(crate) fn knows(&mut self, prefix: &Prefix<K>)
        ensures same { self.new ≡ self.old }
        ensures known { IsPrefix prefix.now self.old.lines }
    {
        look(&self.head, &self.seen, &mut self.pen, &prefix.seen);
    }

    // Returns the time of the last of so many first lines.
    pub(crate) fn when(&self, count: usize) -> When<K>
        requires few { count ≤ length self.now.lines }
        ensures { result ≡ record { lines = count; time = time_at self.now.times count } }
    {
        When {
            lines: Snapshot::of(&count),
            seen: self.seen.again(),
            of: PhantomData,
        }
    }

    // Returns the book without its name.
    pub(crate) fn end(self) -> Written
        ensures { result ≡ record { lines = self.lines; times = self.times; book = K.origin.book.lines } }
    {
        let Chain {
            head,
            seen,
            pen,
            first,
            of: _,
        } = self;
        Written {
            head,
            seen,
            pen,
            first,
        }
    }
}

/// A prefix of the controller's trace. Contracts see its lines.
#[derive(Drop)]
pub struct Prefix<K: Name> {
    count: usize,
    pub(crate) seen: Seen<Link, u64, Chained>,
    of: PhantomData<K>,
}

impl<K: Name> Model for Prefix<K> {
    ghost use Rattle.std.specs.Prelude.{◌≡◌, ◌≤◌, List, length, take};
    ghost use Rattle.im_types.specs.Types.{Line};
    ghost use Rattle.im_trace.specs.Chains.{IsOpened, lines_from};

    ghost Value = { List Line };

    ghost view = { λ p. take p.count (lines_from K.origin.book.lines.root p.seen.log) };

    ghost invariant = { λ p. (p.count ≤ length (lines_from K.origin.book.lines.root p.seen.log))
        × (p.seen.book ≡ K.origin.book.lines.book) × IsOpened K.origin.memory };
}

// Returns what two have seen together.
fn both_of(
    one: &Seen<Link, u64, Chained>,
    two: &Seen<Link, u64, Chained>,
) -> Seen<Link, u64, Chained>
    requires { one.now.book ≡ two.now.book }
    ensures one { IsPrefix one.now.log result.log }
    ensures two { IsPrefix two.now.log result.log }
{
    let mut both = one.again();
    both.learn(two);
    both
}

impl<K: Name> Prefix<K> {
    // Returns the given number of the book's first lines.
    pub(crate) fn begun(count: usize, chain: &Chain<K>) -> Prefix<K>
        requires few { count ≤ length chain.now.lines }
        ensures { result ≡ take count chain.now.lines }
    {
        Prefix {
            count,
            seen: chain.seen.again(),
            of: PhantomData,
        }
    }

    /// Returns how many lines it has.
    pub fn len(&self) -> usize
        ensures { result ≡ length self.now }
    {
        self.count
    }

    /// One of two prefixes is a prefix of the other: all ports and receipts of a controller are of one trace. It begins
    /// with a memory whose waiters and entries agree, as an engine's do. The call does nothing at run time. Contracts
    /// alone see what it says.
    pub fn order(&self, other: &Prefix<K>)
        ensures order { AreInOrder self.now other.now }
        ensures memory { IsOpened K.origin.memory }
    {
        let _both = both_of(&self.seen, &other.seen);
    }
}
