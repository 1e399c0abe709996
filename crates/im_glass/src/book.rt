//! The list of changes: one book of the toolchain's `logbook`. Each holder has a prefix of it. The list is for
//! contracts alone; its length is a word that all share.
ghost use Rattle.std.specs.Prelude.{◌≡◌, ◌^◌, ◌<◌, ◌⊎◌, [], ◌∷◌, ◌++◌, length, MatchBool};
ghost use Rattle.im_glass.specs.Books.{head_of, IsLonger};
ghost use mathlib.Core.List.{IsPrefix};

use im_types::Change;
use logbook::{Gain, Offer, Plain, Play, Rule, Seen, Start, Word};
use std::marker::{Brand, Model, PhantomData};
use std::sync::Wait;

/// The rule of the book: its word is the length of its list.
pub struct InOrder;

impl Rule<Change, u64> for InOrder {
    ghost use Rattle.std.specs.Prelude.{[]};
    ghost use Rattle.im_glass.specs.Books.{CountsChanges};
    ghost use base.Fml.{ftrue};

    ghost holds = { λ cells log. CountsChanges cells log };

    ghost first = { [] };

    ghost hinted = { λ n log. Unit {0} };

    ghost shows = { λ log. [] };

    ghost keeps = { λ names log. ftrue };

    ghost moves = { λ ask before after answer. Unit {0} };
}

// Nothing is traded.
pub struct Nothing;

impl Gain<Change, u64> for Nothing {
    ghost use base.Fml.{ftrue};

    ghost after = { λ names about answer. ftrue };
}

// A step that adds a change.
pub struct Add;

impl Play<Change, u64> for Add {
    ghost use Rattle.im_glass.specs.Books.{AddsChange};

    ghost then = { AddsChange };
}

impl Plain<Change, Change, u64> for Add {
    ghost use Rattle.std.specs.Prelude.{None};

    ghost ask = { λ change. change };

    ghost state = { λ change. None };
}

/// Which book it is. Each call of a program picks its own.
pub trait PaneName {
    ghost use Rattle.logbook.specs.Pages.{Book};

    ghost book: { Book };
}

impl PaneName for Brand {
    ghost book = { record { number = 0; log_name = 0; cells_name = 0 } };
}

/// A book with no changes and no name yet. Contracts see which book it is.
#[derive(Drop)]
pub struct NewBook {
    head: Word<Change, u64, InOrder>,
    seen: Seen<Change, u64, InOrder>,
}

impl Model for NewBook {
    ghost use Rattle.std.specs.Prelude.{◌≡◌, []};
    ghost use Rattle.logbook.specs.Pages.{Book};
    ghost use Rattle.im_glass.specs.Books.{head_of};

    ghost Value = { Book };

    ghost view = { λ b. b.seen.book };

    ghost invariant = { λ b. (b.seen.log ≡ []) × (b.head ≡ head_of b.seen.book) };
}

impl NewBook {
    /// Makes a new book.
    pub fn new() -> NewBook {
        let (seen, mut first, _second) = Seen::open(Start::alone(), 0, 0);
        NewBook {
            head: Word::tracked(0, &mut first),
            seen,
        }
    }

    /// Returns the book under a name, with the empty prefix of its list.
    pub(crate) fn named<J: PaneName>(self) -> (Book<J>, Beginning<J>)
        requires { self ≡ J.book }
        ensures { result.1 ≡ [] }
    {
        let NewBook { head, seen } = self;
        (
            Book {
                head,
                of: PhantomData,
            },
            Beginning {
                count: 0,
                seen,
                of: PhantomData,
            },
        )
    }
}

/// A book with a prefix of its list, without a name.
#[derive(Drop)]
pub(crate) struct UnnamedBook {
    head: Word<Change, u64, InOrder>,
    count: u64,
    pub(crate) seen: Seen<Change, u64, InOrder>,
    ghost head_is: { head ≡ head_of seen.book },
    ghost count_is: { count ≡ length seen.log },
}

impl UnnamedBook {
    /// Returns the book and the prefix under a name.
    pub(crate) fn named<J: PaneName>(self) -> (Book<J>, Beginning<J>)
        requires { self.seen.book ≡ J.book }
        ensures { result.1 ≡ self.seen.log }
    {
        let UnnamedBook { head, count, seen } = self;
        (
            Book {
                head,
                of: PhantomData,
            },
            Beginning {
                count,
                seen,
                of: PhantomData,
            },
        )
    }
}

/// The word that all share: the length of the list.
#[derive(Drop)]
pub struct Book<J: PaneName> {
    head: Word<Change, u64, InOrder>,
    of: PhantomData<J>,
}

impl<J: PaneName> Model for Book<J> {
    ghost use Rattle.std.specs.Prelude.{◌≡◌};
    ghost use Rattle.im_glass.specs.Books.{head_of};

    ghost Value = { Unit {0} };

    ghost view = { λ b. tt };

    ghost invariant = { λ b. b.head ≡ head_of J.book };
}

impl<J: PaneName> Book<J> {
    /// Returns the book without its name, with a prefix of its list.
    pub(crate) fn unnamed(self, beginning: Beginning<J>) -> UnnamedBook
        ensures book { result.seen.book ≡ J.book }
        ensures log { result.seen.log ≡ beginning }
    {
        let Book { head, of: _ } = self;
        let Beginning { count, seen, of: _ } = beginning;
        UnnamedBook { head, count, seen }
    }
}

/// A prefix of the list that was seen. Contracts see its changes.
#[derive(Drop)]
pub struct Beginning<J: PaneName> {
    count: u64,
    seen: Seen<Change, u64, InOrder>,
    of: PhantomData<J>,
}

impl<J: PaneName> Model for Beginning<J> {
    ghost use Rattle.std.specs.Prelude.{◌≡◌, List, length};
    ghost use Rattle.im_types.specs.Types.{Change};

    ghost Value = { List Change };

    ghost view = { λ b. b.seen.log };

    ghost invariant = { λ b. (b.count ≡ length b.seen.log) × (b.seen.book ≡ J.book) };
}

impl<J: PaneName> Beginning<J> {
    /// Makes the prefix of what was seen, given its length.
    pub(crate) fn of(seen: Seen<Change, u64, InOrder>, count: u64) -> Beginning<J>
        requires book { seen.book ≡ J.book }
        requires count { count ≡ length seen.log }
        ensures { result ≡ seen.log }
    {
        Beginning {
            count,
            seen,
            of: PhantomData,
        }
    }

    /// Returns what was seen.
    pub(crate) fn seen(&self) -> Seen<Change, u64, InOrder>
        ensures book { result.book ≡ J.book }
        ensures log { result.log ≡ self.now }
    {
        self.seen.again()
    }

    /// Returns how many changes it has.
    pub fn len(&self) -> u64
        ensures { result ≡ length self.now }
    {
        self.count
    }

    /// Returns a copy of it, which is no more than a number.
    pub fn again(&self) -> Beginning<J>
        ensures { result ≡ self.now }
    {
        Beginning {
            count: self.count,
            seen: self.seen.again(),
            of: PhantomData,
        }
    }

    /// Returns the longer of two prefixes. The other one is a prefix of it.
    pub fn longer(&self, other: &Beginning<J>) -> Beginning<J>
        ensures one { (result ≡ self.now) ⊎ (result ≡ other.now) }
        ensures this { IsPrefix self.now result }
        ensures that { IsPrefix other.now result }
    {
        let mut both = self.seen.again();
        both.learn(&other.seen);
        if self.count < other.count {
            other.again()
        } else {
            self.again()
        }
    }

    /// Adds a change after all that was seen, and returns whether it did. It doesn't if the list is longer; then it has
    /// seen more.
    pub(crate) fn add(&mut self, book: &Book<J>, change: Change) -> bool
        requires { length self.old < 2 ^ 62 }
        ensures { MatchBool result (self.new ≡ self.old ++ change ∷ []) (IsLonger self.old self.new) }
    {
        let mut offer: Offer<Change, u64, InOrder, Nothing> = self
            .seen
            .plain::<Nothing, Change, Add>(&change);
        let mut pen = self.seen.no_pen();
        let count = self.count;
        let found = book
            .head
            .compare_exchange::<Add, Nothing>(
                count,
                count + 1,
                &mut self.seen,
                &mut offer,
                &mut pen,
            );
        self.count = if found == count { count + 1 } else { found };
        found == count
    }

    /// Adds a change. Only the pane that owns the book adds to its list, so the list is never longer than all that was
    /// seen. If it were, the call would wait for ever.
    pub(crate) fn put<R: Wait>(&mut self, rt: &R, book: &Book<J>, change: Change)
        requires { length self.old < 2 ^ 62 }
        ensures { self.new ≡ self.old ++ change ∷ [] }
    {
        if self.add(book, change) {
            return;
        }
        for _ in rt.forever() {}
        unreachable!()
    }
}
