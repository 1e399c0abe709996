//! The times of lines, which go out of the lock, and the book of the lines at its end.
ghost use Rattle.std.specs.Prelude.{◌≡◌};
ghost use Rattle.im_trace.specs.Lines.{time_at};
ghost use mathlib.Core.List.{IsPrefix};

use crate::chain::{Prefix, look};
use crate::name::Name;
use crate::rule::{Chained, Link};
use logbook::{Pen, Seen, Word};
use std::marker::{Model, PhantomData};
use std::snapshot::Snapshot;

/// When a line of the controller's trace was left. Contracts see how many lines the trace had with it, and its time:
/// how many calls the disk had made. It has no bytes.
#[derive(Drop)]
pub struct When<K: Name> {
    pub(crate) lines: Snapshot<usize>,
    pub(crate) seen: Seen<Link, u64, Chained>,
    pub(crate) of: PhantomData<K>,
}

impl<K: Name> Model for When<K> {
    ghost use Rattle.std.specs.Prelude.{◌≡◌, ◌≤◌, length};
    ghost use Rattle.im_trace.specs.{Chains.times_from, Lines.time_at, Lines.WhenState};

    ghost Value = { WhenState };

    ghost view = { λ w. record {
      lines = w.lines.value;
      time = time_at (times_from K.origin.book.lines.root w.seen.log) w.lines.value;
    } };

    ghost invariant = { λ w. (w.lines.value ≤ length (times_from K.origin.book.lines.root w.seen.log))
        × (w.seen.book ≡ K.origin.book.lines.book) };
}

// The book at its end, without its name. Contracts see its lines, their times, and which book it is.
#[derive(Drop)]
pub(crate) struct Written {
    pub(crate) head: Word<Link, u64, Chained>,
    pub(crate) seen: Seen<Link, u64, Chained>,
    pub(crate) pen: Pen,
    pub(crate) first: Snapshot<Pen>,
}

impl Model for Written {
    ghost use Rattle.std.specs.Prelude.{◌≡◌};
    ghost use Rattle.logbook.specs.Pages.{may_write};
    ghost use Rattle.im_trace.specs.Chains.{first_of_book, lines_from, times_from, tip_from, WrittenState};

    ghost Value = { WrittenState };

    ghost view = { λ w. record {
      lines = lines_from w.first.value.nib.key w.seen.log;
      times = times_from w.first.value.nib.key w.seen.log;
      book = record { book = w.seen.book; root = w.first.value.nib.key };
    } };

    ghost invariant = { λ w. (w.head ≡ first_of_book w.seen.book) × (w.pen.book ≡ w.seen.book)
        × (w.pen.nib.right ≡ may_write) × (tip_from w.first.value.nib.key w.seen.log ≡ w.pen.nib.key) };
}

impl Written {
    // A prefix that anyone has seen is a prefix of these lines.
    pub(crate) fn knows<K: Name>(&mut self, prefix: &Prefix<K>)
        requires book { self.old.book ≡ K.origin.book.lines }
        ensures same { self.new ≡ self.old }
        ensures known { IsPrefix prefix.now self.old.lines }
    {
        look(&self.head, &self.seen, &mut self.pen, &prefix.seen);
    }

    // A time that anyone has seen is that of one of these lines.
    pub(crate) fn times<K: Name>(&mut self, when: &When<K>)
        requires book { self.old.book ≡ K.origin.book.lines }
        ensures same { self.new ≡ self.old }
        ensures time { when.now.time ≡ time_at self.old.times when.now.lines }
    {
        look(&self.head, &self.seen, &mut self.pen, &when.seen);
    }
}
