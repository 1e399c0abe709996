//! Panes, which show the full cells.
ghost use Rattle.std.specs.Prelude.{◌≡◌, ◌-◌, ◌<◌, true, ◌↔◌, [], ◌∷◌, ◌++◌, length, IfSome, is_err, IfOk, OnOk, OnErr};
ghost use Rattle.std.specs.Prelude.{IsOkUnless, IsSome};
ghost use Rattle.im_types.specs.Types.{NoMemory, is_below};
ghost use Rattle.im_glass.specs.Panes.{is_filled, PaneView, with_name};
ghost use mathlib.Core.List.{IsPrefix};

use crate::book::{Beginning, Book, NewBook, PaneName};
use crate::glance::{Glance, Spare};
use crate::sides::{Both, copies, show_changes, spare_readers};
use crate::unnamed::Unnamed;
use im_types::{Change, Refusal};
use std::alloc::Global;
use std::marker::Model;
use std::sync::Wait;

// How many changes may be put ahead.
pub(crate) const AHEAD: usize = 16;

// A pane that shows so many changes takes no more.
const MOST: u64 = 1 << 61;

/// A pane shows the full cells, as a list of changes. Contracts see the changes that are shown, those that are put
/// ahead, how many cells there are, and how many readers weren't given out. [`Pane::end`] ends it; it is never dropped.
pub struct Pane<J: PaneName> {
    pub(crate) both: Both,
    pub(crate) book: Book<J>,
    // The changes that are shown.
    pub(crate) all: Beginning<J>,
    // The changes that are put ahead, with room for all that may be. The book has none of them yet.
    pub(crate) ahead: Vec<Change>,
    pub(crate) spare: Vec<Spare>,
}

impl<J: PaneName> Model for Pane<J> {
    ghost use Rattle.std.specs.Prelude.{◌≡◌, ◌+◌, ◌^◌, ◌≤◌, true, [], length, drop, Some, vec_capacity};
    ghost use Rattle.left_right.specs.Sides.{view as known};
    ghost use Rattle.std.specs.List.{AllByRecursion};
    ghost use Rattle.im_types.specs.Types.{is_below};
    ghost use Rattle.im_glass.specs.{Copies.IsKeptCopy, Panes.PaneView, Rule.copy_state};

    ghost Value = { PaneView };

    ghost view = { λ p. record {
      shown = p.both.desk.shown.value.seen.log;
      ahead = p.ahead.items;
      cells = length p.both.desk.shown.value.cells;
      spare = length p.spare.items;
    } };

    ghost invariant = { λ p.
        (p.all ≡ p.both.desk.shown.value.seen.log)
        × (drop p.both.behind p.both.log.items ≡ [])
        × (p.both.desk.shown.value.seen.book ≡ J.book)
        × IsKeptCopy (copy_state p.both.desk.shown.value)
        × ((known p.both.desk.place).seen ≡ Some p.both.desk.shown.value.seen)
        × AllByRecursion (λ b. b ≡ J.book) p.spare.items
        × AllByRecursion (λ c. is_below (length p.both.desk.shown.value.cells) c ≡ true) p.ahead.items
        × (length p.both.desk.shown.value.seen.log + length p.ahead.items ≤ 2 ^ 61 + 16)
        × (16 ≤ vec_capacity p.ahead) };
}

/// What was shown at some moment. Contracts see its changes.
#[derive(Drop)]
pub struct Told<J: PaneName> {
    all: Beginning<J>,
}

impl<J: PaneName> Model for Told<J> {
    ghost use Rattle.std.specs.Prelude.{List};
    ghost use Rattle.im_types.specs.Types.{Change};

    ghost Value = { List Change };

    ghost view = { λ t. t.all };
}

impl<J: PaneName> Told<J> {
    // Tells what was seen.
    pub(crate) fn of(all: Beginning<J>) -> Told<J>
        ensures { result ≡ all }
    {
        Told { all }
    }

    // Returns the changes.
    pub(crate) fn beginning(&self) -> &Beginning<J>
        ensures { result.now ≡ self.now }
    {
        &self.all
    }
}

// Returns whether a pane takes no more changes, given how many are put ahead and how many are shown.
fn is_filled(ahead: usize, shown: u64) -> bool
    ensures { result ≡ is_filled ahead shown }
{
    if ahead < AHEAD {
        return shown >= MOST;
    }
    true
}

impl<J: PaneName> Pane<J> {
    /// Makes a pane of the given number of cells, none of them full, with the given number of readers, above 0. A cell
    /// takes 18 bytes, and a change that is shown takes no more. Returns `NoMemory` if there is no room for it. (Own.)
    pub fn new<R: Wait>(
        rt: &R,
        alloc: Global,
        book: NewBook,
        cells: u32,
        readers: u16,
    ) -> Result<Pane<J>, Refusal>
        requires readers { 0 < readers }
        requires book { book ≡ J.book }
        ensures found { IfOk result (λ p. p ≡ record { shown = []; ahead = []; cells = cells; spare = readers }) }
        ensures only { IsOkUnless result NoMemory }
    {
        let Ok(ahead) = Vec::with_capacity(alloc, AHEAD) else {
            return Err(Refusal::NoMemory);
        };
        let (book, all) = book.named::<J>();
        let Ok(both) = copies(rt, alloc, all.seen(), cells, readers) else {
            return Err(Refusal::NoMemory);
        };
        let mut both = both;
        match spare_readers(alloc, &mut both, readers) {
            Ok(spare) => Ok(Pane {
                both,
                book,
                all,
                ahead,
                spare,
            }),
            Err(_) => {
                let _last = both.take(rt);
                Err(Refusal::NoMemory)
            }
        }
    }

    /// Gives out a reader, which has seen all that is shown. Returns none if all were given out. (Own.)
    pub fn glance(&mut self) -> Option<Glance<J>>
        ensures found { IfSome result (λ g. IsPrefix self.old.shown g) }
        ensures some { IsSome result ↔ (0 < self.old.spare) }
        ensures state { self.new ≡ record self.old { spare = self.old.spare - 1 } }
    {
        let told = self.told();
        let Some(spare) = self.spare.pop() else {
            return None;
        };
        let mut glance = spare.named::<J>();
        glance.learn(&told);
        Some(glance)
    }

    /// Puts a change of this pane's cells ahead: it isn't shown yet. It takes no memory. Returns `NoMemory` exactly if
    /// 16 changes are put ahead, or 2^61 are shown. Then the pane is as it was, and it takes changes again once these
    /// 16 are shown. (Own.)
    pub fn put_ahead(&mut self, change: Change) -> Result<(), Refusal>
        requires { is_below self.old.cells change ≡ true }
        ensures contents { OnOk result (self.new ≡ record self.old { ahead = self.old.ahead ++ change ∷ [] }) }
        ensures same { OnErr result (self.new ≡ self.old) }
        ensures full { is_err result ≡ is_filled (length self.old.ahead) (length self.old.shown) }
        ensures only { IsOkUnless result NoMemory }
    {
        if is_filled(self.ahead.len(), self.all.len()) {
            return Err(Refusal::NoMemory);
        }
        self.ahead.push_reserved(change);
        Ok(())
    }

    /// Shows all changes that were put ahead, at once, and returns what is shown then. It waits for the readers that
    /// still read what was shown before the last show. (Own.)
    pub fn show<R: Wait>(&mut self, rt: &R) -> Told<J>
        ensures contents { self.new ≡ record self.old { shown = self.old.shown ++ self.old.ahead; ahead = [] } }
        ensures found { result ≡ self.new.shown }
    {
        show_changes(
            rt,
            &mut self.both,
            &self.book,
            &mut self.all,
            self.ahead.as_slice(),
        );
        self.ahead.clear();
        Told {
            all: self.all.again(),
        }
    }

    /// Returns what is shown. (Own.)
    pub fn told(&self) -> Told<J>
        ensures { result ≡ self.now.shown }
    {
        Told::of(self.all.again())
    }

    /// Returns how many cells there are.
    pub fn cell_count(&self) -> usize
        ensures { result ≡ self.now.cells }
    {
        self.both.published().cells.len()
    }

    /// Takes the name off the pane, so that it can get another one. (Own.)
    pub fn unnamed(self) -> Unnamed
        requires { self.ahead ≡ [] }
        ensures book { result.book ≡ J.book }
        ensures state { with_name result ≡ self }
    {
        let Pane {
            both,
            book,
            all,
            ahead,
            spare,
        } = self;
        Unnamed {
            both,
            book: book.unnamed(all),
            ahead,
            spare,
        }
    }

    /// Ends the pane, and waits for its readers. From then on each glance returns `PaneGone`. (Own.)
    pub fn end<R: Wait>(self, rt: &R) {
        let Pane {
            both,
            book: _,
            all: _,
            ahead: _,
            spare: _,
        } = self;
        let _last = both.take(rt);
    }
}
