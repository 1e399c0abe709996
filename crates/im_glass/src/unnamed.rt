//! Panes without a name.
ghost use Rattle.std.specs.Prelude.{◌≡◌, ◌<◌, true, IfOk, IsOkUnless};
ghost use Rattle.std.specs.List.{AllByRecursion};
ghost use Rattle.im_types.specs.Types.{NoMemory, is_below};
ghost use Rattle.im_glass.specs.Panes.{with_name};

use crate::book::{NewBook, PaneName, UnnamedBook};
use crate::glance::Spare;
use crate::pane::Pane;
use crate::sides::Both;
use im_types::{Change, Refusal};
use std::alloc::Global;
use std::marker::{Brand, Model};
use std::sync::Wait;

/// A pane without a name, on which nothing is put ahead. Contracts also see its book. [`Unnamed::end`] ends it.
pub struct Unnamed {
    pub(crate) both: Both,
    pub(crate) book: UnnamedBook,
    // Room for the changes that may be put ahead.
    pub(crate) ahead: Vec<Change>,
    pub(crate) spare: Vec<Spare>,
}

impl Model for Unnamed {
    ghost use Rattle.std.specs.Prelude.{◌≡◌, ◌+◌, ◌^◌, ◌≤◌, [], length, drop, Some, vec_capacity};
    ghost use Rattle.left_right.specs.Sides.{view as known};
    ghost use Rattle.std.specs.List.{AllByRecursion};
    ghost use Rattle.im_glass.specs.{Copies.IsKeptCopy, Panes.UnnamedView, Rule.copy_state};

    ghost Value = { UnnamedView };

    ghost view = { λ u. record {
      book = u.book.seen.book;
      shown = u.both.desk.shown.value.seen.log;
      cells = length u.both.desk.shown.value.cells;
      spare = length u.spare.items;
    } };

    ghost invariant = { λ u.
        (drop u.both.behind u.both.log.items ≡ [])
        × (u.book.seen.log ≡ u.both.desk.shown.value.seen.log)
        × (u.both.desk.shown.value.seen.book ≡ u.book.seen.book)
        × IsKeptCopy (copy_state u.both.desk.shown.value)
        × ((known u.both.desk.place).seen ≡ Some u.both.desk.shown.value.seen)
        × AllByRecursion (λ b. b ≡ u.book.seen.book) u.spare.items
        × (u.ahead.items ≡ [])
        × (length u.both.desk.shown.value.seen.log ≤ 2 ^ 61 + 16)
        × (16 ≤ vec_capacity u.ahead) };
}

impl Unnamed {
    /// Gives the pane the name of its book. (Own.)
    pub fn named<J: PaneName>(self) -> Pane<J>
        requires { self.book ≡ J.book }
        ensures { result ≡ with_name self }
    {
        let Unnamed {
            both,
            book,
            ahead,
            spare,
        } = self;
        let (book, all) = book.named::<J>();
        Pane {
            both,
            book,
            all,
            ahead,
            spare,
        }
    }

    /// Ends the pane. (Own.)
    pub fn end<R: Wait>(self, rt: &R) {
        let Unnamed {
            both,
            book: _,
            ahead: _,
            spare: _,
        } = self;
        let _last = both.take(rt);
    }
}

/// Makes a new pane, without a name, on which these changes of its cells are shown. Returns `NoMemory` if there is no
/// room for it. (Own.)
pub fn open<R: Wait>(
    rt: &R,
    alloc: Global,
    cells: u32,
    readers: u16,
    changes: &[Change],
) -> Result<Unnamed, Refusal>
    requires readers { 0 < readers }
    requires below { AllByRecursion (λ c. is_below cells c ≡ true) changes.now }
    ensures found { IfOk result (λ u. (u.shown ≡ changes.now) × (u.cells ≡ cells) × (u.spare ≡ readers)) }
    ensures only { IsOkUnless result NoMemory }
{
    opened::<Brand, R>(
        rt,
        alloc,
        NewBook::new(),
        PaneSizes { cells, readers },
        changes,
    )
}

// How many cells and readers a pane has.
#[derive(Clone, Copy)]
struct PaneSizes {
    cells: u32,
    readers: u16,
}

// Does the same with a book that has a name meanwhile.
fn opened<J: PaneName, R: Wait>(
    rt: &R,
    alloc: Global,
    book: NewBook,
    sizes: PaneSizes,
    changes: &[Change],
) -> Result<Unnamed, Refusal>
    requires book { book ≡ J.book }
    requires readers { 0 < sizes.readers }
    requires below { AllByRecursion (λ c. is_below sizes.cells c ≡ true) changes.now }
    ensures found { IfOk result (λ u.
        (u.shown ≡ changes.now) × (u.cells ≡ sizes.cells) × (u.spare ≡ sizes.readers)) }
    ensures only { IsOkUnless result NoMemory }
{
    let mut pane = Pane::<J>::new(rt, alloc, book, sizes.cells, sizes.readers)?;
    for change in changes {
        match pane.put_ahead(*change) {
            Ok(()) => {
                let _told = pane.show(rt);
            }
            Err(refusal) => {
                pane.end(rt);
                return Err(refusal);
            }
        }
    }
    Ok(pane.unnamed())
}
