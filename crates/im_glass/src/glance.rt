//! Readers of the full cells.
ghost use Rattle.std.specs.Prelude.{◌≡◌, IfSome, IfOk, IfErr, OnErr, Some, None};
ghost use Rattle.left_right.specs.Sides.{view};
ghost use Rattle.im_types.specs.Types.{value_after};
ghost use Rattle.im_glass.specs.{Copies.IsKeptCopy, Rule.copy_state, Rule.HasSeen};
ghost use mathlib.Core.List.{IsPrefix};
ghost use Rattle.im_types.specs.declared.refusals.Refusal.TheVariants as Refusal;

use crate::book::{Beginning, PaneName};
use crate::copies::{Ahead, Copy, History};
use crate::pane::Told;
use crate::rule::{Known, Sees, ShownNotes, Shows};
use core::mem::replace_with;
use im_types::Refusal;
use left_right::reader::Reader;
use left_right::writer::Writer;
use std::alloc::AllocError;
use std::marker::Model;

/// A reader that wasn't given out, and has no name. Contracts see which book it is of.
#[derive(Drop)]
pub struct Spare {
    reader: Reader<Copy, Known, Shows>,
    count: u64,
    seen: History,
}

impl Model for Spare {
    ghost use Rattle.std.specs.Prelude.{◌≡◌, length};
    ghost use Rattle.left_right.specs.Sides.{view as known};
    ghost use Rattle.logbook.specs.Pages.{Book};
    ghost use Rattle.im_glass.specs.Rule.{HasSeen};

    ghost Value = { Book };

    ghost view = { λ s. s.seen.book };

    ghost invariant = { λ s. (s.count ≡ length s.seen.log) × HasSeen (known s.reader.place) s.seen.book };
}

/// A reader of the full cells. Contracts see what it has seen: a prefix of the changes that were shown.
#[derive(Drop)]
pub struct Glance<J: PaneName> {
    reader: Reader<Copy, Known, Shows>,
    seen: Beginning<J>,
}

impl<J: PaneName> Model for Glance<J> {
    ghost use Rattle.std.specs.Prelude.{List};
    ghost use Rattle.left_right.specs.Sides.{view as known};
    ghost use Rattle.im_types.specs.Types.{Change};
    ghost use Rattle.im_glass.specs.Rule.{HasSeen};

    ghost Value = { List Change };

    ghost view = { λ g. g.seen };

    ghost invariant = { λ g. HasSeen (known g.reader.place) J.book };
}

impl Spare {
    // Makes one more reader, which has seen what is shown.
    pub(crate) fn new(writer: &mut Writer<Copy, Ahead, Known, Shows>) -> Result<Spare, AllocError>
        requires kept { IsKeptCopy (copy_state writer.old.desk.shown.value) }
        requires known { (view writer.old.desk.place).seen ≡ Some writer.old.desk.shown.value.seen }
        ensures found { IfOk result (λ s. s ≡ writer.old.desk.shown.value.seen.book) }
        ensures same { (writer.new.desk.shown ≡ writer.old.desk.shown) × (writer.new.log ≡ writer.old.log)
            × (writer.new.behind ≡ writer.old.behind) }
        ensures known { view writer.new.desk.place ≡ view writer.old.desk.place }
    {
        let shown = writer.published();
        let seen = shown.seen.again();
        let count = shown.count;
        let mut reader = writer.factory().reader()?;
        reader.learn::<ShownNotes>(writer.tell::<ShownNotes>());
        Ok(Spare {
            reader,
            count,
            seen,
        })
    }

    // Gives the reader the name of its book.
    pub(crate) fn named<J: PaneName>(self) -> Glance<J>
        requires { self ≡ J.book }
    {
        let Spare {
            reader,
            count,
            seen,
        } = self;
        Glance {
            reader,
            seen: Beginning::of(seen, count),
        }
    }
}

impl<J: PaneName> Glance<J> {
    /// Takes in all that was told: from now on the reader has seen it. (Own.)
    pub fn learn(&mut self, told: &Told<J>)
        ensures kept { IsPrefix self.old self.new }
        ensures found { IsPrefix told.now self.new }
    {
        self.seen = self.seen.longer(told.beginning());
    }

    /// Returns what the reader has seen, so that it can tell another one.
    pub fn told(&self) -> Told<J>
        ensures { result ≡ self.now }
    {
        Told::of(self.seen.again())
    }

    /// Returns the value of a full I cell, and none if the cell isn't full. It reads the cells after all that it has
    /// seen or was told before, and after whatever was shown since. It waits for nobody and takes no memory. Returns
    /// `PaneGone` if the pane has ended; then it has seen nothing more. It would return that, too, if less were shown
    /// than it was told. That never happens, though no clause says so. (Readers that never wait: Ramalhete, Correia,
    /// Left-Right, 2015.)
    pub fn glance(&mut self, a: u32) -> Result<Option<u64>, Refusal>
        ensures later { IfOk result (λ _. IsPrefix self.old self.new) }
        ensures found { IfOk result (λ value. value ≡ value_after a None self.new) }
        ensures same { OnErr result (self.new ≡ self.old) }
        ensures only { IfErr result (λ e. e ≡ Refusal.PaneGone) }
    {
        match replace_with(&mut self.reader, a, |reader, a| look::<J>(reader, a)) {
            Some((value, seen)) => {
                // What was told was shown before, so this never holds.
                if seen.len() < self.seen.len() {
                    return Err(Refusal::PaneGone);
                }
                let _both = self.seen.longer(&seen);
                self.seen = seen;
                Ok(value)
            }
            None => Err(Refusal::PaneGone),
        }
    }
}

// Reads one cell, and what is shown then.
fn look<J: PaneName>(
    reader: Reader<Copy, Known, Shows>,
    a: u32,
) -> (
    Reader<Copy, Known, Shows>,
    Option<(Option<u64>, Beginning<J>)>,
)
    requires { HasSeen (view reader.place) J.book }
    ensures value { IfSome result.1 (λ r. r.0 ≡ value_after a None r.1) }
    ensures known { HasSeen (view result.0.place) J.book }
{
    match reader.enter_as::<Sees>() {
        Ok(reading) => {
            let shown = reading.get();
            let value = shown.cells.get(a as usize);
            let seen = Beginning::of(shown.seen.again(), shown.count);
            (reading.leave(), Some((value, seen)))
        }
        Err(reader) => (reader, None),
    }
}
