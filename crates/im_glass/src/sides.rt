//! The two copies of a pane: the one that is shown, and the other one.
ghost use Rattle.std.specs.Prelude.{◌≡◌, ◌+◌, ◌^◌, ◌<◌, ◌≤◌, true, [], ◌∷◌, ◌++◌, length, drop, replicate, IfOk, Some};
ghost use Rattle.std.specs.Prelude.{None};
ghost use Rattle.left_right.specs.Sides.{view};
ghost use Rattle.std.specs.List.{AllByRecursion};
ghost use Rattle.im_types.specs.Types.{is_below};
ghost use Rattle.im_glass.specs.Copies.{AddsOne, after_all, ChangeNothing, changes_ahead, FollowEach, IsKeptCopy};
ghost use Rattle.im_glass.specs.Rule.{copy_state, IsKeptOf};

use crate::book::{Beginning, Book, PaneName};
use crate::cells::FullCells;
use crate::copies::{Ahead, Copy, History};
use crate::glance::Spare;
use crate::rule::{Known, Sees, Shows};
use core::mem::replace_with;
use im_types::Change;
use left_right::writer::Writer;
use std::alloc::{AllocError, Global};
use std::sync::Wait;

// How many changes have room in the list of what a copy lacks: those of a show, and those of the show before it, which
// are the most that a pane has ahead.
const GROUPS: u32 = 32;

pub(crate) type Both = Writer<Copy, Ahead, Known, Shows>;

// Makes the two copies, with no cell full, after no change, and with room for what is put ahead.
pub(crate) fn copies<R: Wait>(
    rt: &R,
    alloc: Global,
    seen: History,
    cells: u32,
    readers: u16,
) -> Result<Both, AllocError>
    requires readers { 0 < readers }
    requires none { seen.log ≡ [] }
    ensures state { IfOk result (λ w. copy_state w.desk.shown.value ≡ (seen, replicate cells None, 0)) }
    ensures known { IfOk result (λ w. (view w.desk.place).seen ≡ Some w.desk.shown.value.seen) }
    ensures none { IfOk result (λ w. drop w.behind w.log.items ≡ []) }
{
    let mut both = new_copies(alloc, &seen, cells, readers)?;
    match make_room(&mut both, &seen) {
        Ok(()) => {
            // It is called twice, because the copy that was shown first takes in what was put ahead at the second call.
            let both = show_nothing(rt, both);
            Ok(show_nothing(rt, both))
        }
        Err(_) => {
            let _last = both.take(rt);
            Err(AllocError)
        }
    }
}

// Makes the two copies alone.
fn new_copies(alloc: Global, seen: &History, cells: u32, readers: u16) -> Result<Both, AllocError>
    requires readers { 0 < readers }
    requires none { seen.now.log ≡ [] }
    ensures state { IfOk result (λ w. copy_state w.desk.shown.value ≡ (seen.now, replicate cells None, 0)) }
    ensures none { IfOk result (λ w. drop w.behind w.log.items ≡ []) }
{
    let first = Copy {
        cells: FullCells::new(alloc, cells)?,
        count: 0,
        seen: seen.again(),
    };
    let second = Copy {
        cells: FullCells::new(alloc, cells)?,
        count: 0,
        seen: seen.again(),
    };
    Writer::new(alloc, first, second, readers as usize)
}

// Shows changes that change nothing.
fn show_nothing<R: Wait>(rt: &R, both: Both) -> Both
    requires kept { IsKeptCopy (copy_state both.desk.shown.value) }
    requires idle { ChangeNothing (copy_state both.desk.shown.value) (drop both.behind both.log.items) }
    ensures state { copy_state result.desk.shown.value ≡ copy_state both.desk.shown.value }
    ensures known { (view result.desk.place).seen ≡ Some result.desk.shown.value.seen }
    ensures none { drop result.behind result.log.items ≡ [] }
{
    publish(rt, both).0
}

// Puts ahead changes that change nothing, so that there is room for that many afterwards.
fn make_room(both: &mut Both, seen: &History) -> Result<(), AllocError>
    requires shown { copy_state both.old.desk.shown.value ≡ (seen.now, both.old.desk.shown.value.cells, 0) }
    requires none { drop both.old.behind both.old.log.items ≡ [] }
    ensures same { both.new.desk ≡ both.old.desk }
    ensures idle { ChangeNothing (copy_state both.old.desk.shown.value) (drop both.new.behind both.new.log.items) }
{
    for _place in 0..GROUPS {
        let ahead = Ahead {
            change: Change::Same,
            count: 0,
            seen: seen.again(),
        };
        match both.append(ahead) {
            Ok(()) => {}
            Err(_) => return Err(AllocError),
        }
    }
    Ok(())
}

// Makes the given number of readers, which have seen what is shown.
pub(crate) fn spare_readers(
    alloc: Global,
    both: &mut Both,
    readers: u16,
) -> Result<Vec<Spare>, AllocError>
    requires kept { IsKeptCopy (copy_state both.old.desk.shown.value) }
    requires known { (view both.old.desk.place).seen ≡ Some both.old.desk.shown.value.seen }
    ensures count { IfOk result (λ spare. length spare.items ≡ readers) }
    ensures book { IfOk result (λ spare. AllByRecursion (λ b. b ≡ both.old.desk.shown.value.seen.book) spare.items) }
    ensures same { (both.new.desk.shown ≡ both.old.desk.shown) × (both.new.log ≡ both.old.log)
        × (both.new.behind ≡ both.old.behind) }
    ensures known { view both.new.desk.place ≡ view both.old.desk.place }
{
    let mut spare = Vec::new(alloc);
    for _reader in 0..readers {
        spare.push(Spare::new(both)?)?;
    }
    Ok(spare)
}

// Shows what is put ahead.
fn publish<R: Wait>(rt: &R, both: Both) -> (Both, ())
    requires kept { IsKeptCopy (after_all (copy_state both.desk.shown.value) (drop both.behind both.log.items)) }
    requires book { (after_all (copy_state both.desk.shown.value) (drop both.behind both.log.items)).0.book
        ≡ both.desk.shown.value.seen.book }
    ensures state { copy_state result.0.desk.shown.value
        ≡ after_all (copy_state both.desk.shown.value) (drop both.behind both.log.items) }
    ensures known { (view result.0.desk.place).seen ≡ Some result.0.desk.shown.value.seen }
    ensures none { drop result.0.behind result.0.log.items ≡ [] }
{
    let (both, _shown) = both.publish_as::<Sees, R>(rt);
    (both, ())
}

// Shows the changes that are put ahead, of this book.
pub(crate) fn show_all<J: PaneName, R: Wait>(rt: &R, both: Both) -> (Both, ())
    requires goes_on { FollowEach (length both.desk.shown.value.cells) J.book both.desk.shown.value.seen.log
        (drop both.behind both.log.items) }
    requires kept { IsKeptOf J.book both.desk.shown.value }
    ensures log { result.0.desk.shown.value.seen.log
        ≡ both.desk.shown.value.seen.log ++ changes_ahead (drop both.behind both.log.items) }
    ensures kept { IsKeptOf J.book result.0.desk.shown.value }
    ensures cells { length result.0.desk.shown.value.cells ≡ length both.desk.shown.value.cells }
    ensures known { (view result.0.desk.place).seen ≡ Some result.0.desk.shown.value.seen }
    ensures none { drop result.0.behind result.0.log.items ≡ [] }
{
    publish(rt, both)
}

// Adds a change to what the copies lack, with the list that ends in it. It tries until there is room, and finds it at
// the first try: room for two shows was made with the copies.
fn append<J: PaneName, R: Wait>(rt: &R, both: &mut Both, change: Change, all: &Beginning<J>)
    ensures desk { both.new.desk ≡ both.old.desk }
    ensures one { AddsOne J.book change all.now (drop both.old.behind both.old.log.items)
        (drop both.new.behind both.new.log.items) }
{
    for _ in rt.forever() {
        let ahead = Ahead {
            change,
            count: all.len(),
            seen: all.seen(),
        };
        match both.append(ahead) {
            Ok(()) => return,
            Err(_) => {}
        }
    }
    unreachable!()
}

// Puts a change into the list, and adds it to what the copies lack.
fn stage_one<J: PaneName, R: Wait>(
    rt: &R,
    both: &mut Both,
    book: &Book<J>,
    all: &mut Beginning<J>,
    change: Change,
)
    requires below { is_below (length both.old.desk.shown.value.cells) change ≡ true }
    requires few { length all.old < 2 ^ 62 }
    ensures desk { both.new.desk ≡ both.old.desk }
    ensures all { all.new ≡ all.old ++ change ∷ [] }
    ensures count { length all.new ≡ length all.old + 1 }
    ensures one { AddsOne J.book change all.new (drop both.old.behind both.old.log.items)
        (drop both.new.behind both.new.log.items) }
    ensures below { is_below (length both.old.desk.shown.value.cells) change ≡ true }
{
    all.put(rt, book, change);
    append(rt, both, change, all);
}

// Puts changes into the list, and adds them to what the copies lack.
fn stage<J: PaneName, R: Wait>(
    rt: &R,
    both: &mut Both,
    book: &Book<J>,
    all: &mut Beginning<J>,
    changes: &[Change],
)
    requires none { drop both.old.behind both.old.log.items ≡ [] }
    requires changes { AllByRecursion (λ c. is_below (length both.old.desk.shown.value.cells) c ≡ true) changes.now
        × (length all.old + length changes.now ≤ 2 ^ 61 + 16) }
    requires kept { IsKeptOf J.book both.old.desk.shown.value × (all.old ≡ both.old.desk.shown.value.seen.log) }
    ensures goes_on { FollowEach (length both.new.desk.shown.value.cells) J.book both.new.desk.shown.value.seen.log
        (drop both.new.behind both.new.log.items) }
    ensures kept { IsKeptOf J.book both.new.desk.shown.value }
    ensures log { both.new.desk.shown.value.seen.log ++ changes_ahead (drop both.new.behind both.new.log.items)
        ≡ both.old.desk.shown.value.seen.log ++ changes.now }
    ensures all { all.new ≡ both.old.desk.shown.value.seen.log ++ changes.now }
    ensures cells { length both.new.desk.shown.value.cells ≡ length both.old.desk.shown.value.cells }
{
    for change in changes {
        stage_one(rt, both, book, all, *change);
    }
}

// Shows changes, at once.
pub(crate) fn show_changes<J: PaneName, R: Wait>(
    rt: &R,
    both: &mut Both,
    book: &Book<J>,
    all: &mut Beginning<J>,
    changes: &[Change],
)
    requires none { drop both.old.behind both.old.log.items ≡ [] }
    requires changes { AllByRecursion (λ c. is_below (length both.old.desk.shown.value.cells) c ≡ true) changes.now
        × (length all.old + length changes.now ≤ 2 ^ 61 + 16) }
    requires kept { IsKeptOf J.book both.old.desk.shown.value × (all.old ≡ both.old.desk.shown.value.seen.log) }
    ensures log { both.new.desk.shown.value.seen.log ≡ both.old.desk.shown.value.seen.log ++ changes.now }
    ensures all { all.new ≡ both.new.desk.shown.value.seen.log }
    ensures kept { IsKeptOf J.book both.new.desk.shown.value }
    ensures cells { length both.new.desk.shown.value.cells ≡ length both.old.desk.shown.value.cells }
    ensures rests { ((view both.new.desk.place).seen ≡ Some both.new.desk.shown.value.seen)
        × (drop both.new.behind both.new.log.items ≡ []) }
{
    stage(rt, both, book, all, changes);
    replace_with(both, rt, |both, rt| show_all::<J, R>(rt, both));
}
