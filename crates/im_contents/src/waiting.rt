//! Compares who waits at the cells with the entries that wait.
ghost use Rattle.std.specs.Prelude.{◌≡◌, ℕ, ◌+◌, ◌*◌, ◌<◌, ◌≤◌, false, ◌↔◌, [], length, replicate, IfOk, if◌then◌else◌};
ghost use Rattle.std.specs.Prelude.{IsSome, IsTrue, slice_index_or, Some, None};
ghost use Rattle.im_types.specs.Types.{kept_under, kept_for, awaiting, waits_for, WaitersAgree, is_waiting, cell_shown};
ghost use Rattle.im_types.specs.Types.{cells_shown};
ghost use Rattle.im_contents.specs.Marking.{AreFew, AreMarked, ListMarked, mark_all, mark_held, mark_list, mark_one};
ghost use Rattle.im_contents.specs.Marking.{place_of_mark};

use crate::lists::Lists;
use im_cell::CellRow;
use im_records::WindowRecord;
use im_types::{CellRecord, Entry, Kept, Kind, Op, PresenceTag, WINDOW, Waiter};
use std::alloc::{AllocError, Global};

// The maximum number of entries in a window.
const PLACES: usize = WINDOW as usize;

// The entry kept under a number, if there is one.
fn kept_under(window: &WindowRecord, number: u64) -> Option<Kept>
    ensures { result ≡ kept_under window.now number }
{
    let base = window.base();
    if number < base {
        return None;
    }
    window.kept().get((number - base) as usize).copied()
}

// The entry kept for a request, if there is one.
fn kept_for(windows: &[WindowRecord], who: Waiter) -> Option<Kept>
    ensures { result ≡ kept_for windows.now who }
{
    let element = who.element as usize;
    if element >= windows.len() {
        return None;
    }
    kept_under(&windows[element], who.number)
}

// Returns whether an entry waits.
fn is_waiting(kept: &Kept) -> bool
    ensures { result ≡ is_waiting kept.now }
{
    match kept.entry {
        Entry::Waiting => true,
        Entry::Answered(_) => false,
    }
}

// Returns whether an entry waits for this cell, of this kind.
fn waits_for(kind: Kind, address: usize, kept: &Kept) -> bool
    ensures { result ≡ waits_for (awaiting kind address) (Some kept.now) }
{
    match (kind, kept.op) {
        (Kind::I, Op::Fetch(cell)) => address == cell as usize && is_waiting(kept),
        (Kind::M, Op::Take(cell)) => address == cell as usize && is_waiting(kept),
        _ => false,
    }
}

// The place of a request's entry among the marks.
fn place_of(windows: &[WindowRecord], who: Waiter) -> usize
    requires few { AreFew windows.now }
    requires kept { IsSome (kept_for windows.now who) }
    ensures place { result ≡ place_of_mark windows.now who }
    ensures within { result < WINDOW * length windows.now }
{
    let element = who.element as usize;
    PLACES * element + (who.number - windows[element].base()) as usize
}

// Marks a request's entry. Returns whether it waits for this cell and wasn't marked before.
fn mark(
    kind: Kind,
    address: usize,
    who: Waiter,
    windows: &[WindowRecord],
    marks: &mut [bool],
) -> bool
    requires few { AreFew windows.now }
    requires places { length marks.old ≡ WINDOW * length windows.now }
    ensures { mark_one (kept_for windows.now) (place_of_mark windows.now) kind address marks.old who
        ≡ (if result then Some marks.new else None) }
{
    let Some(kept) = kept_for(windows, who) else {
        return false;
    };
    if !waits_for(kind, address, &kept) {
        return false;
    }
    let place = place_of(windows, who);
    if marks[place] {
        return false;
    }
    marks[place] = true;
    true
}

// Marks the entries of the waiters of a cell.
fn mark_list(
    kind: Kind,
    address: usize,
    waiters: &[Waiter],
    windows: &[WindowRecord],
    marks: &mut [bool],
) -> bool
    requires few { AreFew windows.now }
    requires places { length marks.old ≡ WINDOW * length windows.now }
    ensures { mark_list (kept_for windows.now) (place_of_mark windows.now) kind address marks.old waiters.now
        ≡ (if result then Some marks.new else None) }
{
    for who in waiters {
        if !mark(kind, address, *who, windows, marks) {
            return false;
        }
    }
    true
}

// Like `mark_list`, for a cell. Its waiters count only if its presence tag says that someone waits.
fn mark_cell(
    address: usize,
    cell: &CellRecord,
    lists: &Lists,
    windows: &[WindowRecord],
    marks: &mut [bool],
) -> bool
    requires few { AreFew windows.now }
    requires places { length marks.old ≡ WINDOW * length windows.now }
    requires listed { address < length lists.now }
    ensures { mark_held (kept_for windows.now) (place_of_mark windows.now) address marks.old
        (cell_shown cell.now (slice_index_or lists.now address []))
        ≡ (if result then Some marks.new else None) }
{
    match *cell {
        CellRecord::Held {
            block,
            tag: PresenceTag::Waiting { .. },
        } => mark_list(block.kind, address, lists.at(address), windows, marks),
        _ => true,
    }
}

// Like `mark_cell`, for all cells. It takes one step if nobody waits at any cell.
fn mark_all(cells: &CellRow, lists: &Lists, windows: &[WindowRecord], marks: &mut [bool]) -> bool
    requires few { AreFew windows.now }
    requires places { length marks.old ≡ WINDOW * length windows.now }
    requires count { length lists.now ≡ length cells.now }
    ensures { mark_all (kept_for windows.now) (place_of_mark windows.now) 0 marks.old (cells_shown cells.now lists.now)
        ≡ (if result then Some marks.new else None) }
{
    if lists.has_nobody() {
        return true;
    }
    for address in 0..cells.len() {
        if !mark_cell(address, &cells.at(address), lists, windows, marks) {
            return false;
        }
    }
    true
}

// Returns whether each waiting entry of a window is marked. The first entry's mark is at `first`.
fn is_marked(kept: &[Kept], first: usize, marks: &[bool]) -> bool
    requires { first + length kept.now ≤ length marks.now }
    ensures { IsTrue result ↔ ListMarked kept.now first marks.now }
{
    for past in 0..kept.len() {
        if is_waiting(&kept[past]) && !marks[first + past] {
            return false;
        }
    }
    true
}

// Returns whether each waiting entry is marked.
fn are_marked(windows: &[WindowRecord], marks: &[bool]) -> bool
    requires few { AreFew windows.now }
    requires places { length marks.now ≡ WINDOW * length windows.now }
    ensures { IsTrue result ↔ AreMarked windows.now marks.now }
{
    for element in 0..windows.len() {
        if !is_marked(windows[element].kept(), PLACES * element, marks) {
            return false;
        }
    }
    true
}

// Returns whether each request in a list has a waiting entry for its cell, no request stands twice, and each waiting
// entry is of a request in a list. No entry is marked before.
fn agree_by_marks(
    cells: &CellRow,
    lists: &Lists,
    windows: &[WindowRecord],
    marks: &mut [bool],
) -> bool
    requires few { AreFew windows.now }
    requires count { length lists.now ≡ length cells.now }
    requires unmarked { marks.old ≡ replicate (WINDOW * length windows.now) false }
    ensures { IsTrue result ↔ WaitersAgree (cells_shown cells.now lists.now) (kept_for windows.now) }
{
    mark_all(cells, lists, windows, marks) && are_marked(windows, marks)
}

/// Returns whether the waiters at the cells and the waiting entries agree. They agree on three conditions. Each request
/// in a list has an entry that waits for that cell. It stands once in all lists. Each waiting entry is of a request in
/// a list.
///
/// Returns `AllocError` if there is no room for a mark for each entry. It takes a step for each cell, each waiter and
/// each entry.
pub fn agree(
    alloc: Global,
    cells: &CellRow,
    lists: &Lists,
    windows: &[WindowRecord],
) -> Result<bool, AllocError>
    requires few { AreFew windows.now }
    requires count { length lists.now ≡ length cells.now }
    ensures { IfOk result (λ yes. (IsTrue yes)
        ↔ (WaitersAgree (cells_shown cells.now lists.now) (kept_for windows.now))) }
{
    let mut marks = vec![in alloc; false; PLACES * windows.len()]?;
    Ok(agree_by_marks(cells, lists, windows, &mut marks))
}
