//! Says which memory a list of records shows.
ghost use Rattle.std.specs.Prelude.{◌≡◌, ◌≤◌, ◌⊎◌, ◌↔◌, List, length, IfOk, IfErr, IsTrue, IsErrOf};
ghost use Rattle.im_types.specs.Types.{NONE, Contents, IsWindow, Sizes, sizes_of, ShowLists, Records, cells_shown};
ghost use Rattle.im_types.specs.Types.{ShowsRecords};
ghost use Rattle.im_contents.specs.Parts.{HaveParts, WindowsFit};

use crate::blocks::are_blocks;
use crate::lists::Lists;
use crate::waiting::agree;
use crate::walk::read_lists;
use im_cell::CellRow;
use im_records::WindowRecord;
use im_types::{LAST, Limits, NodeRecord, Refusal};
use std::alloc::Global;

// Returns whether a window is within its bounds. Its type already limits the number of entries.
fn is_window(window: &WindowRecord) -> bool
    ensures { IsTrue result ↔ IsWindow window.now }
{
    let base = window.base();
    let count = window.kept().len() as u64;
    1 <= base && base <= LAST + 1 && base + count <= LAST + 1
}

// Returns whether each window is within its bounds.
fn are_windows(windows: &[WindowRecord]) -> bool
    ensures { IsTrue result ↔ WindowsFit windows.now }
{
    for element in 0..windows.len() {
        if !is_window(&windows[element]) {
            return false;
        }
    }
    true
}

// Returns whether the numbers of cells and windows are right, the blocks are whole, and the windows are within their
// bounds.
fn have_parts(limits: Limits, cells: &CellRow, windows: &[WindowRecord]) -> bool
    ensures { IsTrue result ↔ HaveParts limits.cells limits.elements cells.now windows.now }
{
    if cells.len() != limits.cells as usize {
        return false;
    }
    if windows.len() != limits.elements as usize {
        return false;
    }
    are_windows(windows) && are_blocks(cells)
}

/// Returns the lists of waiters of the memory that these records show. With them, the cells' records stand for its
/// cells, and the windows are the memory's own.
///
/// Returns `BadPage` if the records show no memory, and `NoMemory` if there is no room for the lists. It takes a step
/// for each record and each entry.
pub fn read_contents(
    alloc: Global,
    limits: Limits,
    cells: &CellRow,
    nodes: &[NodeRecord],
    windows: &[WindowRecord],
) -> Result<Lists, Refusal>
    requires { length nodes.now ≤ NONE }
    ensures found { IfOk result (λ lists. ShowsRecords (sizes_of limits)
        (record { cells = cells.now; nodes = nodes.now; windows = windows.now })
        (record { cells = cells_shown cells.now lists; windows = windows.now })) }
    ensures chained { IfOk result (λ lists. ShowLists nodes.now cells.now lists) }
    ensures count { IfOk result (λ lists. length lists ≡ length cells.now) }
    ensures bad { IsErrOf result Refusal.BadPage → (m : Contents) → ShowsRecords (sizes_of limits)
        (record { cells = cells.now; nodes = nodes.now; windows = windows.now }) m → ⊥ }
    ensures only { IfErr result (λ refusal. (refusal ≡ Refusal.BadPage) ⊎ (refusal ≡ Refusal.NoMemory)) }
{
    if !have_parts(limits, cells, windows) {
        return Err(Refusal::BadPage);
    }
    let lists = match read_lists(alloc, nodes, cells) {
        Ok(lists) => lists,
        Err(refusal) => return Err(refusal),
    };
    match agree(alloc, cells, &lists, windows) {
        Ok(true) => Ok(lists),
        Ok(false) => Err(Refusal::BadPage),
        Err(_) => Err(Refusal::NoMemory),
    }
}

/// The same records don't show two memories.
pub fn one_memory_is_shown()
    ensures { (s : Sizes) (r : Records) (m other : Contents) → length r.nodes ≤ NONE → ShowsRecords s r m
        → ShowsRecords s r other → m ≡ other }
{}
