//! Reads the memory that the pages of an area show.
ghost use Rattle.std.specs.Prelude.{◌≡◌, ℕ, ◌*◌, ◌≤◌, ◌⊎◌, List, [], length, replicate, IfOk, IfErr, slice_get, Some};
ghost use Rattle.std.specs.Prelude.{sum_by, IsErrOf};
ghost use Rattle.im_types.specs.Types.{WINDOW, NONE, AreLimits, Window, Contents, IsWindow, IsMemory, Version};
ghost use Rattle.im_types.specs.Types.{layout_of, Sizes, sizes_of, ShowLists, Records, SpellsArea, cells_shown};
ghost use Rattle.im_types.specs.Types.{ShowsRecords, Shows};
ghost use Rattle.im_types.specs.Layout as layout;

use im_contents::{Lists, read_contents};
use im_memory::{Memory, Restoring};
use im_records::{AreaRecords, WindowRecord, read_area};
use im_types::layout::Version;
use im_types::{Limits, Refusal};
use std::alloc::Global;

// Puts the lists of waiters, one for each cell. It takes one step if nobody waits at any.
fn put_lists(restoring: &mut Restoring, cells: u32, lists: &Lists)
    requires count { length lists.now ≡ cells }
    requires nobody { restoring.old.lists ≡ replicate cells [] }
    requires room { sum_by length lists.now ≤ WINDOW * length restoring.old.windows }
    ensures { restoring.new ≡ record restoring.old { lists = lists.now } }
{
    if lists.has_nobody() {
        return;
    }
    for cell in 0..cells {
        restoring.put_list(cell, lists.at(cell as usize));
    }
}

// Puts the windows of the elements.
fn put_windows(restoring: &mut Restoring, elements: u16, windows: &[WindowRecord])
    requires count { length windows.now ≡ elements }
    requires places { length restoring.old.windows ≡ elements }
    requires within { (element : ℕ) (w : Window) → slice_get windows.now element ≡ Some w → IsWindow w }
    ensures { restoring.new ≡ record restoring.old { windows = windows.now } }
{
    for element in 0..elements {
        let window = &windows[element as usize];
        restoring.put_window(element, window.base(), window.kept());
    }
}

// Makes the memory that records stand for, with these lists of waiters.
fn restore(
    alloc: Global,
    limits: Limits,
    records: AreaRecords,
    lists: &Lists,
) -> Result<Memory, Refusal>
    requires chained { ShowLists records.nodes records.cells lists.now }
    requires count { length lists.now ≡ length records.cells }
    requires memory { IsMemory limits.cells limits.elements
        (record { cells = cells_shown records.cells lists.now; windows = records.windows }) }
    ensures memory { IfOk result
        (λ m. m.contents ≡ record { cells = cells_shown records.cells lists.now; windows = records.windows }) }
    ensures only { IfErr result (λ e. e ≡ Refusal.NoMemory) }
{
    let (cells, windows) = records.into_parts();
    let mut restoring = match Restoring::new(alloc, limits, cells) {
        Ok(restoring) => restoring,
        Err(refusal) => return Err(refusal),
    };
    put_lists(&mut restoring, limits.cells, lists);
    put_windows(&mut restoring, limits.elements, &windows);
    Ok(restoring.finish())
}

// The lists of waiters of the memory that records show.
fn lists_of(alloc: Global, limits: Limits, records: &AreaRecords) -> Result<Lists, Refusal>
    requires { length records.now.nodes ≤ NONE }
    ensures found { IfOk result (λ lists. ShowsRecords (sizes_of limits) records.now
        (record { cells = cells_shown records.now.cells lists; windows = records.now.windows })) }
    ensures chained { IfOk result (λ lists. ShowLists records.now.nodes records.now.cells lists) }
    ensures count { IfOk result (λ lists. length lists ≡ length records.now.cells) }
    ensures bad { IsErrOf result Refusal.BadPage → (m : Contents) → ShowsRecords (sizes_of limits) records.now m → ⊥ }
    ensures only { IfErr result (λ e. (e ≡ Refusal.BadPage) ⊎ (e ≡ Refusal.NoMemory)) }
{
    let (cells, nodes, windows) = (records.cells(), records.nodes(), records.windows());
    read_contents(alloc, limits, cells, nodes, windows)
}

/// Returns the memory that records show. It takes over the room of their cells. Returns `BadPage` only if they show no
/// memory. Returns `NoMemory` if there is no room for the memory or for what is read.
pub(crate) fn show(alloc: Global, limits: Limits, records: AreaRecords) -> Result<Memory, Refusal>
    requires { length records.nodes ≤ NONE }
    ensures found { IfOk result (λ m. ShowsRecords (sizes_of limits) records m.contents) }
    ensures bad { IsErrOf result Refusal.BadPage → (m : Contents) → ShowsRecords (sizes_of limits) records m → ⊥ }
    ensures only { IfErr result (λ e. (e ≡ Refusal.BadPage) ⊎ (e ≡ Refusal.NoMemory)) }
{
    match lists_of(alloc, limits, &records) {
        Ok(lists) => restore(alloc, limits, records, &lists),
        Err(refusal) => Err(refusal),
    }
}

/// Returns the memory that the pages of an area of a version show. Returns `BadPage` only if they show none. Returns
/// `NoMemory` if there is no room for the memory or for what is read.
///
/// It takes a step for each byte, each record, each waiter and each entry.
pub fn decode(
    alloc: Global,
    version: Version,
    area: &[u8],
    limits: Limits,
) -> Result<Memory, Refusal>
    requires { length area.now ≡ layout.area_bytes (layout_of version) (sizes_of limits) }
    ensures found { IfOk result (λ m. Shows (layout_of version) (sizes_of limits) area.now m.contents) }
    ensures bad { IsErrOf result Refusal.BadPage → (m : Contents)
        → Shows (layout_of version) (sizes_of limits) area.now m
        → ⊥ }
    ensures only { IfErr result (λ e. (e ≡ Refusal.BadPage) ⊎ (e ≡ Refusal.NoMemory)) }
{
    match read_area(alloc, version, area, limits) {
        Ok(records) => show(alloc, limits, records),
        Err(refusal) => Err(refusal),
    }
}

/// The pages of an area of either version don't show two memories.
pub fn areas_show_one_memory()
    ensures { (version : Version) (s : Sizes) (area : List ℕ) (m other : Contents)
        → AreLimits s.cells s.elements s.slots
        → Shows (layout_of version) s area m → Shows (layout_of version) s area other → m ≡ other }
{}
