//! Reads lists of waiters from linked nodes, whatever the links are.
ghost use Rattle.std.specs.Prelude.{◌≡◌, ◌-◌, ◌<◌, ◌≤◌, false, ◌⊎◌, List, [], ◌∷◌, ◌++◌, length, replicate, IfOk};
ghost use Rattle.std.specs.Prelude.{IfErr, if◌then◌else◌, Some, None, Option, IsErrOf};
ghost use Rattle.im_types.specs.Types.{Waiter, CellRecord, NodeRecord, is_listed, ShowLists};
ghost use Rattle.im_contents.specs.Walk.{are_reached, lists_in, met_after, unvisited_node, walk, walk_cell};

use crate::lists::Lists;
use im_cell::CellRow;
use im_types::{CellRecord, NONE, NodeRecord, PresenceTag, Refusal, Waiter};
use std::alloc::{AllocError, Global};

// The content of a node that no walk has visited. A node that was visited, or isn't there, counts as free.
fn unvisited_node(marks: &[bool], nodes: &[NodeRecord], at: u32) -> NodeRecord
    ensures { result ≡ unvisited_node marks.now nodes.now at }
{
    let at = at as usize;
    if at < marks.len() && at < nodes.len() && !marks[at] {
        nodes[at]
    } else {
        NodeRecord::Free { next: NONE }
    }
}

// Follows the links from a first node to a last one, marks each node and keeps its waiter. Returns whether there is
// such a list.
fn walk(
    nodes: &[NodeRecord],
    first: u32,
    last: u32,
    marks: &mut [bool],
    waiters: &mut Vec<Waiter>,
) -> Result<bool, AllocError>
    requires { length marks.old ≡ length nodes.now }
    ensures { IfOk result (λ found. met_after waiters.old.items
        (walk nodes.now last (length nodes.now) marks.old first)
        ≡ (if found then Some (record { waiters = waiters.new.items; marks = marks.new }) else None)) }
{
    let mut at = first;
    for _step in 0..nodes.len() {
        let NodeRecord::Listed { next, waiter } = unvisited_node(marks, nodes, at) else {
            return Ok(false);
        };
        marks[at as usize] = true;
        waiters.push(waiter)?;
        if next == NONE {
            return Ok(at == last);
        }
        at = next;
    }
    Ok(false)
}

// Keeps the waiters of a cell if its list is in order.
#[tactic(auto, unfolding(crate::specs::Walk::walk_cell))]
fn walk_cell(
    nodes: &[NodeRecord],
    cell: &CellRecord,
    marks: &mut [bool],
    waiters: &mut Vec<Waiter>,
) -> Result<bool, AllocError>
    requires { length marks.old ≡ length nodes.now }
    ensures { IfOk result (λ found. met_after waiters.old.items (walk_cell nodes.now cell.now marks.old)
        ≡ (if found then Some (record { waiters = waiters.new.items; marks = marks.new }) else None)) }
{
    match *cell {
        CellRecord::Held {
            tag: PresenceTag::Waiting { first, last },
            ..
        } => walk(nodes, first, last, marks, waiters),
        _ => Ok(true),
    }
}

// Returns whether a node belongs to a list.
fn is_listed(node: &NodeRecord) -> bool
    ensures { result ≡ is_listed node.now }
{
    match node {
        NodeRecord::Free { .. } => false,
        NodeRecord::Listed { .. } => true,
    }
}

// Returns whether exactly the nodes that belong to a list were visited.
fn are_reached(marks: &[bool], nodes: &[NodeRecord]) -> bool
    requires { length marks.now ≡ length nodes.now }
    ensures { result ≡ are_reached marks.now nodes.now }
{
    for node in 0..marks.len() {
        if marks[node] != is_listed(&nodes[node]) {
            return false;
        }
    }
    true
}

// Keeps where the list of a cell ends, if somebody waits there. The lists of the cells before it that have no end are
// empty.
fn keep_end(ends: &mut Vec<u32>, cell: usize, start: usize, end: usize) -> Result<(), AllocError>
    requires few { length ends.old.items ≤ cell }
    ensures some { IfOk result (λ _. start < end → ends.new.items
        ≡ ends.old.items ++ replicate (cell - length ends.old.items) start ++ end ∷ []) }
    ensures none { IfOk result (λ _. end ≤ start → ends.new.items ≡ ends.old.items) }
{
    if end <= start {
        return Ok(());
    }
    if end > u32::MAX as usize {
        return Err(AllocError);
    }
    ends.resize(cell, start as u32)?;
    ends.push(end as u32)?;
    Ok(())
}

// The lists of all cells, if each list is in order and each node of a list is in one of them. No node is marked before.
fn find_lists(
    alloc: Global,
    nodes: &[NodeRecord],
    cells: &CellRow,
    marks: &mut [bool],
) -> Result<Option<Lists>, AllocError>
    requires { marks.old ≡ replicate (length nodes.now) false }
    ensures { IfOk result (λ found. found ≡ lists_in nodes.now cells.now) }
{
    let mut waiters = Vec::new(alloc);
    let mut ends = Vec::with_capacity(alloc, cells.len())?;
    for cell in 0..cells.len() {
        let start = waiters.len();
        if !walk_cell(nodes, &cells.at(cell), marks, &mut waiters)? {
            return Ok(None);
        }
        keep_end(&mut ends, cell, start, waiters.len())?;
    }
    if are_reached(marks, nodes) {
        let cells = cells.len();
        Ok(Some(Lists {
            waiters,
            ends,
            cells,
        }))
    } else {
        Ok(None)
    }
}

/// Reads the lists of waiters from the nodes of an image, one list for each cell. Each list begins and ends where its
/// cell's presence tag says. Each node that is marked as part of a list stands once in one of them.
///
/// Returns `BadPage` only if there are no such lists, and `NoMemory` if there is no room for them. It ends whatever the
/// links are.
pub fn read_lists(alloc: Global, nodes: &[NodeRecord], cells: &CellRow) -> Result<Lists, Refusal>
    requires { length nodes.now ≤ NONE }
    ensures found { IfOk result (λ lists. ShowLists nodes.now cells.now lists) }
    ensures count { IfOk result (λ lists. length lists ≡ length cells.now) }
    ensures bad { IsErrOf result Refusal.BadPage → (lists : List (List Waiter))
        → ShowLists nodes.now cells.now lists → ⊥ }
    ensures only { IfErr result (λ refusal. (refusal ≡ Refusal.BadPage) ⊎ (refusal ≡ Refusal.NoMemory)) }
{
    let Ok(mut marks) = vec![in alloc; false; nodes.len()] else {
        return Err(Refusal::NoMemory);
    };
    match find_lists(alloc, nodes, cells, &mut marks) {
        Ok(Some(lists)) => Ok(lists),
        Ok(None) => Err(Refusal::BadPage),
        Err(_) => Err(Refusal::NoMemory),
    }
}

/// The same records don't show two lists of waiters for a cell.
pub fn one_list_is_shown()
    ensures { (nodes : List NodeRecord) (cells : List CellRecord) (lists others : List (List Waiter))
        → length nodes ≤ NONE
        → ShowLists nodes cells lists → ShowLists nodes cells others → lists ≡ others }
{}
