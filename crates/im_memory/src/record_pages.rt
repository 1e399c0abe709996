//! The pages of single records. Each function puts pages into a set, and takes none out of it.
ghost use Rattle.std.specs.Prelude.{◌≡◌, ◌+◌, ◌*◌, ◌<◌, ◌≤◌, true, map, length};
ghost use Rattle.im_types.specs.Types.{Waiter as Asker};
ghost use Rattle.im_pages.specs.PageSets.{has, IsWithin, size_of, with_page};
ghost use Rattle.im_arena.specs.Lists.{ends_at, first_in, IsThreaded, last_in, list_at};
ghost use Rattle.im_memory.specs.Covering.{AreIn, block_pages, HasFirst, with_cells};
ghost use Rattle.im_memory.specs.Touched.{addresses, next_at, nodes_from};
ghost use Rattle.im_pages.specs.Places as pages_of;

use im_arena::Arena;
use im_pages::{PageSet, page_of_cell, page_of_node, page_of_session};
use im_types::{MAX_CELLS, NONE, NodeRecord};

// Returns the first node of a list, or NONE if the list is empty.
fn first_node(arena: &Arena, list: u32) -> u32
    requires { list < length arena.now.held.lists }
    ensures { result ≡ first_in (ends_at arena.now.links list) }
{
    match arena.ends(list) {
        Some(ends) => ends.first,
        None => NONE,
    }
}

// Returns the node after another one. Returns NONE after the last one of a list, and if there is no such node.
fn next_node(arena: &Arena, n: u32) -> u32
    requires { IsThreaded arena.now }
    ensures { result ≡ next_at arena.now.links.records n }
{
    if n >= arena.node_count() {
        return NONE;
    }
    match arena.node(n) {
        NodeRecord::Free { next } => next,
        NodeRecord::Listed { next, .. } => next,
    }
}

/// Adds the page of a cell.
pub(crate) fn touch_cell(a: u32, pages: &mut PageSet)
    ensures cell { has pages.new (pages_of.page_of_cell a) ≡ true }
    ensures kept { IsWithin pages.old pages.new }
    ensures length { length pages.new ≡ length pages.old }
    ensures few { size_of pages.new ≤ size_of pages.old + 1 }
{
    pages.add(page_of_cell(a));
}

// Adds the page of a waiter node.
fn touch_node(arena: &Arena, n: u32, pages: &mut PageSet)
    ensures node { has pages.new (pages_of.page_of_node (length arena.now.held.lists) n) ≡ true }
    ensures kept { IsWithin pages.old pages.new }
    ensures length { length pages.new ≡ length pages.old }
    ensures few { size_of pages.new ≤ size_of pages.old + 1 }
{
    pages.add(page_of_node(arena.list_count(), n));
}

/// Adds the page of an element's session.
pub(crate) fn touch_session(arena: &Arena, elements: u16, element: u16, pages: &mut PageSet)
    ensures state { let cells = length arena.now.held.lists in
        pages.new ≡ with_page pages.old (pages_of.page_of_session cells elements element) }
    ensures session { let cells = length arena.now.held.lists in
        has pages.new (pages_of.page_of_session cells elements element) ≡ true }
    ensures kept { IsWithin pages.old pages.new }
    ensures length { length pages.new ≡ length pages.old }
    ensures few { size_of pages.new ≤ size_of pages.old + 1 }
{
    pages.add(page_of_session(arena.list_count(), elements, element));
}

/// Adds the pages of `n` cells from `base` on. As [`touch_readers`], it stands by itself, so that the way of an access
/// that nobody waits for stays short.
#[inline(never)]
pub(crate) fn touch_cells(base: u32, n: u32, pages: &mut PageSet)
    requires { base + n ≤ MAX_CELLS }
    ensures state { pages.new ≡ with_cells pages.old base n }
    ensures cells { AreIn pages_of.page_of_cell pages.new (addresses base n) }
    ensures kept { IsWithin pages.old pages.new }
    ensures length { length pages.new ≡ length pages.old }
    ensures few { size_of pages.new ≤ size_of pages.old + block_pages base n }
{
    if n == 0 {
        return;
    }
    pages.add_range(page_of_cell(base), page_of_cell(base + n - 1) + 1);
}

/// Adds the pages of the nodes that a new waiter changes. These are the node that it takes, and the last node before
/// it, which will link to it.
pub(crate) fn touch_ends(arena: &Arena, a: u32, pages: &mut PageSet)
    ensures spare { let cells = length arena.now.held.lists in
        has pages.new (pages_of.page_of_node cells arena.now.links.spare) ≡ true }
    ensures last { let cells = length arena.now.held.lists in
        has pages.new (pages_of.page_of_node cells (last_in (ends_at arena.now.links a))) ≡ true }
    ensures kept { IsWithin pages.old pages.new }
    ensures length { length pages.new ≡ length pages.old }
    ensures few { size_of pages.new ≤ size_of pages.old + 2 }
{
    touch_node(arena, arena.spare(), pages);
    touch_node(arena, arena.last(a), pages);
}

/// Adds the pages of the nodes and the sessions of a cell's readers.
#[inline(never)]
pub(crate) fn touch_readers(arena: &Arena, elements: u16, a: u32, pages: &mut PageSet)
    requires threaded { IsThreaded arena.now }
    requires listed { a < length arena.now.held.lists }
    ensures nodes { let links = arena.now.links in
        AreIn (pages_of.page_of_node (length arena.now.held.lists)) pages.new
        (nodes_from links.records (first_in (ends_at links a)) (length (list_at arena.now.held a))) }
    ensures sessions { AreIn (pages_of.page_of_session (length arena.now.held.lists) elements) pages.new
        (map (λ (w : Asker). w.element) (list_at arena.now.held a)) }
    ensures kept { IsWithin pages.old pages.new }
    ensures length { length pages.new ≡ length pages.old }
    ensures few { size_of pages.new ≤ size_of pages.old + 2 * length (list_at arena.now.held a) }
{
    let mut at = first_node(arena, a);
    for reader in arena.waiters(a) {
        touch_node(arena, at, pages);
        touch_session(arena, elements, reader.element, pages);
        at = next_node(arena, at);
    }
}

/// Adds the pages of the node and the session of a cell's first taker.
pub(crate) fn touch_taker(arena: &Arena, elements: u16, a: u32, pages: &mut PageSet)
    requires { a < length arena.now.held.lists }
    ensures node { let cells = length arena.now.held.lists in
        has pages.new (pages_of.page_of_node cells (first_in (ends_at arena.now.links a))) ≡ true }
    ensures session { HasFirst (pages_of.page_of_session (length arena.now.held.lists) elements) pages.new
        (list_at arena.now.held a) }
    ensures kept { IsWithin pages.old pages.new }
    ensures length { length pages.new ≡ length pages.old }
    ensures few { size_of pages.new ≤ size_of pages.old + 2 }
{
    touch_node(arena, first_node(arena, a), pages);
    if let Some(taker) = arena.front(a) {
        touch_session(arena, elements, taker.element, pages);
    }
}
