//! Lists of waiters, all in one table of nodes.
#![tactic(auto)]

ghost use Rattle.std.specs.Prelude.{◌≡◌, ℕ, ◌+◌, ◌<◌, false, ◌↔◌, [], ◌∷◌, ◌++◌, length, drop, replicate, IfSome};
ghost use Rattle.std.specs.Prelude.{IfNone, IfOk, IsOkUnless, IsTrue, slice_get, sum_by};
ghost use Rattle.im_types.specs.Types.{NoMemory, IsLink, FitsNode};
ghost use Rattle.im_arena.specs.Lists.{ends_at, free, IsPopped, IsPushed, IsThreaded, last_in, link_of, list_at};
ghost use Rattle.im_arena.specs.Lists.{with_list};
ghost use Rattle.im_arena.specs.Table.{AreFree, start_rows};

mod pairs;
mod table;
mod walk;

use im_types::{NONE, NodeRecord, Refusal, Waiter};
pub use pairs::hand_over;
use std::alloc::{AllocError, Global};
use std::marker::Model;
pub use table::Ends;
use table::{Node, Row, transfer};
pub use walk::Waiters;

/// Lists of waiters over one table of nodes. Each waiter on a list takes one node. The arena takes no memory once it is
/// made. Lists are numbered from 0 to [`Arena::list_count`] - 1, and nodes from 0 to [`Arena::node_count`] - 1.
pub struct Arena {
    nodes: Vec<Node>,
    // The row of each list, and last the row of the free nodes.
    rows: Vec<Row>,
    lists: u32,
    // The number of free nodes. It is kept because a count would walk the whole row.
    free: u32,
}

// By one call, so that whoever owns an arena isn't proved to let go each of its fields wherever it may end.
impl Drop for Arena {
    fn drop(self) {
        let Arena {
            nodes: _,
            rows: _,
            lists: _,
            free: _,
        } = self;
    }
}

impl Model for Arena {
    ghost use Rattle.im_arena.specs.Lists.{Shown};

    ghost Value = { Shown };

    ghost use Rattle.im_arena.specs.Table.{IsArena, shown_table};

    ghost view = { λ a. shown_table a.nodes.items a.rows.items a.lists };

    ghost invariant = { λ a. IsArena a.nodes.items a.rows.items a.lists a.free };
}

impl Arena {
    /// Makes an arena with the given numbers of nodes, all free, and of lists, all empty. It takes 16 bytes for each
    /// node and 8 for each list. Returns `NoMemory` if that memory is refused.
    pub fn new(alloc: Global, nodes: u32, lists: u32) -> Result<Arena, Refusal>
        ensures nodes { IfOk result (λ a. a.held.nodes ≡ nodes) }
        ensures empty { IfOk result (λ a. a.held.lists ≡ replicate lists []) }
        ensures refused { IsOkUnless result NoMemory }
    {
        Arena::make(alloc, nodes, lists).map_err(|_| Refusal::NoMemory)
    }

    fn make(alloc: Global, nodes: u32, lists: u32) -> Result<Arena, AllocError>
        ensures nodes { IfOk result (λ a. a.held.nodes ≡ nodes) }
        ensures empty { IfOk result (λ a. a.held.lists ≡ replicate lists []) }
    {
        Ok(Arena {
            nodes: free_nodes(alloc, nodes)?,
            rows: rows_of(alloc, nodes, lists)?,
            lists,
            free: nodes,
        })
    }

    /// Returns the number of lists.
    pub fn list_count(&self) -> u32
        ensures { result ≡ length self.now.held.lists }
    {
        self.lists
    }

    /// Returns the number of nodes.
    pub fn node_count(&self) -> u32
        ensures { result ≡ self.now.held.nodes }
    {
        self.nodes.len() as u32
    }

    /// Returns the number of nodes that hold no waiter.
    pub fn free_count(&self) -> u32
        ensures free { result ≡ free self.now.held }
        ensures sum { result + sum_by length self.now.held.lists ≡ self.now.held.nodes }
    {
        self.free // As each push and pop counts.
    }

    /// Returns whether no node is free.
    pub fn is_full(&self) -> bool
        ensures { IsTrue result ↔ (free self.now.held ≡ 0) }
    {
        self.free_count() == 0
    }

    /// Returns whether a list has no waiter.
    pub fn is_empty(&self, list: u32) -> bool
        requires { list < length self.now.held.lists }
        ensures { IsTrue result ↔ (list_at self.now.held list ≡ []) }
    {
        self.rows[list as usize].first == NONE
    }

    /// Returns the number of waiters on a list. It takes one step for each of them.
    pub fn len(&self, list: u32) -> u32
        requires { list < length self.now.held.lists }
        ensures { result ≡ length (list_at self.now.held list) }
    {
        let mut node = self.rows[list as usize].first;
        for count in 0..self.node_count() {
            if node == NONE {
                return count;
            }
            node = self.nodes[node as usize].next;
        }
        self.node_count()
    }

    /// Returns the waiter at a place of a list, counted from 0, or `None` past its end. It takes one step for each
    /// place, and at most one for each waiter of the list.
    pub fn at(&self, list: u32, place: u32) -> Option<Waiter>
        requires { list < length self.now.held.lists }
        ensures { result ≡ slice_get (list_at self.now.held list) place }
    {
        let mut node = self.rows[list as usize].first;
        for _step in 0..place {
            if node == NONE {
                return None;
            }
            node = self.nodes[node as usize].next;
        }
        if node == NONE {
            return None;
        }
        Some(self.nodes[node as usize].waiter())
    }

    /// Returns the waiters of a list in their order, or none if there is no such list. Each waiter takes one step.
    pub fn waiters(&self, list: u32) -> Waiters<'_>
        ensures { result ≡ list_at self.now.held list }
    {
        if list >= self.lists {
            return Waiters::nobody();
        }
        Waiters::from(&self.nodes, self.rows[list as usize].first)
    }

    /// Returns the first waiter of a list, or `None` if the list is empty.
    pub fn front(&self, list: u32) -> Option<Waiter>
        requires { list < length self.now.held.lists }
        ensures { result ≡ slice_get (list_at self.now.held list) 0 }
    {
        self.at(list, 0)
    }

    /// Puts a waiter at the end of a list and returns `true`. If no node is free, it returns `false` and changes
    /// nothing.
    #[inline(always)]
    pub fn push_back(&mut self, list: u32, waiter: Waiter) -> bool
        requires { list < length self.old.held.lists }
        ensures room { IsTrue result ↔ 0 < free self.old.held }
        ensures pushed { IsTrue result
            → self.new.held ≡ with_list self.old.held list (list_at self.old.held list ++ waiter ∷ []) }
        ensures links { IsTrue result → IsPushed list self.old self.new }
        ensures full { result ≡ false → self.new ≡ self.old }
    {
        let free = self.lists as usize;
        if self.is_full() {
            return false;
        }
        let _ = transfer(
            self.nodes.as_mut_slice(),
            self.rows.as_mut_slice(),
            free,
            list as usize,
            Node::with(waiter),
        );
        self.free -= 1;
        true
    }

    /// Takes the first waiter off a list, frees its node and returns the waiter. Returns `None` if the list is empty.
    #[inline(always)]
    pub fn pop_front(&mut self, list: u32) -> Option<Waiter>
        requires { list < length self.old.held.lists }
        ensures first { result ≡ slice_get (list_at self.old.held list) 0 }
        ensures rest { self.new.held ≡ with_list self.old.held list (drop 1 (list_at self.old.held list)) }
        ensures links { IfSome result (λ _. IsPopped list self.old self.new) }
        ensures none { IfNone result (self.new ≡ self.old) }
    {
        let free = self.lists as usize;
        if self.rows[list as usize].first == NONE {
            return None;
        }
        let waiter = transfer(
            self.nodes.as_mut_slice(),
            self.rows.as_mut_slice(),
            list as usize,
            free,
            Node::free(),
        );
        self.free += 1;
        Some(waiter)
    }

    /// Returns the first and the last node of a list, or `None` if the list is empty.
    pub fn ends(&self, list: u32) -> Option<Ends>
        requires { list < length self.now.held.lists }
        ensures ends { Some result ≡ slice_get self.now.links.ends list }
        ensures threaded { IsThreaded self.now }
    {
        self.rows[list as usize].ends()
    }

    /// Returns the node that the next waiter takes, or [`NONE`] if no node is free.
    pub fn spare(&self) -> u32
        ensures { result ≡ self.now.links.spare }
    {
        self.rows[self.lists as usize].first
    }

    /// Returns the last node of a list, or [`NONE`] if the list is empty or there is no such list.
    pub fn last(&self, list: u32) -> u32
        ensures { result ≡ last_in (ends_at self.now.links list) }
    {
        if list >= self.lists {
            return NONE;
        }
        match self.rows[list as usize].ends() {
            Some(ends) => ends.last,
            None => NONE,
        }
    }

    /// Returns the record of the node with this index. The record of a free node always links to [`NONE`].
    pub fn node(&self, index: u32) -> NodeRecord
        requires { index < self.now.held.nodes }
        ensures record_at { Some result ≡ slice_get self.now.links.records index }
        ensures fits { (nodes : ℕ) → IsLink nodes (link_of result) → FitsNode nodes result }
        ensures threaded { IsThreaded self.now }
    {
        self.nodes[index as usize].record()
    }
}

// Makes the given number of nodes, all free, each linked to the next one.
fn free_nodes(alloc: Global, count: u32) -> Result<Vec<Node>, AllocError>
    ensures { IfOk result (λ v. AreFree v.items count) }
{
    let mut nodes = Vec::with_capacity(alloc, count as usize)?;
    for node in 0..count {
        let next = if node + 1 == count { NONE } else { node + 1 };
        nodes.push(Node {
            next,
            ..Node::free()
        })?;
    }
    Ok(nodes)
}

// Makes the given number of empty rows, and then one row of all nodes.
fn rows_of(alloc: Global, nodes: u32, lists: u32) -> Result<Vec<Row>, AllocError>
    ensures { IfOk result (λ v. v.items ≡ start_rows nodes lists) }
{
    let mut rows = vec![in alloc; Row::empty(); lists as usize + 1]?;
    rows[lists as usize] = Row::full(nodes);
    Ok(rows)
}
