//! A walk along a list.
ghost use Rattle.std.specs.{Prelude.◌≡◌, Prelude.List, Prelude.[], Iterator.item_count, Iterator.YieldsFirst};
ghost use Rattle.im_types.specs.Types.{Waiter as WaiterSpec};
ghost use Rattle.im_arena.specs.Table.{IsWalk, waiters_from};

use crate::table::Node;
use im_types::{NONE, Waiter};
use std::marker::Model;

/// An iterator over the waiters of a list, from the first one on. Contracts see the waiters that are still to come.
#[derive(Drop)]
pub struct Waiters<'a> {
    nodes: &'a [Node],
    at: u32,
}

impl<'a> Model for Waiters<'a> {
    ghost use Rattle.std.specs.Prelude.{◌≡◌, List, []};
    ghost use Rattle.im_types.specs.Types.{Waiter};
    ghost use Rattle.im_arena.specs.Table.{IsWalk, waiters_from};

    ghost Value = { List Waiter };

    ghost view = { λ w. waiters_from w.nodes.now w.at };

    ghost invariant = { λ w. IsWalk w.nodes.now w.at };
}

impl<'a> Waiters<'a> {
    // Returns an iterator over no waiter.
    pub(crate) fn nobody() -> Waiters<'a>
        ensures { result ≡ [] }
    {
        Waiters {
            nodes: &[],
            at: NONE,
        }
    }

    // Returns an iterator over the waiters from a node on.
    pub(crate) fn from(nodes: &'a [Node], at: u32) -> Waiters<'a>
        requires { IsWalk nodes.now at }
        ensures { result ≡ waiters_from nodes.now at }
    {
        Waiters { nodes, at }
    }
}

impl<'a> Iterator for Waiters<'a> {
    type Item = Waiter;

    ghost next_gives = { YieldsFirst (λ (left : List WaiterSpec). left) };

    ghost remaining = { item_count (λ (left : List WaiterSpec). left) };

    fn next(&mut self) -> Option<Waiter> {
        if self.at == NONE {
            return None;
        }
        let node = self.nodes[self.at as usize];
        self.at = node.next;
        Some(node.waiter())
    }
}
