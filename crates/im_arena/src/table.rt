// The table of nodes, and the rows of nodes in it.
ghost use Rattle.std.specs.Prelude.{◌≡◌, ℕ, ◌+◌, ◌<◌, ◌≢◌, length, nat_lt};
ghost use Rattle.im_types.specs.Types.{IsLink, FitsNode};
ghost use Rattle.im_arena.specs.Lists.{link_of};
ghost use Rattle.im_arena.specs.Table.{Attached, count_of, Detached, empty_row, ends_of, free_node, full_row};
ghost use Rattle.im_arena.specs.Table.{record_of, Sound, spans_of, Transferred, used_node, waiter_in};

use im_types::{NONE, NodeRecord, Waiter};

/// The first and the last node of a list that isn't empty.
#[derive(Clone, Copy, Debug, PartialEq, Eq)]
pub struct Ends {
    /// The index of its first node.
    pub first: u32,
    /// The index of its last node.
    pub last: u32,
}

/// A node: room for one waiter, in 16 bytes. A free node is marked as free and has no waiter.
#[derive(Clone, Copy)]
pub(crate) struct Node {
    // The next node of its row, NONE at the last one.
    pub(crate) next: u32,
    pub(crate) element: u16,
    pub(crate) used: bool,
    pub(crate) number: u64,
}

const _: () = prove!(size_of::<Node>() == 16);

/// The first and the last node of a row, in 8 bytes. Both are NONE if the row is empty. The links between its nodes
/// give its length.
#[derive(Clone, Copy)]
pub(crate) struct Row {
    pub(crate) first: u32,
    pub(crate) last: u32,
}

const _: () = prove!(size_of::<Row>() == 8);

impl Node {
    pub(crate) fn with(waiter: Waiter) -> Node
        ensures { result ≡ used_node waiter }
    {
        Node {
            next: NONE,
            element: waiter.element,
            used: true,
            number: waiter.number,
        }
    }

    pub(crate) fn free() -> Node
        ensures { result ≡ free_node }
    {
        Node {
            next: NONE,
            element: 0,
            used: false,
            number: 0,
        }
    }

    pub(crate) fn waiter(&self) -> Waiter
        ensures { result ≡ waiter_in self.now }
    {
        Waiter {
            element: self.element,
            number: self.number,
        }
    }

    pub(crate) fn record(&self) -> NodeRecord
        ensures record { result ≡ record_of self.now }
        ensures fits { (nodes : ℕ) → IsLink nodes (link_of result) → FitsNode nodes result }
    {
        if self.used {
            NodeRecord::Listed {
                next: self.next,
                waiter: self.waiter(),
            }
        } else {
            NodeRecord::Free { next: NONE }
        }
    }
}

impl Row {
    pub(crate) fn empty() -> Row
        ensures { result ≡ empty_row }
    {
        Row {
            first: NONE,
            last: NONE,
        }
    }

    // Returns the row of all nodes, in their order.
    pub(crate) fn full(nodes: u32) -> Row
        ensures { result ≡ full_row nodes }
    {
        if nodes == 0 {
            return Row::empty();
        }
        Row {
            first: 0,
            last: nodes - 1,
        }
    }

    pub(crate) fn ends(&self) -> Option<Ends>
        ensures { result ≡ ends_of self.now }
    {
        if self.first == NONE {
            None
        } else {
            Some(Ends {
                first: self.first,
                last: self.last,
            })
        }
    }

    // Returns the row without its first node, whose link was `next`.
    fn without_first(self, next: u32) -> Row
        ensures { Detached self.last next result }
    {
        Row {
            first: next,
            last: if next == NONE { NONE } else { self.last },
        }
    }
}

// Links a node behind the last one of a row, and returns the longer row.
fn attach(nodes: &mut [Node], row: Row, node: u32) -> Row
    requires { row.last ≢ NONE → row.last < length nodes.old }
    ensures { Attached nodes.old nodes.new row.first row.last node result }
{
    let first = if row.last == NONE {
        node
    } else {
        nodes[row.last as usize].next = node;
        row.first
    };
    Row { first, last: node }
}

// Moves the first node of one row to the end of another row, and puts `content` into it. Returns the waiter that it
// held.
#[inline(always)]
pub(crate) fn transfer(
    nodes: &mut [Node],
    rows: &mut [Row],
    from: usize,
    to: usize,
    content: Node,
) -> Waiter
    requires sound { Sound nodes.old (spans_of nodes.old rows.old) }
    requires from { from < length rows.old }
    requires to { to < length rows.old }
    requires apart { from ≢ to }
    requires some { 0 < count_of (spans_of nodes.old rows.old) from }
    requires link { content.next ≡ NONE }
    requires mark { content.used ≡ nat_lt (to + 1) (length rows.old) }
    ensures { Transferred nodes.old nodes.new rows.old rows.new from to content result }
{
    let giver = rows[from];
    let node = giver.first;
    let held = nodes[node as usize];
    nodes[node as usize] = content;
    let taker = attach(nodes, rows[to], node);
    rows[from] = giver.without_first(held.next);
    rows[to] = taker;
    held.waiter()
}
