//! What a line of a dialogue asks to see.

use im_types::Waiter;

/// What a line asks to see of the memory. It changes nothing.
#[derive(Clone, Copy, Debug, PartialEq, Eq)]
pub enum Look {
    /// `collect E.N`: what is kept for a request.
    Collect(Waiter),
    /// `entry E.N`: the request, and what is kept for it.
    Entry(Waiter),
    /// `cell A`: the cell at an address, with the requests that wait at it.
    Cell(u32),
    /// `cells A-B`: the cells at the addresses from A to B that there are.
    Cells(u32, u32),
    /// `waiting`: the cells that somebody waits for.
    Waiting,
    /// `block A`: the block that an address lies in.
    Block(u32),
    /// `blocks`: all blocks.
    Blocks,
    /// `elements`: the windows of all elements.
    Elements,
    /// `stat`: how many blocks, cells of each state, and entries there are.
    Stat,
    /// `help`: the lines of a dialogue.
    Help,
}
