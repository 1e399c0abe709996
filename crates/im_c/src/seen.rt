//! A cell, and the numbers of an image, in C's form.

/// A cell. If the address lies in no block, all is 0.
#[repr(C)]
#[derive(Clone, Copy)]
pub struct LtPresence {
    /// The kind of its block: 1 I, 2 M.
    pub kind: u8,
    /// 1 it is empty, 2 requests wait for it, 3 it is full, 4 it was written while it was full.
    pub state: u8,
    /// The address of its block's first cell.
    pub base: u32,
    /// The number of its block's cells.
    pub length: u32,
    /// Its value, in the states 3 and 4; else 0.
    pub value: u64,
}

/// The numbers of a memory.
#[repr(C)]
#[derive(Clone, Copy)]
pub struct LtFigures {
    /// The blocks.
    pub blocks: u64,
    /// The cells of blocks that are empty, and that no request waits for.
    pub empty: u64,
    /// The cells that requests wait for.
    pub awaited: u64,
    /// The full cells.
    pub full: u64,
    /// The clashed cells.
    pub clashed: u64,
    /// The entries that are kept.
    pub kept: u64,
    /// Those of them that wait.
    pub waiting: u64,
    /// The elements whose windows are full.
    pub full_windows: u64,
    /// Those of them whose oldest entry waits. They can't ask before it is answered.
    pub stuck: u64,
}
