//! The scenes: what threads do with a new memory.

use crate::acts::Sizes;
use crate::glances::CELLS;
use crate::players::Role;

/// A scene.
#[derive(Clone, Copy)]
pub struct Play {
    /// Its heading.
    pub head: &'static str,
    /// The sizes of its memory.
    pub sizes: Sizes,
    /// How many lines its trace has room for, if it is recorded.
    pub room: Option<usize>,
    /// How many I cells and M cells there are at first, from address 0 on.
    pub blocks: (u32, u32),
    /// What the threads with the ports of elements 1, 2 and so on do. Without any the last cell is looked at.
    pub roles: &'static [Role],
    /// Whether each thread starts after the one before it has ended.
    pub is_in_turn: bool,
    /// How many glances have a thread: those of elements 1, 2 and so on.
    pub readers: u16,
    /// The room of the journal that is waited for after all ports have played, if it is.
    pub rests: Option<u32>,
    /// The number that the last port asks for at the end, if it asks.
    pub asks: Option<u64>,
}

// What most scenes have.
const USUAL: Play = Play {
    head: "",
    sizes: (64, 3, 256),
    room: Some(100),
    blocks: (0, 0),
    roles: &[],
    is_in_turn: false,
    readers: 0,
    rests: None,
    asks: None,
};

/// All scenes.
pub static PLAYS: [Play; 10] = [
    Play {
        head: "two ports of ten fetches beside the thread that keeps checkpoints",
        roles: &[Role::Fetches(10), Role::Fetches(10)],
        asks: Some(10),
        ..USUAL
    },
    // More fetches than the journal has room for.
    Play {
        head: "sixteen fetches and one more, a journal of sixteen slots, and nobody helps",
        sizes: (64, 3, 16),
        roles: &[Role::Fetches(16), Role::Fetches(1)],
        is_in_turn: true,
        ..USUAL
    },
    // The ports make no room while as many slots are free.
    Play {
        head: "eight fetches, and nobody asks while all slots are made free again",
        sizes: (64, 3, 16),
        roles: &[Role::Fetches(8)],
        rests: Some(16),
        ..USUAL
    },
    Play {
        head: "a trace with room for one line",
        sizes: (64, 2, 16),
        room: Some(1),
        roles: &[Role::Fetches(2)],
        asks: Some(1),
        ..USUAL
    },
    Play {
        head: "the same calls, and a trace that isn't recorded",
        sizes: (64, 2, 16),
        room: None,
        roles: &[Role::Fetches(2)],
        asks: Some(1),
        ..USUAL
    },
    Play {
        head: "one server is woken, and one waits for nobody",
        blocks: (1, 1),
        roles: &[Role::Waits, Role::StoresAndStalls],
        ..USUAL
    },
    Play {
        head: "a port waits whose server has ended, and is woken",
        blocks: (1, 1),
        roles: &[Role::RetiresAndWaits, Role::StoresLate],
        ..USUAL
    },
    Play {
        head: "sixteen threads of 1,002 requests each",
        sizes: (512, 17, 4_096),
        room: Some(20_000),
        blocks: (256, 16),
        roles: &[Role::Mixed; 16],
        ..USUAL
    },
    Play {
        head: "a great memory, a glance at its last cell, and a port that makes room by itself",
        sizes: (65_536, 64, 16),
        blocks: (65_536, 0),
        ..USUAL
    },
    Play {
        head: "eight readers beside a writer",
        sizes: (512, 9, 4_096),
        room: Some(20_000),
        blocks: (CELLS, 1),
        roles: &[Role::Stores],
        readers: 8,
        ..USUAL
    },
];
