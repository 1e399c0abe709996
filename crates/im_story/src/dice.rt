//! Numbers and commands that look random, and are the same for the same seed.

ghost use Rattle.std.specs.Prelude.{◌<◌};

use crate::words::asked;
use im_types::{Command, Kind, Op};

/// A linear congruential generator, with the constants of Knuth's MMIX.
#[derive(Clone, Copy)]
pub struct Dice {
    seed: u64,
}

impl Dice {
    /// Makes dice that begin with this number.
    pub fn new(seed: u64) -> Dice {
        Dice { seed }
    }

    /// Returns a number whose upper bits look random.
    pub fn throw(&mut self) -> u64 {
        self.seed = self
            .seed
            .wrapping_mul(6_364_136_223_846_793_005)
            .wrapping_add(1_442_695_040_888_963_407);
        self.seed
    }

    /// Returns a number below a bound.
    pub fn below(&mut self, bound: u32) -> u32
        requires { 0 < bound }
        ensures { result < bound }
    {
        (self.throw() >> 33) as u32 % bound
    }

    /// Returns an operation that never waits: on a cell at an address up to `cells`, or for a block of up to five.
    pub fn answered_at_once(&mut self, cells: u32) -> Op {
        let a = self.below(cells.saturating_add(1));
        let value = u64::from(self.below(100));
        match self.below(9) {
            0 => Op::Alloc(Kind::I, self.below(6)),
            1 => Op::Alloc(Kind::M, self.below(6)),
            2 => Op::Release(a),
            3 => Op::Reset(a),
            4 | 5 => Op::Store(a, value),
            _ => Op::Put(a, value),
        }
    }

    /// Returns one of the eight operations, on a cell at an address up to `cells`. One in two may wait.
    pub fn operation(&mut self, cells: u32) -> Op {
        let a = self.below(cells.saturating_add(1));
        match self.below(4) {
            0 => Op::Fetch(a),
            1 => Op::Take(a),
            _ => self.answered_at_once(cells),
        }
    }

    /// Returns a number that an element with these bounds of its window may name: most often its next one, else one in
    /// or near the window.
    pub fn number(&mut self, window: (u64, u64)) -> u64 {
        let (base, next) = window;
        match self.below(16) {
            0 => base.saturating_sub(1),
            1 => next.saturating_add(1),
            2 => base.saturating_add(u64::from(self.below(64))),
            _ => next,
        }
    }

    /// Returns a command of an element with these bounds of its window. One in five confirms.
    pub fn command(&mut self, element: u16, window: (u64, u64), cells: u32) -> Command {
        if self.below(5) == 0 {
            let upto = window.0.saturating_add(u64::from(self.below(18)));
            return Command::Confirm { element, upto };
        }
        Command::Request(asked(element, self.number(window), self.operation(cells)))
    }
}
