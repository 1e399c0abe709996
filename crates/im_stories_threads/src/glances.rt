//! Readings: threads that look again and again beside a writer, and the last cell of a large memory.

use crate::casts::{Cast, keep, outcome_of};
use im_controller::{Name, Port, Shown};
use im_glass::{Glance, PaneName};
use im_serving::Host;
use im_types::{Op, Refusal};

/// How many cells the writer fills and readers look at.
pub const CELLS: u32 = 256;

// How often a reader looks at all cells.
const ROUNDS: u32 = 2_000;

// The last cell of a large memory, and the number of the last request that fetches it.
const LAST: u32 = 65_535;

const FETCHES: u64 = 60;

// How many turns at most are made for a request. A whole checkpoint of a large memory takes fewer.
const MOST_TURNS: u32 = 20_000;

/// Returns the value that the writer stores at an address.
pub fn value_at(a: u32) -> u64 {
    u64::from(a).saturating_add(1000)
}

/// A glance that was read again and again, and what was wrong.
#[derive(Drop)]
pub struct Looked<J: PaneName> {
    glance: Glance<J>,
    /// How often the glance was refused.
    pub refused: u64,
    /// How often a cell had a value that nobody stored there.
    pub wrong: u64,
    /// How often fewer cells were full than in the round before.
    pub back: u64,
}

impl<J: PaneName> Looked<J> {
    // Looks at each cell, and returns how many are full.
    fn look_round(&mut self) -> u32 {
        let mut full = 0u32;
        for a in 0..CELLS {
            match self.glance.glance(a) {
                Ok(Some(value)) => {
                    full = full.saturating_add(1);
                    self.wrong = self.wrong.saturating_add(u64::from(value != value_at(a)));
                }
                Ok(None) => {}
                Err(_) => self.refused = self.refused.saturating_add(1),
            }
        }
        full
    }
}

/// Looks at all cells, round after round.
pub fn watch<J: PaneName>(glance: Glance<J>) -> Looked<J> {
    let mut looked = Looked {
        glance,
        refused: 0,
        wrong: 0,
        back: 0,
    };
    let mut latest = 0u32;
    for _ in 0..ROUNDS {
        let full = looked.look_round();
        looked.back = looked.back.saturating_add(u64::from(full < latest));
        latest = full;
    }
    looked
}

impl<K: Name + Send + Sync, R: Host> Cast<'_, K, R> {
    /// Makes the glances of the given number of elements, from 1 on.
    pub fn glances(&mut self, many: u16) -> Vec<Glance<Shown<K>>> {
        let mut glances = Vec::new(self.alloc);
        for before in 0..many {
            match self.controller.glance(self.rt, before.saturating_add(1)) {
                Ok(glance) => keep(&mut glances, glance, &mut self.said),
                Err(_) => self.said.text("  no glance\n"),
            }
        }
        glances
    }

    /// Tells what readers see after they were told what the writer is answered next.
    pub fn teach(&mut self, port: &mut Port<K>, looked: Vec<Looked<Shown<K>>>) {
        let number = u64::from(CELLS).saturating_add(1);
        let answer = port.submit(self.rt, self.controller, number, Op::Fetch(0));
        self.tell("submit", outcome_of(&answer));
        for it in looked {
            let mut it = it;
            if let Ok(receipt) = &answer {
                it.glance.learn(receipt.told());
            }
            writeln!(self.said, "  told: {} full", it.look_round());
        }
    }

    // The last element fills the last cell of a large memory, and looks there.
    fn look_at_ends(&mut self, port: &mut Port<K>) {
        let Ok(mut glance) = self.controller.glance(self.rt, 63) else {
            return self.said.text("  no glance\n");
        };
        let answer = port.submit(self.rt, self.controller, 1, Op::Store(LAST, u64::MAX));
        if let Ok(receipt) = &answer {
            glance.learn(receipt.told());
        }
        self.tell("submit", outcome_of(&answer));
        for a in [LAST, 0] {
            match glance.glance(a) {
                Ok(Some(value)) => writeln!(self.said, "  glance {a}: value {value}"),
                Ok(None) => writeln!(self.said, "  glance {a}: none"),
                Err(_) => writeln!(self.said, "  glance {a}: refused"),
            }
        }
    }

    // Fetches the last cell. Each time that the journal is full, the port makes a turn and asks again.
    fn fetch_last(&mut self, port: &mut Port<K>, number: u64) {
        for _ in 0..MOST_TURNS {
            let answer = port.submit(self.rt, self.controller, number, Op::Fetch(LAST));
            if outcome_of(&answer) != Err(Refusal::JournalFull) {
                return;
            }
            let _turned = port.help(self.rt, self.controller);
        }
    }

    /// The last element fills the last cell of a large memory, looks there, and fetches it up to its sixtieth request.
    /// Nobody keeps checkpoints: the port makes the room that the journal lacks.
    pub fn look_far(&mut self) {
        let Some(mut port) = self.port(63) else {
            return;
        };
        self.look_at_ends(&mut port);
        for number in 2..=FETCHES {
            self.fetch_last(&mut port, number);
        }
        self.submit(&mut port, FETCHES, Op::Fetch(LAST));
        self.keep(port)
    }
}
