//! The two copies of the full cells, and what is written to both.
use crate::book::InOrder;
use crate::cells::FullCells;
use im_types::Change;
use left_right::Absorb;
use logbook::Seen;
use std::alloc::AllocError;

/// A prefix of the list of changes. It has no bytes.
pub type History = Seen<Change, u64, InOrder>;

/// A change, with the list that ends in it and the length of that list.
#[derive(Drop)]
pub struct Ahead {
    /// The change.
    pub change: Change,
    /// How many changes there are, this one included.
    pub count: u64,
    /// The changes up to this one.
    pub seen: History,
}

/// The full cells after a prefix of the list of changes.
#[derive(Drop)]
pub struct Copy {
    /// The cells after these changes.
    pub cells: FullCells,
    /// How many changes there are.
    pub count: u64,
    /// The changes.
    pub seen: History,
}

impl Absorb<Ahead> for Copy {
    ghost use Rattle.im_glass.specs.Copies.{applied_to};

    // The state for contracts: the changes, the cells (a list of any length), and the number of changes.
    type State = (History, [Option<u64>; 0], u64);

    ghost state = { λ s. (s.seen, s.cells, s.count) };

    ghost applied = { applied_to };

    ghost never_fails = { Unit {0} };

    fn absorb_first(&mut self, operation: &Ahead, _other: &Copy) -> Result<(), AllocError> {
        if self.cells.has(operation.change) {
            self.cells.change(operation.change);
            self.seen = operation.seen.again();
            self.count = operation.count;
        }
        Ok(())
    }
}
