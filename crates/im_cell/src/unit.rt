//! Units of cells. One record may stand for all cells of a unit.
ghost use Rattle.std.specs.Prelude.{◌≡◌, ℕ, false};
ghost use Rattle.im_types.specs.Types.{CellEmpty as Empty};
ghost use Rattle.im_cell.specs.{Cells.state_slot, Slots.new_slot, Units.common_slot, Units.is_own};

use crate::slots::Slot;
use crate::state::{Extent, NOWHERE, State};
use im_types::{Block, Kind};

/// The number of cells in a unit.
pub(crate) const UNIT: usize = 128;

/// What stands for the cells of a unit. It has three words, as the kind of a block is its variant.
#[derive(Clone, Copy, Debug, PartialEq, Eq)]
pub(crate) enum Unit {
    /// Each cell has a record of its own.
    Each,
    /// All of them are free.
    Free,
    /// All of them are empty cells of the I block at this place.
    BlockI(Extent),
    /// All of them are empty cells of the M block at this place.
    BlockM(Extent),
}

impl Unit {
    /// Returns what stands for units of empty cells of a block.
    pub(crate) fn of(block: Block) -> Unit
        ensures own { is_own result ≡ false }
        ensures slot { common_slot result ≡ new_slot block Empty }
    {
        let Block { base, length, kind } = block;
        match kind {
            Kind::I => Unit::BlockI(Extent { base, length }),
            Kind::M => Unit::BlockM(Extent { base, length }),
        }
    }

    /// Returns whether each cell has its own record.
    pub(crate) fn is_own(self) -> bool
        ensures { result ≡ is_own self }
    {
        matches!(self, Unit::Each)
    }

    /// Returns the slot that stands for each cell of the unit, if it is in a block.
    pub(crate) fn slot(self) -> Option<Slot>
        ensures { result ≡ common_slot self }
    {
        let (state, extent) = self.parts();
        state.slot(0, extent)
    }

    /// Returns the state of each cell, and the place of its block.
    pub(crate) fn parts(self) -> (State, Extent)
        ensures { (value : ℕ) → state_slot result.0 value result.1 ≡ common_slot self }
    {
        match self {
            Unit::BlockI(extent) => (State::EmptyI, extent),
            Unit::BlockM(extent) => (State::EmptyM, extent),
            _ => (State::Free, NOWHERE),
        }
    }
}
