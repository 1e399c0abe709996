//! The part of a cell that is kept in one byte, and the place of its block.
ghost use Rattle.std.specs.Prelude.{◌≡◌, ℕ, is_none, Some};
ghost use Rattle.im_cell.specs.Cells.{block_by_extent, state_for, state_slot, tag_kind, value_of};
ghost use Rattle.im_cell.specs.Slots.{cell_waits, is_waiting_slot, new_slot, with_cell};

use crate::slots::Slot;
use im_types::{Block, Cell, Kind};

/// Whether a cell is free, or else what it holds and the kind of its block.
#[derive(Clone, Copy, Debug, PartialEq, Eq)]
pub(crate) enum State {
    /// The cell is free.
    Free,
    /// A cell of an I block without a value.
    EmptyI,
    /// A cell of an I block without a value. Requests wait for it.
    WaitingI,
    /// A cell of an I block with a value.
    FullI,
    /// A cell of an I block that was written while it was full.
    ClashedI,
    /// A cell of an M block without a value.
    EmptyM,
    /// A cell of an M block without a value. Requests wait for it.
    WaitingM,
    /// A cell of an M block with a value.
    FullM,
    /// A cell of an M block that was written while it was full.
    ClashedM,
}

/// The place of a block: its base and its length.
#[derive(Clone, Copy, Debug, PartialEq, Eq)]
pub(crate) struct Extent {
    pub(crate) base: u32,
    pub(crate) length: u32,
}

impl Extent {
    /// Returns the block of this kind at this place.
    pub(crate) fn block(self, kind: Kind) -> Block
        ensures { result ≡ block_by_extent self kind }
    {
        let Extent { base, length } = self;
        Block { base, length, kind }
    }
}

/// The extent of a cell that is in no block.
pub(crate) const NOWHERE: Extent = Extent { base: 0, length: 0 };

const _: () = prove!(size_of::<State>() <= 1);

/// Returns the state of a cell in a block of this kind.
pub(crate) fn state_of(kind: Kind, cell: Cell) -> State
    ensures { result ≡ state_for kind cell }
{
    match kind {
        Kind::I => match cell {
            Cell::Empty => State::EmptyI,
            Cell::Waiting => State::WaitingI,
            Cell::Full(_) => State::FullI,
            Cell::Clashed(_) => State::ClashedI,
        },
        Kind::M => match cell {
            Cell::Empty => State::EmptyM,
            Cell::Waiting => State::WaitingM,
            Cell::Full(_) => State::FullM,
            Cell::Clashed(_) => State::ClashedM,
        },
    }
}

/// Returns the value in a cell, or 0 if it has none.
pub(crate) fn value_in(cell: Cell) -> u64
    ensures { result ≡ value_of cell }
{
    match cell {
        Cell::Full(value) | Cell::Clashed(value) => value,
        _ => 0,
    }
}

/// Returns whether requests wait for a cell.
pub(crate) fn is_waited_for(cell: Cell) -> bool
    ensures { result ≡ cell_waits cell }
{
    matches!(cell, Cell::Waiting)
}

impl State {
    /// Returns the kind of the cell's block, or I for a free cell.
    pub(crate) fn kind(self) -> Kind
        ensures { result ≡ tag_kind self }
    {
        match self {
            State::EmptyM | State::WaitingM | State::FullM | State::ClashedM => Kind::M,
            _ => Kind::I,
        }
    }

    /// Returns whether the cell is free.
    #[inline(always)]
    pub(crate) fn is_free(self) -> bool
        ensures { (value : ℕ) (extent : Extent) → result ≡ is_none (state_slot self value extent) }
    {
        matches!(self, State::Free)
    }

    /// Returns whether requests wait for the cell.
    pub(crate) fn is_waiting(self) -> bool
        ensures { (value : ℕ) (extent : Extent) → result ≡ is_waiting_slot (state_slot self value extent) }
    {
        matches!(self, State::WaitingI | State::WaitingM)
    }

    /// Returns the slot of a cell with this state, in a block at this place. Returns `None` for a free cell.
    pub(crate) fn slot(self, value: u64, extent: Extent) -> Option<Slot>
        ensures { result ≡ state_slot self value extent }
    {
        let (kind, cell) = match self {
            State::Free => return None,
            State::EmptyI => (Kind::I, Cell::Empty),
            State::WaitingI => (Kind::I, Cell::Waiting),
            State::FullI => (Kind::I, Cell::Full(value)),
            State::ClashedI => (Kind::I, Cell::Clashed(value)),
            State::EmptyM => (Kind::M, Cell::Empty),
            State::WaitingM => (Kind::M, Cell::Waiting),
            State::FullM => (Kind::M, Cell::Full(value)),
            State::ClashedM => (Kind::M, Cell::Clashed(value)),
        };
        let block = extent.block(kind);
        Some(Slot { block, cell })
    }
}
