//! The slots of all cells.
ghost use Rattle.std.specs.Prelude.{◌≡◌, ◌+◌, ◌-◌, ◌*◌, ◌/◌, ◌^◌, ◌<◌, ◌≤◌, false, length, replicate, IsSome};
ghost use Rattle.std.specs.Prelude.{slice_set};
ghost use Rattle.im_types.specs.Types.{fill};
ghost use Rattle.im_cell.specs.Slots.{is_waiting_slot, slot_at, with_cell};
ghost use Rattle.im_cell.specs.{Table.base_in, Units.common_slot, Units.is_own};

use crate::cells::Cells;
use crate::filling::{fill_shown, own_slot, set_among_same, unit_of};
use crate::slots::Slot;
use crate::unit::{UNIT, Unit};
use im_types::Cell;
use std::marker::Model;

/// The records of the cells, and what stands for the cells of each unit. Contracts see the slots.
#[derive(Drop)]
pub(crate) struct CellUnits {
    cells: Cells,
    units: Vec<Unit>,
}

impl Model for CellUnits {
    ghost use Rattle.std.specs.Prelude.{◌*◌, ◌^◌, ◌<◌, ◌≤◌, List, length, Option};
    ghost use Rattle.im_cell.specs.{declared.slots.Slot.Slot, declared.unit.TheConstants.UNIT, Units.shown_units};

    ghost Value = { List (Option Slot) };

    ghost view = { λ u. shown_units u.units.items u.cells };

    ghost invariant = { λ u. (length u.cells ≤ UNIT * length u.units.items) × (length u.cells < 2 ^ 32)
        × (length u.units.items < 2 ^ 32) };
}

impl CellUnits {
    /// Makes units of these cells. Each cell has its own record.
    pub(crate) fn over(cells: Cells, units: Vec<Unit>) -> CellUnits
        requires few { length cells < 2 ^ 32 }
        requires units { units.items ≡ replicate ((length cells + (UNIT - 1)) / UNIT) Unit.Each }
        ensures { result ≡ cells }
    {
        CellUnits { cells, units }
    }

    /// Returns the number of cells.
    #[inline(always)]
    pub(crate) fn len(&self) -> u32
        ensures { result ≡ length self.now }
    {
        self.cells.len() as u32
    }

    /// Returns the slot of the cell at an address. Returns `None` if it is in no block, or past the last cell.
    #[inline(always)]
    pub(crate) fn slot(&self, a: u32) -> Option<Slot>
        ensures { result ≡ slot_at self.now a }
    {
        let at = a as usize;
        if at >= self.cells.len() {
            return None;
        }
        let unit = unit_of(self.units.as_slice(), at / UNIT);
        if unit.is_own() {
            return self.cells.slot(at);
        }
        unit.slot()
    }

    /// Returns the cell at an address, as `slot` does. The cell has its own record afterwards.
    #[inline(always)]
    pub(crate) fn slot_to_write(&mut self, a: u32) -> Option<Slot>
        ensures slot { result ≡ slot_at self.old a }
        ensures same { self.new ≡ self.old }
    {
        let at = a as usize;
        if at >= self.cells.len() {
            return None;
        }
        own_slot(self.units.as_mut_slice(), &mut self.cells, at)
    }

    /// Returns the base of the block at an address.
    pub(crate) fn base(&self, a: u32) -> u32
        requires { IsSome (slot_at self.now a) }
        ensures { result ≡ base_in (slot_at self.now a) }
    {
        let at = a as usize;
        match unit_of(self.units.as_slice(), at / UNIT) {
            Unit::Each => self.cells.base(at),
            Unit::Free => 0,
            Unit::BlockI(extent) => extent.base,
            Unit::BlockM(extent) => extent.base,
        }
    }

    /// Puts another content into the cell at an address in a block. Returns whether requests waited for it before.
    #[inline(always)]
    pub(crate) fn set(&mut self, a: u32, cell: Cell) -> bool
        requires { IsSome (slot_at self.old a) }
        ensures set { self.new ≡ slice_set self.old a (with_cell cell (slot_at self.old a)) }
        ensures waited { result ≡ is_waiting_slot (slot_at self.old a) }
    {
        let at = a as usize;
        if unit_of(self.units.as_slice(), at / UNIT).is_own() {
            return self.cells.set(at, cell);
        }
        set_among_same(self.units.as_mut_slice(), &mut self.cells, at, cell)
    }

    /// Makes `n` cells from `base` on what `unit` stands for.
    pub(crate) fn fill(&mut self, base: u32, n: u32, unit: Unit)
        requires inside { base + n ≤ length self.old }
        requires unit { is_own unit ≡ false }
        ensures { self.new ≡ fill self.old base n (common_slot unit) }
    {
        let base = base as usize;
        let end = base + n as usize;
        fill_shown(self.units.as_mut_slice(), &mut self.cells, base, end, unit);
    }
}
