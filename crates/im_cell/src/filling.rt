//! Cells that are made alike: whole units at once, and cell by cell in a unit that is cut.
ghost use Rattle.std.specs.Prelude.{◌≡◌, ℕ, ◌-◌, ◌*◌, ◌/◌, ◌%◌, ◌^◌, ◌<◌, ◌≤◌, false, ◌≢◌, length, IsSome, slice_set};
ghost use Rattle.im_types.specs.Types.{fill};
ghost use Rattle.im_cell.specs.{Cells.IsFilled, Slots.is_waiting_slot, Slots.slot_at, Slots.with_cell};
ghost use Rattle.im_cell.specs.Units.{common_slot, is_own, shown_units, unit_at};

use crate::cells::Cells;
use crate::slots::Slot;
use crate::unit::{UNIT, Unit};
use im_types::Cell;

/// Returns what stands for the cells of a unit.
pub(crate) fn unit_of(units: &[Unit], j: usize) -> Unit
    requires { j < length units.now }
    ensures { result ≡ unit_at units.now j }
{
    units[j]
}

// Gives each cell of a unit a record of its own, with what stood for the unit.
#[inline(never)]
fn write_out(units: &mut [Unit], cells: &mut Cells, at: usize)
    requires inside { at < length units.old }
    requires few { length units.old < 2 ^ 32 }
    ensures own { unit_at units.new at ≡ Unit.Each }
    ensures others { (j : ℕ) → j ≢ at → unit_at units.new j ≡ unit_at units.old j }
    ensures same { shown_units units.new cells.new ≡ shown_units units.old cells.old }
{
    let unit = unit_of(units, at);
    if unit.is_own() {
        return;
    }
    let from = (at * UNIT).min(cells.len());
    let to = (at * UNIT + UNIT).min(cells.len());
    cells.fill(from, to, unit);
    units[at] = Unit::Each;
}

// Does the same with the unit that a bound cuts, if it cuts one.
fn write_out_cut(units: &mut [Unit], cells: &mut Cells, bound: usize)
    requires inside { bound ≤ length cells.old }
    requires room { length cells.old ≤ UNIT * length units.old }
    requires few { length units.old < 2 ^ 32 }
    ensures own { bound % UNIT ≢ 0 → unit_at units.new (bound / UNIT) ≡ Unit.Each }
    ensures others { (j : ℕ) → unit_at units.old j ≡ Unit.Each → unit_at units.new j ≡ Unit.Each }
    ensures same { shown_units units.new cells.new ≡ shown_units units.old cells.old }
{
    if bound % UNIT != 0 {
        write_out(units, cells, bound / UNIT);
    }
}

// Sets the units `from` to `to - 1` to one unit.
fn fill_units(units: &mut [Unit], from: usize, to: usize, unit: Unit)
    requires { to ≤ length units.old }
    ensures { IsFilled Unit.Each units.old units.new from to unit }
{
    for k in from..to {
        units[k] = unit;
    }
}

// Makes the cells `base` to `end - 1` what `unit` stands for. A unit that a bound cuts must have a record for each
// cell.
fn fill_uncut(units: &mut [Unit], cells: &mut Cells, base: usize, end: usize, unit: Unit)
    requires order { base ≤ end }
    requires inside { end ≤ length cells.old }
    requires room { length cells.old ≤ UNIT * length units.old }
    requires few { length units.old < 2 ^ 32 }
    requires unit { is_own unit ≡ false }
    requires first { base % UNIT ≢ 0 → unit_at units.old (base / UNIT) ≡ Unit.Each }
    requires last { end % UNIT ≢ 0 → unit_at units.old (end / UNIT) ≡ Unit.Each }
    ensures { shown_units units.new cells.new
        ≡ fill (shown_units units.old cells.old) base (end - base) (common_slot unit) }
{
    let low = ((base + (UNIT - 1)) / UNIT * UNIT).min(end);
    let high = (end / UNIT * UNIT).max(low);
    cells.fill(base, low, unit);
    cells.fill(high, end, unit);
    fill_units(units, low / UNIT, high / UNIT, unit);
}

/// Makes the cells `base` to `end - 1` what `unit` stands for.
pub(crate) fn fill_shown(units: &mut [Unit], cells: &mut Cells, base: usize, end: usize, unit: Unit)
    requires order { base ≤ end }
    requires inside { end ≤ length cells.old }
    requires room { length cells.old ≤ UNIT * length units.old }
    requires few { length units.old < 2 ^ 32 }
    requires unit { is_own unit ≡ false }
    ensures { shown_units units.new cells.new
        ≡ fill (shown_units units.old cells.old) base (end - base) (common_slot unit) }
{
    write_out_cut(units, cells, base);
    write_out_cut(units, cells, end);
    fill_uncut(units, cells, base, end, unit);
}

// Gives each cell of a cell's unit its own record. It takes the cell, so LLVM finds the unit's place once for a call.
#[inline(never)]
fn write_out_around(units: &mut [Unit], cells: &mut Cells, at: usize)
    requires inside { at / UNIT < length units.old }
    requires few { length units.old < 2 ^ 32 }
    ensures own { unit_at units.new (at / UNIT) ≡ Unit.Each }
    ensures same { shown_units units.new cells.new ≡ shown_units units.old cells.old }
{
    write_out(units, cells, at / UNIT);
}

// Gives each cell of the unit of a cell its own record, unless it has one.
fn give_records(units: &mut [Unit], cells: &mut Cells, at: usize)
    requires inside { at / UNIT < length units.old }
    requires few { length units.old < 2 ^ 32 }
    ensures own { unit_at units.new (at / UNIT) ≡ Unit.Each }
    ensures same { shown_units units.new cells.new ≡ shown_units units.old cells.old }
{
    let unit = unit_of(units, at / UNIT);
    if unit.is_own() {
        return;
    }
    write_out_around(units, cells, at);
}

/// Returns the slot of a cell. The cell has its own record afterwards.
#[inline(always)]
pub(crate) fn own_slot(units: &mut [Unit], cells: &mut Cells, at: usize) -> Option<Slot>
    requires inside { at < length cells.old }
    requires room { length cells.old ≤ UNIT * length units.old }
    requires few { length units.old < 2 ^ 32 }
    ensures slot { result ≡ slot_at (shown_units units.old cells.old) at }
    ensures same { shown_units units.new cells.new ≡ shown_units units.old cells.old }
{
    give_records(units, cells, at);
    cells.slot(at)
}

/// Puts another content into a cell of a unit with one record for all. Returns whether requests waited for it before.
#[inline(never)]
pub(crate) fn set_among_same(units: &mut [Unit], cells: &mut Cells, at: usize, cell: Cell) -> bool
    requires inside { at < length cells.old }
    requires room { length cells.old ≤ UNIT * length units.old }
    requires few { length units.old < 2 ^ 32 }
    requires held { IsSome (slot_at (shown_units units.old cells.old) at) }
    ensures set { shown_units units.new cells.new
        ≡ slice_set (shown_units units.old cells.old) at
        (with_cell cell (slot_at (shown_units units.old cells.old) at)) }
    ensures waited { result ≡ is_waiting_slot (slot_at (shown_units units.old cells.old) at) }
{
    write_out(units, cells, at / UNIT);
    cells.set(at, cell)
}
