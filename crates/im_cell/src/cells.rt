//! The records of the cells, one for each cell.
ghost use Rattle.std.specs.Prelude.{◌≡◌, ◌-◌, ◌<◌, ◌≤◌, true, false, length, IsSome, slice_set, None};
ghost use Rattle.im_types.specs.Types.{fill};
ghost use Rattle.im_cell.specs.{Cells.IsFilled, Cells.slots_in, Table.base_in, Units.common_slot};
ghost use Rattle.im_cell.specs.Slots.{is_waiting_slot, slot_at, with_cell};

use crate::slots::Slot;
use crate::state::{Extent, NOWHERE, State, state_of, value_in};
use crate::unit::Unit;
use im_types::Cell;
use std::marker::Model;

/// Three numbers for each cell, in separate lists. They take 17 bytes for each cell. Contracts see the slots.
#[derive(Drop)]
pub(crate) struct Cells {
    states: Vec<State>,
    values: Vec<u64>,
    extents: Vec<Extent>,
}

impl Model for Cells {
    ghost use Rattle.std.specs.Prelude.{◌≡◌, List, length, Option};
    ghost use Rattle.im_cell.specs.{Cells.slots_in, declared.slots.Slot.Slot};

    ghost Value = { List (Option Slot) };

    ghost view = { λ c. slots_in c.states.items c.values.items c.extents.items };

    ghost invariant = { λ c. (length c.values.items ≡ length c.states.items)
        × (length c.extents.items ≡ length c.states.items) };
}

// Sets the states `from` to `to - 1` to one state.
fn fill_states(states: &mut [State], from: usize, to: usize, state: State)
    requires { to ≤ length states.old }
    ensures { IsFilled State.Free states.old states.new from to state }
{
    for k in from..to {
        states[k] = state;
    }
}

// Sets the extents `from` to `to - 1` to one extent.
fn fill_extents(extents: &mut [Extent], from: usize, to: usize, extent: Extent)
    requires { to ≤ length extents.old }
    ensures { IsFilled NOWHERE extents.old extents.new from to extent }
{
    for k in from..to {
        extents[k] = extent;
    }
}

impl Cells {
    /// Makes the cells of these lists, which have the same length.
    pub(crate) fn over(states: Vec<State>, values: Vec<u64>, extents: Vec<Extent>) -> Cells
        requires values { length values.items ≡ length states.items }
        requires extents { length extents.items ≡ length states.items }
        ensures { result ≡ slots_in states.items values.items extents.items }
    {
        Cells {
            states,
            values,
            extents,
        }
    }

    /// Returns the number of cells.
    #[inline(always)]
    pub(crate) fn len(&self) -> usize
        ensures { result ≡ length self.now }
    {
        self.states.len()
    }

    /// Returns the slot of a cell, or `None` if it is free.
    #[inline(always)]
    pub(crate) fn slot(&self, at: usize) -> Option<Slot>
        requires { at < length self.now }
        ensures { result ≡ slot_at self.now at }
    {
        self.states[at].slot(self.values[at], self.extents[at])
    }

    /// Returns whether there is a free cell at a place.
    #[inline(always)]
    pub(crate) fn is_free(&self, at: usize) -> bool
        ensures inside { result ≡ true → at < length self.now }
        ensures free { result ≡ true → slot_at self.now at ≡ None }
        ensures held { result ≡ false → at < length self.now → IsSome (slot_at self.now at) }
    {
        if at >= self.states.len() {
            return false;
        }
        self.states[at].is_free()
    }

    /// Returns whether requests wait for a cell.
    #[inline(always)]
    pub(crate) fn is_waiting(&self, at: usize) -> bool
        requires { at < length self.now }
        ensures { result ≡ is_waiting_slot (slot_at self.now at) }
    {
        self.states[at].is_waiting()
    }

    /// Returns the base of a cell's block.
    pub(crate) fn base(&self, at: usize) -> u32
        requires { IsSome (slot_at self.now at) }
        ensures { result ≡ base_in (slot_at self.now at) }
    {
        self.extents[at].base
    }

    /// Puts another content into a cell in a block. Returns whether requests waited for it before.
    pub(crate) fn set(&mut self, at: usize, cell: Cell) -> bool
        requires { IsSome (slot_at self.old at) }
        ensures set { self.new ≡ slice_set self.old at (with_cell cell (slot_at self.old at)) }
        ensures waited { result ≡ is_waiting_slot (slot_at self.old at) }
    {
        let state = self.states[at];
        self.states[at] = state_of(state.kind(), cell);
        self.values[at] = value_in(cell);
        state.is_waiting()
    }

    /// Makes the cells `from` to `to - 1` what `unit` stands for.
    pub(crate) fn fill(&mut self, from: usize, to: usize, unit: Unit)
        requires order { from ≤ to }
        requires inside { to ≤ length self.old }
        ensures { self.new ≡ fill self.old from (to - from) (common_slot unit) }
    {
        let (state, extent) = unit.parts();
        fill_states(self.states.as_mut_slice(), from, to, state);
        fill_extents(self.extents.as_mut_slice(), from, to, extent);
    }
}
