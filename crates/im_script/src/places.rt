//! Where the requests of a script act.
ghost use Rattle.std.specs.Prelude.{◌≡◌};
ghost use Rattle.im_script.specs.Places.{action_op, place_address};

use im_types::{Kind, Op};

/// Where a line of a script acts. The place is known at once, or once the setup is served.
#[derive(Clone, Copy, Debug, PartialEq, Eq)]
pub enum Place {
    /// This address.
    Address(u32),
    /// The given number of cells past the base of a setup allocation.
    Named {
        /// The index of the setup allocation, from 0.
        index: usize,
        /// The number of cells, up to 1,048,575.
        offset: u32,
    },
}

impl Place {
    /// Returns the address; `bases` has the base of each setup allocation, in order. Returns `None` if `bases` has none
    /// for this name, or if the sum doesn't fit.
    pub fn address(&self, bases: &[u32]) -> Option<u32>
        ensures { result ≡ place_address bases.now self.now }
    {
        match *self {
            Place::Address(address) => Some(address),
            Place::Named { index, offset } => bases.get(index)?.checked_add(offset),
        }
    }
}

/// The operation that a line asks for. Its place may still be a name.
#[derive(Clone, Copy, Debug, PartialEq, Eq)]
pub enum Action {
    /// Makes a block with the given number of cells.
    Alloc(Kind, u32),
    /// Gives back the block with this base.
    Release(Place),
    /// Empties the cells of the block with this base.
    Reset(Place),
    /// Reads an I cell.
    Fetch(Place),
    /// Writes an I cell.
    Store(Place, u64),
    /// Empties an M cell.
    Take(Place),
    /// Fills an M cell.
    Put(Place, u64),
}

impl Action {
    /// Returns the operation; `bases` has the base of each setup allocation, in order. Returns `None` if its place has
    /// no address there.
    pub fn op(&self, bases: &[u32]) -> Option<Op>
        ensures { result ≡ action_op bases.now self.now }
    {
        Some(match *self {
            Action::Alloc(kind, length) => Op::Alloc(kind, length),
            Action::Release(place) => Op::Release(place.address(bases)?),
            Action::Reset(place) => Op::Reset(place.address(bases)?),
            Action::Fetch(place) => Op::Fetch(place.address(bases)?),
            Action::Store(place, value) => Op::Store(place.address(bases)?, value),
            Action::Take(place) => Op::Take(place.address(bases)?),
            Action::Put(place, value) => Op::Put(place.address(bases)?, value),
        })
    }
}
