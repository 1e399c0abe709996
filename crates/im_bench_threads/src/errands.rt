//! What elements ask for through their ports.

use crate::stores::store;
use im_types::{Kind, Op};

/// What the elements ask for.
#[derive(Clone, Copy)]
pub enum Load {
    /// One element stores.
    Port,
    /// Sixteen elements store at once.
    Ports,
    /// Sixteen elements put a value into a cell of their own and take it out, again and again.
    Endless,
}

/// The requests of an element.
#[derive(Clone, Copy)]
pub struct Errand {
    /// The element.
    pub element: u16,
    /// How many there are.
    pub count: u32,
    /// What they are.
    pub load: Load,
}

/// Returns the kind of the block in which the cells lie.
pub fn kind_of(load: Load) -> Kind {
    match load {
        Load::Port | Load::Ports => Kind::I,
        Load::Endless => Kind::M,
    }
}

/// Returns the operation with an index.
pub fn op(errand: Errand, index: u32) -> Op {
    match errand.load {
        Load::Port | Load::Ports => store(errand.element, index, errand.count),
        Load::Endless => swing(u32::from(errand.element), index),
    }
}

// Puts the index into a cell, or takes out what was put before it.
fn swing(a: u32, index: u32) -> Op {
    if index % 2 == 0 {
        Op::Put(a, u64::from(index))
    } else {
        Op::Take(a)
    }
}
