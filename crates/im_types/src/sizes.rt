//! The sizes of a memory and of its journal.
ghost use Rattle.std.specs.Prelude.{◌≡◌, ◌≤◌, ◌↔◌, IfSome, IsSome};
ghost use Rattle.im_types.specs.Sizes.{AreLimits};

use crate::{MAX_CELLS, MAX_ELEMENTS, MAX_SLOTS, MIN_SLOTS};

/// The numbers of cells, elements and journal slots, each within its range.
#[derive(Clone, Copy, Debug, PartialEq, Eq)]
pub struct Limits {
    /// The number of cells, 1 to 1,048,576. They are numbered from 0.
    pub cells: u32,
    /// The number of processing elements, 1 to 64. They are numbered from 0.
    pub elements: u16,
    /// The number of journal slots, 16 to 4,096.
    pub slots: u32,
    pub ghost in_range: { AreLimits cells elements slots },
}

impl Limits {
    /// Returns these limits, or `None` if and only if a number is out of its range.
    pub fn new(cells: u32, elements: u16, slots: u32) -> Option<Limits>
        ensures found { IsSome result ↔ AreLimits cells elements slots }
        ensures limits { IfSome result (λ l. (l.cells ≡ cells) × (l.elements ≡ elements) × (l.slots ≡ slots)) }
    {
        if (1..=MAX_CELLS).contains(&cells)
            && (1..=MAX_ELEMENTS).contains(&elements)
            && (MIN_SLOTS..=MAX_SLOTS).contains(&slots)
        {
            Some(Limits {
                cells,
                elements,
                slots,
            })
        } else {
            None
        }
    }
}
