//! Why an image can't be copied with other sizes.

use crate::asked::Asked;
use im_types::{MAX_CELLS, MAX_ELEMENTS, MAX_SLOTS, MIN_SLOTS};
use std::fmt;
use std::fmt::{Display, Formatter};

/// Why an image can't be copied with the sizes that are asked for. Its text is for a person.
#[derive(Clone, Copy, Debug, PartialEq, Eq)]
pub enum Misfit {
    /// A number of cells, elements or slots is out of its range. It has the sizes that were asked for.
    Range(Asked),
    /// A block lies past the last cell. The blocks need this number of cells.
    Cells(u32),
    /// An element past the last one has sent requests. The elements that have sent any need this number of them.
    Elements(u16),
}

// Adds the first size that is out of its range. A size that wasn't asked for is in its range.
fn add_range<W: fmt::Write>(f: &mut Formatter<W>, asked: Asked) -> fmt::Result {
    let cells = asked.cells.unwrap_or(1);
    let elements = asked.elements.unwrap_or(1);
    let slots = asked.slots.unwrap_or(MIN_SLOTS);
    if cells == 0 || cells > MAX_CELLS {
        write!(f, "{cells} cells: there may be 1 to {MAX_CELLS}")
    } else if elements == 0 || elements > MAX_ELEMENTS as u32 {
        write!(f, "{elements} elements: there may be 1 to {MAX_ELEMENTS}")
    } else {
        write!(f, "{slots} slots: there may be {MIN_SLOTS} to {MAX_SLOTS}")
    }
}

impl Display for Misfit {
    fn fmt<W: fmt::Write>(&self, f: &mut Formatter<W>) -> fmt::Result {
        match *self {
            Misfit::Range(asked) => add_range(f, asked),
            Misfit::Cells(needed) => write!(f, "its blocks need at least {needed} cells"),
            Misfit::Elements(needed) => {
                let last = needed.saturating_sub(1);
                write!(
                    f,
                    "element {last} has sent requests: it needs at least {needed} elements"
                )
            }
        }
    }
}
