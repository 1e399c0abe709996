//! What one line of an element asks for.

use im_types::Op;

/// What a line of an element asks for.
#[derive(Clone, Copy, Debug, PartialEq, Eq)]
pub enum Intent {
    /// An operation, under the element's next number.
    Request(Op),
    /// The value of the cell at an address, if it is a full I cell. It has no number, leaves nothing in the memory,
    /// and waits for nobody.
    Glance(u32),
}
