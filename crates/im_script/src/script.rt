//! What a script and its lines are. Who serves a script reads its lines by a [`crate::Reader`], and learns by these
//! types what each of them says.
ghost use Rattle.std.specs.Prelude.{◌≡◌, ℕ, List};

use crate::places::{Action, Place};
use im_types::Kind;
use std::marker::Model;

/// The greatest element number in a script.
pub const LAST_ELEMENT: u64 = 63;

/// A block that the setup makes.
#[derive(Clone, Copy, Debug, PartialEq, Eq)]
pub struct Allocation {
    /// The kind of its cells.
    pub kind: Kind,
    /// The number of its cells.
    pub length: u32,
}

/// A request of a script.
#[derive(Clone, Copy, Debug, PartialEq, Eq)]
pub struct ScriptLine {
    /// The element that asks, 0 to 63.
    pub element: u16,
    /// What it asks for.
    pub action: Action,
}

/// What a line of a script says.
#[derive(Clone, Copy, Debug, PartialEq, Eq)]
pub enum Said {
    /// Nothing to be served: the line is empty, a remark, or the beginning of the setup.
    Nothing,
    /// The setup makes a block. A place refers to it by its index among these blocks.
    Block(Allocation),
    /// A part of this element begins.
    Begins(u16),
    /// A request.
    Asks(ScriptLine),
}

/// What a line says in a script that may have glances.
#[derive(Clone, Copy, Debug, PartialEq, Eq)]
pub enum Heard {
    /// What a line of any script may say.
    Says(Said),
    /// The element reads the cell at this place, and doesn't wait.
    Glances(u16, Place),
}

/// A text that is a script, with or without glances: each of its lines is in the grammar at its place. It borrows the
/// text and stores nothing else.
#[derive(Debug, Drop)]
pub struct Script<'a> {
    pub(crate) text: &'a [u8],
}

impl<'a> Model for Script<'a> {
    ghost Value = { List ℕ };

    ghost view = { λ s. s.text.now };
}

impl<'a> Script<'a> {
    /// Returns the text, so that a [`Reader`] can read its lines.
    pub fn text(&self) -> &'a [u8]
        ensures { result.now ≡ self.now }
    {
        self.text
    }
}

/// Where a line stands in a script.
#[derive(Clone, Copy, Debug, PartialEq, Eq)]
pub enum Stage {
    /// Before all lines that count.
    Start,
    /// In the setup.
    Setup,
    /// In a part of this element.
    Part(u16),
}
