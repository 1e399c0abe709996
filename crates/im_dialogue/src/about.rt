//! What a dialogue says about an image as a whole.

/// The answer to `about`: what an image is, and how far it has come.
#[derive(Clone, Copy, Debug, PartialEq, Eq)]
pub struct About {
    /// The version of its layout.
    pub version: u16,
    /// How many cells it has.
    pub cells: u32,
    /// How many elements it has.
    pub elements: u16,
    /// How many slots its journal has.
    pub slots: u32,
    /// How many commands were accepted since it was formatted.
    pub count: u64,
    /// How many more commands its journal has room for.
    pub room: u32,
}
