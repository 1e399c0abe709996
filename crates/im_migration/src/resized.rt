//! What a new file is to be an image of.

use im_image::Header;
use im_memory::Memory;

/// The header and the memory of a new image.
#[derive(Drop)]
pub struct Resized {
    /// The header of the new image.
    pub header: Header,
    /// The memory, in the sizes of the header.
    pub memory: Memory,
}
