//! Images of the first version of the layout, which the product never writes.

use im_types::Limits;
use im_types::layout::{CELL_RECORD, OPEN, PAGE, Version, cell_bytes};
use std::alloc::{AllocError, Global};

// Puts bytes among others, as far as there are so many.
fn put(bytes: &mut [u8], at: usize, part: &[u8]) {
    for (place, byte) in bytes.iter_mut().skip(at).zip(part) {
        *place = *byte;
    }
}

/// Returns the bytes of a new image of the first version. Header 0 is in force at generation 1 with count 0, the empty
/// memory is in area 0, and the rest are zeros. Its free nodes are all zeros, and each of its holes leads nowhere.
pub fn old_image(alloc: Global, limits: Limits) -> Result<Vec<u8>, AllocError> {
    let old = Version::One;
    let mut bytes = vec![in alloc; 0; old.image_length(limits)]?;
    put(&mut bytes, 0, &[OPEN, 0, 1, 0, 0x49, 0x4D, 0x45, 0x4D, 1]);
    put(&mut bytes, 24, &limits.cells.to_le_bytes());
    put(&mut bytes, 28, &limits.elements.to_le_bytes());
    put(&mut bytes, 32, &limits.slots.to_le_bytes());
    let area = old.area_at(limits, 0);
    for cell in 0..limits.cells as usize {
        put(&mut bytes, area + CELL_RECORD * cell + 8, &[0xFF; 12]);
    }
    let windows = area + cell_bytes(limits) + PAGE * old.node_pages(limits);
    for element in 0..limits.elements as usize {
        put(&mut bytes, windows + old.session_record() * element, &[1]);
    }
    Ok(bytes)
}
