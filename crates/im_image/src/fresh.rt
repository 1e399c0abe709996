//! The image of an empty memory.
ghost use Rattle.std.specs.Prelude.{◌≡◌, ◌+◌, ◌-◌, ◌*◌, ◌^◌, ◌<◌, ◌≤◌, ◌∷◌, ◌++◌, length, IfOk, IfErr, OnOk};
ghost use Rattle.im_types.specs.Types.{NoMemory, new_window, layout_in_use, sizes_of, area_bytes, zeros, header_body};
ghost use Rattle.im_types.specs.Types.{cell_bytes, node_bytes, session_bytes};
ghost use Rattle.im_image.specs.Fresh.{new_area, new_cell_record, new_header, new_image, new_node_record, new_row};
ghost use Rattle.im_image.specs.Fresh.{repeated};

use crate::header::{Header, VERSION};
use im_types::layout::{
    CELL_RECORD, CLOSED, NODE_RECORD, PAGE, SESSION_RECORD, SLOT, area_pages, cell_pages,
    image_length, node_count, node_pages, session_pages,
};
use im_types::{Limits, Refusal};
use std::alloc::{AllocError, Global};

// The record of a free cell that names no hole.
pub(crate) fn new_cell_record() -> [u8; CELL_RECORD]
    ensures { result ≡ cell_bytes new_cell_record }
{
    let mut bytes = [0; CELL_RECORD];
    bytes[8..20].fill(0xFF);
    bytes
}

// The record of a free node that names no other.
fn new_node_record() -> [u8; NODE_RECORD]
    ensures { result ≡ node_bytes new_node_record }
{
    let mut bytes = [0; NODE_RECORD];
    bytes[0..4].fill(0xFF);
    bytes
}

// The record of a session with no entry.
pub(crate) fn new_session() -> [u8; SESSION_RECORD]
    ensures { result ≡ session_bytes layout_in_use new_window }
{
    let mut bytes = [0; SESSION_RECORD];
    bytes[0] = 1;
    bytes
}

// Appends the bytes `count` times.
#[tactic(auto, using(crate::proofs::Rows::pushes))]
fn push_repeated(image: &mut Vec<u8>, bytes: &[u8], count: usize) -> Result<(), AllocError>
    ensures items { OnOk result (image.new.items ≡ image.old.items ++ repeated count bytes.now) }
    ensures longer { OnOk result (length image.new.items ≡ length image.old.items + length bytes.now * count) }
{
    for _turn in 0..count {
        image.extend_from_slice(bytes)?;
    }
    Ok(())
}

// Appends `count` zeros.
fn push_zeros(image: &mut Vec<u8>, count: usize) -> Result<(), AllocError>
    requires { length image.old.items + count < 2 ^ 63 }
    ensures items { OnOk result (image.new.items ≡ image.old.items ++ zeros count) }
    ensures longer { OnOk result (length image.new.items ≡ length image.old.items + count) }
{
    let length = image.len() + count;
    image.resize(length, 0)
}

// Appends this many pages. They begin with `count` copies of the bytes.
fn push_row(image: &mut Vec<u8>, pages: usize, bytes: &[u8], count: usize) -> Result<(), AllocError>
    requires room { length image.old.items + 4096 * pages < 2 ^ 63 }
    requires fits { length bytes.now * count ≤ 4096 * pages }
    ensures items { OnOk result (image.new.items ≡ image.old.items
        ++ new_row pages (length bytes.now) bytes.now count) }
    ensures longer { OnOk result (length image.new.items ≡ length image.old.items + 4096 * pages) }
{
    push_repeated(image, bytes, count)?;
    push_zeros(image, PAGE * pages - bytes.len() * count)
}

// Appends the pages of a new area.
fn push_area(image: &mut Vec<u8>, limits: Limits) -> Result<(), AllocError>
    requires { length image.old.items < 2 ^ 62 }
    ensures items { OnOk result (image.new.items ≡ image.old.items ++ new_area (sizes_of limits)) }
    ensures longer { OnOk result (length image.new.items
        ≡ length image.old.items + area_bytes layout_in_use (sizes_of limits)) }
{
    push_row(
        image,
        cell_pages(limits),
        &new_cell_record(),
        limits.cells as usize,
    )?;
    push_row(
        image,
        node_pages(limits),
        &new_node_record(),
        node_count(limits),
    )?;
    push_row(
        image,
        session_pages(limits),
        &new_session(),
        limits.elements as usize,
    )
}

// The header of a new image, with its gate closed.
fn new_header(limits: Limits) -> [u8; 64]
    ensures { result ≡ 0 ∷ header_body (new_header (sizes_of limits)) }
{
    let header = Header {
        version: VERSION,
        area: 0,
        generation: 1,
        count: 0,
        limits,
    };
    let mut bytes = header.spell();
    bytes[0] = CLOSED;
    bytes
}

// The bytes of a new image that begins with `first`.
fn lay_out(alloc: Global, first: &[u8], limits: Limits) -> Result<Vec<u8>, AllocError>
    requires { length first.now ≡ 64 }
    ensures { IfOk result (λ image. image.items ≡ first.now ++ zeros (2 * 4096 - 64) ++ new_area (sizes_of limits)
        ++ zeros (area_bytes layout_in_use (sizes_of limits) + 64 * limits.slots)) }
{
    let mut image = Vec::with_capacity(alloc, image_length(limits))?;
    image.extend_from_slice(first)?;
    push_zeros(&mut image, 2 * PAGE - SLOT)?;
    push_area(&mut image, limits)?;
    push_zeros(
        &mut image,
        PAGE * area_pages(limits) + SLOT * limits.slots as usize,
    )?;
    Ok(image)
}

/// Returns the bytes of a new image, except that the gate of its first header is still closed. Area 0 shows the empty
/// memory, at generation 1 and count 0. The second header and every gate of the journal are closed.
///
/// It takes as much memory as the image is long, at most [`LONGEST_IMAGE`](im_types::layout::LONGEST_IMAGE) bytes.
/// Returns `NoMemory` if that is refused.
pub fn new_image(alloc: Global, limits: Limits) -> Result<Vec<u8>, Refusal>
    ensures image { IfOk result (λ image. image.items ≡ new_image 0 (sizes_of limits)) }
    ensures only { IfErr result (λ e. e ≡ NoMemory) }
{
    match lay_out(alloc, &new_header(limits), limits) {
        Ok(image) => Ok(image),
        Err(_) => Err(Refusal::NoMemory),
    }
}
