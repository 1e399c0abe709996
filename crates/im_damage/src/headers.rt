//! What is wrong with the two headers of an image. [`crate::find_damage`] asks it of a file whose length or whose
//! headers are refused. It is only tested.

use crate::damage::{Damage, HeaderField};
use byteorder::{ByteOrder, LittleEndian};
use im_image::VERSION;
use im_types::layout::{OPEN, Version};
use im_types::{LAST, Limits};

// The limits in a header, if they are in range.
fn limits_in(header: &[u8; 64]) -> Option<Limits> {
    Limits::new(
        LittleEndian::read_u32(&header[24..28]),
        LittleEndian::read_u16(&header[28..30]),
        LittleEndian::read_u32(&header[32..36]),
    )
}

// The first faulty field of a header with this number.
fn field_in(header: &[u8; 64], number: u8) -> HeaderField {
    let version = LittleEndian::read_u16(&header[2..4]);
    let generation = LittleEndian::read_u64(&header[8..16]);
    let count = LittleEndian::read_u64(&header[16..24]);
    if &header[4..8] != b"IMEM".as_slice() {
        HeaderField::Letters
    } else if version != VERSION && version != Version::One.number() {
        HeaderField::Version(version)
    } else if header[1] != number {
        HeaderField::Area(header[1])
    } else if generation == 0 || generation > LAST {
        HeaderField::Generation(generation)
    } else if count > LAST {
        HeaderField::Count(count)
    } else if limits_in(header).is_none() {
        let cells = LittleEndian::read_u32(&header[24..28]);
        let elements = LittleEndian::read_u16(&header[28..30]);
        HeaderField::Limits(cells, elements, LittleEndian::read_u32(&header[32..36]))
    } else {
        HeaderField::Rest
    }
}

// The generation of a header, if its gate is open.
fn generation_in(header: &[u8; 64]) -> Option<u64> {
    if header[0] == OPEN {
        Some(LittleEndian::read_u64(&header[8..16]))
    } else {
        None
    }
}

/// Returns the number of the header in force of these two.
pub fn in_force(zero: &[u8; 64], one: &[u8; 64]) -> u8 {
    match (generation_in(zero), generation_in(one)) {
        (Some(first), Some(second)) if first < second => 1,
        (None, Some(_)) => 1,
        _ => 0,
    }
}

/// Returns what is wrong with the header in force of these two.
pub fn of_headers(zero: &[u8; 64], one: &[u8; 64]) -> Damage {
    match (generation_in(zero), generation_in(one)) {
        (Some(first), Some(second)) if first == second => return Damage::Twice(first),
        _ => {}
    }
    let number = in_force(zero, one);
    Damage::Header(
        number,
        field_in(if number == 1 { one } else { zero }, number),
    )
}

// Returns whether the place of a header is empty.
fn is_blank(header: &[u8; 64]) -> bool {
    header.iter().all(|byte| *byte == 0)
}

// Returns whether a closed header 0 is one that a making leaves: empty, or of the first generation without commands.
fn is_first(header: &[u8; 64]) -> bool {
    is_blank(header)
        || LittleEndian::read_u64(&header[8..16]) == 1
            && LittleEndian::read_u64(&header[16..24]) == 0
}

/// Returns whether two closed headers are as an unfinished making leaves them.
pub fn are_unmade(zero: &[u8; 64], one: &[u8; 64]) -> bool {
    is_first(zero) && is_blank(one)
}
