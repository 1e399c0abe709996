//! Finds the place of an image's damage, by reads of the disk alone. Who reports a refused image calls it. That an
//! image is refused, and why, is proved where it is read. The place is only tested.
ghost use Rattle.im_disk.specs.Runs.{ReadsAlone};

use crate::areas::{of_area, of_ring};
use crate::damage::Damage;
use crate::headers::{are_unmade, in_force, of_headers};
use crate::slots::{Older, has_open_gate, older_slot};
use im_disk::Disk;
use im_image::{Header, PAGE, Versions, read_header};
use im_types::layout::SLOT;
use im_types::{MAX_SLOTS, Refusal};
use std::alloc::Global;

// Reads a part of a file, if the file has it and it can be read.
fn read_part<D: Disk>(alloc: Global, disk: &mut D, at: usize, len: usize) -> Option<Vec<u8>>
    ensures reads { ReadsAlone D.Disk disk.old disk.new }
{
    let Ok(length) = disk.len() else {
        return None;
    };
    if at > length || len > length - at {
        return None;
    }
    let Ok(mut part) = vec![in alloc; 0; len] else {
        return None;
    };
    // A read changes nothing, so a stop before or within it leaves what was there.
    match disk.read(at, &mut part) {
        Ok(()) => Some(part),
        Err(_) => None,
    }
}

// The bytes of the two headers.
#[derive(Drop)]
struct HeaderBytes {
    zero: [u8; 64],
    one: [u8; 64],
}

// Reads the places of the two headers, if the file has them.
fn read_headers<D: Disk>(alloc: Global, disk: &mut D) -> Option<HeaderBytes>
    ensures reads { ReadsAlone D.Disk disk.old disk.new }
{
    let Some(zero) = read_part(alloc, disk, 0, 64) else {
        return None;
    };
    let Some(one) = read_part(alloc, disk, PAGE, 64) else {
        return None;
    };
    Some(HeaderBytes {
        zero: *zero.as_array::<64>()?,
        one: *one.as_array::<64>()?,
    })
}

// What is wrong with the length of a file.
fn of_length<D: Disk>(alloc: Global, disk: &mut D) -> Damage
    ensures reads { ReadsAlone D.Disk disk.old disk.new }
{
    let Ok(found) = disk.len() else {
        return Damage::Unknown;
    };
    match read_headers(alloc, disk) {
        Some(headers) => length_by(&headers, found),
        None => Damage::Short(found),
    }
}

// The damage of a file whose length isn't the one that its header in force wants.
fn length_by(headers: &HeaderBytes, found: usize) -> Damage {
    let header = if in_force(&headers.zero, &headers.one) == 1 {
        Header::read(&headers.one, 1)
    } else {
        Header::read(&headers.zero, 0)
    };
    match header {
        Some(header) => Damage::Length(found, header.layout().image_length(header.limits)),
        None => Damage::Unknown,
    }
}

// What is wrong with the headers of a file.
fn of_places<D: Disk>(alloc: Global, disk: &mut D) -> Damage
    ensures reads { ReadsAlone D.Disk disk.old disk.new }
{
    match read_headers(alloc, disk) {
        Some(headers) => of_headers(&headers.zero, &headers.one),
        None => Damage::Unknown,
    }
}

// Reads the last bytes of a file, as many as the longest journal has, behind the places of the headers.
fn read_tail<D: Disk>(alloc: Global, disk: &mut D) -> Option<Vec<u8>>
    ensures reads { ReadsAlone D.Disk disk.old disk.new }
{
    let Ok(length) = disk.len() else {
        return None;
    };
    let most = length.saturating_sub(2 * PAGE) / SLOT;
    let size = SLOT * most.min(MAX_SLOTS as usize);
    read_part(alloc, disk, length.saturating_sub(size), size)
}

// The damage of a file with neither header open. It looks for slots at the end, because no header says how many there
// are.
fn of_closed<D: Disk>(alloc: Global, disk: &mut D) -> Damage
    ensures reads { ReadsAlone D.Disk disk.old disk.new }
{
    let Some(headers) = read_headers(alloc, disk) else {
        return Damage::Unknown;
    };
    match read_tail(alloc, disk) {
        Some(tail) => {
            if are_unmade(&headers.zero, &headers.one) && !has_open_gate(tail.as_slice()) {
                Damage::Unmade
            } else {
                Damage::Closed
            }
        }
        None => Damage::Unknown,
    }
}

// Reads the area of a header.
fn read_pages<D: Disk>(alloc: Global, disk: &mut D, header: &Header) -> Option<Vec<u8>>
    ensures reads { ReadsAlone D.Disk disk.old disk.new }
{
    let (version, limits) = (header.layout(), header.limits);
    let at = if header.area == 1 {
        version.area_at(limits, 1)
    } else {
        version.area_at(limits, 0)
    };
    read_part(alloc, disk, at, PAGE * version.area_pages(limits))
}

// What is wrong with the pages of the area in force.
fn of_pages<D: Disk>(alloc: Global, disk: &mut D) -> Damage
    ensures reads { ReadsAlone D.Disk disk.old disk.new }
{
    let Ok(header) = read_header(disk, Versions::Any) else {
        return Damage::Unknown;
    };
    match read_pages(alloc, disk, &header) {
        Some(area) => of_area(alloc, header.layout(), area.as_slice(), header.limits),
        None => Damage::Unknown,
    }
}

// What is wrong with the journal behind the area in force.
fn of_slots<D: Disk>(alloc: Global, disk: &mut D) -> Damage
    ensures reads { ReadsAlone D.Disk disk.old disk.new }
{
    let Ok(header) = read_header(disk, Versions::Any) else {
        return Damage::Unknown;
    };
    let Some(area) = read_pages(alloc, disk, &header) else {
        return Damage::Unknown;
    };
    let limits = header.limits;
    match read_part(
        alloc,
        disk,
        header.layout().journal_at(limits),
        SLOT * limits.slots as usize,
    ) {
        Some(ring) => of_ring(alloc, area.as_slice(), ring.as_slice(), &header),
        None => Damage::Unknown,
    }
}

// Reads the slots of a journal.
fn read_ring<D: Disk>(alloc: Global, disk: &mut D, header: &Header) -> Option<Vec<u8>>
    ensures reads { ReadsAlone D.Disk disk.old disk.new }
{
    let limits = header.limits;
    read_part(
        alloc,
        disk,
        header.layout().journal_at(limits),
        SLOT * limits.slots as usize,
    )
}

/// Finds a slot outside the run that stands open, with a command so old that the ring can't hold it any longer. The
/// image was opened or inspected before. Returns `None` if there is no such slot, a call of the disk fails, or `alloc`
/// refuses the room.
pub fn find_older<D: Disk>(alloc: Global, disk: &mut D) -> Option<Older>
    ensures reads { ReadsAlone D.Disk disk.old disk.new }
{
    let Ok(header) = read_header(disk, Versions::Any) else {
        return None;
    };
    match read_ring(alloc, disk, &header) {
        Some(ring) => older_slot(ring.as_slice(), header.limits.slots, header.count),
        None => None,
    }
}

/// Finds where an image is damaged that was refused with this refusal, by reading it again. Returns `Unknown` if a call
/// of the disk fails, `alloc` refuses the room, or no place is found.
pub fn find_damage<D: Disk>(alloc: Global, disk: &mut D, refusal: Refusal) -> Damage
    ensures reads { ReadsAlone D.Disk disk.old disk.new }
{
    match refusal {
        Refusal::WrongLength => of_length(alloc, disk),
        Refusal::NoHeader => of_closed(alloc, disk),
        Refusal::BadHeader => of_places(alloc, disk),
        Refusal::BadPage => of_pages(alloc, disk),
        Refusal::BadRecord => of_slots(alloc, disk),
        _ => Damage::Unknown,
    }
}
