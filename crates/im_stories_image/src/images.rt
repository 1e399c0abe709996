//! Calls on an image.

use crate::blind::StoryDisk;
use crate::desk::{ImageDesk, disk_of};
use crate::disks::add_passed;
use crate::memories::area_of;
use im_disk::Disk;
use im_image::{
    Header, PAGE, Report, VERSION, Versions, area_at, inspect, read_header, read_image,
};
use im_memory::Memory;
use im_story::{Phrase, Saying};
use im_types::layout::Version;
use im_types::{Limits, Refusal};
use std::alloc::Global;

/// Tells the layout of an image of these sizes.
pub fn tell_layout(version: Version, limits: Limits, said: &mut Saying) {
    let (pages, at) = (version.area_pages(limits), version.journal_at(limits));
    let length = version.image_length(limits);
    write!(said, "{pages} pages, journal at {at}, {length} bytes")
}

/// Puts an image on a disk of its own. Tells how long it is.
pub fn lay(here: &mut ImageDesk, alloc: Global, image: Option<Vec<u8>>, said: &mut Saying) {
    said.given(image, "no memory is left", |image, said| {
        here.lay(alloc, &image, image.len(), said)
    })
}

fn add_header(said: &mut Saying, it: Header) {
    let (area, generation, count) = (it.area, it.generation, it.count);
    let (cells, elements, slots) = (it.limits.cells, it.limits.elements, it.limits.slots);
    write!(said, "version {}, area {area}", it.version);
    write!(said, ", generation {generation}, count {count}");
    write!(said, ", sizes {cells} {elements} {slots}")
}

// Tells the header that stands behind the gate of an area's place.
fn tell_header(disk: &mut StoryDisk, area: u8, said: &mut Saying) {
    let mut bytes = [0; 64];
    said.so(disk.read(PAGE * area as usize, &mut bytes).is_ok(), "");
    match Header::read(&bytes, area) {
        Some(header) => add_header(said, header),
        None => said.text("none"),
    }
}

// Spells a header in its place: an area, a generation, a count and sizes.
fn put_header(disk: &mut StoryDisk, area: u8, call: &Phrase, said: &mut Saying) {
    let Some(limits) = call.limits(3) else {
        return said.fail("there are no such sizes");
    };
    let header = Header {
        version: VERSION,
        area,
        generation: call.number(1),
        count: call.number(2),
        limits,
    };
    add_passed(said, disk.write_at(PAGE * area as usize, &header.spell()))
}

// Reports an image, or what it means to one who opens it.
fn report(disk: &mut StoryDisk, call: &Phrase) -> Result<Report, Refusal> {
    if call.form() == "inspect" {
        return inspect(call.alloc(), disk);
    }
    let image = read_image(call.alloc(), disk, Versions::InUse)?;
    Ok(Report {
        header: image.header,
        run: image.journal.count().saturating_sub(image.header.count),
        room: image.journal.room(),
        memory: image.memory,
    })
}

// Tells what an image means. From then on the story is about its memory.
fn tell_meaning(report: Report, memory: &mut Option<Memory>, said: &mut Saying) {
    let (generation, count) = (report.header.generation, report.header.count);
    write!(said, "generation {generation}, count {count}");
    write!(said, ", run {}, room {}", report.run, report.room);
    *memory = Some(report.memory);
}

// Puts the pages of the memory into an area.
fn put_pages(here: &mut ImageDesk, call: &Phrase, said: &mut Saying) {
    let (Some(disk), Some(memory), Some(limits)) = (&mut here.disk, &here.memory, here.limits)
    else {
        return said.fail("there is no disk or no memory");
    };
    let (area, pages) = (call.place(0), area_of(call.alloc(), memory, limits));
    match pages {
        Some(pages) if area < 2 => {
            add_passed(said, disk.write_at(area_at(limits, area), &pages))
        }
        _ => said.fail("a memory of other sizes, or no such area"),
    }
}

// Tells that an image is told, or why it is refused.
fn look(disk: &mut StoryDisk, said: &mut Saying) {
    match inspect(said.alloc(), disk) {
        Ok(_) => said.text("told"),
        Err(refusal) => write!(said, "{refusal}"),
    }
}

// Tells that for each value of a byte.
fn tell_values(disk: &mut StoryDisk, at: usize, said: &mut Saying) {
    let mut old = [0];
    said.so(disk.read(at, &mut old).is_ok(), "");
    said.each(0..=255, |value, one| {
        one.so(disk.write_at(at, &[(value & 0xff) as u8]).is_ok(), "");
        look(disk, one)
    });
    said.so(disk.write_at(at, &old).is_ok(), "")
}

// Tells that for an image of each length.
fn tell_lengths(here: &mut ImageDesk, upto: u64, said: &mut Saying) {
    let Some(disk) = here.take() else {
        return said.fail("there is no disk");
    };
    said.each(0..=upto, |length, one| {
        let cut = disk_of(one.alloc(), disk.bytes(), length as usize);
        one.result(cut, |cut, one| look(&mut StoryDisk::steady(cut), one))
    });
    here.disk = Some(StoryDisk::steady(disk));
}

/// Makes a call on the image. Returns whether it is one.
pub fn tell(here: &mut ImageDesk, call: &Phrase, said: &mut Saying) -> bool {
    let area = u8::try_from(call.number(0)).unwrap_or(u8::MAX);
    match (call.form(), &mut here.disk) {
        ("cut _", _) => said.given(here.take(), "there is no disk", |old, said| {
            here.lay(call.alloc(), old.bytes(), call.place(0), said)
        }),
        ("encode _", _) => put_pages(here, call, said),
        ("lengths to _", _) => tell_lengths(here, call.number(0), said),
        ("inspect" | "to open", Some(disk)) => said.result(report(disk, call), |report, said| {
            tell_meaning(report, &mut here.memory, said)
        }),
        ("in force", Some(disk)) => said.result(read_header(disk, Versions::Any), |header, said| {
            add_header(said, header)
        }),
        ("header at _", Some(disk)) => tell_header(disk, area, said),
        ("header _ _ _ _ _ _", Some(disk)) => put_header(disk, area, call, said),
        ("values _", Some(disk)) => tell_values(disk, call.place(0), said),
        ("values _ to _", Some(disk)) => said.alike(call.number(0)..=call.number(1), |at, one| {
            tell_values(disk, at as usize, one)
        }),
        _ => return false,
    }
    true
}
