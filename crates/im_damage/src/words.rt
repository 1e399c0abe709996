//! What is damaged, in words for a person. A reason why an image is refused ends in them.

use crate::damage::{Damage, HeaderField, RecordOf, SlotFault};
use im_image::{PAGE, VERSION};
use im_types::MAX_GROUP;
use std::fmt;
use std::fmt::{Display, Formatter};

const UNMADE: &str =
    "neither header is open: it is no image, or one whose making was never finished";

const CLOSED: &str =
    "neither header is open: it is no image, or one that is damaged or was never finished";

const STRANGERS: &str =
    "the area in force: those who wait at its cells aren't those who wait by its windows";

impl Display for HeaderField {
    fn fmt<W: fmt::Write>(&self, f: &mut Formatter<W>) -> fmt::Result {
        match *self {
            HeaderField::Area(area) => write!(f, "its area is {area}"),
            HeaderField::Version(version) => {
                write!(
                    f,
                    "its version is {version}, where {VERSION} and 1 are read here"
                )
            }
            HeaderField::Letters => write!(f, "the letters IMEM are missing"),
            HeaderField::Generation(generation) => write!(f, "its generation is {generation}"),
            HeaderField::Count(count) => write!(f, "its count is {count}"),
            HeaderField::Limits(cells, elements, slots) => {
                write!(
                    f,
                    "its limits are {cells} cells, {elements} elements, {slots} slots"
                )
            }
            HeaderField::Rest => write!(f, "a byte that has to be 0 isn't"),
        }
    }
}

impl Display for RecordOf {
    fn fmt<W: fmt::Write>(&self, f: &mut Formatter<W>) -> fmt::Result {
        match *self {
            RecordOf::Cell(address) => write!(f, "cell {address}"),
            RecordOf::Node(number) => write!(f, "waiter node {number}"),
            RecordOf::Window(element) => write!(f, "the window of element {element}"),
        }
    }
}

impl Display for SlotFault {
    fn fmt<W: fmt::Write>(&self, f: &mut Formatter<W>) -> fmt::Result {
        match *self {
            SlotFault::Unspelled(sequence) => {
                write!(f, "the bytes of command {sequence} spell none")
            }
            SlotFault::Counts(sequence, count) => {
                write!(
                    f,
                    "command {sequence} leads a group of {count}, where there may be 1 to {MAX_GROUP}"
                )
            }
            SlotFault::TooLong(sequence, count) => {
                write!(
                    f,
                    "the group of {count} that command {sequence} leads goes too far"
                )
            }
            SlotFault::NotNext(sequence, found) => {
                write!(
                    f,
                    "command {sequence} follows in a group here, and the slot has command {found}"
                )
            }
            SlotFault::LeadsWithin(sequence, count) => {
                write!(
                    f,
                    "command {sequence} follows in a group here, and the slot leads one of {count}"
                )
            }
            SlotFault::Refused(sequence) => {
                write!(f, "the memory before command {sequence} doesn't accept it")
            }
            SlotFault::NotStale(found, first) => {
                write!(
                    f,
                    "behind the run its command is {found}, which isn't below {first}"
                )
            }
        }
    }
}

// Adds that the file hasn't the length that its header wants.
fn add_length<W: fmt::Write>(f: &mut Formatter<W>, found: usize, wanted: usize) -> fmt::Result {
    write!(f, "it has {found} bytes, where its header wants {wanted}")
}

// Adds that the file is shorter than any image.
fn add_short<W: fmt::Write>(f: &mut Formatter<W>, found: usize) -> fmt::Result {
    let least = 2 * PAGE;
    write!(
        f,
        "it has {found} bytes, where its two headers alone take {least}"
    )
}

// Adds that both headers are open.
fn add_twice<W: fmt::Write>(f: &mut Formatter<W>, generation: u64) -> fmt::Result {
    write!(
        f,
        "headers 0 and 1 are both open with generation {generation}"
    )
}

// Adds which page of the area in force is damaged.
fn add_page<W: fmt::Write>(f: &mut Formatter<W>, page: usize) -> fmt::Result {
    write!(f, "page {page} of the area in force: ")
}

// Adds that a byte behind the records of a page isn't zero.
fn add_padding<W: fmt::Write>(f: &mut Formatter<W>, page: usize) -> fmt::Result {
    add_page(f, page)?;
    f.write_str("a byte behind the last record isn't 0")
}

// Adds that a cell's record doesn't agree with its block.
fn add_blocks<W: fmt::Write>(f: &mut Formatter<W>, page: usize, address: usize) -> fmt::Result {
    add_page(f, page)?;
    write!(f, "cell {address} isn't of the block in which it lies")
}

// Adds that the list of those who wait at a cell leads astray.
fn add_list<W: fmt::Write>(f: &mut Formatter<W>, page: usize, address: usize) -> fmt::Result {
    add_page(f, page)?;
    write!(
        f,
        "the list of those who wait at cell {address} leads astray"
    )
}

// Adds that a record isn't spelled as it should be.
fn add_record<W: fmt::Write>(f: &mut Formatter<W>, page: usize, of: RecordOf) -> fmt::Result {
    add_page(f, page)?;
    write!(f, "the record of {of}")
}

impl Display for Damage {
    fn fmt<W: fmt::Write>(&self, f: &mut Formatter<W>) -> fmt::Result {
        match *self {
            Damage::Unknown => write!(f, "it is damaged"),
            Damage::Length(found, wanted) => add_length(f, found, wanted),
            Damage::Short(found) => add_short(f, found),
            Damage::Twice(generation) => add_twice(f, generation),
            Damage::Unmade => f.write_str(UNMADE),
            Damage::Closed => f.write_str(CLOSED),
            Damage::Header(number, field) => write!(f, "header {number}: {field}"),
            Damage::Record(page, of) => add_record(f, page, of),
            Damage::Padding(page) => add_padding(f, page),
            Damage::Blocks(page, address) => add_blocks(f, page, address),
            Damage::List(page, address) => add_list(f, page, address),
            Damage::Waiters => f.write_str(STRANGERS),
            Damage::Slot(slot, fault) => write!(f, "slot {slot} of the journal: {fault}"),
        }
    }
}
