//! Where an image may be damaged. Who reports a refused image tells it; [`crate::find_damage`] finds it.

use im_types::{LAST, MAX_GROUP};

/// A field of a header, with its content.
#[derive(Clone, Copy, Debug, PartialEq, Eq)]
pub enum HeaderField {
    /// The area of the header. It has to be the header's own number.
    Area(u8),
    /// The version of the layout.
    Version(u16),
    /// The letters IMEM.
    Letters,
    /// The number of areas written so far, 1 to [`LAST`].
    Generation(u64),
    /// The number of commands that the area holds, 0 to [`LAST`].
    Count(u64),
    /// The numbers of cells, of elements and of slots. One of them is out of its range.
    Limits(u32, u16, u32),
    /// The bytes outside all fields.
    Rest,
}

/// The thing that a record of a page describes.
#[derive(Clone, Copy, Debug, PartialEq, Eq)]
pub enum RecordOf {
    /// The cell at an address.
    Cell(usize),
    /// A waiter node, by its number.
    Node(usize),
    /// The window of an element.
    Window(usize),
}

/// What is wrong with a slot of the journal.
#[derive(Clone, Copy, Debug, PartialEq, Eq)]
pub enum SlotFault {
    /// The command of this number stands here in the run, and the bytes spell none.
    Unspelled(u64),
    /// The command of this number leads a group here. The slot counts this many commands, which isn't 1 to
    /// [`MAX_GROUP`].
    Counts(u64, u8),
    /// The command of this number leads a group here. A group of this many commands goes more than once round the ring,
    /// or past [`LAST`].
    TooLong(u64, u8),
    /// The command of the first number belongs here, within a group. The slot has the second number.
    NotNext(u64, u64),
    /// The command of this number belongs here, within a group. The slot counts this many commands instead of 0.
    LeadsWithin(u64, u8),
    /// The command of this number stands here, and the memory before it doesn't accept it.
    Refused(u64),
    /// The slot lies behind the run and has the first number. Only numbers below the second may stand there.
    NotStale(u64, u64),
}

/// The place where an image is damaged. Its text is for a person.
#[derive(Clone, Copy, Debug, PartialEq, Eq)]
pub enum Damage {
    /// The place wasn't found. Only the refusal says what is wrong.
    Unknown,
    /// The file has the first number of bytes. Its header wants the second.
    Length(usize, usize),
    /// The file has this many bytes, which is shorter than any image.
    Short(usize),
    /// Both headers are open with this same generation.
    Twice(u64),
    /// Neither header is open, and the file has nothing else of a finished image. It is no image, or its making never
    /// ended.
    Unmade,
    /// Neither header is open, and the file has more than an unfinished making leaves.
    Closed,
    /// A field of the header in force. The number is the header's.
    Header(u8, HeaderField),
    /// A record on a page of the area in force isn't spelled as it should be, or leads past the last record. The page
    /// counts from 0 in the area.
    Record(usize, RecordOf),
    /// A byte of this page, behind the last record of a kind, isn't zero.
    Padding(usize),
    /// The record of a cell, on this page, doesn't agree with the block that the cell lies in.
    Blocks(usize, usize),
    /// The list of waiters of a cell, on this page, leads astray.
    List(usize, usize),
    /// The waiters at the cells aren't the waiters of the windows.
    Waiters,
    /// A fault of a slot of the journal.
    Slot(usize, SlotFault),
}
